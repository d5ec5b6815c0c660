//! Why a name could not be put, or records not be read.

ghost use Rattle.std.specs.Prelude.{◌≡◌};
ghost use Rattle.directory.specs.declared.fault.DirectoryFault.TheVariants as directory;
ghost use Rattle.directory.specs.declared.fault.RecordsFault.TheVariants as records;

use std::alloc::{AllocError, AllocFailed};
use thiserror::Error;

/// Why a name could not be put.
#[derive(Clone, Copy, Debug, PartialEq, Eq, Error)]
pub enum DirectoryFault {
    /// The directory has `Names::MAX_NAMES` names.
    #[error("the directory is full")]
    Full,
    /// Memory ran out.
    #[error("out of memory")]
    Memory,
}

/// Why records could not be read.
#[derive(Clone, Copy, Debug, PartialEq, Eq, Error)]
pub enum RecordsFault {
    /// No `count` records have these bytes.
    #[error("no records")]
    NotRecords,
    /// Memory ran out.
    #[error("out of memory")]
    Memory,
}

impl From<AllocError> for DirectoryFault {
    ghost from_gives = { λ _ e. e ≡ directory.Memory };

    fn from(_e: AllocError) -> DirectoryFault {
        DirectoryFault::Memory
    }
}

impl<T: Drop> From<AllocFailed<T>> for DirectoryFault {
    ghost from_gives = { λ _ e. e ≡ directory.Memory };

    fn from(_e: AllocFailed<T>) -> DirectoryFault {
        DirectoryFault::Memory
    }
}

impl From<AllocError> for RecordsFault {
    ghost from_gives = { λ _ e. e ≡ records.Memory };

    fn from(_e: AllocError) -> RecordsFault {
        RecordsFault::Memory
    }
}

impl<T: Drop> From<AllocFailed<T>> for RecordsFault {
    ghost from_gives = { λ _ e. e ≡ records.Memory };

    fn from(_e: AllocFailed<T>) -> RecordsFault {
        RecordsFault::Memory
    }
}
