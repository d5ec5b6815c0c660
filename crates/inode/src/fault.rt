//! Why a sector could not be read as a node's.

ghost use Rattle.std.specs.Prelude.{◌≡◌};
ghost use Rattle.inode.specs.declared.fault.InodeFault.TheVariants.{Memory};

use std::alloc::{AllocError, AllocFailed};
use thiserror::Error;

/// Why a sector could not be read as a node's.
#[derive(Clone, Copy, Debug, PartialEq, Eq, Error)]
pub enum InodeFault {
    /// No inode has these bytes.
    #[error("no inode")]
    NotInode,
    /// Memory ran out.
    #[error("out of memory")]
    Memory,
}

impl From<AllocError> for InodeFault {
    ghost from_gives = { λ _ e. e ≡ Memory };

    fn from(_e: AllocError) -> InodeFault {
        InodeFault::Memory
    }
}

impl<T: Drop> From<AllocFailed<T>> for InodeFault {
    ghost from_gives = { λ _ e. e ≡ Memory };

    fn from(_e: AllocFailed<T>) -> InodeFault {
        InodeFault::Memory
    }
}
