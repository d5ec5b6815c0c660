//! Why entries could not be read, or a block not be set.

ghost use Rattle.std.specs.Prelude.{◌≡◌};
ghost use Rattle.extent_tree.specs.declared.fault.SetFault.TheVariants as set_fault;
ghost use Rattle.extent_tree.specs.declared.fault.TreeFault.TheVariants.{Memory};

use std::alloc::{AllocError, AllocFailed};
use thiserror::Error;

/// Why entries could not be read.
#[derive(Clone, Copy, Debug, PartialEq, Eq, Error)]
pub enum TreeFault {
    /// The bytes encode no entries of this depth and number of blocks.
    #[error("no entries")]
    NotEntries,
    /// Memory ran out.
    #[error("out of memory")]
    Memory,
}

impl From<AllocError> for TreeFault {
    ghost from_gives = { λ _ e. e ≡ Memory };

    fn from(_e: AllocError) -> TreeFault {
        TreeFault::Memory
    }
}

impl<T: Drop> From<AllocFailed<T>> for TreeFault {
    ghost from_gives = { λ _ e. e ≡ Memory };

    fn from(_e: AllocFailed<T>) -> TreeFault {
        TreeFault::Memory
    }
}

/// Why a block could not get a sector.
#[derive(Clone, Copy, Debug, PartialEq, Eq, Error)]
pub enum SetFault {
    /// The tree needs more index sectors than there are spare ones.
    #[error("too few index sectors")]
    TooFew,
    /// Memory ran out.
    #[error("out of memory")]
    Memory,
}

impl From<AllocError> for SetFault {
    ghost from_gives = { λ _ e. e ≡ set_fault.Memory };

    fn from(_e: AllocError) -> SetFault {
        SetFault::Memory
    }
}

impl<T: Drop> From<AllocFailed<T>> for SetFault {
    ghost from_gives = { λ _ e. e ≡ set_fault.Memory };

    fn from(_e: AllocFailed<T>) -> SetFault {
        SetFault::Memory
    }
}
