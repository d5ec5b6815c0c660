//! Why runs could not be read.

ghost use Rattle.std.specs.Prelude.{◌≡◌};
ghost use Rattle.extents.specs.declared.fault.ExtentsFault.TheVariants.{Memory};

use std::alloc::{AllocError, AllocFailed};
use thiserror::Error;

/// Why runs could not be read.
#[derive(Clone, Copy, Debug, PartialEq, Eq, Error)]
pub enum ExtentsFault {
    /// The bytes encode no runs, or the runs are none of a node of this size.
    #[error("no runs")]
    NotRuns,
    /// Memory ran out.
    #[error("out of memory")]
    Memory,
}

impl From<AllocError> for ExtentsFault {
    ghost from_gives = { λ _ e. e ≡ Memory };

    fn from(_e: AllocError) -> ExtentsFault {
        ExtentsFault::Memory
    }
}

impl<T: Drop> From<AllocFailed<T>> for ExtentsFault {
    ghost from_gives = { λ _ e. e ≡ Memory };

    fn from(_e: AllocFailed<T>) -> ExtentsFault {
        ExtentsFault::Memory
    }
}
