//! Why a place could not be taken.

ghost use Rattle.std.specs.Prelude.{◌≡◌};
ghost use Rattle.freemap.specs.declared.fault.TakeFault.TheVariants as take;

use std::alloc::{AllocError, AllocFailed};
use thiserror::Error;

/// No place is free.
#[derive(Clone, Copy, Debug, PartialEq, Eq, Error)]
#[error("no place is free")]
pub struct Full;

/// Why a place of a shared set could not be taken.
#[derive(Clone, Copy, Debug, PartialEq, Eq, Error)]
pub enum TakeFault {
    /// No place is free.
    #[error("no place is free")]
    Full,
    /// Memory ran out.
    #[error("out of memory")]
    Memory,
}

impl From<Full> for TakeFault {
    ghost from_gives = { λ _ e. e ≡ take.Full };

    fn from(_e: Full) -> TakeFault {
        TakeFault::Full
    }
}

impl From<AllocError> for TakeFault {
    ghost from_gives = { λ _ e. e ≡ take.Memory };

    fn from(_e: AllocError) -> TakeFault {
        TakeFault::Memory
    }
}

impl<T: Drop> From<AllocFailed<T>> for TakeFault {
    ghost from_gives = { λ _ e. e ≡ take.Memory };

    fn from(_e: AllocFailed<T>) -> TakeFault {
        TakeFault::Memory
    }
}
