//! Why a step is not done.

ghost use Rattle.std.specs.Prelude.{◌≡◌};
ghost use Rattle.compound.specs.declared.fault.Fault.TheVariants as fault;

use std::alloc::{AllocError, AllocFailed};
use thiserror::Error;
use xdr::Refusal;

/// Why a step is not done.
#[derive(Clone, Copy, Debug, PartialEq, Eq, Error)]
pub enum Fault {
    /// No memory.
    #[error("Memory")]
    Memory,
    /// The device failed; the file system is down from then on.
    #[error("Device")]
    Device,
}

impl From<AllocError> for Fault {
    ghost from_gives = { λ _ made. made ≡ fault.Memory };

    fn from(_error: AllocError) -> Fault {
        Fault::Memory
    }
}

impl<T: Drop> From<AllocFailed<T>> for Fault {
    ghost from_gives = { λ _ made. made ≡ fault.Memory };

    fn from(_error: AllocFailed<T>) -> Fault {
        Fault::Memory
    }
}

/// Only of writers, which are refused only for memory.
impl From<Refusal> for Fault {
    ghost from_gives = { λ _ made. made ≡ fault.Memory };

    fn from(_refusal: Refusal) -> Fault {
        Fault::Memory
    }
}
