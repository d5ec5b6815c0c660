//! Why sectors could not be read as a seat's.

ghost use Rattle.std.specs.Prelude.{◌≡◌};
ghost use Rattle.seats.specs.declared.fault.SeatFault.TheVariants.{Memory};

use std::alloc::{AllocError, AllocFailed};
use thiserror::Error;

/// Why sectors could not be read as a seat's.
#[derive(Clone, Copy, Debug, PartialEq, Eq, Error)]
pub enum SeatFault {
    /// No place for a seat has these bytes.
    #[error("no seat")]
    NotSeat,
    /// Memory ran out.
    #[error("out of memory")]
    Memory,
}

impl From<AllocError> for SeatFault {
    ghost from_gives = { λ _ e. e ≡ Memory };

    fn from(_e: AllocError) -> SeatFault {
        SeatFault::Memory
    }
}

impl<T: Drop> From<AllocFailed<T>> for SeatFault {
    ghost from_gives = { λ _ e. e ≡ Memory };

    fn from(_e: AllocFailed<T>) -> SeatFault {
        SeatFault::Memory
    }
}
