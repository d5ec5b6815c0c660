//! Why an operation fails.

ghost use Rattle.std.specs.Prelude.{◌≡◌};
ghost use Rattle.model.specs.declared.not_done.NotDone.TheVariants as not_done;

use model_tree::status::Status;
use std::alloc::{AllocError, AllocFailed};
use thiserror::Error;

/// Why an operation fails: what it works on is then unchanged.
#[derive(Clone, Copy, Debug, PartialEq, Eq, Error)]
pub enum NotDone {
    /// What the operation returns.
    #[error("refused")]
    Status(Status),
    /// No memory is left.
    #[error("out of memory")]
    Memory,
}

impl From<Status> for NotDone {
    ghost from_gives = { λ status made. made ≡ not_done.Status status };

    fn from(status: Status) -> NotDone {
        NotDone::Status(status)
    }
}

impl From<AllocError> for NotDone {
    ghost from_gives = { λ _ made. made ≡ not_done.Memory };

    fn from(_error: AllocError) -> NotDone {
        NotDone::Memory
    }
}

impl<T: Drop> From<AllocFailed<T>> for NotDone {
    ghost from_gives = { λ _ made. made ≡ not_done.Memory };

    fn from(_error: AllocFailed<T>) -> NotDone {
        NotDone::Memory
    }
}
