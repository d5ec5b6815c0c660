//! Why an entry could not be inserted.

ghost use Rattle.std.specs.Prelude.{◌≡◌};
ghost use Rattle.chunks.specs.declared.fault.ChunksFault.TheVariants as fault;

use std::alloc::{AllocError, AllocFailed};
use thiserror::Error;

/// Why an entry could not be inserted.
#[derive(Clone, Copy, Debug, PartialEq, Eq, Error)]
pub enum ChunksFault {
    /// The list has `MAX_LEN` entries.
    #[error("the list is full")]
    Full,
    /// Memory ran out.
    #[error("out of memory")]
    Memory,
}

impl From<AllocError> for ChunksFault {
    ghost from_gives = { λ _ e. e ≡ fault.Memory };

    fn from(_e: AllocError) -> ChunksFault {
        ChunksFault::Memory
    }
}

impl<T: Drop> From<AllocFailed<T>> for ChunksFault {
    ghost from_gives = { λ _ e. e ≡ fault.Memory };

    fn from(_e: AllocFailed<T>) -> ChunksFault {
        ChunksFault::Memory
    }
}
