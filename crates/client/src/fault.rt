//! Why a call of the client is refused.

ghost use Rattle.std.specs.Prelude.{◌≡◌};

use model_tree::status::Status;
use std::alloc::AllocError;
use wire::Outcome;

/// Why a call of the client is refused.
#[derive(Drop)]
pub enum ClientFault<'a> {
    /// The reader or the writer failed, or ended.
    Io,
    /// The call was denied, or not accepted.
    Rpc,
    /// An operation was refused.
    Status {
        /// Its place in the record.
        index: usize,
        status: Status,
        /// The results of the operations before it.
        before: Vec<Outcome<'a>>,
    },
    /// The bytes are no reply to the record.
    Garbled,
    /// No memory is left, or a record has 2^31 bytes or more.
    Memory,
    /// A record waits for its reply, or there is none; or there is no session yet that the
    /// operations need.
    Pending,
}

impl From<AllocError> for ClientFault<'_> {
    ghost use Rattle.client.specs.declared.fault.ClientFault.TheVariants.{Memory};

    ghost from_gives = { λ _ e. e ≡ Memory };

    fn from(_error: AllocError) -> Self {
        ClientFault::Memory
    }
}
