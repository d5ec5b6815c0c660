//! How far a COMPOUND has come.

ghost use Rattle.std.specs.Prelude.{◌≡◌, ◌≤◌, []};
ghost use Rattle.compound.specs.declared.progress.TheConstants.{RESULT_BUFFER, RECORD_BUFFER};

use model_tree::status::Status;
use wire::StateId;
use xdr::Writer;

/// The bytes for which each COMPOUND has memory from its beginning: those of its longest result,
/// which a slot keeps in the memory of the operations' results.
pub(crate) const RESULT_BUFFER: usize = 16_384;

/// The bytes of a reply's record before the result of its COMPOUND: the header, the xid, the
/// message type and four words up to the accept status.
pub(crate) const BEFORE_RESULT: usize = 28;

/// Those of the longest reply's record.
pub(crate) const RECORD_BUFFER: usize = RESULT_BUFFER + BEFORE_RESULT;

/// A slot of a session.
#[derive(Clone, Copy, PartialEq, Eq)]
pub(crate) struct SlotId {
    pub session: [u8; 16],
    pub slot: u32,
}

/// A filehandle, and the stateid that goes with it (RFC 8881, section 16.2.3.1.2).
#[derive(Clone, Copy)]
pub(crate) struct HandlePlace {
    /// The number of the node that the filehandle names.
    pub(crate) number: u64,
    pub(crate) state: Option<StateId>,
}

/// How far a COMPOUND has come: what is kept of it from turn to turn, beside its record.
#[derive(Drop)]
pub struct Progress {
    /// The position of the bytes of the next operation, among those of all.
    pub(crate) position: usize,
    /// How many operations have their results.
    pub(crate) answered: u32,
    /// Their bytes, in memory for the whole result.
    pub(crate) results: Writer,
    /// Memory for the reply's record.
    pub(crate) reply: Writer,
    /// The client of the session, 0 before SEQUENCE.
    pub(crate) client: u64,
    /// The restart count of the server.
    pub(crate) run: u32,
    /// The current and the saved filehandle.
    pub(crate) current: Option<HandlePlace>,
    pub(crate) saved: Option<HandlePlace>,
    /// The slot that runs it.
    pub(crate) slot: Option<SlotId>,
    /// Whether an operation of it made a change that has to last.
    pub(crate) altered: bool,
    /// The status of its last result, once that is there and a seat is to hold the reply.
    pub(crate) ended: Option<Status>,
    ghost first: { answered ≡ 0 → results.bytes ≡ [] },
    ghost room: { RESULT_BUFFER ≤ results.capacity },
    ghost reply_fresh: { reply.bytes ≡ [] },
    ghost reply_room: { RECORD_BUFFER ≤ reply.capacity },
}

impl Progress {
    ghost use Rattle.std.specs.Prelude.{◌≡◌};

    /// The memory of its results, which the next COMPOUND may have.
    pub fn into_memory(self) -> Writer
        ensures { result ≡ self.results }
    {
        self.results
    }
}
