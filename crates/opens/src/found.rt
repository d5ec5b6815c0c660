//! What a stateid means (RFC 8881, section 8.2.4).

ghost use Rattle.std.specs.Prelude.{◌≡◌};
ghost use Rattle.std.specs.Option.{option_map};
ghost use Rattle.model.specs.Operations.Context.{Context};
ghost use Rattle.model_tree.specs.Refusals.Refusal.{first_refusal};
ghost use Rattle.model.specs.Sessions.StateIds.{access_refusals, by_seqid, close_refusals, is_anonymous, is_current, meant, open_stateid};
ghost use Rattle.wire.specs.SmallViews.{state_view};
ghost use Rattle.opens.specs.Views.{found_of, open_of, serial_in, StandsAt};

use crate::access::Access;
use crate::open::Entry;
use bitflags::Flags;
use model_tree::status::Status;
use wire::StateId;

/// The context in which a stateid is used.
#[derive(Clone, Copy)]
pub struct StateIdContext {
    /// The session's client.
    pub client: u64,
    /// The server's restart count.
    pub run: u32,
    /// The current file's node, 0 if there is none.
    pub number: u64,
    /// The current stateid.
    pub state: Option<StateId>,
}

/// What a stateid means in its context.
#[derive(Clone, Copy)]
pub enum Found<'a> {
    /// No open.
    Anonymous,
    /// It may not be used there.
    Refused(Status),
    /// This open.
    Names(&'a Entry),
}

// All zero (section 8.2.3).
pub(crate) fn is_anonymous(state: &StateId) -> bool
    ensures { result ≡ is_anonymous (state_view state.now) }
{
    state.seqid == 0 && state.other == [0; 12]
}

// The current stateid (section 16.2.3.1.2).
fn is_current(state: &StateId) -> bool
    ensures { result ≡ is_current (state_view state.now) }
{
    state.seqid == 1 && state.other == [0; 12]
}

// The stateid of an open: the run in 4 bytes, its serial in 8.
pub(crate) fn state_id(run: u32, serial: u64, seqid: u32) -> StateId
    ensures { state_view result ≡ open_stateid run serial seqid }
{
    let mut other = [0; 12];
    other[..4].copy_from_slice(&run.to_be_bytes());
    other[4..].copy_from_slice(&serial.to_be_bytes());
    StateId { seqid, other }
}

// Seqid 0 means the newest: a lower one is old, a higher one was never given.
pub(crate) fn by_seqid<'a>(state: &StateId, entry: &'a Entry) -> Found<'a>
    ensures { serial_in state.now.other ≡ entry.now.serial
        → found_of result ≡ by_seqid (state_view state.now) (open_of entry.now.state) }
{
    let newest = entry.state.seqid;
    if state.seqid == 0 || state.seqid == newest {
        Found::Names(entry)
    } else if state.seqid < newest {
        Found::Refused(Status::OldStateId)
    } else {
        Found::Refused(Status::BadStateId)
    }
}

impl StateIdContext {
    // The stateid that is meant: for the current one, that of the context.
    pub(crate) fn meant(&self, state: &StateId) -> Option<StateId>
        ensures { (context : Context) → StandsAt self.now context
            → option_map state_view result ≡ meant context (state_view state.now) }
    {
        if is_current(state) {
            self.state
        } else {
            Some(*state)
        }
    }
}

impl Found<'_> {
    /// The error with which READ, WRITE or a set size fails, which needs an open with this access
    /// or none: OPENMODE if the open lacks it.
    pub fn refuse_access(&self, access: Access) -> Option<Status>
        ensures { result ≡ first_refusal (access_refusals access.0 (found_of self.now)) }
    {
        match self {
            Found::Anonymous => None,
            Found::Refused(status) => Some(*status),
            Found::Names(entry) if entry.state.access.intersects(access) => None,
            Found::Names(_) => Some(Status::OpenMode),
        }
    }

    /// The error with which CLOSE fails, which needs an open.
    pub fn refuse_close(&self) -> Option<Status>
        ensures { result ≡ first_refusal (close_refusals (found_of self.now)) }
    {
        match self {
            Found::Anonymous => Some(Status::BadStateId),
            Found::Refused(status) => Some(*status),
            Found::Names(_) => None,
        }
    }
}
