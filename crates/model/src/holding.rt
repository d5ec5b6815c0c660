//! Which replies the volume holds, so that they survive a crash.

/// The replies to requests on persistent sessions that a seat of the session holds on the volume
/// (RFC 8881, section 2.10.6.5). Every reply is kept in memory too, so within a run a retry gets
/// the same bytes; after a crash a retry gets a held reply, or DEADSESSION.
#[derive(Clone, Copy, PartialEq, Eq)]
pub enum Holding {
    /// None: no session is persistent.
    Nothing,
    /// Those to requests that made a change which has to last: any but that of a WRITE with
    /// UNSTABLE4.
    Changes,
    /// All of them.
    All,
}

impl Holding {
    ghost use Rattle.std.specs.Prelude.{◌≡◌};
    ghost use Rattle.model.specs.Sessions.Session.{may_persist, holds_reply};

    /// Whether a session may be persistent.
    pub fn may_persist(self) -> bool
        ensures { result ≡ may_persist self }
    {
        match self {
            Holding::Nothing => false,
            Holding::Changes | Holding::All => true,
        }
    }

    /// Whether the reply to such a request is held: one that made a change which has to last, or
    /// none.
    pub fn holds(self, altered: bool) -> bool
        ensures { result ≡ holds_reply self altered }
    {
        match self {
            Holding::Nothing => false,
            Holding::Changes => altered,
            Holding::All => true,
        }
    }
}
