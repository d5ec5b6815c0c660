//! What the calls of a server return.

use crate::difference::Difference;
use crate::refusal::Refusal;

/// What a call of a server returns.
#[derive(Clone, Copy, Debug, PartialEq, Eq)]
pub enum Answer {
    /// A piece is taken up to here.
    Took(usize),
    /// A turn did this.
    Turned(Turn),
    /// There is a reply, or none.
    Reply,
    NoReply,
    /// A connection of this number is made.
    Connected(usize),
    /// A connection is hung up.
    HungUp,
    /// What waited is flushed.
    Flushed,
    /// The call is refused.
    Refused(Refusal),
}

/// What a turn of a connection did.
#[derive(Clone, Copy, Debug, PartialEq, Eq)]
pub enum Turn {
    /// Nothing waits.
    Idle,
    /// One operation ran, and more remain.
    Ran,
    /// The reply can be taken.
    Answered,
}

/// A call returns what is expected.
pub fn expect(wanted: Answer, got: Answer) -> Result<(), Difference> {
    if wanted == got {
        Ok(())
    } else {
        Err(Difference::Answer { wanted, got })
    }
}
