//! What CREATE_SESSION is to do, before it does it.

use crate::session::Session;
use model_tree::seat_edits::SeatEdits;
use wire::CreateSessionAnswer;

/// The result of CREATE_SESSION, and the clients that ended with it: their opens are to end.
#[derive(Drop)]
pub struct CreatedSession {
    pub answer: CreateSessionAnswer,
    pub ended: Vec<u64>,
}

/// A session that is to be made, with all the memory for it.
#[derive(Drop)]
pub struct NewSession {
    pub answer: CreateSessionAnswer,
    pub ended: Vec<u64>,
    /// How the seats change.
    pub edits: SeatEdits,
    pub(crate) session: Session,
}

/// What a CREATE_SESSION that is not refused does.
#[derive(Drop)]
pub enum Creation {
    /// The kept result is returned again, and nothing changes.
    Again(CreateSessionAnswer),
    /// `Table::add_session` makes the session.
    New(NewSession),
}
