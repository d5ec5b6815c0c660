//! The operation that a step ran.

use crate::delayed::Answered;
use model_tree::status::Status;
use server::{Ahead, UnderWay};
use wire::Operation;

/// An operation that ran or was refused: the number and the status of its result.
#[derive(Clone, Copy)]
pub struct Ran {
    pub number: u32,
    pub status: u32,
}

impl Ran {
    /// What a step ran, if it ran an operation: by how far the connection's COMPOUND had come before
    /// the step and after it, and by the reply, if the step made one. What a connection that is
    /// hung up still ran is not among it.
    pub fn between(
        before: Option<UnderWay>,
        after: Option<UnderWay>,
        answered: Option<Answered>,
    ) -> Option<Ran> {
        match (before, after) {
            (None, None) => answered?.first,
            (None, Some(after)) => Some(first_of(after)),
            (Some(before), None) => last_of(before, answered?),
            (Some(before), Some(after)) => next_of(before, after),
        }
    }
}

/// The first operation of a COMPOUND that has begun: no other one is followed by more, or has its
/// reply held by a seat (RFC 8881, section 2.10.2.1).
fn first_of(after: UnderWay) -> Ran {
    Ran {
        number: Operation::Sequence.number(),
        status: status_in(after),
    }
}

/// The operation before the reply, if no seat was to hold that.
fn last_of(before: UnderWay, answered: Answered) -> Option<Ran> {
    Some(Ran {
        number: number_ahead(before)?,
        status: answered.status?,
    })
}

/// The operation between two others, or before its reply is held.
fn next_of(before: UnderWay, after: UnderWay) -> Option<Ran> {
    if after.answered <= before.answered {
        return None;
    }
    Some(Ran {
        number: number_ahead(before)?,
        status: status_in(after),
    })
}

fn number_ahead(under_way: UnderWay) -> Option<u32> {
    match under_way.ahead {
        Ahead::Operation(number) => Some(number),
        Ahead::Reply(_) => None,
    }
}

/// The status of the last result so far: after one that is not OK only the reply follows.
fn status_in(under_way: UnderWay) -> u32 {
    match under_way.ahead {
        Ahead::Operation(_) => Status::Ok.code(),
        Ahead::Reply(last) => last.code(),
    }
}
