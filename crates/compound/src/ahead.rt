//! What comes next of a COMPOUND that has begun, without running it.

ghost use Rattle.std.specs.Int.{w32};
ghost use Rattle.std.specs.Prelude.{◌≡◌};
ghost use Rattle.xdr.specs.Grammar.{number_at};
ghost use Rattle.compound.specs.Ahead.{number_of_read};

use crate::next::{OP_ILLEGAL, is_no_operation};
use crate::progress::Progress;
use model_tree::status::Status;
use xdr::Reader;

/// What comes next of a COMPOUND that has begun.
#[derive(Clone, Copy)]
pub enum Ahead {
    /// An operation runs or is refused. Its result has this number: its own, or 10044 if the
    /// standard has no such operation.
    Operation(u32),
    /// A seat holds the reply. The last result has this status.
    Reply(Status),
}

impl Progress {
    ghost use Rattle.std.specs.Prelude.{◌≡◌, ◌≤◌, length};
    ghost use Rattle.compound.specs.Ahead.{ahead_of};
    ghost use Rattle.compound.specs.Views.{Asked, resumed};

    /// How many operations have their results.
    pub fn answered(&self) -> u32
        ensures { result ≡ self.now.answered }
    {
        self.answered
    }

    /// What comes next of a COMPOUND of these operations.
    pub fn ahead(&self, operations: &[u8]) -> Ahead
        requires { self.now.position ≤ length operations.now }
        ensures { (asked : Asked) → asked.compound.operations ≡ operations.now
            → result ≡ ahead_of (resumed asked self.now) }
    {
        match self.ended {
            Some(last) => Ahead::Reply(last),
            None => Ahead::Operation(result_number(&operations[self.position..])),
        }
    }
}

/// The number of the result of the operation with which these bytes begin.
fn result_number(operations: &[u8]) -> u32
    ensures { result ≡ number_of_read (number_at w32 operations.now) }
{
    match Reader::new(operations).read_u32() {
        Ok(number) if !is_no_operation(number) => number,
        _ => OP_ILLEGAL,
    }
}
