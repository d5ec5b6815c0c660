//! ACCESS (RFC 8881, section 18.1).

use crate::executed::{Effect, Executed};
use crate::reading::Reading;
use crate::tree::status_of;
use disk::Device;
use fs::Access;
use wire::{AccessAnswer, Answer, Operation};

impl<D: Device> Reading<'_, '_, D> {
    ghost use Rattle.model.specs.Operations.Operation as operations;
    ghost use Rattle.compound.specs.Readings.{ReadsAs};

    /// ACCESS: of the bits that are asked for, those that the current node has, and those of them
    /// that the caller is granted.
    pub(crate) fn access(&self, asked: u32) -> Executed
        ensures { ReadsAs self.now (operations.Argument.Access asked) result }
    {
        let running = self.running;
        let number = match running.current_node() {
            Ok(number) => number,
            Err(status) => return running.refuse(Operation::Access, status),
        };
        match self.fs.access(running.cred, number, asked) {
            Ok(access) => running.settle(Answer::Access(answered(access)), Effect::Stays),
            Err(fault) => running.refuse(Operation::Access, status_of(fault)),
        }
    }
}

ghost use Rattle.std.specs.Prelude.{◌≡◌};
ghost use Rattle.fs.specs.AccessRights.{access_answer};
ghost use Rattle.wire.specs.AnswerViews.{access_view};

fn answered(access: Access) -> AccessAnswer
    ensures { access_view result ≡ access_answer access }
{
    AccessAnswer {
        supported: access.supported,
        access: access.granted,
    }
}
