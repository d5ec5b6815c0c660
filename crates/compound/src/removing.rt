//! REMOVE (RFC 8881, section 18.25).

ghost use Rattle.std.specs.Prelude.{◌≡◌};
ghost use Rattle.wire.specs.SmallViews.{change_view};
ghost use Rattle.compound.specs.Operates.{IsShortOutcome};
ghost use Rattle.compound.specs.Trees.{change_answer, removed_answer};

use crate::engine::Engine;
use crate::executed::{Effect, Executed};
use crate::fault::Fault;
use crate::results::MAX_REPLY_BYTES;
use crate::running::Running;
use disk::Device;
use wire::{Answer, ChangeInfo, Operation, Outcome};

impl Running<'_> {
    ghost use Rattle.std.specs.Prelude.{◌≡◌, nat_le, length};
    ghost use Rattle.model.specs.Operations.Answer.{Done};
    ghost use Rattle.model.specs.Operations.Operation as operations;
    ghost use Rattle.model.specs.Server.World.{reply_with};
    ghost use Rattle.compound.specs.Engines.{Changes, files_in};
    ghost use Rattle.compound.specs.States.{CanServe};
    ghost use Rattle.compound.specs.Trees.{removed_answer};
    ghost use Rattle.compound.specs.Views.{in_progress_of};

    /// REMOVE: the name is gone, and the node that it led to with its opens. Nothing is removed if
    /// the reply has no room for the result.
    pub(crate) fn remove<D: Device>(
        &self,
        engine: &mut Engine<'_, D>,
        name: &[u8],
    ) -> Result<Executed, Fault>
        requires { CanServe (files_in engine.old) (in_progress_of self.now) }
        ensures { Changes engine.old engine.new (in_progress_of self.now)
            (operations.Argument.Remove name.now) result }
    {
        let directory = match self.current_node() {
            Ok(number) => number,
            Err(status) => return Ok(self.refuse(Operation::Remove, status)),
        };
        let has_room = self.has_removed_room();
        match engine
            .fs
            .remove(self.cred, engine.moment, directory, name, has_room)
        {
            Ok(gone) => {
                engine.opens.remove_file(gone.number);
                Ok(Executed::Gives {
                    outcome: removed(gone.before, gone.after),
                    effect: Effect::Stays,
                })
            }
            Err(fault) => self.tell_fault(Operation::Remove, fault),
        }
    }

    /// Whether the reply has room for the result of a REMOVE. The change values do not matter.
    fn has_removed_room(&self) -> bool
        ensures { result ≡ nat_le (length
            (reply_with (in_progress_of self.now) (Done (removed_answer 0 0)))) MAX_REPLY_BYTES }
    {
        self.has_room(&removed(0, 0))
    }
}

/// The result of a REMOVE: its directory's change value before and after.
fn removed(before: u64, after: u64) -> Outcome<'static>
    ensures { IsShortOutcome (removed_answer before after) result }
{
    Outcome::short(Answer::Remove(change_info(before, after)))
}

/// The change value of a directory before and after a change.
pub(crate) fn change_info(before: u64, after: u64) -> ChangeInfo
    ensures { change_view result ≡ change_answer before after }
{
    ChangeInfo {
        is_atomic: true,
        before,
        after,
    }
}
