//! RENAME (RFC 8881, section 18.26).

ghost use Rattle.std.specs.Prelude.{◌≡◌};
ghost use Rattle.fs.specs.Renaming.{arguments_of, is_itself, opens_after};
ghost use Rattle.opens.specs.Views.{opens_of};
ghost use Rattle.compound.specs.Operates.{IsShortOutcome};
ghost use Rattle.compound.specs.Trees.{renamed_answer};

use crate::engine::Engine;
use crate::executed::{Effect, Executed};
use crate::fault::Fault;
use crate::reading::Reading;
use crate::removing::change_info;
use crate::results::MAX_REPLY_BYTES;
use crate::running::Running;
use disk::Device;
use fs::{Change, Renaming};
use model_tree::status::Status;
use opens::Opens;
use wire::{Answer, Operation, Outcome, RenameAnswer, RenameArguments};

/// The change values of a directory if they do not matter.
const NO_CHANGE: Change = Change {
    before: 0,
    after: 0,
};

impl<D: Device> Reading<'_, '_, D> {
    ghost use Rattle.std.specs.Prelude.{IfOk, IfErr};
    ghost use Rattle.wire.specs.Short.{IsRefusal};
    ghost use Rattle.compound.specs.Readings.{files_read, request_read};
    ghost use Rattle.compound.specs.Trees.{AreBoth, RefusesRename};

    /// The numbers of the saved node and of the current one.
    ///
    /// # Errors
    /// The first of these that holds: NOFILEHANDLE if there is no current node, STALE if the
    /// current one is gone, and NOFILEHANDLE if there is no saved node.
    fn both_nodes(&self) -> Result<(u64, u64), Status>
        ensures ok { IfOk result (AreBoth (request_read self.now).context) }
        ensures err { IfErr result (RefusesRename (files_read self.now) (request_read self.now)) }
        ensures refused { IfErr result IsRefusal }
    {
        self.check_current()?;
        Ok((self.running.saved_node()?, self.running.current_node()?))
    }
}

impl Running<'_> {
    ghost use Rattle.std.specs.Prelude.{◌≡◌, nat_le, length};
    ghost use Rattle.model.specs.Operations.Answer.{Done};
    ghost use Rattle.model.specs.Operations.Operation as operations;
    ghost use Rattle.model.specs.Server.World.{reply_with};
    ghost use Rattle.wire.specs.ArgumentViews.{rename_view};
    ghost use Rattle.compound.specs.Engines.{Changes, files_in};
    ghost use Rattle.compound.specs.States.{CanServe};
    ghost use Rattle.compound.specs.Trees.{no_change, renamed_answer};
    ghost use Rattle.compound.specs.Views.{in_progress_of};

    /// RENAME of a name in the saved directory to one in the current directory. Nothing is renamed
    /// if the reply has no room for the result.
    pub(crate) fn rename<D: Device>(
        &self,
        engine: &mut Engine<'_, D>,
        arguments: &RenameArguments<'_>,
    ) -> Result<Executed, Fault>
        requires { CanServe (files_in engine.old) (in_progress_of self.now) }
        ensures { Changes engine.old engine.new (in_progress_of self.now)
            (operations.Argument.Rename (rename_view arguments.now)) result }
    {
        let reading = Reading {
            running: self,
            fs: engine.fs,
        };
        let (from, to) = match reading.both_nodes() {
            Ok(numbers) => numbers,
            Err(status) => return Ok(self.refuse(Operation::Rename, status)),
        };
        let has_room = self.has_renamed_room();
        let asked = Renaming {
            from,
            old_name: arguments.old_name,
            to,
            new_name: arguments.new_name,
        };
        match engine.fs.rename(self.cred, engine.moment, asked, has_room) {
            Ok(made) => {
                end_replaced(engine.opens, asked, made.replaced);
                Ok(Executed::Gives {
                    outcome: renamed(made.source, made.target),
                    effect: Effect::Stays,
                })
            }
            Err(fault) => self.tell_fault(Operation::Rename, fault),
        }
    }

    /// Whether the reply has room for the result of a RENAME. The change values do not matter.
    fn has_renamed_room(&self) -> bool
        ensures { result ≡ nat_le (length (reply_with (in_progress_of self.now)
            (Done (renamed_answer no_change no_change)))) MAX_REPLY_BYTES }
    {
        self.has_room(&renamed(NO_CHANGE, NO_CHANGE))
    }
}

/// The node that was under the new name is gone, and its opens with it. A name that is renamed to
/// itself leaves them.
fn end_replaced(opens: &mut Opens, asked: Renaming<'_>, replaced: Option<u64>)
    ensures { opens_of opens.new
        ≡ opens_after (is_itself asked.entry.from asked.entry.to
        (arguments_of asked.entry)) replaced
        (opens_of opens.old) }
{
    if asked.from == asked.to && asked.old_name == asked.new_name {
        return;
    }
    opens.remove_file(replaced.unwrap_or(0));
}

/// The result of a RENAME: the change values before and after, of the directory that had the node
/// and of the one that has it.
fn renamed(source: Change, target: Change) -> Outcome<'static>
    ensures { IsShortOutcome (renamed_answer source target) result }
{
    Outcome::short(Answer::Rename(RenameAnswer {
        source: change_info(source.before, source.after),
        target: change_info(target.before, target.after),
    }))
}
