//! WRITE (RFC 8881, section 18.32).

ghost use Rattle.std.specs.Prelude.{◌≡◌, ◌==◌, true, not};
ghost use Rattle.model.specs.Operations.Files.{are_bytes, committed_as};
ghost use Rattle.wire.specs.ArgumentViews.{stable_number};
ghost use Rattle.compound.specs.Files.{committed_answer, written_answer};
ghost use Rattle.compound.specs.Operates.{IsShortOutcome};

use crate::engine::Engine;
use crate::executed::{Effect, Executed};
use crate::fault::Fault;
use crate::results::MAX_REPLY_BYTES;
use crate::running::Running;
use disk::Device;
use fs::Writing;
use opens::Access;
use wire::{Answer, Operation, Outcome, StableHow, WriteAnswer, WriteArguments};

impl Running<'_> {
    ghost use Rattle.std.specs.Prelude.{◌≡◌, nat_le, length};
    ghost use Rattle.model.specs.Operations.Answer.{Done};
    ghost use Rattle.model.specs.Operations.Operation as operations;
    ghost use Rattle.model.specs.Server.World.{reply_with};
    ghost use Rattle.wire.specs.ArgumentViews.{write_view};
    ghost use Rattle.compound.specs.Engines.{Changes, files_in};
    ghost use Rattle.compound.specs.Files.{committed_answer, written_answer};
    ghost use Rattle.compound.specs.States.{CanServe};
    ghost use Rattle.compound.specs.Views.{in_progress_of};

    /// WRITE: nothing is written if the reply has no room for the result.
    pub(crate) fn write<D: Device>(
        &self,
        engine: &mut Engine<'_, D>,
        arguments: &WriteArguments<'_>,
    ) -> Result<Executed, Fault>
        requires { CanServe (files_in engine.old) (in_progress_of self.now) }
        ensures { Changes engine.old engine.new (in_progress_of self.now)
            (operations.Argument.Write (write_view arguments.now)) result }
    {
        tell_bytes(arguments.data);
        let number = match self.current_node() {
            Ok(number) => number,
            Err(status) => return Ok(self.refuse(Operation::Write, status)),
        };
        let has_room = self.has_written_room();
        let verdict = self.verdict(engine.opens, &arguments.state, Access::WRITE);
        let asked = Writing {
            offset: arguments.offset,
            bytes: arguments.data,
            is_stable: is_to_be_stable(arguments.stable),
        };
        match engine
            .fs
            .write(self.cred, engine.moment, number, verdict, asked, has_room)
        {
            Ok(count) => Ok(Executed::Gives {
                outcome: written(self.progress.run, arguments.stable, count),
                effect: Effect::Stays,
            }),
            Err(fault) => self.tell_fault(Operation::Write, fault),
        }
    }

    /// Whether the reply has room for the result of a WRITE. What it says does not matter.
    fn has_written_room(&self) -> bool
        ensures { result ≡ nat_le (length (reply_with (in_progress_of self.now)
            (Done (written_answer 0 0 0)))) MAX_REPLY_BYTES }
    {
        self.has_room(&written(0, StableHow::Unstable, 0))
    }

    /// COMMIT (section 18.3): keeps all changes so far, unless the reply has no room for the
    /// result.
    pub(crate) fn commit<D: Device>(&self, engine: &mut Engine<'_, D>) -> Result<Executed, Fault>
        requires { CanServe (files_in engine.old) (in_progress_of self.now) }
        ensures { (arguments : operations.CommitArguments)
            → Changes engine.old engine.new (in_progress_of self.now)
            (operations.Argument.Commit arguments) result }
    {
        let number = match self.current_node() {
            Ok(number) => number,
            Err(status) => return Ok(self.refuse(Operation::Commit, status)),
        };
        let has_room = self.has_committed_room();
        match engine.fs.commit(self.cred, number, has_room) {
            Ok(()) => Ok(Executed::Gives {
                outcome: committed(self.progress.run),
                effect: Effect::Stays,
            }),
            Err(fault) => self.tell_fault(Operation::Commit, fault),
        }
    }

    /// Whether the reply has room for the result of a COMMIT. The run does not matter.
    fn has_committed_room(&self) -> bool
        ensures { result ≡ nat_le (length (reply_with (in_progress_of self.now)
            (Done (committed_answer 0)))) MAX_REPLY_BYTES }
    {
        self.has_room(&committed(0))
    }
}

/// Bytes are bytes, which the definition asks of numbers.
fn tell_bytes(data: &[u8])
    ensures { are_bytes «data».now ≡ true }
{}

/// Whether the bytes have to be on the device before the reply.
pub(crate) fn is_to_be_stable(stable: StableHow) -> bool
    ensures { (stable_number stable == 0) ≡ not result }
{
    match stable {
        StableHow::Unstable => false,
        StableHow::DataSync | StableHow::FileSync => true,
    }
}

/// The result of a WRITE in this run of the server: how many bytes it took. What has to be stable
/// is on the device.
fn written(run: u32, stable: StableHow, count: u32) -> Outcome<'static>
    ensures { IsShortOutcome (written_answer run (stable_number stable) count) result }
{
    Outcome::short(Answer::Write(WriteAnswer {
        count,
        committed: committed_as(stable).number(),
        verifier: u64::from(run).to_be_bytes(),
    }))
}

/// How stable the result of a WRITE that asks for this is: what has to be stable is on the device
/// with all of the file's attributes.
fn committed_as(stable: StableHow) -> StableHow
    ensures { stable_number result ≡ committed_as (stable_number stable) }
{
    match stable {
        StableHow::Unstable => StableHow::Unstable,
        StableHow::DataSync | StableHow::FileSync => StableHow::FileSync,
    }
}

/// The result of a COMMIT in this run of the server.
fn committed(run: u32) -> Outcome<'static>
    ensures { IsShortOutcome (committed_answer run) result }
{
    Outcome::short(Answer::Commit(u64::from(run).to_be_bytes()))
}
