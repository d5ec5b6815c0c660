//! CLOSE (RFC 8881, section 18.2).

ghost use Rattle.compound.specs.Beside.{closed_answer};
ghost use Rattle.compound.specs.Operates.{IsShortOutcome};

use crate::executed::{Effect, Executed};
use crate::reading::Reading;
use crate::results::MAX_REPLY_BYTES;
use crate::running::Running;
use disk::Device;
use model_tree::status::Status;
use opens::{Found, Opens};
use wire::{Answer, CloseArguments, Operation, Outcome, StateId};

/// What a CLOSE returns: a stateid that no operation takes.
pub(crate) const CLOSED: StateId = StateId {
    seqid: u32::MAX,
    other: [0; 12],
};

impl<D: Device> Reading<'_, '_, D> {
    ghost use Rattle.std.specs.Prelude.{IfErr};
    ghost use Rattle.model.specs.Operations.Operation as operations;
    ghost use Rattle.opens.specs.Views.{opens_of};
    ghost use Rattle.wire.specs.ArgumentViews.{close_view};
    ghost use Rattle.wire.specs.Short.{IsRefusal};
    ghost use Rattle.compound.specs.Beside.{Closes};
    ghost use Rattle.compound.specs.Readings.{ChangesOpens, files_read, request_read};

    /// CLOSE: the open that the stateid names has ended, and the current filehandle keeps no
    /// stateid. Nothing ends if the reply has no room for the result.
    pub(crate) fn close(&self, opens: &mut Opens, arguments: &CloseArguments) -> Executed
        ensures { ChangesOpens self.now (opens_of opens.old) (opens_of opens.new)
            (operations.Argument.Close (close_view arguments.now)) result }
    {
        let running = self.running;
        let serial = match self.open_to_close(opens, arguments) {
            Ok(serial) => serial,
            Err(status) => return running.refuse(Operation::Close, status),
        };
        if !running.has_closed_room() {
            return running.refuse(Operation::Close, Status::RepTooBig);
        }
        opens.close(serial);
        Executed::Gives {
            outcome: closed(),
            effect: Effect::Closes,
        }
    }

    /// The serial of the open that ends, after all tests except the one for room in the reply.
    fn open_to_close(&self, opens: &Opens, arguments: &CloseArguments) -> Result<u64, Status>
        ensures step { Closes (files_read self.now) (opens_of opens.now) (request_read self.now)
            (close_view arguments.now) result }
        ensures refused { IfErr result IsRefusal }
    {
        self.check_current()?;
        self.running.open_of_state(opens, &arguments.state)
    }
}

impl Running<'_> {
    ghost use Rattle.std.specs.Prelude.{◌≡◌, nat_le, length};
    ghost use Rattle.model.specs.Operations.Answer.{Done};
    ghost use Rattle.model.specs.Sessions.StateIds.{found};
    ghost use Rattle.model.specs.Server.World.{reply_with};
    ghost use Rattle.opens.specs.Views.{opens_of};
    ghost use Rattle.wire.specs.SmallViews.{state_view};
    ghost use Rattle.compound.specs.Beside.{EndsOpen, closed_answer};
    ghost use Rattle.compound.specs.Views.{in_progress_of};

    /// The serial of the open that a stateid names when the next operation uses it.
    fn open_of_state(&self, opens: &Opens, stateid: &StateId) -> Result<u64, Status>
        ensures { EndsOpen (found (opens_of opens.now) (in_progress_of self.now).context
            (state_view stateid.now)) result }
    {
        let found = opens.find(&self.id_context(), stateid);
        if let Some(status) = found.refuse_close() {
            return Err(status);
        }
        match found {
            Found::Names(entry) => Ok(entry.serial),
            _ => unreachable!(),
        }
    }

    /// Whether the reply has room for the result of a CLOSE.
    fn has_closed_room(&self) -> bool
        ensures { result ≡ nat_le
            (length (reply_with (in_progress_of self.now) (Done closed_answer))) MAX_REPLY_BYTES }
    {
        self.has_room(&closed())
    }
}

/// The result of a CLOSE.
fn closed() -> Outcome<'static>
    ensures { IsShortOutcome closed_answer result }
{
    Outcome::short(Answer::Close(CLOSED))
}
