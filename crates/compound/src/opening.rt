//! OPEN (RFC 8881, section 18.16).

ghost use Rattle.std.specs.Prelude.{◌≡◌, IsTrue};
ghost use Rattle.xdr.specs.Forms.{is_trimmed};
ghost use Rattle.model.specs.Operations.Open.{creates};
ghost use Rattle.wire.specs.ArgumentViews.{open_type_view};
ghost use Rattle.wire.specs.SmallViews.{change_view, state_view};
ghost use Rattle.compound.specs.Beside.{opened_answer};
ghost use Rattle.compound.specs.Operates.{IsShortOutcome};

use crate::closing::CLOSED;
use crate::engine::Engine;
use crate::executed::{Effect, Executed};
use crate::fault::Fault;
use crate::open_named::NamedOpen;
use crate::reading::Reading;
use crate::removing::change_info;
use crate::running::Running;
use crate::tree::status_of;
use bitflags::Flags;
use disk::Device;
use fs::Share;
use model_tree::status::Status;
use opens::{Access, Open, Opens};
use wire::{
    Answer, Bitmap, ChangeInfo, Claim, OpenAnswer, OpenArguments, OpenType, Opening, Operation,
    Outcome, StateId,
};

/// What an OPEN did to its directory, and which attributes it set.
#[derive(Drop)]
pub(crate) struct OpenDone {
    pub(crate) change: ChangeInfo,
    pub(crate) was_set: Bitmap,
    ghost trimmed: { IsTrue (is_trimmed was_set) },
}

impl Running<'_> {
    ghost use Rattle.std.specs.Prelude.{◌≡◌, ◌<◌, true, IsTrue};
    ghost use Rattle.model.specs.Operations.Operation as operations;
    ghost use Rattle.model.specs.Sessions.StateIds.{new_open, opened};
    ghost use Rattle.opens.specs.Views.{opens_of, open_of, CanOpen, HasMemory};
    ghost use Rattle.wire.specs.ArgumentViews.{open_view};
    ghost use Rattle.wire.specs.SmallViews.{change_view};
    ghost use Rattle.xdr.specs.Forms.{is_trimmed};
    ghost use Rattle.compound.specs.Beside.{has_opened_room, ComesToOpen};
    ghost use Rattle.compound.specs.Engines.{Changes, files_in};
    ghost use Rattle.compound.specs.Memory.{OrMemory};
    ghost use Rattle.compound.specs.Operates.{Operates, HasResult};
    ghost use Rattle.compound.specs.States.{CanServe, SharedState};
    ghost use Rattle.compound.specs.Views.{in_progress_of};

    /// OPEN: its file is open, and is the current one.
    pub(crate) fn open<D: Device>(
        &self,
        engine: &mut Engine<'_, D>,
        arguments: &OpenArguments<'_>,
    ) -> Result<Executed, Fault>
        requires { CanServe (files_in engine.old) (in_progress_of self.now) }
        ensures { Changes engine.old engine.new (in_progress_of self.now)
            (operations.Argument.Open (open_view arguments.now)) result }
    {
        let reading = Reading {
            running: self,
            fs: engine.fs,
        };
        match &arguments.opening {
            Opening::Exclusive(_) => Ok(reading.refuse_opening()),
            Opening::Opens { how, claim } => match claim {
                Claim::ByName(name) => {
                    let named = NamedOpen {
                        arguments,
                        how,
                        name,
                    };
                    self.open_named(engine, named)
                }
                Claim::ByHandle => reading.open_current(engine.opens, arguments, how),
                Claim::OtherClaim(_) => Ok(reading.refuse_opening()),
            },
        }
    }

    /// The open that is asked for, on this file.
    #[tactic(auto, unfolding(crate::specs::Views::in_progress_of))]
    pub(crate) fn asked_open(
        &self,
        arguments: &OpenArguments<'_>,
        number: u64,
    ) -> Result<Open, Fault>
        ensures { OrMemory result (λ asked. open_of asked
            ≡ new_open (in_progress_of self.now).context.client
            (open_view arguments.now).owner number
            (open_view arguments.now).access) }
    {
        let access = Access::from_bits_retain(arguments.access);
        Ok(Open::new(
            self.alloc,
            self.progress.client,
            arguments.owner,
            number,
            access,
        )?)
    }

    /// The open is in the table, or joins one that is, and its file is the current one.
    pub(crate) fn give_open(&self, opens: &mut Opens, asked: Open, done: OpenDone) -> Executed
        requires room { HasMemory opens.old }
        requires serial { CanOpen (opens_of opens.old) (open_of asked) }
        requires number { 0 < asked.number }
        requires short { true ≡ has_opened_room (in_progress_of self.now) done.was_set }
        // What the OPEN returns
        ensures gives { (now : _) (old new : SharedState) (operation : operations.Argument)
            → old.opens ≡ opens_of opens.old → ComesToOpen now old new (in_progress_of self.now)
            (open_of asked) (change_view done.change) done.was_set operation
            → Operates now old new (in_progress_of self.now) operation result }
        ensures answered { HasResult (in_progress_of self.now) result }
        ensures opens { opens_of opens.new
            ≡ (opened (opens_of opens.old) (open_of asked)).opens }
    {
        let number = asked.number;
        let state = opens.open(self.progress.run, asked);
        Executed::Gives {
            outcome: opened(state, done),
            effect: Effect::Opens { number, state },
        }
    }

    /// Whether the reply has room for the result of an OPEN that set these attributes. The rest of
    /// the result does not matter.
    pub(crate) fn has_opened_room(&self, was_set: Bitmap) -> bool
        requires { IsTrue (is_trimmed was_set) }
        ensures { result ≡ has_opened_room (in_progress_of self.now) was_set }
    {
        let done = OpenDone {
            change: change_info(0, 0),
            was_set,
        };
        self.has_room(&opened(CLOSED, done))
    }
}

impl<D: Device> Reading<'_, '_, D> {
    ghost use Rattle.std.specs.Prelude.{◌≡◌, Some, OnErr};
    ghost use Rattle.model.specs.Operations.Open.{opening_refusals};
    ghost use Rattle.model.specs.Operations.Operation as operations;
    ghost use Rattle.model_tree.specs.Refusals.Refusal.{first_refusal};
    ghost use Rattle.model_tree.specs.declared.status.Status.TheVariants.{NotSupp};
    ghost use Rattle.opens.specs.Views.{opens_of};
    ghost use Rattle.wire.specs.ArgumentViews.{open_view, opening_view};
    ghost use Rattle.compound.specs.Memory.{OrMemory};
    ghost use Rattle.compound.specs.Readings.{ChangesOpens, ReadsAs};

    /// OPEN of the current file (`CLAIM_FH`). It is not opened if the reply has no room for the
    /// result.
    fn open_current(
        &self,
        opens: &mut Opens,
        arguments: &OpenArguments<'_>,
        how: &OpenType<'_>,
    ) -> Result<Executed, Fault>
        requires { opening_view arguments.now.opening
            ≡ operations.Opens (open_type_view how.now) operations.ByHandle }
        ensures gives { OrMemory result (ChangesOpens self.now (opens_of opens.old)
            (opens_of opens.new) (operations.Argument.Open (open_view arguments.now))) }
        ensures opens { OnErr result (opens_of opens.new ≡ opens_of opens.old) }
    {
        let running = self.running;
        let number = match running.current_node() {
            Ok(number) => number,
            Err(status) => return Ok(running.refuse(Operation::Open, status)),
        };
        let asked = running.asked_open(arguments, number)?;
        opens.reserve()?;
        let is_full = opens.is_full(self.fs.limits().opens, &asked);
        let create = creates(how);
        match self
            .fs
            .open_current(running.cred, number, share_of(arguments), create, is_full)
        {
            Ok(()) => {
                if !running.has_opened_room(Bitmap::new()) {
                    return Ok(running.refuse(Operation::Open, Status::RepTooBig));
                }
                let done = OpenDone {
                    change: change_info(0, 0),
                    was_set: Bitmap::new(),
                };
                Ok(running.give_open(opens, asked, done))
            }
            Err(fault) => Ok(running.refuse(Operation::Open, status_of(fault))),
        }
    }

    /// OPEN that is not served: an exclusive create, or a claim other than by name or by
    /// filehandle.
    fn refuse_opening(&self) -> Executed
        ensures { (arguments : operations.OpenArguments)
            → first_refusal (opening_refusals arguments.opening) ≡ Some NotSupp
            → ReadsAs self.now (operations.Argument.Open arguments) result }
    {
        match self.check_current() {
            Ok(()) => self.running.refuse(Operation::Open, Status::NotSupp),
            Err(status) => self.running.refuse(Operation::Open, status),
        }
    }
}

/// What an open asks to do, and to deny to others.
pub(crate) fn share_of(arguments: &OpenArguments<'_>) -> Share
    ensures access { result.access ≡ arguments.now.access }
    ensures deny { result.deny ≡ arguments.now.deny }
{
    Share {
        access: arguments.access,
        deny: arguments.deny,
    }
}

/// Whether it may create a file.
fn creates(how: &OpenType<'_>) -> bool
    ensures { result ≡ creates (open_type_view how.now) }
{
    !matches!(how, OpenType::NoCreate)
}

/// The result of an OPEN that gives this stateid.
#[tactic(auto, unfolding(model::specs::Server::World::outcome_text))]
fn opened(state: StateId, done: OpenDone) -> Outcome<'static>
    ensures { IsShortOutcome
        (opened_answer (state_view state) (change_view done.change) done.was_set) result }
{
    let OpenDone { change, was_set } = done;
    Outcome::short(Answer::Open(OpenAnswer {
        state,
        change,
        flags: 0,
        was_set,
    }))
}
