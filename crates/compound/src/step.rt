//! One turn of a COMPOUND, which is the server's atomic step: an operation, or the reply that a
//! seat holds first.

ghost use Rattle.std.specs.Prelude.{◌≡◌, ◌<◌, ◌^◌};
ghost use Rattle.model.specs.Server.World.{is_unstable};
ghost use Rattle.wire.specs.ArgumentView.{argument_view};
ghost use Rattle.wire.specs.declared.outcome.Outcome.TheVariants as outcomes;
ghost use Rattle.compound.specs.Runs.{makes_change};
ghost use Rattle.compound.specs.declared.executed.Effect.TheVariants as effect;
ghost use Rattle.compound.specs.declared.executed.Executed.TheVariants as execution;

use crate::encoded_result::EncodedResult;
use crate::end::LastResult;
use crate::engine::Engine;
use crate::executed::{Effect, Executed};
use crate::fault::Fault;
use crate::next::Next;
use crate::progress::{HandlePlace, Progress};
use crate::running::Running;
use crate::writing::is_to_be_stable;
use disk::Device;
use fs::Fs;
use model_tree::status::Status;
use opens::Opens;
use session::Table;
use wire::{Argument, Outcome};
use xdr::Writer;

/// What a step leaves.
#[derive(Drop)]
pub enum Stepped {
    /// One operation ran, and more remain, or a seat is to hold the reply: how far the COMPOUND has
    /// come.
    Ran(Progress),
    /// The reply's whole record, including its header. Its slot keeps the result, and if a seat was
    /// to hold it, that seat has it on the volume.
    Answered(Vec<u8>),
}

/// A COMPOUND whose next operation was not done, and why.
#[derive(Drop)]
pub struct StepError {
    pub fault: Fault,
    /// How far the COMPOUND had come, given back as it was.
    pub progress: Progress,
}

impl Running<'_> {
    ghost use Rattle.std.specs.Prelude.{◌≡◌, ◌≤◌, false, None, Some, length, drop, IfOk, IfErr, OnErr};
    ghost use Rattle.fs.specs.Views.{fs_of, AltersFs};
    ghost use Rattle.opens.specs.Views.{opens_of};
    ghost use Rattle.session.specs.Views.{table_of};
    ghost use Rattle.model.specs.Operations.Answer as model;
    ghost use Rattle.model.specs.Server.World.{is_seated, is_to_hold};
    ghost use Rattle.compound.specs.Engines.{BorrowsSame, Steps, files_in, state_in};
    ghost use Rattle.compound.specs.Operates.{left_by_effect};
    ghost use Rattle.compound.specs.States.{Agrees, CanSeat, shared_of};
    ghost use Rattle.compound.specs.Steps.{CanRun, RequestSteps, RequestGoesOn, stepped_on};
    ghost use Rattle.compound.specs.EncodedResult.{CanBeAdded, Tells, with_last};
    ghost use Rattle.compound.specs.Nexts.{RunsNext};
    ghost use Rattle.compound.specs.Turns.{ResultLeaves};
    ghost use Rattle.compound.specs.Views.{in_progress_of, asked_of};
    ghost use Rattle.compound.specs.Volumes.{TurnGives, failed_step_ending};

    /// Reads the next operation, tests it and runs it, at this time in nanoseconds since 1970. A
    /// change is kept on the device before its result is there. Once the last result is there and a
    /// seat is to hold the reply, it is held on the device, and then the reply is there. With the
    /// reply, `results_buffer` has the memory that the next COMPOUND may begin with.
    ///
    /// # Errors
    /// What was kept of the COMPOUND comes back as it was. After `Memory` nothing changed; after
    /// `Device` the file system is down.
    pub fn step<D: Device>(
        self,
        fs: &mut Fs<D>,
        table: &mut Table,
        opens: &mut Opens,
        now: u64,
        results_buffer: &mut Writer,
    ) -> Result<Stepped, StepError>
        requires up { (fs_of fs.old).volume.is_down ≡ false }
        requires run { (in_progress_of self).context.run ≡ (fs_of fs.old).volume.run }
        requires agrees { D.keeps_word → Agrees (fs_of fs.old) (table_of table.old) }
        // If it succeeds
        ensures step { D.keeps_word
            → IfOk result (RequestSteps now (shared_of fs.old table.old opens.old)
            (shared_of fs.new table.new opens.new) (asked_of self.entry)
            (in_progress_of self.entry)) }
        ensures agrees { D.keeps_word → IfOk result (λ done.
            Agrees (fs_of fs.new) (table_of table.new)) }
        ensures goes_on { IfOk result (RequestGoesOn (fs_of fs.old).volume.run (asked_of self.entry)
            (in_progress_of self.entry)) }
        // If it fails
        ensures back { IfErr result (λ failed. failed.progress ≡ self.entry.progress) }
        ensures others { OnErr result ((table_of table.new ≡ table_of table.old)
            × (opens_of opens.new ≡ opens_of opens.old)) }
        // However it ends
        ensures volume { AltersFs fs.old fs.new (TurnGives (shared_of fs.old table.old opens.old)
            (λ world number. stepped_on world number now (in_progress_of self.entry)))
            (failed_step_ending result) }
    {
        let mut engine = Engine {
            fs,
            table,
            opens,
            moment: now,
        };
        match self.progress.ended {
            Some(last) => self.store(&mut engine, last, results_buffer),
            None => self.run(&mut engine, results_buffer),
        }
    }

    /// A step of a COMPOUND that has not ended.
    fn run<D: Device>(
        self,
        engine: &mut Engine<'_, D>,
        results_buffer: &mut Writer,
    ) -> Result<Stepped, StepError>
        requires { CanRun D.keeps_word (files_in engine.old) (state_in engine.old).table
            (in_progress_of self) }
        ensures same { BorrowsSame engine.old engine.new }
        ensures turn { Steps engine.old engine.new self.entry result }
    {
        let Ran {
            position,
            altered,
            done,
        } = match self.run_next(engine) {
            Ok(ran) => ran,
            Err(fault) => return Err(StepError {
                fault,
                progress: self.progress,
            }),
        };
        let mut running = self;
        running.advance(position, altered);
        match done {
            Executed::Replays(slot) => Ok(Stepped::Answered(running.repeat(
                engine.table,
                &slot,
                results_buffer,
            ))),
            Executed::GivesValues { operation, values } => {
                let encoded = EncodedResult::Values {
                    operation,
                    values: values.as_slice(),
                };
                Ok(running.answer(engine.table, encoded, results_buffer))
            }
            Executed::Gives { outcome, effect } => {
                running.leave(effect);
                Ok(running.answer(engine.table, EncodedResult::Whole(&outcome), results_buffer))
            }
        }
    }

    /// Reads the next operation, tests it and runs it. The COMPOUND itself is not changed yet.
    fn run_next<D: Device>(&self, engine: &mut Engine<'_, D>) -> Result<Ran, Fault>
        requires { CanRun D.keeps_word (files_in engine.old) (state_in engine.old).table
            (in_progress_of self.now) }
        ensures { RunsNext engine.old engine.new self.now result }
    {
        match self.next_operation(self.alloc)? {
            Next::Refuses { operation, status } => Ok(Ran {
                position: self.progress.position,
                altered: false,
                done: refused(operation, status),
            }),
            Next::Reads { argument, position } => {
                let before = engine.fs.change_count();
                let done = self.operate(engine, &argument)?;
                let after = engine.fs.change_count();
                let altered = makes_change(before, after, &argument);
                Ok(Ran {
                    position,
                    altered,
                    done,
                })
            }
        }
    }

    /// What an operation leaves of the COMPOUND, beside its result.
    #[tactic(auto, unfolding(crate::specs::Views::in_progress_of))]
    fn leave(&mut self, effect: Effect)
        ensures asked { asked_of self.new ≡ asked_of self.old }
        ensures request { in_progress_of self.new
            ≡ left_by_effect effect (in_progress_of self.old) }
    {
        match effect {
            Effect::Stays => {}
            Effect::Moves(number) => self.progress.current = Some(HandlePlace {
                number,
                state: None,
            }),
            Effect::Saves => self.progress.saved = self.progress.current,
            Effect::Restores => self.progress.current = self.progress.saved,
            Effect::Opens { number, state } => self.progress.current = Some(HandlePlace {
                number,
                state: Some(state),
            }),
            Effect::Closes => self.drop_stateid(),
            Effect::Joins { slot, client } => {
                self.progress.slot = Some(slot);
                self.progress.client = client;
            }
        }
    }

    /// The current node keeps no stateid. If there is no current node, it is 0, the number of no
    /// node.
    #[tactic(auto, unfolding(crate::specs::Views::in_progress_of))]
    fn drop_stateid(&mut self)
        ensures asked { asked_of self.new ≡ asked_of self.old }
        ensures request { in_progress_of self.new
            ≡ left_by_effect effect.Closes (in_progress_of self.old) }
    {
        let number = match self.progress.current {
            Some(place) => place.number,
            None => 0,
        };
        self.progress.current = Some(HandlePlace {
            number,
            state: None,
        });
    }

    /// The COMPOUND after this result: it goes on; or this result is the last one or not OK, and
    /// the reply is there, unless a seat is to hold it first.
    fn answer(
        self,
        table: &mut Table,
        encoded: EncodedResult<'_>,
        results_buffer: &mut Writer,
    ) -> Stepped
        requires encoded { CanBeAdded (in_progress_of self) encoded }
        requires more { (in_progress_of self).ended ≡ None }
        ensures stands { (outcome : model.Outcome) → Tells encoded.entry outcome
            → ResultLeaves (table_of table.old) (table_of table.new)
            (asked_of self.entry) (in_progress_of self.entry) outcome result }
        ensures goes_on { RequestGoesOn (in_progress_of self.entry).context.run
            (asked_of self.entry)
            (in_progress_of self.entry) result }
    {
        if encoded.is_ok() && !self.is_last() {
            return Stepped::Ran(self.progress.with_result(encoded));
        }
        let last = encoded.status();
        let running = self.with_last(encoded);
        if running.is_to_hold(table) {
            return Stepped::Ran(running.progress);
        }
        let reply = LastResult {
            status: last,
            edits: None,
        };
        Stepped::Answered(running.end(table, reply, results_buffer))
    }

    /// With this result, the last one.
    #[tactic(auto, unfolding(crate::specs::Views::in_progress_of))]
    fn with_last(self, encoded: EncodedResult<'_>) -> Self
        requires encoded { CanBeAdded (in_progress_of self) encoded }
        requires more { (in_progress_of self).ended ≡ None }
        ensures asked { asked_of result ≡ asked_of self.entry }
        ensures request { in_progress_of result
            ≡ with_last (in_progress_of self.entry) encoded.entry }
        ensures position { result.progress.position ≡ self.entry.progress.position }
    {
        let Running {
            alloc,
            xid,
            cred,
            compound,
            progress,
        } = self;
        Running {
            alloc,
            xid,
            cred,
            compound,
            progress: progress.with_last(encoded),
        }
    }

    /// The last result is there, and a seat is to hold the reply: it does so on the volume, and
    /// then the reply is made.
    fn store<D: Device>(
        self,
        engine: &mut Engine<'_, D>,
        last: Status,
        results_buffer: &mut Writer,
    ) -> Result<Stepped, StepError>
        requires ready { CanSeat D.keeps_word (files_in engine.old) (state_in engine.old).table }
        requires ended { (in_progress_of self).ended ≡ Some last }
        ensures same { BorrowsSame engine.old engine.new }
        ensures turn { Steps engine.old engine.new self.entry result }
    {
        match self.hold(engine.fs, engine.table, last) {
            Ok(edits) => {
                let reply = LastResult {
                    status: last,
                    edits,
                };
                let record = self.end(engine.table, reply, results_buffer);
                Ok(Stepped::Answered(record))
            }
            Err(fault) => Err(StepError {
                fault,
                progress: self.progress,
            }),
        }
    }

    /// Whether a seat is to hold the reply.
    #[tactic(auto, unfolding(crate::specs::Views::in_progress_of))]
    fn is_to_hold(&self, table: &Table) -> bool
        ensures { result ≡ is_to_hold (in_progress_of self.now) (table_of table.now) }
    {
        table.holds(self.progress.altered) && self.is_seated(table)
    }

    /// Whether the session that runs it has a seat.
    #[tactic(auto, unfolding(crate::specs::Views::in_progress_of))]
    fn is_seated(&self, table: &Table) -> bool
        ensures { result
            ≡ is_seated (in_progress_of self.now).slot (table_of table.now).seats }
    {
        match &self.progress.slot {
            Some(id) => table.has_seat(&id.session),
            None => false,
        }
    }
}

/// The operation of this number is refused before it is run.
fn refused(operation: u32, status: Status) -> Executed
    ensures number { operation < 2 ^ 32 }
    ensures gives { result ≡ execution.Gives (outcomes.Refused operation status) effect.Stays }
{
    Executed::Gives {
        outcome: Outcome::Refused { operation, status },
        effect: Effect::Stays,
    }
}

/// Whether an operation made a change that has to last, by how many changes were counted before and
/// after it. That of a WRITE with UNSTABLE4 does not have to.
fn makes_change(before: u32, after: u32, operation: &Argument<'_>) -> bool
    ensures { result ≡ makes_change before after (argument_view operation.now) }
{
    before != after && !is_unstable(operation)
}

fn is_unstable(operation: &Argument<'_>) -> bool
    ensures { result ≡ is_unstable (argument_view operation.now) }
{
    match operation {
        Argument::Write(arguments) => !is_to_be_stable(arguments.stable),
        _ => false,
    }
}

/// An operation that ran, or was refused before it ran.
#[derive(Drop)]
struct Ran {
    /// Where the bytes after it begin.
    position: usize,
    /// Whether it made a change that has to last.
    altered: bool,
    done: Executed,
}
