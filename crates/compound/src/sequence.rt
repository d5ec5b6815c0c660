//! SEQUENCE and RECLAIM_COMPLETE (RFC 8881, sections 18.46 and 18.51).

use crate::executed::{Effect, Executed};
use crate::progress::SlotId;
use crate::reading::Reading;
use crate::results::MAX_REPLY_BYTES;
use crate::running::Running;
use disk::Device;
use model_tree::status::Status;
use session::{Begun, Table};
use wire::{Answer, Operation, Outcome, SequenceArguments};

#[tactic(auto, unfolding(crate::specs::Views::in_progress_of, model::specs::Server::World::outcome_text))]
impl Running<'_> {
    ghost use Rattle.std.specs.Prelude.{◌≡◌, ◌<◌, ◌^◌, false, nat_le, length, None};
    ghost use Rattle.model.specs.Operations.Operation as operations;
    ghost use Rattle.model.specs.Operations.Answer.{Done, ReclaimComplete as Reclaimed};
    ghost use Rattle.model.specs.Sessions.Session.{reclaim_complete};
    ghost use Rattle.model.specs.Wire.WireAnswers as answers;
    ghost use Rattle.model.specs.Server.World.{reply_with, outcome_text};
    ghost use Rattle.session.specs.Views.{table_of};
    ghost use Rattle.wire.specs.ArgumentViews.{sequence_view};
    ghost use Rattle.compound.specs.Operates.{ChangesTable, HasResult, IsAnswered};
    ghost use Rattle.compound.specs.Views.{in_progress_of};

    /// SEQUENCE. If a slot runs the COMPOUND, its client is that of the session from then on.
    pub(crate) fn sequence(&self, table: &mut Table, arguments: &SequenceArguments) -> Executed
        requires first { (in_progress_of self.now).answered ≡ 0 }
        ensures gives { ChangesTable (table_of table.old) (table_of table.new)
            (in_progress_of self.now) (operations.Argument.Sequence (sequence_view arguments.now))
            result }
        ensures answered { IsAnswered (in_progress_of self.now) result }
    {
        let slot = SlotId {
            session: arguments.session,
            slot: arguments.slot,
        };
        match table.begin(self.cred.uid, self.compound.count, arguments) {
            Ok(Begun::Runs { client, answer }) => {
                self.answer_first(Answer::Sequence(answer), Effect::Joins { slot, client })
            }
            Ok(Begun::Replays) => Executed::Replays(slot),
            Err(status) => self.refuse(Operation::Sequence, status),
        }
    }

    /// RECLAIM_COMPLETE for all file systems. Nothing changes if the reply has no room for its
    /// result.
    fn reclaim_all(&self, table: &mut Table) -> Executed
        ensures gives { ChangesTable (table_of table.old) (table_of table.new)
            (in_progress_of self.now) (operations.Argument.ReclaimComplete false) result }
        ensures answered { HasResult (in_progress_of self.now) result }
    {
        match table.check_reclaim(self.progress.client) {
            Ok(()) => self.reclaim_in_room(table),
            Err(status) => self.refuse(Operation::ReclaimComplete, status),
        }
    }

    /// The same, if nothing except room may refuse it.
    fn reclaim_in_room(&self, table: &mut Table) -> Executed
        requires { (reclaim_complete (in_progress_of self.now).context.client
            (table_of table.old)).0 ≡ None }
        ensures gives { ChangesTable (table_of table.old) (table_of table.new)
            (in_progress_of self.now) (operations.Argument.ReclaimComplete false) result }
        ensures answered { HasResult (in_progress_of self.now) result }
    {
        if !self.has_reclaim_room() {
            return self.refuse(Operation::ReclaimComplete, Status::RepTooBig);
        }
        match table.reclaim_complete(self.progress.client) {
            Ok(()) => Executed::Gives {
                outcome: Outcome::Done(Answer::ReclaimComplete),
                effect: Effect::Stays,
            },
            Err(_) => unreachable!(),
        }
    }

    /// Whether the reply has room for the answer of RECLAIM_COMPLETE.
    fn has_reclaim_room(&self) -> bool
        ensures room { result
            ≡ nat_le (length (reply_with (in_progress_of self.now) (Done Reclaimed)))
            MAX_REPLY_BYTES }
        ensures fits { answers.outcome.Fits (Done Reclaimed) }
        ensures small { length (outcome_text (Done Reclaimed)) < 2 ^ 63 }
    {
        self.has_room(&Outcome::short(Answer::ReclaimComplete))
    }
}

#[tactic(auto, unfolding(crate::specs::Views::in_progress_of, model::specs::Server::World::outcome_text))]
impl<D: Device> Reading<'_, '_, D> {
    ghost use Rattle.std.specs.Prelude.{ℕ, true};
    ghost use Rattle.model.specs.Operations.Operation as operations;
    ghost use Rattle.model.specs.Sessions.Opens.{Opens};
    ghost use Rattle.session.specs.Views.{table_of};
    ghost use Rattle.compound.specs.Operates.{Operates, HasResult};
    ghost use Rattle.compound.specs.Readings.{ReadsAs, files_read, request_read};
    ghost use Rattle.compound.specs.States.{shared};

    /// RECLAIM_COMPLETE.
    pub(crate) fn reclaim(&self, table: &mut Table, one_fs: bool) -> Executed
        ensures gives { (now : ℕ) (opens : Opens)
            → Operates now (shared (files_read self.now) (table_of table.old) opens)
            (shared (files_read self.now) (table_of table.new) opens) (request_read self.now)
            (operations.Argument.ReclaimComplete one_fs) result }
        ensures answered { HasResult (request_read self.now) result }
    {
        if one_fs {
            self.reclaim_one()
        } else {
            self.running.reclaim_all(table)
        }
    }

    /// RECLAIM_COMPLETE for the file system of the current filehandle: it changes nothing, and may
    /// be repeated.
    fn reclaim_one(&self) -> Executed
        ensures { ReadsAs self.now (operations.Argument.ReclaimComplete true) result }
    {
        match self.check_current() {
            Ok(()) => self.running.settle(Answer::ReclaimComplete, Effect::Stays),
            Err(status) => self.running.refuse(Operation::ReclaimComplete, status),
        }
    }
}
