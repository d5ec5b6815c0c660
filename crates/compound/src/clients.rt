//! The operations on clients and sessions (RFC 8881, sections 18.35 to 18.37 and 18.50).

ghost use Rattle.std.specs.Prelude.{◌≡◌, ◌≤◌, [], length};
ghost use Rattle.model.specs.Wire.WireAnswers.{exchange_id_answer};
ghost use Rattle.wire.specs.AnswerViews.{exchange_id_view as answer_view};

use crate::engine::Engine;
use crate::executed::{Effect, Executed};
use crate::fault::Fault;
use crate::held_replies::put_seats;
use crate::profile::limits_by;
use crate::running::Running;
use disk::Device;
use layout::versions::VersionNumber;
use model::not_done::NotDone;
use opens::Opens;
use session::{Creation, Table};
use wire::{Answer, CreateSessionArguments, ExchangeIdAnswer, ExchangeIdArguments, Operation};
use xdr::Writer;

/// The most bytes of an EXCHANGE_ID result after its status: two names of 1,024 bytes, and numbers.
const IDENTITY_BYTES: usize = 2_088;

#[tactic(auto, unfolding(crate::specs::Views::in_progress_of))]
impl Running<'_> {
    ghost use Rattle.std.specs.Prelude.{◌≡◌};
    ghost use Rattle.layout.specs.Versions.{IsServed};
    ghost use Rattle.layout.specs.declared.versions.VersionNumber.{VersionNumber as Version};
    ghost use Rattle.model.specs.Operations.Operation as operations;
    ghost use Rattle.session.specs.Views.{table_of};
    ghost use Rattle.wire.specs.ArgumentViews.{exchange_id_view, create_session_view};
    ghost use Rattle.opens.specs.Views.{opens_of};
    ghost use Rattle.compound.specs.Engines.{ChangesClients, Runs, files_in, state_in};
    ghost use Rattle.compound.specs.States.{CanSeat};
    ghost use Rattle.compound.specs.Views.{in_progress_of};

    /// EXCHANGE_ID to a server whose volume has this version. After `Memory` the table is as it
    /// was.
    pub(crate) fn exchange_id(
        &self,
        version: VersionNumber,
        table: &mut Table,
        opens: &Opens,
        arguments: &ExchangeIdArguments<'_>,
    ) -> Result<Executed, Fault>
        requires first { (in_progress_of self.now).answered ≡ 0 }
        requires served { IsServed version }
        ensures { ChangesClients version (table_of table.old) (table_of table.new)
            (opens_of opens.now) (in_progress_of self.now)
            (operations.Argument.ExchangeId (exchange_id_view arguments.now)) result }
    {
        let with_opens = opens.clients(self.alloc)?;
        let memory = Writer::with_capacity(self.alloc, IDENTITY_BYTES)?;
        let limits = limits_by(version);
        match table.exchange_id(limits, self.cred.uid, arguments, &with_opens) {
            Ok(exchanged) => {
                let values = encode(&table.identity_answer(exchanged), memory);
                Ok(self.answer_first_encoded(Operation::ExchangeId, values))
            }
            Err(NotDone::Status(status)) => Ok(self.refuse(Operation::ExchangeId, status)),
            Err(NotDone::Memory) => Err(Fault::Memory),
        }
    }

    /// CREATE_SESSION: the volume first keeps the seats that it leaves, and the opens of a client
    /// that ends with it end too. After `Memory` nothing changed.
    pub(crate) fn create_session<D: Device>(
        &self,
        engine: &mut Engine<'_, D>,
        arguments: &CreateSessionArguments<'_>,
    ) -> Result<Executed, Fault>
        requires first { (in_progress_of self.now).answered ≡ 0 }
        requires ready { CanSeat D.keeps_word (files_in engine.old) (state_in engine.old).table }
        ensures { Runs engine.old engine.new (in_progress_of self.now)
            (operations.Argument.CreateSession (create_session_view arguments.now)) result }
    {
        let limits = limits_by(engine.fs.version());
        match engine.table.plan_session(limits, self.cred.uid, arguments) {
            Ok(Creation::New(plan)) => {
                let done = self.answer_first(Answer::CreateSession(plan.answer), Effect::Stays);
                put_seats(engine.fs, &plan.edits)?;
                let created = engine.table.add_session(plan);
                engine.opens.remove_clients(&created.ended);
                Ok(done)
            }
            Ok(Creation::Again(answer)) => {
                Ok(self.answer_first(Answer::CreateSession(answer), Effect::Stays))
            }
            Err(NotDone::Status(status)) => Ok(self.refuse(Operation::CreateSession, status)),
            Err(NotDone::Memory) => Err(Fault::Memory),
        }
    }

    /// DESTROY_SESSION: the volume frees the seat first. After `Memory` nothing changed.
    pub(crate) fn destroy_session<D: Device>(
        &self,
        engine: &mut Engine<'_, D>,
        id: &[u8; 16],
    ) -> Result<Executed, Fault>
        requires first { (in_progress_of self.now).answered ≡ 0 }
        requires ready { CanSeat D.keeps_word (files_in engine.old) (state_in engine.old).table }
        ensures { Runs engine.old engine.new (in_progress_of self.now)
            (operations.Argument.DestroySession id.now) result }
    {
        match engine.table.plan_end(id) {
            Ok(edits) => {
                let done = self.answer_first(Answer::DestroySession, Effect::Stays);
                put_seats(engine.fs, &edits)?;
                engine.table.end_session(id, edits);
                Ok(done)
            }
            Err(NotDone::Status(status)) => Ok(self.refuse(Operation::DestroySession, status)),
            Err(NotDone::Memory) => Err(Fault::Memory),
        }
    }

    /// DESTROY_CLIENTID. After `Memory` the table is as it was.
    pub(crate) fn destroy_clientid(
        &self,
        table: &mut Table,
        opens: &Opens,
        client: u64,
    ) -> Result<Executed, Fault>
        requires first { (in_progress_of self.now).answered ≡ 0 }
        ensures { (version : Version) → ChangesClients version (table_of table.old)
            (table_of table.new) (opens_of opens.now) (in_progress_of self.now)
            (operations.Argument.DestroyClientId client) result }
    {
        let with_opens = opens.clients(self.alloc)?;
        match table.destroy_clientid(client, &with_opens) {
            Ok(()) => Ok(self.answer_first(Answer::DestroyClientId, Effect::Stays)),
            Err(status) => Ok(self.refuse(Operation::DestroyClientId, status)),
        }
    }
}

/// The answer's bytes, in memory that was allocated before.
#[tactic(auto, using(crate::proofs::Identity::identity_short))]
fn encode(answer: &ExchangeIdAnswer<'_>, memory: Writer) -> Vec<u8>
    requires names { (length answer.now.major_id.now ≤ 1024) × (length answer.now.scope.now ≤ 1024) }
    requires memory { (memory.bytes ≡ []) × (IDENTITY_BYTES ≤ memory.capacity) }
    ensures values { result.items ≡ exchange_id_answer.encoding (answer_view answer.now) }
    ensures short { length result.items ≤ IDENTITY_BYTES }
{
    let mut out = memory;
    match answer.write(&mut out) {
        Ok(()) => out.into_vec(),
        Err(_) => unreachable!(),
    }
}
