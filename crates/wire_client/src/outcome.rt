//! Results of a COMPOUND (RFC 8881, section 18).

ghost use Rattle.xdr.specs.Clauses.{Accepts, Scans, ReadsBy};
ghost use Rattle.xdr.specs.Laws.{IsBytes};
ghost use Rattle.model.specs.Wire.WireAnswers.{outcome, refusal_of, refused_by};
ghost use Rattle.wire.specs.Numbers.{number_of};
ghost use Rattle.wire.specs.OutcomeView.{answer_view, outcome_view};
ghost use Rattle.wire_client.specs.Reading.{answers_at};

use crate::answers::{
    read_access, read_create, read_create_session, read_data, read_exchange_id, read_listing,
    read_open, read_rename, read_sequence, read_written,
};
use crate::small::{read_answered, read_change};
use crate::status::refusal_of_number;
use std::alloc::Global;
use wire::{Answer, MAX_HANDLE_BYTES, Operation, Outcome, StateId, read_trimmed};
use xdr::{Reader, Refusal};

/// Reads a result: an operation's number, its status, and the values after it (`nfs_resop4`).
///
/// What is read is exactly its encoding; an error other than `Memory` is returned only if no prefix
/// of the bytes is one.
#[tactic(auto, using(crate::proofs::Accepted::outcome_accepted))]
pub fn read_outcome<'a>(alloc: Global, r: &mut Reader<'a>) -> Result<Outcome<'a>, Refusal>
    ensures accepts { Accepts outcome_view outcome r.old r.new result }
    ensures reads { ReadsBy outcome_view (outcome.read) r.old r.new result }
{
    read_numbered(alloc, r)
}

#[tactic(auto, unfolding(model::specs::Wire::WireAnswers::outcome_at, crate::specs::Reading::answers_at))]
fn read_numbered<'a>(alloc: Global, r: &mut Reader<'a>) -> Result<Outcome<'a>, Refusal>
    ensures reads { ReadsBy outcome_view (outcome.read) r.old r.new result }
    ensures bytes { IsBytes r.old }
{
    let mut at = r.fork();
    let number = at.read_u32()?;
    let code = at.read_u32()?;
    let result = if code == 0 {
        Outcome::Done(read_answer(alloc, number, &mut at)?)
    } else {
        read_refused(number, code, &mut at)?
    };
    *r = at;
    Ok(result)
}

/// After the status of a failed SETATTR there is an empty bitmap (RFC 8881, section 18.30).
fn read_refused<'a>(operation: u32, code: u32, r: &mut Reader<'a>) -> Result<Outcome<'a>, Refusal>
    ensures { Scans outcome_view (λ bytes. refused_by operation
        (refusal_of code) bytes) r.old r.new result }
{
    let Some(status) = refusal_of_number(code) else {
        return Err(Refusal::Value);
    };
    if operation == Operation::SetAttr.number() {
        r.read_always(0)?;
    }
    Ok(Outcome::Refused { operation, status })
}

#[tactic(auto, using(crate::proofs::Accepted::no_answer))]
fn read_answer<'a>(alloc: Global, number: u32, r: &mut Reader<'a>) -> Result<Answer<'a>, Refusal>
    ensures { ReadsBy answer_view (answers_at number) r.old r.new result }
{
    let Some(operation) = Operation::from_number(number) else {
        return Err(Refusal::Value);
    };
    read_values(alloc, operation, r)
}

/// Reads what follows the status OK of an operation.
#[tactic(auto, unfolding(crate::specs::Reading::answers_at))]
fn read_values<'a>(
    alloc: Global,
    operation: Operation,
    r: &mut Reader<'a>,
) -> Result<Answer<'a>, Refusal>
    ensures { ReadsBy answer_view (answers_at (number_of operation)) r.old r.new result }
{
    let mut at = r.fork();
    let answer = match operation {
        Operation::Access => Answer::Access(read_access(&mut at)?),
        Operation::Close => Answer::Close(StateId::read(&mut at)?),
        Operation::Commit => Answer::Commit(at.read_array()?),
        Operation::Create => Answer::Create(read_create(&mut at)?),
        Operation::GetAttr => Answer::GetAttr(read_answered(&mut at)?),
        Operation::GetFh => Answer::GetFh(at.read_opaque(MAX_HANDLE_BYTES)?),
        Operation::Lookup => Answer::Lookup,
        Operation::LookupParent => Answer::LookupParent,
        Operation::Open => Answer::Open(read_open(&mut at)?),
        Operation::PutFh => Answer::PutFh,
        Operation::PutRootFh => Answer::PutRootFh,
        Operation::Read => Answer::Read(read_data(&mut at)?),
        Operation::ReadDir => Answer::ReadDir(read_listing(alloc, &mut at)?),
        Operation::Remove => Answer::Remove(read_change(&mut at)?),
        Operation::Rename => Answer::Rename(read_rename(&mut at)?),
        Operation::RestoreFh => Answer::RestoreFh,
        Operation::SaveFh => Answer::SaveFh,
        Operation::SetAttr => Answer::SetAttr(read_trimmed(&mut at)?),
        Operation::Write => Answer::Write(read_written(&mut at)?),
        Operation::ExchangeId => Answer::ExchangeId(read_exchange_id(&mut at)?),
        Operation::CreateSession => Answer::CreateSession(read_create_session(&mut at)?),
        Operation::DestroySession => Answer::DestroySession,
        Operation::Sequence => Answer::Sequence(read_sequence(&mut at)?),
        Operation::DestroyClientId => Answer::DestroyClientId,
        Operation::ReclaimComplete => Answer::ReclaimComplete,
    };
    *r = at;
    Ok(answer)
}
