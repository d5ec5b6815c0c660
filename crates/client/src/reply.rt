//! What a record of bytes is as a reply to the last record.

ghost use Rattle.std.specs.Prelude.{◌≡◌, ◌≢◌, ◌<◌, length, map, IfOk, IfErr};
ghost use Rattle.model_tree.specs.declared.status.Status.TheVariants as status;
ghost use Rattle.model.specs.Wire.Results.{compound_result};
ghost use Rattle.wire.specs.OutcomeView.{outcome_view};
ghost use Rattle.xdr.specs.declared.refusal.Refusal.TheVariants.{Memory};
ghost use Rattle.client.specs.Replies.{reply_read, result_by};
ghost use Rattle.client.specs.Views.{sent_of, read_view, HasResult, IsStatus};

use crate::fault::ClientFault;
use crate::head::{message_of, read_message};
use crate::results::{ending, read_result};
use crate::sent::Sent;
use model_tree::status::Status;
use std::alloc::Global;
use wire::Outcome;
use xdr::{Reader, Refusal};

/// What a record of bytes is as a reply.
#[derive(Drop)]
pub enum ReplyRead<'a> {
    /// No reply to the record.
    NoReply,
    /// The call was denied, or not accepted.
    Rejects,
    /// The results, of which the last has this status.
    Gives(Vec<Outcome<'a>>, Status),
}

/// What the bytes, a record of one fragment with its header, are as a reply to what was sent.
#[tactic(auto, unfolding(crate::specs::Replies::reply_read))]
pub(crate) fn read_reply<'a>(
    alloc: Global,
    tag: &[u8],
    sent: &Sent,
    bytes: &'a [u8],
) -> Result<ReplyRead<'a>, Refusal>
    ensures read { IfOk result (λ read.
        reply_read tag.now (sent_of sent.now) bytes.now ≡ read_view read) }
    ensures some { IfOk result HasResult }
    ensures err { IfErr result (λ e. e ≡ Memory) }
{
    let Some(message) = message_of(bytes) else {
        return Ok(ReplyRead::NoReply);
    };
    let Some(told) = read_message(message) else {
        return Ok(ReplyRead::NoReply);
    };
    if told.xid != sent.xid {
        return Ok(ReplyRead::NoReply);
    }
    match told.result {
        Some(result) => read_results(alloc, tag, &sent.operations, result),
        None => Ok(ReplyRead::Rejects),
    }
}

/// What the result of a COMPOUND is to these operations.
fn read_results<'a>(
    alloc: Global,
    tag: &[u8],
    operations: &[u32],
    bytes: &'a [u8],
) -> Result<ReplyRead<'a>, Refusal>
    ensures read { IfOk result (λ read. result_by tag.now operations.now
        (compound_result.read bytes.now) ≡ read_view read) }
    ensures some { IfOk result HasResult }
    ensures err { IfErr result (λ e. e ≡ Memory) }
{
    let mut at = Reader::new(bytes);
    let found = match read_result(alloc, &mut at) {
        Ok(found) => found,
        Err(Refusal::Memory) => return Err(Refusal::Memory),
        Err(_) => return Ok(ReplyRead::NoReply),
    };
    if !at.is_empty() || found.tag != tag {
        return Ok(ReplyRead::NoReply);
    }
    match ending(operations, &found.results) {
        Some(last) if last.code() == found.code => Ok(ReplyRead::Gives(found.results, last)),
        _ => Ok(ReplyRead::NoReply),
    }
}

/// The results, or the status of the last one with those before it.
pub(crate) fn results_or_status(
    results: Vec<Outcome<'_>>,
    last: Status,
) -> Result<Vec<Outcome<'_>>, ClientFault<'_>>
    requires { 0 < length results.items }
    ensures ok { IfOk result (λ all. (all.items ≡ results.entry.items) × (last ≡ status.Ok)) }
    ensures err { IfErr result (λ e.
        (last ≢ status.Ok) × IsStatus (map outcome_view results.entry.items) last e) }
{
    if matches!(last, Status::Ok) {
        return Ok(results);
    }
    let mut before = results;
    let _last = before.pop();
    Err(ClientFault::Status {
        index: before.len(),
        status: last,
        before,
    })
}
