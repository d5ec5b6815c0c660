//! A reply up to its result (RFC 5531, sections 9 and 11).

ghost use Rattle.std.specs.Prelude.{◌≡◌, None};
ghost use Rattle.std.specs.Option.{option_map};
ghost use Rattle.xdr.specs.Clauses.{Scans};
ghost use Rattle.model.specs.Wire.RpcGrammar.{acceptance, accepted, denial, verdict, reply_head, read_reply};
ghost use Rattle.client.specs.Replies.{message_of, told_by};
ghost use Rattle.client.specs.Views.{acceptance_view, denial_view, verdict_view, head_view, message_view, told_result};

use rpc::{LAST_FRAGMENT, NFS_VERSION, REPLY, RPC_VERSION};
use xdr::{Reader, Refusal};

/// The accept statuses.
#[derive(Clone, Copy)]
pub enum Acceptance {
    Tells,
    NoProgram,
    OtherProgram,
    NoProcedure,
    NoArguments,
}

/// Why a call is denied.
#[derive(Clone, Copy)]
pub enum Denial {
    OtherRpc,
    Unauthenticated(u32),
}

/// Whether a call is accepted.
#[derive(Clone, Copy)]
pub enum Verdict {
    Accepts(Acceptance),
    Denies(Denial),
}

/// The front of a reply.
#[derive(Clone, Copy)]
pub struct Head {
    pub xid: u32,
    pub verdict: Verdict,
}

/// A reply: its xid, and the result, if it has one.
#[derive(Clone, Copy)]
pub struct Message<'a> {
    pub xid: u32,
    pub result: Option<&'a [u8]>,
}

/// The message in a record of one fragment.
#[tactic(auto, unfolding(crate::specs::Replies::message_of))]
pub(crate) fn message_of(bytes: &[u8]) -> Option<&[u8]>
    ensures { message_of bytes.now ≡ told_result result }
{
    let mut at = Reader::new(bytes);
    let Ok(header) = at.read_u32() else {
        return None;
    };
    let message = at.rest();
    if message.len() >= LAST_FRAGMENT as usize
        || u64::from(header) != u64::from(LAST_FRAGMENT) + message.len() as u64
    {
        return None;
    }
    Some(message)
}

/// The reply that a message is.
#[tactic(auto, unfolding(model::specs::Wire::RpcGrammar::read_reply))]
pub(crate) fn read_message(message: &[u8]) -> Option<Message<'_>>
    ensures { told_by (read_reply message.now) ≡ option_map message_view result }
{
    let mut at = Reader::new(message);
    let Ok(head) = read_head(&mut at) else {
        return None;
    };
    let xid = head.xid;
    if let Verdict::Accepts(Acceptance::Tells) = head.verdict {
        let result = Some(at.rest());
        return Some(Message { xid, result });
    }
    if !at.is_empty() {
        return None;
    }
    Some(Message { xid, result: None })
}

fn read_head(r: &mut Reader<'_>) -> Result<Head, Refusal>
    ensures { Scans head_view (reply_head.read) r.old r.new result }
{
    let mut at = r.fork();
    let xid = at.read_u32()?;
    at.read_always(REPLY)?;
    let verdict = read_verdict(&mut at)?;
    *r = at;
    Ok(Head { xid, verdict })
}

fn read_verdict(r: &mut Reader<'_>) -> Result<Verdict, Refusal>
    ensures { Scans verdict_view (verdict.read) r.old r.new result }
{
    let mut at = r.fork();
    let verdict = match at.read_u32()? {
        0 => Verdict::Accepts(read_accepted(&mut at)?),
        1 => Verdict::Denies(read_denial(&mut at)?),
        _ => return Err(Refusal::Value),
    };
    *r = at;
    Ok(verdict)
}

/// The verifier is AUTH_NONE, of length 0.
fn read_accepted(r: &mut Reader<'_>) -> Result<Acceptance, Refusal>
    ensures { Scans acceptance_view (accepted.read) r.old r.new result }
{
    let mut at = r.fork();
    at.read_always(0)?;
    at.read_always(0)?;
    let acceptance = read_acceptance(&mut at)?;
    *r = at;
    Ok(acceptance)
}

fn read_acceptance(r: &mut Reader<'_>) -> Result<Acceptance, Refusal>
    ensures { Scans acceptance_view (acceptance.read) r.old r.new result }
{
    let mut at = r.fork();
    let acceptance = match at.read_u32()? {
        0 => Acceptance::Tells,
        1 => Acceptance::NoProgram,
        2 => {
            at.read_always(NFS_VERSION)?;
            at.read_always(NFS_VERSION)?;
            Acceptance::OtherProgram
        }
        3 => Acceptance::NoProcedure,
        4 => Acceptance::NoArguments,
        _ => return Err(Refusal::Value),
    };
    *r = at;
    Ok(acceptance)
}

fn read_denial(r: &mut Reader<'_>) -> Result<Denial, Refusal>
    ensures { Scans denial_view (denial.read) r.old r.new result }
{
    let mut at = r.fork();
    let denial = match at.read_u32()? {
        0 => {
            at.read_always(RPC_VERSION)?;
            at.read_always(RPC_VERSION)?;
            Denial::OtherRpc
        }
        1 => Denial::Unauthenticated(at.read_u32()?),
        _ => return Err(Refusal::Value),
    };
    *r = at;
    Ok(denial)
}
