//! Replies (RFC 5531, section 9; RFC 8881, section 16.2).
//!
//! No write fails if memory was reserved for it. A failed one may leave a prefix of its text.

ghost use Rattle.std.specs.Prelude.{◌≡◌, ℕ, ◌+◌, ◌<◌, ◌^◌, ◌∷◌, ◌++◌, [], length, IfOk, OnErr, IfErr};
ghost use Rattle.xdr.specs.Clauses.{Wrote};
ghost use Rattle.xdr.specs.declared.refusal.Refusal.TheVariants.{Memory};
ghost use Rattle.model.specs.Wire.Record.{framed};
ghost use Rattle.model.specs.Wire.Rpc.{words, reply_text};
ghost use Rattle.rpc.specs.Views.{reply_view, result_text, success_head, compound_prefix, frame_header, prefix_of, tail_of};

use crate::numbers::{LAST_FRAGMENT, NFS_VERSION, REPLY, RPC_VERSION};
use crate::tag::Tag;
use model_tree::status::Status;
use xdr::{Refusal, Writer, opaque_size};

/// Why a caller's authentication is refused.
#[derive(Clone, Copy, PartialEq, Eq)]
pub enum AuthStat {
    BadCredential = 1,
    TooWeak = 5,
}

/// The result of a COMPOUND (RFC 8881, section 16.2).
#[derive(Clone, Copy)]
pub struct CompoundResult<'a> {
    /// The status of the last operation that ran.
    pub status: Status,
    pub tag: Tag<'a>,
    /// How many results there are.
    pub count: u32,
    /// The bytes of all of them.
    pub results: &'a [u8],
}

/// A reply.
#[derive(Clone, Copy)]
pub enum Reply<'a> {
    /// Denied: RPC versions 2 to 2 are spoken.
    VersionRefused,
    /// Denied: the caller's authentication is refused.
    AuthRefused(AuthStat),
    /// There is no such program.
    ProgramUnavailable,
    /// Versions 4 to 4 of the program are served.
    ProgramMismatch,
    /// There is no such procedure.
    ProcedureUnavailable,
    /// The arguments cannot be read.
    GarbageArguments,
    /// The encoded result of a procedure: no bytes if it is NULL.
    Success(&'a [u8]),
    /// The result of a COMPOUND.
    Compound(CompoundResult<'a>),
}

/// The accept statuses.
const SUCCESS: u32 = 0;

const PROG_UNAVAIL: u32 = 1;

const PROG_MISMATCH: u32 = 2;

const PROC_UNAVAIL: u32 = 3;

const GARBAGE_ARGS: u32 = 4;

impl CompoundResult<'_> {
    /// How many bytes it has.
    #[tactic(auto, unfolding(model::specs::Wire::Rpc::compound_text, xdr::specs::Grammar::number))]
    pub fn size(&self) -> usize
        ensures value { result ≡ length (result_text self.now) }
        ensures bound { result < 2 ^ 63 + 2 ^ 33 }
    {
        8 + opaque_size(self.tag.bytes) + self.results.len()
    }

    /// Writes its bytes after those of `out`: fails only if `out` has no memory for them.
    pub fn write(&self, out: Writer) -> Result<Vec<u8>, Refusal>
        ensures ok { IfOk result (λ bytes. bytes.items ≡ out.bytes ++ result_text self.now) }
        ensures full { OnErr result
            (out.capacity < length out.bytes + length (result_text self.now)) }
        ensures err { IfErr result (λ refusal. refusal ≡ Memory) }
    {
        let mut out = out;
        write_compound_head(&mut out, self.status, self.tag, self.count)?;
        append_to(out, self.results)
    }
}

impl<'a> Reply<'a> {
    /// How many bytes it has.
    #[tactic(auto, unfolding(model::specs::Wire::Rpc::reply_text, xdr::specs::Grammar::number))]
    pub fn size(&self) -> usize
        ensures { (xid : ℕ) → result ≡ length (reply_text xid (reply_view self.now)) }
    {
        match self {
            Reply::AuthRefused(_) => 20,
            Reply::VersionRefused
            | Reply::ProgramUnavailable
            | Reply::ProcedureUnavailable
            | Reply::GarbageArguments => 24,
            Reply::ProgramMismatch => 32,
            Reply::Success(result_bytes) => 24 + result_bytes.len(),
            Reply::Compound(compound) => 24 + compound.size(),
        }
    }

    /// The bytes that it has as they are.
    fn tail(&self) -> &'a [u8]
        ensures { result.now ≡ tail_of self.now }
    {
        match self {
            Reply::Success(result_bytes) => result_bytes,
            Reply::Compound(compound) => compound.results,
            _ => &[],
        }
    }
}

/// Writes the record of a reply, as it is sent, after the bytes of `out`: one fragment (RFC 5531,
/// section 11). It fails only if `out` has no memory for it.
pub fn write_reply(out: Writer, xid: u32, reply: &Reply<'_>) -> Result<Vec<u8>, Refusal>
    requires { length (tail_of reply.now) < 2 ^ 30 }
    ensures ok { IfOk result (λ bytes.
        bytes.items ≡ out.bytes ++ framed (reply_text xid (reply_view reply.now))) }
    ensures full { OnErr result (out.capacity
        < length out.bytes + length (framed (reply_text xid (reply_view reply.now)))) }
    ensures err { IfErr result (λ refusal. refusal ≡ Memory) }
{
    let mut out = out;
    write_prefix(&mut out, reply.size() as u32, xid, reply)?;
    append_to(out, reply.tail())
}

/// The bytes of `out`, and others after them.
fn append_to(out: Writer, tail: &[u8]) -> Result<Vec<u8>, Refusal>
    ensures ok { IfOk result (λ bytes. bytes.items ≡ out.bytes ++ tail.now) }
    ensures full { OnErr result (out.capacity < length out.bytes + length tail.now) }
    ensures err { IfErr result (λ refusal. refusal ≡ Memory) }
{
    let mut bytes = out.into_vec();
    bytes.extend_from_slice(tail)?;
    Ok(bytes)
}

/// Writes a record's header, and the reply up to the bytes that it has as they are.
#[tactic(auto, using(xdr::proofs::Writing::wrote_on, xdr::proofs::Writing::wrote_exit, xdr::proofs::Writing::wrote_end))]
fn write_prefix(w: &mut Writer, size: u32, xid: u32, reply: &Reply<'_>) -> Result<(), Refusal>
    requires { size < 2 ^ 31 }
    ensures { Wrote w.old w.new result (frame_header size ++ prefix_of xid reply.now) }
{
    write_frame_header(w, size)?;
    write_body(w, xid, reply)
}

fn write_body(w: &mut Writer, xid: u32, reply: &Reply<'_>) -> Result<(), Refusal>
    ensures { Wrote w.old w.new result (prefix_of xid reply.now) }
{
    match reply {
        Reply::VersionRefused => write_words(w, &[xid, REPLY, 1, 0, RPC_VERSION, RPC_VERSION]),
        Reply::AuthRefused(stat) => write_words(w, &[xid, REPLY, 1, 1, *stat as u32]),
        Reply::ProgramUnavailable => write_accepted(w, xid, PROG_UNAVAIL),
        Reply::ProgramMismatch => write_words(
            w,
            &[xid, REPLY, 0, 0, 0, PROG_MISMATCH, NFS_VERSION, NFS_VERSION],
        ),
        Reply::ProcedureUnavailable => write_accepted(w, xid, PROC_UNAVAIL),
        Reply::GarbageArguments => write_accepted(w, xid, GARBAGE_ARGS),
        Reply::Success(_) => write_success(w, xid),
        Reply::Compound(compound) => write_compound_prefix(w, xid, compound),
    }
}

/// Writes a successful reply up to its result.
fn write_success(w: &mut Writer, xid: u32) -> Result<(), Refusal>
    ensures { Wrote w.old w.new result (success_head xid) }
{
    write_accepted(w, xid, SUCCESS)
}

/// Writes a COMPOUND's result up to the results of its operations: status, tag, and their number.
#[tactic(auto, using(xdr::proofs::Writing::wrote_on, xdr::proofs::Writing::wrote_exit, xdr::proofs::Writing::wrote_end))]
fn write_compound_head(
    w: &mut Writer,
    status: Status,
    tag: Tag<'_>,
    count: u32,
) -> Result<(), Refusal>
    ensures { Wrote w.old w.new result (compound_prefix status tag.entry.bytes.now count) }
{
    w.write_u32(status.code())?;
    w.write_opaque(tag.bytes)?;
    w.write_u32(count)
}

/// Writes the header of a record of `size` bytes that is sent as one fragment (RFC 5531, section
/// 11).
pub fn write_frame_header(w: &mut Writer, size: u32) -> Result<(), Refusal>
    requires { size < 2 ^ 31 }
    ensures { Wrote w.old w.new result (frame_header size) }
{
    w.write_u32(LAST_FRAGMENT + size)
}

#[tactic(auto, using(xdr::proofs::Writing::wrote_on, xdr::proofs::Writing::wrote_exit, xdr::proofs::Writing::wrote_end))]
fn write_compound_prefix(
    w: &mut Writer,
    xid: u32,
    compound: &CompoundResult<'_>,
) -> Result<(), Refusal>
    ensures { Wrote w.old w.new result
        (success_head xid ++ compound_prefix compound.now.status compound.now.tag.bytes.now
        compound.now.count) }
{
    write_success(w, xid)?;
    write_compound_head(w, compound.status, compound.tag, compound.count)
}

/// An accepted reply up to its accept status, with a verifier of AUTH_NONE without bytes.
fn write_accepted(w: &mut Writer, xid: u32, accept_status: u32) -> Result<(), Refusal>
    ensures { Wrote w.old w.new result (words (xid ∷ 1 ∷ 0 ∷ 0 ∷ 0 ∷ accept_status ∷ [])) }
{
    write_words(w, &[xid, REPLY, 0, 0, 0, accept_status])
}

fn write_words(w: &mut Writer, numbers: &[u32]) -> Result<(), Refusal>
    ensures { Wrote w.old w.new result (words numbers.now) }
{
    for number in numbers {
        w.write_u32(*number)?;
    }
    Ok(())
}
