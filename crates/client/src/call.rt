//! The record of a COMPOUND (RFC 5531, sections 9 and 11; RFC 8881, section 16.2).

ghost use Rattle.std.specs.Prelude.{◌≡◌, ◌+◌, ◌<◌, ◌≤◌, length, map, All, IfOk, IfErr};
ghost use Rattle.std.specs.List.{flat_map};
ghost use Rattle.std.specs.Int.{w32};
ghost use Rattle.xdr.specs.Clauses.{Wrote};
ghost use Rattle.xdr.specs.Grammar.{number};
ghost use Rattle.xdr.specs.Forms.{elements};
ghost use Rattle.xdr.specs.declared.refusal.Refusal.TheVariants.{Memory};
ghost use Rattle.model.specs.Wire.Record.{framed};
ghost use Rattle.model.specs.Wire.Rpc.{opaque_auth, compound_head};
ghost use Rattle.model.specs.Wire.RpcGrammar.{call_head};
ghost use Rattle.wire.specs.ArgumentView.{argument_view};
ghost use Rattle.wire_client.specs.ArgumentFits.{ArgumentFits};
ghost use Rattle.client.specs.Requests.{credential_text, compound_call, head_text, operations_text};
ghost use Rattle.client.specs.Rests.{ids_text, procedure_text, auths_text};

use model_tree::acl::{Cred, Gids};
use rpc::{
    AUTH_NONE, AUTH_SYS, CALL, COMPOUND, MAX_AUTH_BYTES, MAX_TAG_BYTES, MINOR_VERSION, NFS_VERSION,
    PROGRAM, RPC_VERSION, write_frame_header,
};
use std::alloc::Global;
use wire::Argument;
use wire_client::write_argument;
use xdr::{Refusal, Writer};

/// A record of one fragment has less bytes than this (RFC 5531, section 11).
pub(crate) const RECORD_LIMIT: usize = 1 << 31;

/// The body of the credential of this caller: AUTH_SYS, with the stamp 0 and no machine name.
pub(crate) fn credential_body(alloc: Global, cred: &Cred) -> Result<Vec<u8>, Refusal>
    ensures body { IfOk result (λ body. body.items ≡ credential_text cred.now) }
    ensures short { IfOk result (λ body. length body.items ≤ MAX_AUTH_BYTES) }
    ensures err { IfErr result (λ e. e ≡ Memory) }
{
    let Ok(mut body) = Writer::with_capacity(alloc, 20 + 4 * cred.gids.as_slice().len()) else {
        return Err(Refusal::Memory);
    };
    write_credential(&mut body, cred)?;
    Ok(body.into_vec())
}

#[tactic(auto, using(xdr::proofs::Writing::wrote_on, xdr::proofs::Writing::wrote_exit, xdr::proofs::Writing::wrote_end))]
fn write_credential(w: &mut Writer, cred: &Cred) -> Result<(), Refusal>
    ensures { Wrote w.old w.new result (credential_text cred.now) }
{
    w.write_u32(0)?;
    w.write_opaque(&[])?;
    write_ids(w, cred)
}

#[tactic(auto, using(xdr::proofs::Writing::wrote_on, xdr::proofs::Writing::wrote_exit, xdr::proofs::Writing::wrote_end))]
fn write_ids(w: &mut Writer, cred: &Cred) -> Result<(), Refusal>
    ensures { Wrote w.old w.new result (ids_text cred.now) }
{
    w.write_u32(cred.uid)?;
    w.write_u32(cred.gid)?;
    write_gids(w, cred.gids.as_slice())
}

#[tactic(auto, unfolding(xdr::specs::Forms::elements), using(xdr::proofs::Writing::wrote_on, xdr::proofs::Writing::wrote_exit, xdr::proofs::Writing::wrote_end))]
fn write_gids(w: &mut Writer, gids: &[u32]) -> Result<(), Refusal>
    requires { length gids.now ≤ Gids.MAX_GIDS }
    ensures { Wrote w.old w.new result (elements (λ n. number w32 n) gids.now) }
{
    w.write_u32(gids.len() as u32)?;
    write_numbers(w, gids)
}

fn write_numbers(w: &mut Writer, numbers: &[u32]) -> Result<(), Refusal>
    ensures { Wrote w.old w.new result (flat_map (λ n. number w32 n) numbers.now) }
{
    for number in numbers {
        w.write_u32(*number)?;
    }
    Ok(())
}

/// Writes the call up to its operations.
#[tactic(auto, unfolding(crate::specs::Requests::head_text), using(xdr::proofs::Writing::wrote_on, xdr::proofs::Writing::wrote_exit, xdr::proofs::Writing::wrote_end))]
pub(crate) fn write_head(
    w: &mut Writer,
    xid: u32,
    credential: &[u8],
    tag: &[u8],
    count: u32,
) -> Result<(), Refusal>
    requires credential { length credential.now ≤ MAX_AUTH_BYTES }
    requires tag { length tag.now ≤ MAX_TAG_BYTES }
    ensures { Wrote w.old w.new result (head_text xid credential.now tag.now count) }
{
    write_call(w, xid, credential)?;
    write_compound(w, tag, count)
}

#[tactic(auto, using(xdr::proofs::Writing::wrote_on, xdr::proofs::Writing::wrote_exit, xdr::proofs::Writing::wrote_end))]
fn write_call(w: &mut Writer, xid: u32, credential: &[u8]) -> Result<(), Refusal>
    requires { length credential.now ≤ MAX_AUTH_BYTES }
    ensures { Wrote w.old w.new result (call_head.encoding (compound_call xid credential.now)) }
{
    w.write_u32(xid)?;
    w.write_u32(CALL)?;
    w.write_u32(RPC_VERSION)?;
    write_procedure(w, credential)
}

#[tactic(auto, using(xdr::proofs::Writing::wrote_on, xdr::proofs::Writing::wrote_exit, xdr::proofs::Writing::wrote_end))]
fn write_procedure(w: &mut Writer, credential: &[u8]) -> Result<(), Refusal>
    requires { length credential.now ≤ MAX_AUTH_BYTES }
    ensures { Wrote w.old w.new result (procedure_text credential.now) }
{
    w.write_u32(PROGRAM)?;
    w.write_u32(NFS_VERSION)?;
    w.write_u32(COMPOUND)?;
    write_auths(w, credential)
}

#[tactic(auto, using(xdr::proofs::Writing::wrote_on, xdr::proofs::Writing::wrote_exit, xdr::proofs::Writing::wrote_end))]
fn write_auths(w: &mut Writer, credential: &[u8]) -> Result<(), Refusal>
    requires { length credential.now ≤ MAX_AUTH_BYTES }
    ensures { Wrote w.old w.new result (auths_text credential.now) }
{
    write_auth(w, AUTH_SYS, credential)?;
    write_auth(w, AUTH_NONE, &[])
}

#[tactic(auto, using(xdr::proofs::Writing::wrote_on, xdr::proofs::Writing::wrote_exit, xdr::proofs::Writing::wrote_end))]
fn write_auth(w: &mut Writer, flavour: u32, body: &[u8]) -> Result<(), Refusal>
    requires { length body.now ≤ MAX_AUTH_BYTES }
    ensures { Wrote w.old w.new result (opaque_auth.encoding (flavour, body.now)) }
{
    w.write_u32(flavour)?;
    w.write_opaque(body)?;
    Ok(())
}

#[tactic(auto, using(xdr::proofs::Writing::wrote_on, xdr::proofs::Writing::wrote_exit, xdr::proofs::Writing::wrote_end))]
fn write_compound(w: &mut Writer, tag: &[u8], count: u32) -> Result<(), Refusal>
    requires { length tag.now ≤ MAX_TAG_BYTES }
    ensures { Wrote w.old w.new result (compound_head.encoding (tag.now, (1, count))) }
{
    w.write_opaque(tag)?;
    w.write_u32(MINOR_VERSION)?;
    w.write_u32(count)
}

/// Writes the operations one after the other.
pub(crate) fn write_operations(w: &mut Writer, operations: &[Argument<'_>]) -> Result<(), Refusal>
    requires { All ArgumentFits operations.now }
    ensures { Wrote w.old w.new result (operations_text (map argument_view operations.now)) }
{
    for operation in operations {
        write_argument(w, operation)?;
    }
    Ok(())
}

/// The record as it is sent: one fragment.
#[tactic(auto, unfolding(model::specs::Wire::Record::framed, xdr::specs::Grammar::number))]
pub(crate) fn frame(alloc: Global, call: &[u8]) -> Result<Vec<u8>, Refusal>
    ensures ok { IfOk result (λ bytes. bytes.items ≡ framed call.now) }
    ensures err { IfErr result (λ e. e ≡ Memory) }
{
    if call.len() >= RECORD_LIMIT {
        return Err(Refusal::Memory);
    }
    let Ok(mut out) = Writer::with_capacity(alloc, call.len() + 4) else {
        return Err(Refusal::Memory);
    };
    write_frame_header(&mut out, call.len() as u32)?;
    let mut bytes = out.into_vec();
    bytes.extend_from_slice(call)?;
    Ok(bytes)
}
