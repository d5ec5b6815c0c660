//! An operation with its arguments (RFC 8881, section 18).

ghost use Rattle.std.specs.Prelude.{◌≡◌, OnErr};
ghost use Rattle.xdr.specs.Clauses.{Wrote};
ghost use Rattle.model.specs.Wire.WireArguments.{argument, encoded_argument};
ghost use Rattle.wire.specs.ArgumentView.{argument_view};
ghost use Rattle.wire_client.specs.ArgumentFits.{ArgumentFits};

use crate::directory::{write_create, write_read_dir, write_rename};
use crate::file::{write_close, write_commit, write_read, write_set_attr, write_write};
use crate::open::write_open;
use crate::session::{write_create_session, write_exchange_id, write_sequence};
use wire::Argument;
use xdr::{Refusal, Writer};

/// Writes an operation's number and its arguments (`nfs_argop4`).
pub fn write_argument(w: &mut Writer, call: &Argument<'_>) -> Result<(), Refusal>
    requires { ArgumentFits call.now }
    ensures wrote { Wrote w.old w.new result (argument.encoding (argument_view call.now)) }
    ensures err { OnErr result (w.new.bytes ≡ w.old.bytes) }
{
    let mark = w.len();
    let result = write_numbered(w, call);
    w.undo(mark, result)
}

fn write_numbered(w: &mut Writer, call: &Argument<'_>) -> Result<(), Refusal>
    requires { ArgumentFits call.now }
    ensures { Wrote w.old w.new result (argument.encoding (argument_view call.now)) }
{
    w.write_u32(call.operation().number())?;
    write_behind_number(w, call)
}

#[tactic(auto, using(xdr::proofs::Writing::wrote_nothing))]
fn write_behind_number(w: &mut Writer, call: &Argument<'_>) -> Result<(), Refusal>
    requires { ArgumentFits call.now }
    ensures { Wrote w.old w.new result ((encoded_argument (argument_view call.now)).text) }
{
    match call {
        Argument::Access(rights) => w.write_u32(*rights),
        Argument::Close(a) => write_close(w, a),
        Argument::Commit(a) => write_commit(w, a),
        Argument::Create(a) => write_create(w, a),
        Argument::GetAttr(asked) => asked.write(w),
        Argument::Lookup(name) | Argument::Remove(name) => w.write_opaque(name),
        Argument::Open(a) => write_open(w, a),
        Argument::PutFh(handle) => w.write_opaque(handle),
        Argument::Read(a) => write_read(w, a),
        Argument::ReadDir(a) => write_read_dir(w, a),
        Argument::Rename(a) => write_rename(w, a),
        Argument::SetAttr(a) => write_set_attr(w, a),
        Argument::Write(a) => write_write(w, a),
        Argument::ExchangeId(a) => write_exchange_id(w, a),
        Argument::CreateSession(a) => write_create_session(w, a),
        Argument::DestroySession(session) => w.write_fixed(session),
        Argument::Sequence(a) => write_sequence(w, a),
        Argument::DestroyClientId(client) => w.write_u64(*client),
        Argument::ReclaimComplete(one_fs) => w.write_bool(*one_fs),
        Argument::GetFh
        | Argument::LookupParent
        | Argument::PutRootFh
        | Argument::RestoreFh
        | Argument::SaveFh => Ok(()),
    }
}
