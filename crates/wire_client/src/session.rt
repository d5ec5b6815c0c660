//! Arguments of the operations on clients and sessions (RFC 8881, section 18).

ghost use Rattle.std.specs.Prelude.{◌≤◌, length, map, All};
ghost use Rattle.std.specs.List.{flat_map};
ghost use Rattle.xdr.specs.Clauses.{Wrote};
ghost use Rattle.xdr.specs.Forms.{array};
ghost use Rattle.model.specs.Wire.WireTypes.{callback_security};
ghost use Rattle.model.specs.Wire.WireArguments.{exchange_id_arguments, create_session_arguments, sequence_arguments};
ghost use Rattle.wire.specs.SmallViews.{security_view};
ghost use Rattle.wire.specs.ArgumentViews.{exchange_id_view, create_session_view, sequence_view};
ghost use Rattle.wire_client.specs.Rests.{exchange_id_rest, create_session_rest, create_session_end, sequence_rest};
ghost use Rattle.wire_client.specs.ArgumentFits.{MaybeImplementationFits, SecurityFits, ExchangeIdFits, CreateSessionFits};
ghost use Rattle.wire_client.specs.Reading.{security_text};

use crate::small::{write_implementations, write_security};
use wire::{CallbackSecurity, CreateSessionArguments, ExchangeIdArguments, SequenceArguments};
use xdr::{Refusal, Writer};

/// Writes `EXCHANGE_ID4args`. On an error a prefix of them may have been written.
pub(crate) fn write_exchange_id(w: &mut Writer, a: &ExchangeIdArguments<'_>) -> Result<(), Refusal>
    requires { ExchangeIdFits a.now }
    ensures { Wrote w.old w.new result (exchange_id_arguments.encoding (exchange_id_view a.now)) }
{
    w.write_fixed(&a.verifier)?;
    w.write_opaque(a.owner)?;
    w.write_u32(a.flags)?;
    write_exchange_id_rest(w, a)
}

fn write_exchange_id_rest(w: &mut Writer, a: &ExchangeIdArguments<'_>) -> Result<(), Refusal>
    requires { MaybeImplementationFits a.now.implementation }
    ensures { Wrote w.old w.new result (exchange_id_rest a.now) }
{
    w.write_u32(0)?;
    write_implementations(w, &a.implementation)
}

/// Writes `CREATE_SESSION4args`. On an error a prefix of them may have been written.
pub(crate) fn write_create_session(
    w: &mut Writer,
    a: &CreateSessionArguments<'_>,
) -> Result<(), Refusal>
    requires { CreateSessionFits a.now }
    ensures { Wrote w.old w.new result
        (create_session_arguments.encoding (create_session_view a.now)) }
{
    w.write_u64(a.client)?;
    w.write_u32(a.sequence)?;
    w.write_u32(a.flags)?;
    write_create_session_rest(w, a)
}

fn write_create_session_rest(w: &mut Writer, a: &CreateSessionArguments<'_>) -> Result<(), Refusal>
    requires { CreateSessionFits a.now }
    ensures { Wrote w.old w.new result (create_session_rest a.now) }
{
    a.fore.write(w)?;
    a.back.write(w)?;
    write_create_session_end(w, a)
}

#[tactic(auto, using(xdr::proofs::Writing::wrote_on, xdr::proofs::Writing::wrote_exit, xdr::proofs::Writing::wrote_end))]
fn write_create_session_end(w: &mut Writer, a: &CreateSessionArguments<'_>) -> Result<(), Refusal>
    requires { CreateSessionFits a.now }
    ensures { Wrote w.old w.new result (create_session_end a.now) }
{
    w.write_u32(a.callback_program)?;
    write_securities(w, &a.security)
}

fn write_securities(w: &mut Writer, list: &[CallbackSecurity<'_>]) -> Result<(), Refusal>
    requires limit { length list.now ≤ 4 }
    requires fits { All SecurityFits list.now }
    ensures { Wrote w.old w.new result
        ((array 4 callback_security).encoding (map security_view list.now)) }
{
    w.write_u32(list.len() as u32)?;
    write_each_security(w, list)
}

fn write_each_security(w: &mut Writer, list: &[CallbackSecurity<'_>]) -> Result<(), Refusal>
    requires { All SecurityFits list.now }
    ensures { Wrote w.old w.new result (flat_map security_text list.now) }
{
    for security in list {
        write_security(w, security)?;
    }
    Ok(())
}

/// Writes `SEQUENCE4args`. On an error a prefix of them may have been written.
pub(crate) fn write_sequence(w: &mut Writer, a: &SequenceArguments) -> Result<(), Refusal>
    ensures { Wrote w.old w.new result (sequence_arguments.encoding (sequence_view a.now)) }
{
    w.write_fixed(&a.session)?;
    w.write_u32(a.sequence)?;
    w.write_u32(a.slot)?;
    write_sequence_rest(w, a)
}

fn write_sequence_rest(w: &mut Writer, a: &SequenceArguments) -> Result<(), Refusal>
    ensures { Wrote w.old w.new result (sequence_rest a.now) }
{
    w.write_u32(a.highest_slot)?;
    w.write_bool(a.cache_this)
}
