//! The small types (RFC 8881, section 3.3).

ghost use Rattle.std.specs.Option.{option_map};
ghost use Rattle.xdr.specs.Clauses.{Scans, Wrote};
ghost use Rattle.xdr.specs.Forms.{optional};
ghost use Rattle.model.specs.Wire.WireTypes.{change_info, implementation, system_credential, callback_security};
ghost use Rattle.model.specs.Wire.WireAnswers.{answered_attributes};
ghost use Rattle.wire.specs.SmallViews.{attributes_view, change_view, implementation_view, credential_view, security_view};
ghost use Rattle.wire_client.specs.Rests.{credential_rest};
ghost use Rattle.wire_client.specs.ArgumentFits.{ImplementationFits, MaybeImplementationFits, CredentialFits, SecurityFits};

use wire::{
    ANY_LENGTH, Attributes, Bitmap, CallbackSecurity, ChangeInfo, Implementation, SystemCredential,
    read_trimmed,
};
use xdr::{Reader, Refusal, Writer};

/// Reads a `change_info4`.
pub(crate) fn read_change(r: &mut Reader<'_>) -> Result<ChangeInfo, Refusal>
    ensures { Scans change_view (change_info.read) r.old r.new result }
{
    let mut at = r.fork();
    let is_atomic = at.read_bool()?;
    let before = at.read_u64()?;
    let after = at.read_u64()?;
    *r = at;
    Ok(ChangeInfo {
        is_atomic,
        before,
        after,
    })
}

/// Reads attributes whose bitmap has no zero word at its end.
pub(crate) fn read_answered<'a>(r: &mut Reader<'a>) -> Result<Attributes<'a>, Refusal>
    ensures { Scans attributes_view (answered_attributes.read) r.old r.new result }
{
    let mut at = r.fork();
    let bitmap = read_trimmed(&mut at)?;
    let values = at.read_opaque(ANY_LENGTH)?;
    *r = at;
    Ok(Attributes { bitmap, values })
}

fn write_implementation(w: &mut Writer, a: &Implementation<'_>) -> Result<(), Refusal>
    requires { ImplementationFits a.now }
    ensures { Wrote w.old w.new result (implementation.encoding (implementation_view a.now)) }
{
    w.write_opaque(a.domain)?;
    w.write_opaque(a.name)?;
    w.write_u64(a.seconds)?;
    w.write_u32(a.nanoseconds)
}

/// Writes an array of at most one. On an error a prefix of it may have been written.
#[tactic(auto, using(xdr::proofs::Writing::wrote_on, xdr::proofs::Writing::wrote_exit, xdr::proofs::Writing::wrote_end))]
pub(crate) fn write_implementations(
    w: &mut Writer,
    one: &Option<Implementation<'_>>,
) -> Result<(), Refusal>
    requires { MaybeImplementationFits one.now }
    ensures { Wrote w.old w.new result
        ((optional implementation).encoding (option_map implementation_view one.now)) }
{
    match one {
        None => w.write_u32(0),
        Some(implementation) => {
            w.write_u32(1)?;
            write_implementation(w, implementation)
        }
    }
}

fn write_credential(w: &mut Writer, a: &SystemCredential<'_>) -> Result<(), Refusal>
    requires { CredentialFits a.now }
    ensures { Wrote w.old w.new result (system_credential.encoding (credential_view a.now)) }
{
    w.write_u32(a.stamp)?;
    w.write_opaque(a.machine_name)?;
    write_credential_rest(w, a)
}

fn write_credential_rest(w: &mut Writer, a: &SystemCredential<'_>) -> Result<(), Refusal>
    ensures { Wrote w.old w.new result (credential_rest a.now) }
{
    w.write_u32(a.uid)?;
    w.write_u32(a.gid)?;
    a.gids.write(w)
}

/// Writes a `callback_sec_parms4`. On an error a prefix of it may have been written.
#[tactic(auto, using(xdr::proofs::Writing::wrote_on, xdr::proofs::Writing::wrote_exit, xdr::proofs::Writing::wrote_end))]
pub(crate) fn write_security(w: &mut Writer, a: &CallbackSecurity<'_>) -> Result<(), Refusal>
    requires { SecurityFits a.now }
    ensures { Wrote w.old w.new result (callback_security.encoding (security_view a.now)) }
{
    match a {
        CallbackSecurity::NoSecurity => w.write_u32(0),
        CallbackSecurity::System(credential) => {
            w.write_u32(1)?;
            write_credential(w, credential)
        }
    }
}
