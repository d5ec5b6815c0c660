//! Arguments of OPEN (RFC 8881, section 18.16).

ghost use Rattle.xdr.specs.Clauses.{Wrote};
ghost use Rattle.model.specs.Wire.WireArguments.{claim, opening, open_arguments};
ghost use Rattle.wire.specs.ArgumentViews.{claim_view, opening_view, open_view};
ghost use Rattle.wire_client.specs.Rests.{open_rest, opens_text, created_text};
ghost use Rattle.wire_client.specs.ArgumentFits.{AttributesFit, ClaimFits, OpeningFits, OpenTypeFits, OpenFits};

use wire::{Attributes, Claim, OpenArguments, OpenType, Opening};
use xdr::{Refusal, Writer};

#[tactic(auto, using(xdr::proofs::Writing::wrote_on, xdr::proofs::Writing::wrote_exit, xdr::proofs::Writing::wrote_end, crate::proofs::Alone::wrote_alone))]
fn write_claim(w: &mut Writer, by: &Claim<'_>) -> Result<(), Refusal>
    requires { ClaimFits by.now }
    ensures { Wrote w.old w.new result (claim.encoding (claim_view by.now)) }
{
    match by {
        Claim::ByName(name) => {
            w.write_u32(0)?;
            w.write_opaque(name)
        }
        Claim::ByHandle => w.write_u32(4),
        Claim::OtherClaim(number) => w.write_u32(*number),
    }
}

#[tactic(auto, using(xdr::proofs::Writing::wrote_on, xdr::proofs::Writing::wrote_exit, xdr::proofs::Writing::wrote_end, crate::proofs::Alone::wrote_alone))]
fn write_opening(w: &mut Writer, how: &Opening<'_>) -> Result<(), Refusal>
    requires { OpeningFits how.now }
    ensures { Wrote w.old w.new result (opening.encoding (opening_view how.now)) }
{
    match how {
        Opening::Opens { how, claim } => write_opens(w, how, claim),
        Opening::Exclusive(mode) => {
            w.write_u32(1)?;
            w.write_u32(mode.number())
        }
    }
}

#[tactic(auto, using(xdr::proofs::Writing::wrote_on, xdr::proofs::Writing::wrote_exit, xdr::proofs::Writing::wrote_end))]
fn write_opens(w: &mut Writer, how: &OpenType<'_>, by: &Claim<'_>) -> Result<(), Refusal>
    requires how { OpenTypeFits how.now }
    requires by { ClaimFits by.now }
    ensures { Wrote w.old w.new result (opens_text how.now by.now) }
{
    match how {
        OpenType::NoCreate => {
            w.write_u32(0)?;
            write_claim(w, by)
        }
        OpenType::Unchecked(attributes) => write_created(w, 0, attributes, by),
        OpenType::Guarded(attributes) => write_created(w, 1, attributes, by),
    }
}

fn write_created(
    w: &mut Writer,
    mode: u32,
    attributes: &Attributes<'_>,
    by: &Claim<'_>,
) -> Result<(), Refusal>
    requires attributes { AttributesFit attributes.now }
    requires by { ClaimFits by.now }
    ensures { Wrote w.old w.new result (created_text mode attributes.now by.now) }
{
    w.write_u32(1)?;
    w.write_u32(mode)?;
    attributes.write(w)?;
    write_claim(w, by)
}

/// Writes `OPEN4args`. On an error a prefix of them may have been written.
pub(crate) fn write_open(w: &mut Writer, a: &OpenArguments<'_>) -> Result<(), Refusal>
    requires { OpenFits a.now }
    ensures { Wrote w.old w.new result (open_arguments.encoding (open_view a.now)) }
{
    w.write_u32(a.seqid)?;
    w.write_u32(a.access)?;
    w.write_u32(a.deny)?;
    write_open_rest(w, a)
}

fn write_open_rest(w: &mut Writer, a: &OpenArguments<'_>) -> Result<(), Refusal>
    requires { OpenFits a.now }
    ensures { Wrote w.old w.new result (open_rest a.now) }
{
    w.write_u64(a.client)?;
    w.write_opaque(a.owner)?;
    write_opening(w, &a.opening)
}
