//! Arguments of EXCHANGE_ID (RFC 8881, section 18.35).

ghost use Rattle.std.specs.Option.{option_map};
ghost use Rattle.std.specs.Prelude.{◌≤◌, length};
ghost use Rattle.xdr.specs.Clauses.{Scans};
ghost use Rattle.xdr.specs.Forms.{optional};
ghost use Rattle.model.specs.Wire.WireTypes.{implementation};
ghost use Rattle.wire.specs.SmallViews.{implementation_view};

use crate::small::{Implementation, MAX_OWNER_BYTES};
use xdr::{Reader, Refusal};

/// `EXCHANGE_ID4args`, with the state protection SP4_NONE.
#[derive(Drop)]
pub struct ExchangeIdArguments<'a> {
    pub verifier: [u8; 8],
    /// The owner id of the client, of at most 1,024 bytes.
    pub owner: &'a [u8],
    pub flags: u32,
    pub implementation: Option<Implementation<'a>>,
    ghost owned: { length owner.now ≤ 1024 },
}

impl<'a> ExchangeIdArguments<'a> {
    ghost use Rattle.xdr.specs.Clauses.{Scans};
    ghost use Rattle.model.specs.Wire.WireArguments.{exchange_id_arguments};
    ghost use Rattle.wire.specs.ArgumentViews.{exchange_id_view};

    /// Reads them.
    pub fn read(r: &mut Reader<'a>) -> Result<ExchangeIdArguments<'a>, Refusal>
        ensures { Scans exchange_id_view (exchange_id_arguments.read) r.old r.new result }
    {
        let mut at = r.fork();
        let verifier = at.read_array()?;
        let owner = at.read_opaque(MAX_OWNER_BYTES)?;
        let flags = at.read_u32()?;
        at.read_always(0)?;
        let implementation = read_implementation(&mut at)?;
        *r = at;
        Ok(ExchangeIdArguments {
            verifier,
            owner,
            flags,
            implementation,
        })
    }
}

fn read_implementation<'a>(r: &mut Reader<'a>) -> Result<Option<Implementation<'a>>, Refusal>
    ensures { Scans (λ o. option_map implementation_view o)
        ((optional implementation).read) r.old r.new result }
{
    let mut at = r.fork();
    let found = match at.read_u32()? {
        0 => None,
        1 => Some(Implementation::read(&mut at)?),
        _ => return Err(Refusal::Long),
    };
    *r = at;
    Ok(found)
}
