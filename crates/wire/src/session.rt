//! Arguments of the operations on sessions (RFC 8881, section 18).

ghost use Rattle.std.specs.Prelude.{map};
ghost use Rattle.xdr.specs.Clauses.{Scans, ReadsBy};
ghost use Rattle.xdr.specs.Forms.{array};
ghost use Rattle.model.specs.Wire.WireTypes.{callback_security};
ghost use Rattle.model.specs.Wire.WireArguments.{create_session_arguments, sequence_arguments};
ghost use Rattle.wire.specs.SmallViews.{security_view};
ghost use Rattle.wire.specs.ArgumentViews.{create_session_view, sequence_view, ReadsSecurities};

use crate::small::{CallbackSecurity, Channel};
use std::alloc::Global;
use xdr::{Reader, Refusal};

/// The most security parameters for callbacks that are read.
const MAX_SECURITIES: u32 = 4;

/// `CREATE_SESSION4args`.
#[derive(Drop)]
pub struct CreateSessionArguments<'a> {
    pub client: u64,
    pub sequence: u32,
    pub flags: u32,
    pub fore: Channel,
    pub back: Channel,
    pub callback_program: u32,
    pub security: Vec<CallbackSecurity<'a>>,
}

impl<'a> CreateSessionArguments<'a> {
    /// Reads them.
    pub fn read(alloc: Global, r: &mut Reader<'a>) -> Result<CreateSessionArguments<'a>, Refusal>
        ensures { ReadsBy create_session_view (create_session_arguments.read) r.old r.new result }
    {
        let mut at = r.fork();
        let client = at.read_u64()?;
        let sequence = at.read_u32()?;
        let flags = at.read_u32()?;
        let fore = Channel::read(&mut at)?;
        let back = Channel::read(&mut at)?;
        let callback_program = at.read_u32()?;
        let security = read_securities(alloc, &mut at)?;
        *r = at;
        Ok(CreateSessionArguments {
            client,
            sequence,
            flags,
            fore,
            back,
            callback_program,
            security,
        })
    }
}

#[tactic(auto, unfolding(xdr::specs::Forms::elements_at))]
fn read_securities<'a>(
    alloc: Global,
    r: &mut Reader<'a>,
) -> Result<Vec<CallbackSecurity<'a>>, Refusal>
    ensures { ReadsBy (λ list. map security_view list.items)
        ((array 4 callback_security).read) r.old r.new result }
{
    let mut at = r.fork();
    let count = at.read_u32()?;
    if count > MAX_SECURITIES {
        return Err(Refusal::Long);
    }
    let (list, at) = each_security(alloc, count, at)?;
    *r = at;
    Ok(list)
}

fn each_security<'a>(
    alloc: Global,
    count: u32,
    at: Reader<'a>,
) -> Result<(Vec<CallbackSecurity<'a>>, Reader<'a>), Refusal>
    ensures { ReadsSecurities count at.entry result }
{
    let mut at = at;
    let mut list = Vec::new(alloc);
    for _ in 0..count {
        let security = CallbackSecurity::read(&mut at)?;
        list.push(security)?;
    }
    Ok((list, at))
}

/// `SEQUENCE4args`.
#[derive(Clone, Copy, PartialEq, Eq)]
pub struct SequenceArguments {
    pub session: [u8; 16],
    pub sequence: u32,
    pub slot: u32,
    pub highest_slot: u32,
    pub cache_this: bool,
}

impl SequenceArguments {
    /// Reads them.
    pub fn read(r: &mut Reader<'_>) -> Result<SequenceArguments, Refusal>
        ensures { Scans sequence_view (sequence_arguments.read) r.old r.new result }
    {
        let mut at = r.fork();
        let session = at.read_array()?;
        let sequence = at.read_u32()?;
        let slot = at.read_u32()?;
        let highest_slot = at.read_u32()?;
        let cache_this = at.read_bool()?;
        *r = at;
        Ok(SequenceArguments {
            session,
            sequence,
            slot,
            highest_slot,
            cache_this,
        })
    }
}
