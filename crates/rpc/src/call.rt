//! Calls (RFC 5531, section 9).

ghost use Rattle.std.specs.Prelude.{◌≡◌, IfOk, MatchResult};
ghost use Rattle.xdr.specs.Clauses.{Scans};
ghost use Rattle.model.specs.Wire.Rpc.{NoCall, read_call, opaque_auth, call_start, call_header};
ghost use Rattle.rpc.specs.Places.{HasBody};
ghost use Rattle.rpc.specs.Views.{start_view, auth_view, header_view, call_read_view};
ghost use Rattle.rpc.specs.declared.fault.RecordFault.TheVariants.{NotACall};

use crate::fault::RecordFault;
use crate::numbers::{CALL, RPC_VERSION};
use xdr::{Reader, Refusal};

/// The most bytes of a credential or a verifier.
pub const MAX_AUTH_BYTES: u32 = 400;

/// What follows the RPC version of a call. The verifier is read, and not looked at.
#[derive(Clone, Copy)]
pub struct Call<'a> {
    /// The call's number, which the reply repeats.
    pub xid: u32,
    pub program: u32,
    pub version: u32,
    pub procedure: u32,
    /// The flavour of the credential.
    pub flavour: u32,
    /// The credential's body, of at most 400 bytes.
    pub credential: &'a [u8],
    /// The procedure's arguments.
    pub body: &'a [u8],
}

/// What a record is read as.
#[derive(Clone, Copy)]
pub enum CallRead<'a> {
    /// A call of another version of RPC, of which nothing more is read.
    OtherVersion { xid: u32 },
    /// A call.
    Calls(Call<'a>),
}

/// The first words of a message, of any version of RPC.
#[derive(Clone, Copy)]
pub struct Start {
    pub xid: u32,
    pub message_type: u32,
    pub rpc_version: u32,
}

/// A credential or a verifier.
#[derive(Clone, Copy)]
pub struct Auth<'a> {
    pub flavour: u32,
    pub body: &'a [u8],
}

/// The fields between the RPC version and the arguments.
#[derive(Clone, Copy)]
pub struct Header<'a> {
    pub program: u32,
    pub version: u32,
    pub procedure: u32,
    pub credential: Auth<'a>,
    pub verifier: Auth<'a>,
}

/// The call that a record's bytes encode (RFC 5531, section 9). `NotACall` if it ends within the
/// call's header, is another message, or has a credential or a verifier that is above 400 bytes or
/// padded with other bytes than zero.
#[tactic(auto, unfolding(model::specs::Wire::Rpc::read_call))]
pub fn read_call(bytes: &[u8]) -> Result<CallRead<'_>, RecordFault>
    ensures read { MatchResult result (λ read. read_call bytes.now ≡ call_read_view read)
        (λ fault. (read_call bytes.now ≡ NoCall) × (fault ≡ NotACall)) }
    ensures body { IfOk result (HasBody bytes.now) }
{
    let mut at = Reader::new(bytes);
    let start = match read_start(&mut at) {
        Ok(start) => start,
        Err(_) => return Err(RecordFault::NotACall),
    };
    if start.message_type != CALL {
        return Err(RecordFault::NotACall);
    }
    if start.rpc_version != RPC_VERSION {
        return Ok(CallRead::OtherVersion { xid: start.xid });
    }
    match read_header(&mut at) {
        Ok(header) => Ok(CallRead::Calls(Call {
            xid: start.xid,
            program: header.program,
            version: header.version,
            procedure: header.procedure,
            flavour: header.credential.flavour,
            credential: header.credential.body,
            body: at.rest(),
        })),
        Err(_) => Err(RecordFault::NotACall),
    }
}

fn read_start(r: &mut Reader<'_>) -> Result<Start, Refusal>
    ensures { Scans start_view (call_start.read) r.old r.new result }
{
    let mut at = r.fork();
    let xid = at.read_u32()?;
    let message_type = at.read_u32()?;
    let rpc_version = at.read_u32()?;
    *r = at;
    Ok(Start {
        xid,
        message_type,
        rpc_version,
    })
}

fn read_header<'a>(r: &mut Reader<'a>) -> Result<Header<'a>, Refusal>
    ensures { Scans header_view (call_header.read) r.old r.new result }
{
    let mut at = r.fork();
    let program = at.read_u32()?;
    let version = at.read_u32()?;
    let procedure = at.read_u32()?;
    let credential = read_auth(&mut at)?;
    let verifier = read_auth(&mut at)?;
    *r = at;
    Ok(Header {
        program,
        version,
        procedure,
        credential,
        verifier,
    })
}

fn read_auth<'a>(r: &mut Reader<'a>) -> Result<Auth<'a>, Refusal>
    ensures { Scans auth_view (opaque_auth.read) r.old r.new result }
{
    let mut at = r.fork();
    let flavour = at.read_u32()?;
    let body = at.read_opaque(MAX_AUTH_BYTES)?;
    *r = at;
    Ok(Auth { flavour, body })
}
