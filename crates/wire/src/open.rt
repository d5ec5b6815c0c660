//! Arguments of OPEN (RFC 8881, section 18.16).

ghost use Rattle.std.specs.Prelude.{◌≡◌};
ghost use Rattle.xdr.specs.Clauses.{Scans};
ghost use Rattle.model.specs.Wire.WireArguments.{claim, create_how, opening, open_arguments};
ghost use Rattle.wire.specs.ArgumentViews.{claim_view, exclusive_number, opening_view, open_view};

use crate::small::{ANY_LENGTH, Attributes, MAX_OWNER_BYTES};
use xdr::{Reader, Refusal};

/// `openflag4`, with `createhow4` if a file may be created.
#[derive(Drop)]
pub enum OpenType<'a> {
    NoCreate,
    Unchecked(Attributes<'a>),
    Guarded(Attributes<'a>),
}

/// `open_claim4`: of a claim other than these two nothing that follows is read.
#[derive(Clone, Copy, PartialEq, Eq)]
pub enum Claim<'a> {
    /// CLAIM_NULL: a name in the current directory.
    ByName(&'a [u8]),
    /// CLAIM_FH: the current file.
    ByHandle,
    OtherClaim(u32),
}

impl<'a> Claim<'a> {
    /// Reads one.
    pub fn read(r: &mut Reader<'a>) -> Result<Claim<'a>, Refusal>
        ensures { Scans claim_view (claim.read) r.old r.new result }
    {
        let mut at = r.fork();
        let by = match at.read_u32()? {
            0 => Claim::ByName(at.read_opaque(ANY_LENGTH)?),
            4 => Claim::ByHandle,
            number => Claim::OtherClaim(number),
        };
        *r = at;
        Ok(by)
    }
}

/// The two exclusive modes of `createmode4`.
#[derive(Clone, Copy, PartialEq, Eq)]
pub enum ExclusiveCreate {
    /// EXCLUSIVE4: a verifier follows.
    ByVerifier,
    /// EXCLUSIVE4_1: a verifier and attributes follow.
    ByVerifierAndAttributes,
}

impl ExclusiveCreate {
    /// Its number on the wire.
    pub fn number(self) -> u32
        ensures { result ≡ exclusive_number self }
    {
        match self {
            ExclusiveCreate::ByVerifier => 2,
            ExclusiveCreate::ByVerifierAndAttributes => 3,
        }
    }
}

/// How a file is opened. After an exclusive create nothing that follows is read, not even the
/// claim.
#[derive(Drop)]
pub enum Opening<'a> {
    Opens { how: OpenType<'a>, claim: Claim<'a> },
    Exclusive(ExclusiveCreate),
}

impl<'a> Opening<'a> {
    /// Reads the open type, and the claim after it.
    pub fn read(r: &mut Reader<'a>) -> Result<Opening<'a>, Refusal>
        ensures { Scans opening_view (opening.read) r.old r.new result }
    {
        let mut at = r.fork();
        let how = match at.read_u32()? {
            0 => Opening::Opens {
                how: OpenType::NoCreate,
                claim: Claim::read(&mut at)?,
            },
            1 => Opening::read_create(&mut at)?,
            _ => return Err(Refusal::Value),
        };
        *r = at;
        Ok(how)
    }

    fn read_create(r: &mut Reader<'a>) -> Result<Opening<'a>, Refusal>
        ensures { Scans opening_view (create_how.read) r.old r.new result }
    {
        let mut at = r.fork();
        let how = match at.read_u32()? {
            0 => Opening::Opens {
                how: OpenType::Unchecked(Attributes::read(&mut at)?),
                claim: Claim::read(&mut at)?,
            },
            1 => Opening::Opens {
                how: OpenType::Guarded(Attributes::read(&mut at)?),
                claim: Claim::read(&mut at)?,
            },
            2 => Opening::Exclusive(ExclusiveCreate::ByVerifier),
            3 => Opening::Exclusive(ExclusiveCreate::ByVerifierAndAttributes),
            _ => return Err(Refusal::Value),
        };
        *r = at;
        Ok(how)
    }
}

/// `OPEN4args`: the seqid and the owner's client id are ignored.
#[derive(Drop)]
pub struct OpenArguments<'a> {
    pub seqid: u32,
    pub access: u32,
    pub deny: u32,
    pub client: u64,
    pub owner: &'a [u8],
    pub opening: Opening<'a>,
}

impl<'a> OpenArguments<'a> {
    /// Reads them.
    pub fn read(r: &mut Reader<'a>) -> Result<OpenArguments<'a>, Refusal>
        ensures { Scans open_view (open_arguments.read) r.old r.new result }
    {
        let mut at = r.fork();
        let seqid = at.read_u32()?;
        let access = at.read_u32()?;
        let deny = at.read_u32()?;
        let client = at.read_u64()?;
        let owner = at.read_opaque(MAX_OWNER_BYTES)?;
        let opening = Opening::read(&mut at)?;
        *r = at;
        Ok(OpenArguments {
            seqid,
            access,
            deny,
            client,
            owner,
            opening,
        })
    }
}
