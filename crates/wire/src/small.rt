//! The small types (RFC 8881, section 3.3).

ghost use Rattle.std.specs.Prelude.{◌≡◌, ◌≤◌, ◌<◌, ◌^◌, length};
ghost use Rattle.xdr.specs.Clauses.{Scans, Wrote};
ghost use Rattle.xdr.specs.Grammar.{unsigned_int};
ghost use Rattle.xdr.specs.Forms.{is_trimmed, optional, trimmed_bitmap};
ghost use Rattle.model.specs.Attributes.Attribute.{trimmed};
ghost use Rattle.model.specs.Wire.WireTypes.{state_id, attributes, change_info, channel, implementation, system_credential, callback_security};
ghost use Rattle.wire.specs.SmallViews.{channel_rest, state_view, attributes_view, change_view, channel_view, implementation_view, credential_view, security_view};

use model_tree::acl::Gids;
use xdr::{Reader, Refusal, Words, Writer};

/// Attribute n is bit n % 32 of word n / 32.
pub type Bitmap = Words<8>;

/// A bitmap as results have it: without zero words at the end.
pub fn trimmed(bitmap: &[u32]) -> &[u32]
    ensures value { result.now ≡ trimmed bitmap.now }
    ensures short { length result.now ≤ length bitmap.now }
{
    let Some((last, prefix)) = bitmap.split_last() else {
        return bitmap;
    };
    if *last == 0 { trimmed(prefix) } else { bitmap }
}

/// Reads a bitmap as results have it: without zero words at the end.
pub fn read_trimmed(r: &mut Reader<'_>) -> Result<Bitmap, Refusal>
    ensures { Scans (λ words. words) (trimmed_bitmap.read) r.old r.new result }
{
    let mut at = r.fork();
    let words = Words::read(&mut at)?;
    if !ends_in_a_bit(words.as_slice()) {
        return Err(Refusal::Value);
    }
    *r = at;
    Ok(words)
}

#[tactic(auto, using(crate::proofs::Bitmaps::trimmed_by_last))]
fn ends_in_a_bit(words: &[u32]) -> bool
    ensures { result ≡ is_trimmed words.now }
{
    words.is_empty() || words[words.len() - 1] != 0
}

/// The length of a name, of data or of attribute values has no limit of its own.
pub const ANY_LENGTH: u32 = u32::MAX;

/// The most bytes of the owner id of a client or of an open (NFS4_OPAQUE_LIMIT, RFC 8881, section
/// 3.1).
pub(crate) const MAX_OWNER_BYTES: u32 = 1024;

/// The most bytes of a machine's name (RFC 5531, appendix A).
const MAX_MACHINE_NAME_BYTES: u32 = 255;

/// `stateid4`.
#[derive(Clone, Copy, PartialEq, Eq)]
pub struct StateId {
    pub seqid: u32,
    pub other: [u8; 12],
}

impl StateId {
    /// Reads one.
    pub fn read(r: &mut Reader<'_>) -> Result<StateId, Refusal>
        ensures { Scans state_view (state_id.read) r.old r.new result }
    {
        let mut at = r.fork();
        let seqid = at.read_u32()?;
        let other = at.read_array()?;
        *r = at;
        Ok(StateId { seqid, other })
    }

    /// Writes it. On an error a prefix of it may have been written.
    pub fn write(&self, w: &mut Writer) -> Result<(), Refusal>
        ensures { Wrote w.old w.new result (state_id.encoding (state_view self.now)) }
    {
        w.write_u32(self.seqid)?;
        w.write_fixed(&self.other)
    }
}

/// `fattr4`: which attributes, and their values by rising number, encoded one after the other.
#[derive(Drop)]
pub struct Attributes<'a> {
    pub bitmap: Bitmap,
    pub values: &'a [u8],
}

impl<'a> Attributes<'a> {
    /// Reads them.
    pub fn read(r: &mut Reader<'a>) -> Result<Attributes<'a>, Refusal>
        ensures { Scans attributes_view (attributes.read) r.old r.new result }
    {
        let mut at = r.fork();
        let bitmap = Words::read(&mut at)?;
        let values = at.read_opaque(ANY_LENGTH)?;
        *r = at;
        Ok(Attributes { bitmap, values })
    }

    /// Writes it. On an error a prefix of it may have been written.
    pub fn write(&self, w: &mut Writer) -> Result<(), Refusal>
        requires { length self.now.values.now < 2 ^ 32 }
        ensures { Wrote w.old w.new result (attributes.encoding (attributes_view self.now)) }
    {
        self.bitmap.write(w)?;
        w.write_opaque(self.values)
    }
}

/// `change_info4`: the directory's change attribute before and after.
#[derive(Clone, Copy, PartialEq, Eq)]
pub struct ChangeInfo {
    pub is_atomic: bool,
    pub before: u64,
    pub after: u64,
}

impl ChangeInfo {
    /// Writes it. On an error a prefix of it may have been written.
    pub(crate) fn write(&self, w: &mut Writer) -> Result<(), Refusal>
        ensures { Wrote w.old w.new result (change_info.encoding (change_view self.now)) }
    {
        w.write_bool(self.is_atomic)?;
        w.write_u64(self.before)?;
        w.write_u64(self.after)
    }
}

/// `channel_attrs4`.
#[derive(Clone, Copy, PartialEq, Eq)]
pub struct Channel {
    pub header_pad_size: u32,
    pub max_request_size: u32,
    pub max_response_size: u32,
    pub max_response_size_cached: u32,
    pub max_operations: u32,
    pub max_requests: u32,
    pub rdma_ird: Option<u32>,
}

impl Channel {
    /// Reads one.
    pub fn read(r: &mut Reader<'_>) -> Result<Channel, Refusal>
        ensures { Scans channel_view (channel.read) r.old r.new result }
    {
        let mut at = r.fork();
        let header_pad_size = at.read_u32()?;
        let max_request_size = at.read_u32()?;
        let max_response_size = at.read_u32()?;
        let max_response_size_cached = at.read_u32()?;
        let max_operations = at.read_u32()?;
        let max_requests = at.read_u32()?;
        let rdma_ird = read_ird(&mut at)?;
        *r = at;
        Ok(Channel {
            header_pad_size,
            max_request_size,
            max_response_size,
            max_response_size_cached,
            max_operations,
            max_requests,
            rdma_ird,
        })
    }

    /// Writes it. On an error a prefix of it may have been written.
    pub fn write(&self, w: &mut Writer) -> Result<(), Refusal>
        ensures { Wrote w.old w.new result (channel.encoding (channel_view self.now)) }
    {
        w.write_u32(self.header_pad_size)?;
        w.write_u32(self.max_request_size)?;
        w.write_u32(self.max_response_size)?;
        self.write_rest(w)
    }

    fn write_rest(&self, w: &mut Writer) -> Result<(), Refusal>
        ensures { Wrote w.old w.new result (channel_rest self.now) }
    {
        w.write_u32(self.max_response_size_cached)?;
        w.write_u32(self.max_operations)?;
        w.write_u32(self.max_requests)?;
        write_ird(w, self.rdma_ird)
    }
}

fn read_ird(r: &mut Reader<'_>) -> Result<Option<u32>, Refusal>
    ensures { Scans (λ o. o) ((optional unsigned_int).read) r.old r.new result }
{
    let mut at = r.fork();
    let ird = match at.read_u32()? {
        0 => None,
        1 => Some(at.read_u32()?),
        _ => return Err(Refusal::Long),
    };
    *r = at;
    Ok(ird)
}

#[tactic(auto, using(xdr::proofs::Writing::wrote_on, xdr::proofs::Writing::wrote_exit, xdr::proofs::Writing::wrote_end))]
fn write_ird(w: &mut Writer, ird: Option<u32>) -> Result<(), Refusal>
    ensures { Wrote w.old w.new result ((optional unsigned_int).encoding ird) }
{
    match ird {
        None => w.write_u32(0),
        Some(size) => {
            w.write_u32(1)?;
            w.write_u32(size)
        }
    }
}

/// `nfs_impl_id4`: who made the client, and when.
#[derive(Clone, Copy, PartialEq, Eq)]
pub struct Implementation<'a> {
    pub domain: &'a [u8],
    pub name: &'a [u8],
    /// As the number that their eight bytes encode.
    pub seconds: u64,
    pub nanoseconds: u32,
}

impl<'a> Implementation<'a> {
    /// Reads one.
    pub fn read(r: &mut Reader<'a>) -> Result<Implementation<'a>, Refusal>
        ensures { Scans implementation_view (implementation.read) r.old r.new result }
    {
        let mut at = r.fork();
        let domain = at.read_opaque(ANY_LENGTH)?;
        let name = at.read_opaque(ANY_LENGTH)?;
        let seconds = at.read_u64()?;
        let nanoseconds = at.read_u32()?;
        *r = at;
        Ok(Implementation {
            domain,
            name,
            seconds,
            nanoseconds,
        })
    }
}

/// `authsys_parms` (RFC 5531, appendix A).
#[derive(Drop)]
pub struct SystemCredential<'a> {
    pub stamp: u32,
    pub machine_name: &'a [u8],
    pub uid: u32,
    pub gid: u32,
    pub gids: Words<{ Gids::MAX_GIDS }>,
}

impl<'a> SystemCredential<'a> {
    /// Reads one.
    pub fn read(r: &mut Reader<'a>) -> Result<SystemCredential<'a>, Refusal>
        ensures { Scans credential_view (system_credential.read) r.old r.new result }
    {
        let mut at = r.fork();
        let stamp = at.read_u32()?;
        let machine_name = at.read_opaque(MAX_MACHINE_NAME_BYTES)?;
        let uid = at.read_u32()?;
        let gid = at.read_u32()?;
        let gids = Words::read(&mut at)?;
        *r = at;
        Ok(SystemCredential {
            stamp,
            machine_name,
            uid,
            gid,
            gids,
        })
    }
}

/// `callback_sec_parms4`.
#[derive(Drop)]
pub enum CallbackSecurity<'a> {
    NoSecurity,
    System(SystemCredential<'a>),
}

impl<'a> CallbackSecurity<'a> {
    /// Reads one.
    pub fn read(r: &mut Reader<'a>) -> Result<CallbackSecurity<'a>, Refusal>
        ensures { Scans security_view (callback_security.read) r.old r.new result }
    {
        let mut at = r.fork();
        let security = match at.read_u32()? {
            0 => CallbackSecurity::NoSecurity,
            1 => CallbackSecurity::System(SystemCredential::read(&mut at)?),
            _ => return Err(Refusal::Value),
        };
        *r = at;
        Ok(security)
    }
}
