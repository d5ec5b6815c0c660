//! The values of attributes (RFC 8881, sections 5.6 to 5.8).

ghost use Rattle.std.specs.Prelude.{◌≡◌, ◌<◌};
ghost use Rattle.xdr.specs.Clauses.{Scans, ReadsBy, Wrote};
ghost use Rattle.model.specs.Attributes.AttributeValue.{attribute_of, file_system_id, node_kind, time, value_at};
ghost use Rattle.wire_attributes.specs.Views.{ValueFits, file_system_view, time_view, value_encoding, value_view};

use crate::entry::{AclEntry, read_entries, write_entries};
use model_tree::node::NodeKind;
use std::alloc::Global;
use wire::{ANY_LENGTH, Bitmap, MAX_HANDLE_BYTES, read_trimmed};
use xdr::{Reader, Refusal, Writer};

/// `fsid4`.
#[derive(Clone, Copy, PartialEq, Eq)]
pub struct FileSystemId {
    pub major: u64,
    pub minor: u64,
}

impl FileSystemId {
    fn read(r: &mut Reader<'_>) -> Result<FileSystemId, Refusal>
        ensures { Scans file_system_view (file_system_id.read) r.old r.new result }
    {
        let mut at = r.fork();
        let major = at.read_u64()?;
        let minor = at.read_u64()?;
        *r = at;
        Ok(FileSystemId { major, minor })
    }

    #[tactic(auto, using(xdr::proofs::Writing::wrote_on, xdr::proofs::Writing::wrote_exit, xdr::proofs::Writing::wrote_end))]
    fn write(&self, w: &mut Writer) -> Result<(), Refusal>
        ensures { Wrote w.old w.new result (file_system_id.encoding (file_system_view self.now)) }
    {
        w.write_u64(self.major)?;
        w.write_u64(self.minor)
    }
}

/// `nfstime4`.
#[derive(Clone, Copy, PartialEq, Eq)]
pub struct Time {
    /// Since 1970, as the number that their eight bytes encode.
    pub seconds: u64,
    pub nanoseconds: u32,
}

impl Time {
    fn read(r: &mut Reader<'_>) -> Result<Time, Refusal>
        ensures { Scans time_view (time.read) r.old r.new result }
    {
        let mut at = r.fork();
        let seconds = at.read_u64()?;
        let nanoseconds = at.read_u32()?;
        *r = at;
        Ok(Time {
            seconds,
            nanoseconds,
        })
    }

    #[tactic(auto, using(xdr::proofs::Writing::wrote_on, xdr::proofs::Writing::wrote_exit, xdr::proofs::Writing::wrote_end))]
    fn write(&self, w: &mut Writer) -> Result<(), Refusal>
        ensures { Wrote w.old w.new result (time.encoding (time_view self.now)) }
    {
        w.write_u64(self.seconds)?;
        w.write_u32(self.nanoseconds)
    }
}

fn read_kind(r: &mut Reader<'_>) -> Result<NodeKind, Refusal>
    ensures { Scans (λ kind. kind) (node_kind.read) r.old r.new result }
{
    let mut at = r.fork();
    let kind = match at.read_u32()? {
        1 => NodeKind::File,
        2 => NodeKind::Directory,
        _ => return Err(Refusal::Value),
    };
    *r = at;
    Ok(kind)
}

#[tactic(auto, using(crate::proofs::Alone::wrote_alone))]
fn write_kind(w: &mut Writer, kind: NodeKind) -> Result<(), Refusal>
    ensures { Wrote w.old w.new result (node_kind.encoding kind) }
{
    match kind {
        NodeKind::File => w.write_u32(1),
        NodeKind::Directory => w.write_u32(2),
    }
}

/// The value of an attribute. On the wire it comes without its attribute's number.
#[derive(Drop)]
pub enum Value<'a> {
    SupportedAttrs(Bitmap),
    Kind(NodeKind),
    FhExpireType(u32),
    Change(u64),
    Size(u64),
    LinkSupport(bool),
    SymlinkSupport(bool),
    NamedAttr(bool),
    Fsid(FileSystemId),
    UniqueHandles(bool),
    LeaseTime(u32),
    RdattrError(u32),
    Acl(Vec<AclEntry<'a>>),
    AclSupport(u32),
    FileHandle(&'a [u8]),
    FileId(u64),
    MaxFileSize(u64),
    MaxName(u32),
    MaxRead(u64),
    MaxWrite(u64),
    Mode(u32),
    NumLinks(u32),
    Owner(&'a [u8]),
    OwnerGroup(&'a [u8]),
    TimeModify(Time),
    SuppattrExclcreat(Bitmap),
}

impl<'a> Value<'a> {
    /// The attribute's number.
    pub fn number(&self) -> u32
        ensures { result ≡ attribute_of (value_view self.now) }
    {
        match self {
            Value::SupportedAttrs(_) => 0,
            Value::Kind(_) => 1,
            Value::FhExpireType(_) => 2,
            Value::Change(_) => 3,
            Value::Size(_) => 4,
            Value::LinkSupport(_) => 5,
            Value::SymlinkSupport(_) => 6,
            Value::NamedAttr(_) => 7,
            Value::Fsid(_) => 8,
            Value::UniqueHandles(_) => 9,
            Value::LeaseTime(_) => 10,
            Value::RdattrError(_) => 11,
            Value::Acl(_) => 12,
            Value::AclSupport(_) => 13,
            Value::FileHandle(_) => 19,
            Value::FileId(_) => 20,
            Value::MaxFileSize(_) => 27,
            Value::MaxName(_) => 29,
            Value::MaxRead(_) => 30,
            Value::MaxWrite(_) => 31,
            Value::Mode(_) => 33,
            Value::NumLinks(_) => 35,
            Value::Owner(_) => 36,
            Value::OwnerGroup(_) => 37,
            Value::TimeModify(_) => 53,
            Value::SuppattrExclcreat(_) => 75,
        }
    }

    /// Reads the value of the attribute of this number.
    #[tactic(auto, unfolding(model::specs::Attributes::AttributeValue::value_at))]
    pub(crate) fn read(
        alloc: Global,
        attribute: u32,
        r: &mut Reader<'a>,
    ) -> Result<Value<'a>, Refusal>
        ensures { ReadsBy value_view (value_at attribute) r.old r.new result }
    {
        let mut at = r.fork();
        let value = match attribute {
            0 => Value::SupportedAttrs(read_trimmed(&mut at)?),
            1 => Value::Kind(read_kind(&mut at)?),
            2 => Value::FhExpireType(at.read_u32()?),
            3 => Value::Change(at.read_u64()?),
            4 => Value::Size(at.read_u64()?),
            5 => Value::LinkSupport(at.read_bool()?),
            6 => Value::SymlinkSupport(at.read_bool()?),
            7 => Value::NamedAttr(at.read_bool()?),
            8 => Value::Fsid(FileSystemId::read(&mut at)?),
            9 => Value::UniqueHandles(at.read_bool()?),
            10 => Value::LeaseTime(at.read_u32()?),
            11 => Value::RdattrError(at.read_u32()?),
            12 => Value::Acl(read_entries(alloc, &mut at)?),
            13 => Value::AclSupport(at.read_u32()?),
            19 => Value::FileHandle(at.read_opaque(MAX_HANDLE_BYTES)?),
            20 => Value::FileId(at.read_u64()?),
            27 => Value::MaxFileSize(at.read_u64()?),
            29 => Value::MaxName(at.read_u32()?),
            30 => Value::MaxRead(at.read_u64()?),
            31 => Value::MaxWrite(at.read_u64()?),
            33 => Value::Mode(at.read_u32()?),
            35 => Value::NumLinks(at.read_u32()?),
            36 => Value::Owner(at.read_opaque(ANY_LENGTH)?),
            37 => Value::OwnerGroup(at.read_opaque(ANY_LENGTH)?),
            53 => Value::TimeModify(Time::read(&mut at)?),
            75 => Value::SuppattrExclcreat(read_trimmed(&mut at)?),
            _ => return Err(Refusal::Value),
        };
        *r = at;
        Ok(value)
    }

    /// Writes it. On an error a prefix of it may have been written.
    pub(crate) fn write(&self, w: &mut Writer) -> Result<(), Refusal>
        requires { ValueFits self.now }
        ensures { Wrote w.old w.new result (value_encoding self.now) }
    {
        match self {
            Value::SupportedAttrs(bitmap) | Value::SuppattrExclcreat(bitmap) => bitmap.write(w),
            Value::Kind(kind) => write_kind(w, *kind),
            Value::FhExpireType(number)
            | Value::LeaseTime(number)
            | Value::RdattrError(number)
            | Value::AclSupport(number)
            | Value::MaxName(number)
            | Value::Mode(number)
            | Value::NumLinks(number) => w.write_u32(*number),
            Value::Change(number)
            | Value::Size(number)
            | Value::FileId(number)
            | Value::MaxFileSize(number)
            | Value::MaxRead(number)
            | Value::MaxWrite(number) => w.write_u64(*number),
            Value::LinkSupport(truth)
            | Value::SymlinkSupport(truth)
            | Value::NamedAttr(truth)
            | Value::UniqueHandles(truth) => w.write_bool(*truth),
            Value::Fsid(id) => id.write(w),
            Value::TimeModify(time) => time.write(w),
            Value::Acl(entries) => write_entries(w, entries),
            Value::FileHandle(text) | Value::Owner(text) | Value::OwnerGroup(text) =>
                w.write_opaque(text),
        }
    }
}
