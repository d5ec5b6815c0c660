//! The values of a node's attributes, encoded without a copy of its list (RFC 8881, sections 5.6 to
//! 5.8, and 6.2).

ghost use Rattle.std.specs.Prelude.{◌≡◌, ◌%◌, ◌≤◌, length, map};
ghost use Rattle.std.specs.Int.{w32};
ghost use Rattle.std.specs.List.{flat_map};
ghost use Rattle.model.specs.Attributes.AclText.{entry_text, who_text};
ghost use Rattle.model.specs.Attributes.AttributeValue.{acl_entry, file_system_id, node_kind, time};
ghost use Rattle.model.specs.Attributes.NodeAttributes.{time_of};
ghost use Rattle.model_tree.specs.declared.acl.Who.TheVariants as who;
ghost use Rattle.wire_attributes.specs.NodeValues.{HasFewEntries, value_encoded};
ghost use Rattle.xdr.specs.Clauses.{Wrote};
ghost use Rattle.xdr.specs.Forms.{counted, elements};
ghost use Rattle.xdr.specs.Grammar.{number};

use crate::ace::{number_of_kind, wire_flags};
use crate::attribute::Attribute;
use crate::entry::AclEntry;
use acl_set::mode_of;
use bitflags::Flags;
use itoa::Buffer;
use model_tree::acl::{Ace, Acl, Who};
use model_tree::node::NodeKind;
use xdr::{Refusal, Writer, opaque_size};

/// The words of the bitmap of all attributes.
pub(crate) const SUPPORTED: [u32; 3] = [0xE818_3FFF, 0x0020_003A, 0x0000_0800];

/// The most bytes of a text that names whom an entry is for: a number's ten digits.
const MAX_WHO_BYTES: usize = 10;

/// Seconds after which a lease would expire; none does.
const LEASE_TIME: u32 = 90;

/// ALLOW and DENY entries.
const ACL_SUPPORT: u32 = 3;

const NANOSECONDS: u64 = 1_000_000_000;

/// What a node says about itself, and the limits of its volume that it reports.
#[derive(Clone, Copy)]
pub struct NodeAttributes<'a> {
    pub kind: NodeKind,
    pub number: u64,
    pub owner: u32,
    pub group: u32,
    pub acl: &'a [Ace],
    pub change: u64,
    /// Nanoseconds since 1970.
    pub time_modify: u64,
    /// A file's bytes, or a directory's names.
    pub size: u64,
    pub max_file_size: u64,
    pub max_name: u32,
    /// The most bytes that one READ returns or one WRITE takes.
    pub max_transfer: u64,
}

/// The text that names this one. The buffer holds the digits of a number.
fn who_bytes(digits: &mut Buffer, who: Who) -> &[u8]
    ensures text { result.now ≡ who_text who }
    ensures short { length result.now ≤ MAX_WHO_BYTES }
{
    match who {
        Who::Owner => b"OWNER@",
        Who::Group => b"GROUP@",
        Who::Everyone => b"EVERYONE@",
        Who::User(number) | Who::NamedGroup(number) => digits.format(number).as_bytes(),
    }
}

/// How many bytes an entry takes.
fn ace_size(ace: &Ace) -> usize
    ensures value { result ≡ length (acl_entry.encoding (entry_text ace.now)) }
    ensures bound { result ≤ 60 }
    ensures whole { result % 4 ≡ 0 }
{
    let mut digits = Buffer::new();
    12 + opaque_size(who_bytes(&mut digits, ace.who))
}

/// How many bytes the entries take.
fn aces_size(acl: &[Ace]) -> usize
    requires { length acl.now ≤ Acl.MAX_STORED }
    ensures value { result
        ≡ length (flat_map (λ ace. acl_entry.encoding (entry_text ace)) acl.now) }
    ensures bound { result ≤ 4320 }
    ensures whole { result % 4 ≡ 0 }
{
    let mut size = 0;
    for ace in acl {
        size += ace_size(ace);
    }
    size
}

/// How many bytes a number takes as a text.
fn owner_size(number: u32) -> usize
    ensures value { result ≡ length (counted (who_text (who.User number))) }
    ensures bound { result ≤ 48 }
    ensures whole { result % 4 ≡ 0 }
{
    let mut digits = Buffer::new();
    opaque_size(who_bytes(&mut digits, Who::User(number)))
}

/// Writes an entry. On an error a prefix of it may have been written.
fn write_ace(w: &mut Writer, ace: &Ace) -> Result<(), Refusal>
    ensures { Wrote w.old w.new result (acl_entry.encoding (entry_text ace.now)) }
{
    let mut digits = Buffer::new();
    let entry = AclEntry {
        kind: number_of_kind(ace.kind),
        flags: wire_flags(ace.flags, ace.who).bits(),
        mask: ace.mask.bits(),
        who: who_bytes(&mut digits, ace.who),
    };
    entry.write(w)
}

/// Writes the entries of a list. On an error a prefix of them may have been written.
fn write_aces(w: &mut Writer, acl: &[Ace]) -> Result<(), Refusal>
    ensures { Wrote w.old w.new result
        (flat_map (λ ace. acl_entry.encoding (entry_text ace)) acl.now) }
{
    for ace in acl {
        write_ace(w, ace)?;
    }
    Ok(())
}

/// Writes a list. On an error a prefix of it may have been written.
#[tactic(auto, using(xdr::proofs::Writing::wrote_on, xdr::proofs::Writing::wrote_exit, xdr::proofs::Writing::wrote_end))]
fn write_acl(w: &mut Writer, acl: &[Ace]) -> Result<(), Refusal>
    requires { length acl.now ≤ Acl.MAX_STORED }
    ensures { Wrote w.old w.new result
        (elements acl_entry.encoding (map entry_text acl.now)) }
{
    w.write_u32(acl.len() as u32)?;
    write_aces(w, acl)
}

/// Writes a number as a text. On an error a prefix of it may have been written.
fn write_owner(w: &mut Writer, number: u32) -> Result<(), Refusal>
    ensures { Wrote w.old w.new result (counted (who_text (who.User number))) }
{
    let mut digits = Buffer::new();
    w.write_opaque(who_bytes(&mut digits, Who::User(number)))
}

/// Writes words after their number. On an error a prefix of them may have been written.
#[tactic(auto, unfolding(xdr::specs::Forms::elements), using(xdr::proofs::Writing::wrote_on, xdr::proofs::Writing::wrote_exit, xdr::proofs::Writing::wrote_end))]
pub(crate) fn write_words(w: &mut Writer, words: &[u32]) -> Result<(), Refusal>
    requires { length words.now ≤ 8 }
    ensures { Wrote w.old w.new result (elements (λ n. number w32 n) words.now) }
{
    w.write_u32(words.len() as u32)?;
    write_each_word(w, words)
}

fn write_each_word(w: &mut Writer, words: &[u32]) -> Result<(), Refusal>
    ensures { Wrote w.old w.new result (flat_map (λ n. number w32 n) words.now) }
{
    for word in words {
        w.write_u32(*word)?;
    }
    Ok(())
}

/// Writes a moment, in nanoseconds since 1970. On an error a prefix of it may have been written.
#[tactic(auto, using(xdr::proofs::Writing::wrote_on, xdr::proofs::Writing::wrote_exit, xdr::proofs::Writing::wrote_end))]
fn write_time(w: &mut Writer, moment: u64) -> Result<(), Refusal>
    ensures { Wrote w.old w.new result (time.encoding (time_of moment)) }
{
    w.write_u64(moment / NANOSECONDS)?;
    w.write_u32((moment % NANOSECONDS) as u32)
}

/// Writes the only file system's id. On an error a prefix of it may have been written.
#[tactic(auto, using(xdr::proofs::Writing::wrote_on, xdr::proofs::Writing::wrote_exit, xdr::proofs::Writing::wrote_end))]
fn write_fsid(w: &mut Writer) -> Result<(), Refusal>
    ensures { Wrote w.old w.new result
        (file_system_id.encoding (record { major = 1; minor = 0 })) }
{
    w.write_u64(1)?;
    w.write_u64(0)
}

fn kind_number(kind: NodeKind) -> u32
    ensures { number w32 result ≡ node_kind.encoding kind }
{
    match kind {
        NodeKind::File => 1,
        NodeKind::Directory => 2,
    }
}

impl NodeAttributes<'_> {
    /// How many bytes an attribute's value takes.
    #[tactic(auto, using(wire::proofs::Sizes::int_length, wire::proofs::Sizes::hyper_length, crate::proofs::NodeSizes::bitmap_length, crate::proofs::NodeSizes::fsid_length, crate::proofs::NodeSizes::handle_length, crate::proofs::NodeSizes::kind_length, crate::proofs::NodeSizes::none_length, crate::proofs::NodeSizes::time_length, crate::proofs::NodeSizes::list_length))]
    pub(crate) fn value_size(&self, attribute: Attribute) -> usize
        requires { HasFewEntries self.now }
        ensures value { result ≡ length (value_encoded self.now attribute) }
        ensures bound { result ≤ 4400 }
        ensures whole { result % 4 ≡ 0 }
    {
        match attribute {
            Attribute::SupportedAttrs | Attribute::Fsid => 16,
            Attribute::FileHandle | Attribute::TimeModify => 12,
            Attribute::Change
            | Attribute::Size
            | Attribute::FileId
            | Attribute::MaxFileSize
            | Attribute::MaxRead
            | Attribute::MaxWrite => 8,
            Attribute::Acl => 4 + aces_size(self.acl),
            Attribute::Owner => owner_size(self.owner),
            Attribute::OwnerGroup => owner_size(self.group),
            Attribute::Kind
            | Attribute::FhExpireType
            | Attribute::LinkSupport
            | Attribute::SymlinkSupport
            | Attribute::NamedAttr
            | Attribute::UniqueHandles
            | Attribute::LeaseTime
            | Attribute::RdattrError
            | Attribute::AclSupport
            | Attribute::MaxName
            | Attribute::Mode
            | Attribute::NumLinks
            | Attribute::SuppattrExclcreat => 4,
        }
    }

    /// Writes an attribute's value. On an error a prefix of it may have been written.
    pub(crate) fn write_value(&self, w: &mut Writer, attribute: Attribute) -> Result<(), Refusal>
        requires { HasFewEntries self.now }
        ensures { Wrote w.old w.new result (value_encoded self.now attribute) }
    {
        match attribute {
            Attribute::SupportedAttrs => write_words(w, &SUPPORTED),
            Attribute::Kind => w.write_u32(kind_number(self.kind)),
            Attribute::Change => w.write_u64(self.change),
            Attribute::Size => w.write_u64(self.size),
            Attribute::SuppattrExclcreat => write_words(w, &[]),
            Attribute::FhExpireType | Attribute::RdattrError => w.write_u32(0),
            Attribute::LinkSupport | Attribute::SymlinkSupport | Attribute::NamedAttr =>
                w.write_bool(false),
            Attribute::Fsid => write_fsid(w),
            Attribute::UniqueHandles => w.write_bool(true),
            Attribute::LeaseTime => w.write_u32(LEASE_TIME),
            Attribute::Acl => write_acl(w, self.acl),
            Attribute::AclSupport => w.write_u32(ACL_SUPPORT),
            Attribute::FileHandle => w.write_opaque(&self.number.to_be_bytes()),
            Attribute::FileId => w.write_u64(self.number),
            Attribute::MaxFileSize => w.write_u64(self.max_file_size),
            Attribute::MaxName => w.write_u32(self.max_name),
            Attribute::MaxRead | Attribute::MaxWrite => w.write_u64(self.max_transfer),
            // Nobody keeps it: the list is read when it is asked for.
            Attribute::Mode => w.write_u32(mode_of(self.acl)),
            Attribute::NumLinks => w.write_u32(1),
            Attribute::Owner => write_owner(w, self.owner),
            Attribute::OwnerGroup => write_owner(w, self.group),
            Attribute::TimeModify => write_time(w, self.time_modify),
        }
    }
}
