//! The entries of an access control list, as they are on the wire (RFC 8881, section 6.2.1).

ghost use Rattle.std.specs.Prelude.{◌<◌, ◌^◌, length, map, All};
ghost use Rattle.std.specs.List.{flat_map};
ghost use Rattle.xdr.specs.Clauses.{Scans, ReadsBy, Wrote};
ghost use Rattle.model.specs.Attributes.AttributeValue.{acl_entry, entries};
ghost use Rattle.wire_attributes.specs.Views.{EntryFits, entry_encoding, entry_view};
ghost use Rattle.wire_attributes.specs.Clauses.{ReadsEntries};

use std::alloc::Global;
use xdr::{Reader, Refusal, Writer};

/// `nfsace4`: what its numbers and its text mean is not checked.
#[derive(Drop, PartialEq, Eq)]
pub struct AclEntry<'a> {
    /// `acetype4`
    pub kind: u32,
    pub flags: u32,
    pub mask: u32,
    pub who: &'a [u8],
}

impl<'a> AclEntry<'a> {
    fn read(r: &mut Reader<'a>) -> Result<AclEntry<'a>, Refusal>
        ensures { Scans entry_view (acl_entry.read) r.old r.new result }
    {
        let mut at = r.fork();
        let kind = at.read_u32()?;
        let flags = at.read_u32()?;
        let mask = at.read_u32()?;
        let who = at.read_opaque(u32::MAX)?;
        *r = at;
        Ok(AclEntry {
            kind,
            flags,
            mask,
            who,
        })
    }

    #[tactic(auto, using(xdr::proofs::Writing::wrote_on, xdr::proofs::Writing::wrote_exit, xdr::proofs::Writing::wrote_end))]
    pub(crate) fn write(&self, w: &mut Writer) -> Result<(), Refusal>
        requires { EntryFits self.now }
        ensures { Wrote w.old w.new result (entry_encoding self.now) }
    {
        w.write_u32(self.kind)?;
        w.write_u32(self.flags)?;
        w.write_u32(self.mask)?;
        w.write_opaque(self.who)
    }
}

/// Reads a list. No memory is taken for entries that were not read.
#[tactic(auto, unfolding(xdr::specs::Forms::elements_at))]
pub(crate) fn read_entries<'a>(
    alloc: Global,
    r: &mut Reader<'a>,
) -> Result<Vec<AclEntry<'a>>, Refusal>
    ensures { ReadsBy (λ list. map entry_view list.items) (entries.read) r.old r.new result }
{
    let mut at = r.fork();
    let count = at.read_u32()?;
    let (list, at) = each_entry(alloc, count, at)?;
    *r = at;
    Ok(list)
}

fn each_entry<'a>(
    alloc: Global,
    count: u32,
    at: Reader<'a>,
) -> Result<(Vec<AclEntry<'a>>, Reader<'a>), Refusal>
    ensures { ReadsEntries count at.entry result }
{
    let mut at = at;
    let mut list = Vec::new(alloc);
    for _ in 0..count {
        let entry = AclEntry::read(&mut at)?;
        list.push(entry)?;
    }
    Ok((list, at))
}

/// Writes a list. On an error a prefix of it may have been written.
#[tactic(auto, using(xdr::proofs::Writing::wrote_on, xdr::proofs::Writing::wrote_exit, xdr::proofs::Writing::wrote_end))]
pub(crate) fn write_entries(w: &mut Writer, list: &[AclEntry<'_>]) -> Result<(), Refusal>
    requires count { length list.now < 2 ^ 32 }
    requires fits { All EntryFits list.now }
    ensures { Wrote w.old w.new result (entries.encoding (map entry_view list.now)) }
{
    w.write_u32(list.len() as u32)?;
    write_each_entry(w, list)
}

fn write_each_entry(w: &mut Writer, list: &[AclEntry<'_>]) -> Result<(), Refusal>
    requires { All EntryFits list.now }
    ensures { Wrote w.old w.new result (flat_map entry_encoding list.now) }
{
    for entry in list {
        entry.write(w)?;
    }
    Ok(())
}
