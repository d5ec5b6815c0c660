//! An entry of a directory, as READDIR returns it (RFC 8881, section 18.23).

ghost use Rattle.std.specs.Prelude.{◌≡◌, ◌≤◌, ◌^◌, [], length};
ghost use Rattle.model.specs.Attributes.NodeAttributes.{unreadable};
ghost use Rattle.model.specs.Wire.WireAnswers.{answered_attributes, entry};
ghost use Rattle.wire_attributes.specs.Listed.{EntryFits, ListedFits, entry_view, listed_view};
ghost use Rattle.xdr.specs.Clauses.{Wrote};

use crate::answer::AttributesAnswer;
use crate::node::write_words;
use model_tree::status::Status;
use xdr::{Refusal, Writer, opaque_size};

/// The bit of rdattr_error.
const RDATTR_ERROR: u32 = 0x800;

/// The attributes of an entry.
#[derive(Clone, Copy)]
pub enum ListedAttributes<'a> {
    Readable(AttributesAnswer<'a>),
    /// Its list is asked for, and the caller may not read it: only rdattr_error, with ACCESS.
    Unreadable,
    /// Its node is gone: no attribute.
    Gone,
}

/// `entry4`.
#[derive(Clone, Copy)]
pub struct ListedEntry<'a> {
    pub cookie: u64,
    pub name: &'a [u8],
    pub attributes: ListedAttributes<'a>,
}

/// Writes rdattr_error with ACCESS. On an error a prefix of it may have been written.
#[tactic(auto, unfolding(xdr::specs::Grammar::number), using(xdr::proofs::Writing::wrote_on, xdr::proofs::Writing::wrote_exit, xdr::proofs::Writing::wrote_end))]
fn write_unreadable(w: &mut Writer) -> Result<(), Refusal>
    ensures { Wrote w.old w.new result (answered_attributes.encoding unreadable) }
{
    write_words(w, &[RDATTR_ERROR])?;
    w.write_opaque(&(Status::Access as u32).to_be_bytes())
}

/// Writes no attribute. On an error a prefix of it may have been written.
#[tactic(auto, using(xdr::proofs::Writing::wrote_on, xdr::proofs::Writing::wrote_exit, xdr::proofs::Writing::wrote_end))]
fn write_gone(w: &mut Writer) -> Result<(), Refusal>
    ensures { Wrote w.old w.new result
        (answered_attributes.encoding (record { bitmap = []; values = [] })) }
{
    write_words(w, &[])?;
    w.write_opaque(&[])
}

impl ListedAttributes<'_> {
    /// How many bytes `write` writes.
    #[tactic(auto, using(crate::proofs::ListedLaws::unreadable_length, crate::proofs::ListedLaws::gone_length))]
    pub fn size(&self) -> usize
        requires { ListedFits self.now }
        ensures value { result ≡ length (answered_attributes.encoding (listed_view self.now)) }
        ensures bound { result ≤ 2 ^ 17 }
    {
        match self {
            ListedAttributes::Readable(shown) => shown.size(),
            ListedAttributes::Unreadable => 16,
            ListedAttributes::Gone => 8,
        }
    }

    /// Writes them. On an error a prefix of them may have been written.
    pub fn write(&self, w: &mut Writer) -> Result<(), Refusal>
        requires { ListedFits self.now }
        ensures { Wrote w.old w.new result (answered_attributes.encoding (listed_view self.now)) }
    {
        match self {
            ListedAttributes::Readable(shown) => shown.write(w),
            ListedAttributes::Unreadable => write_unreadable(w),
            ListedAttributes::Gone => write_gone(w),
        }
    }
}

impl ListedEntry<'_> {
    /// How many bytes `write` writes; the truth value before an entry is not counted.
    #[tactic(auto, using(crate::proofs::ListedLaws::listed_length))]
    pub fn size(&self) -> usize
        requires { EntryFits self.now }
        ensures value { result ≡ length (entry.encoding (entry_view self.now)) }
        ensures bound { result ≤ 2 ^ 18 }
    {
        8 + opaque_size(self.name) + self.attributes.size()
    }

    /// Writes it. On an error a prefix of it may have been written.
    #[tactic(auto, using(xdr::proofs::Writing::wrote_on, xdr::proofs::Writing::wrote_exit, xdr::proofs::Writing::wrote_end))]
    pub fn write(&self, w: &mut Writer) -> Result<(), Refusal>
        requires { EntryFits self.now }
        ensures { Wrote w.old w.new result (entry.encoding (entry_view self.now)) }
    {
        w.write_u64(self.cookie)?;
        w.write_opaque(self.name)?;
        self.attributes.write(w)
    }
}
