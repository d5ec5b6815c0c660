//! Results of the operations that succeeded (RFC 8881, section 18).

ghost use Rattle.std.specs.Prelude.{◌<◌, ◌^◌, length, All};
ghost use Rattle.xdr.specs.Clauses.{Wrote};
ghost use Rattle.model.specs.Wire.WireAnswers.{access_answer, create_answer, open_answer, read_answer, entry, read_dir_answer, rename_answer, write_answer, exchange_id_answer, create_session_answer, sequence_answer};
ghost use Rattle.wire.specs.AnswerViews.{access_view, create_view, open_view, open_rest, read_view, entry_view, link_of, links_of, chain_of, read_dir_view, rename_view, write_view, exchange_id_view, exchange_id_rest, exchange_id_names, create_session_view, create_session_rest, sequence_view, sequence_rest, EntryFits};

use crate::small::{Attributes, Bitmap, ChangeInfo, Channel, StateId};
use xdr::{Refusal, Writer};

/// `ACCESS4resok`.
#[derive(Clone, Copy, PartialEq, Eq)]
pub struct AccessAnswer {
    pub supported: u32,
    pub access: u32,
}

impl AccessAnswer {
    /// Writes it. On an error a prefix of it may have been written.
    pub(crate) fn write(&self, w: &mut Writer) -> Result<(), Refusal>
        ensures { Wrote w.old w.new result (access_answer.encoding (access_view self.now)) }
    {
        w.write_u32(self.supported)?;
        w.write_u32(self.access)
    }
}

/// `CREATE4resok`: the directory's change, and the attributes that were set.
#[derive(Drop)]
pub struct CreateAnswer {
    pub change: ChangeInfo,
    pub was_set: Bitmap,
}

impl CreateAnswer {
    /// Writes it. On an error a prefix of it may have been written.
    pub(crate) fn write(&self, w: &mut Writer) -> Result<(), Refusal>
        ensures { Wrote w.old w.new result (create_answer.encoding (create_view self.now)) }
    {
        self.change.write(w)?;
        self.was_set.write(w)
    }
}

/// `OPEN4resok`, without a delegation.
#[derive(Drop)]
pub struct OpenAnswer {
    pub state: StateId,
    pub change: ChangeInfo,
    pub flags: u32,
    pub was_set: Bitmap,
}

impl OpenAnswer {
    /// Writes it. On an error a prefix of it may have been written.
    pub(crate) fn write(&self, w: &mut Writer) -> Result<(), Refusal>
        ensures { Wrote w.old w.new result (open_answer.encoding (open_view self.now)) }
    {
        self.state.write(w)?;
        self.change.write(w)?;
        self.write_rest(w)
    }

    fn write_rest(&self, w: &mut Writer) -> Result<(), Refusal>
        ensures { Wrote w.old w.new result (open_rest self.now) }
    {
        w.write_u32(self.flags)?;
        self.was_set.write(w)?;
        w.write_u32(0)
    }
}

/// `READ4resok`.
#[derive(Clone, Copy, PartialEq, Eq)]
pub struct ReadAnswer<'a> {
    pub is_end: bool,
    pub data: &'a [u8],
}

impl ReadAnswer<'_> {
    /// Writes it. On an error a prefix of it may have been written.
    pub(crate) fn write(&self, w: &mut Writer) -> Result<(), Refusal>
        requires { length self.now.data.now < 2 ^ 32 }
        ensures { Wrote w.old w.new result (read_answer.encoding (read_view self.now)) }
    {
        w.write_bool(self.is_end)?;
        w.write_opaque(self.data)
    }
}

/// `entry4`.
#[derive(Drop)]
pub struct Entry<'a> {
    pub cookie: u64,
    pub name: &'a [u8],
    pub attributes: Attributes<'a>,
}

impl Entry<'_> {
    /// Writes it. On an error a prefix of it may have been written.
    pub(crate) fn write(&self, w: &mut Writer) -> Result<(), Refusal>
        requires { EntryFits self.now }
        ensures { Wrote w.old w.new result (entry.encoding (entry_view self.now)) }
    {
        w.write_u64(self.cookie)?;
        w.write_opaque(self.name)?;
        self.attributes.write(w)
    }
}

/// `READDIR4resok`, with a verifier of zero bytes.
#[derive(Drop)]
pub struct ReadDirAnswer<'a> {
    pub entries: Vec<Entry<'a>>,
    pub is_end: bool,
}

impl ReadDirAnswer<'_> {
    /// Writes it. On an error a prefix of it may have been written.
    #[tactic(auto, using(xdr::proofs::Writing::wrote_on, xdr::proofs::Writing::wrote_exit, xdr::proofs::Writing::wrote_end))]
    pub(crate) fn write(&self, w: &mut Writer) -> Result<(), Refusal>
        requires { All EntryFits self.now.entries.items }
        ensures { Wrote w.old w.new result (read_dir_answer.encoding (read_dir_view self.now)) }
    {
        w.write_u64(0)?;
        write_entries(w, &self.entries)?;
        w.write_bool(self.is_end)
    }
}

#[tactic(auto, unfolding(crate::specs::AnswerViews::chain_of), using(xdr::proofs::Writing::wrote_on, xdr::proofs::Writing::wrote_exit, xdr::proofs::Writing::wrote_end))]
fn write_entries(w: &mut Writer, entries: &[Entry<'_>]) -> Result<(), Refusal>
    requires { All EntryFits entries.now }
    ensures { Wrote w.old w.new result (chain_of entries.now) }
{
    write_links(w, entries)?;
    w.write_u32(0)
}

fn write_links(w: &mut Writer, entries: &[Entry<'_>]) -> Result<(), Refusal>
    requires { All EntryFits entries.now }
    ensures { Wrote w.old w.new result (links_of entries.now) }
{
    for entry in entries {
        write_link(w, entry)?;
    }
    Ok(())
}

fn write_link(w: &mut Writer, entry: &Entry<'_>) -> Result<(), Refusal>
    requires { EntryFits entry.now }
    ensures { Wrote w.old w.new result (link_of entry.now) }
{
    w.write_u32(1)?;
    entry.write(w)
}

/// `RENAME4resok`: the changes of the directory that lost the name, and of the one that gained it.
#[derive(Clone, Copy, PartialEq, Eq)]
pub struct RenameAnswer {
    pub source: ChangeInfo,
    pub target: ChangeInfo,
}

impl RenameAnswer {
    /// Writes it. On an error a prefix of it may have been written.
    pub(crate) fn write(&self, w: &mut Writer) -> Result<(), Refusal>
        ensures { Wrote w.old w.new result (rename_answer.encoding (rename_view self.now)) }
    {
        self.source.write(w)?;
        self.target.write(w)
    }
}

/// `WRITE4resok`.
#[derive(Clone, Copy, PartialEq, Eq)]
pub struct WriteAnswer {
    pub count: u32,
    pub committed: u32,
    pub verifier: [u8; 8],
}

impl WriteAnswer {
    /// Writes it. On an error a prefix of it may have been written.
    pub(crate) fn write(&self, w: &mut Writer) -> Result<(), Refusal>
        ensures { Wrote w.old w.new result (write_answer.encoding (write_view self.now)) }
    {
        w.write_u32(self.count)?;
        w.write_u32(self.committed)?;
        w.write_fixed(&self.verifier)
    }
}

/// `EXCHANGE_ID4resok`, with SP4_NONE, the minor id 0 and no implementation.
#[derive(Clone, Copy, PartialEq, Eq)]
pub struct ExchangeIdAnswer<'a> {
    pub client: u64,
    pub sequence: u32,
    pub flags: u32,
    pub major_id: &'a [u8],
    pub scope: &'a [u8],
}

impl ExchangeIdAnswer<'_> {
    /// Writes it. On an error a prefix of it may have been written.
    pub fn write(&self, w: &mut Writer) -> Result<(), Refusal>
        requires { (length self.now.major_id.now < 2 ^ 32) × (length self.now.scope.now < 2 ^ 32) }
        ensures { Wrote w.old w.new result
            (exchange_id_answer.encoding (exchange_id_view self.now)) }
    {
        w.write_u64(self.client)?;
        w.write_u32(self.sequence)?;
        w.write_u32(self.flags)?;
        self.write_rest(w)
    }

    fn write_rest(&self, w: &mut Writer) -> Result<(), Refusal>
        requires { (length self.now.major_id.now < 2 ^ 32) × (length self.now.scope.now < 2 ^ 32) }
        ensures { Wrote w.old w.new result (exchange_id_rest self.now) }
    {
        w.write_u32(0)?;
        w.write_u64(0)?;
        self.write_names(w)
    }

    fn write_names(&self, w: &mut Writer) -> Result<(), Refusal>
        requires { (length self.now.major_id.now < 2 ^ 32) × (length self.now.scope.now < 2 ^ 32) }
        ensures { Wrote w.old w.new result (exchange_id_names self.now) }
    {
        w.write_opaque(self.major_id)?;
        w.write_opaque(self.scope)?;
        w.write_u32(0)
    }
}

/// `CREATE_SESSION4resok`.
#[derive(Clone, Copy, PartialEq, Eq)]
pub struct CreateSessionAnswer {
    pub session: [u8; 16],
    pub sequence: u32,
    pub flags: u32,
    pub fore: Channel,
    pub back: Channel,
}

impl CreateSessionAnswer {
    /// Writes it. On an error a prefix of it may have been written.
    pub(crate) fn write(&self, w: &mut Writer) -> Result<(), Refusal>
        ensures { Wrote w.old w.new result
            (create_session_answer.encoding (create_session_view self.now)) }
    {
        w.write_fixed(&self.session)?;
        w.write_u32(self.sequence)?;
        w.write_u32(self.flags)?;
        self.write_rest(w)
    }

    fn write_rest(&self, w: &mut Writer) -> Result<(), Refusal>
        ensures { Wrote w.old w.new result (create_session_rest self.now) }
    {
        self.fore.write(w)?;
        self.back.write(w)
    }
}

/// `SEQUENCE4resok`.
#[derive(Clone, Copy, PartialEq, Eq)]
pub struct SequenceAnswer {
    pub session: [u8; 16],
    pub sequence: u32,
    pub slot: u32,
    pub highest_slot: u32,
    pub target_highest_slot: u32,
    pub flags: u32,
}

impl SequenceAnswer {
    /// Writes it. On an error a prefix of it may have been written.
    pub(crate) fn write(&self, w: &mut Writer) -> Result<(), Refusal>
        ensures { Wrote w.old w.new result (sequence_answer.encoding (sequence_view self.now)) }
    {
        w.write_fixed(&self.session)?;
        w.write_u32(self.sequence)?;
        w.write_u32(self.slot)?;
        self.write_rest(w)
    }

    fn write_rest(&self, w: &mut Writer) -> Result<(), Refusal>
        ensures { Wrote w.old w.new result (sequence_rest self.now) }
    {
        w.write_u32(self.highest_slot)?;
        w.write_u32(self.target_highest_slot)?;
        w.write_u32(self.flags)
    }
}
