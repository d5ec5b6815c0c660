//! The end of a COMPOUND: its whole result, which the slot keeps and a seat may hold, and the
//! reply's record.

ghost use Rattle.std.specs.Prelude.{◌≡◌, ◌≤◌, Some, is_some, length};
ghost use Rattle.std.specs.Option.{option_map};
ghost use Rattle.model.specs.Wire.Rpc.{compound_text};
ghost use Rattle.model.specs.Sessions.Session.{finish};
ghost use Rattle.model.specs.Server.World.{kept_by};
ghost use Rattle.rpc.specs.Views.{result_text};
ghost use Rattle.session.specs.Views.{table_of};
ghost use Rattle.compound.specs.Turns.{AreOfReply};
ghost use Rattle.compound.specs.Views.{slot_of};
ghost use Rattle.compound.specs.declared.progress.TheConstants.{RESULT_BUFFER};

use crate::fault::Fault;
use crate::held_replies::put_seats;
use crate::progress::{BEFORE_RESULT, Progress, RESULT_BUFFER, SlotId};
use crate::running::Running;
use disk::Device;
use fs::Fs;
use model_tree::seat_edits::SeatEdits;
use model_tree::status::Status;
use rpc::{Compound, CompoundResult, Reply, Tag, write_reply};
use session::Table;
use xdr::Writer;

/// The status of the last result, and, if a seat is to hold the reply, what that makes of the
/// seats.
#[derive(Drop)]
pub(crate) struct LastResult {
    pub(crate) status: Status,
    pub(crate) edits: Option<SeatEdits>,
}

impl Running<'_> {
    ghost use Rattle.std.specs.Prelude.{◌≡◌, ℕ, true, List, Some, is_some, IfOk, OnOk};
    ghost use Rattle.fs.specs.Views.{fs_of, AltersFs};
    ghost use Rattle.model.specs.Wire.Record.{framed};
    ghost use Rattle.model.specs.Wire.Rpc.{Success, reply_text};
    ghost use Rattle.model.specs.Server.World.{kept_by, result_of};
    ghost use Rattle.session.specs.Views.{table_of, reply_kept};
    ghost use Rattle.compound.specs.Memory.{OrMemory};
    ghost use Rattle.compound.specs.States.{CanSeat};
    ghost use Rattle.compound.specs.Turns.{AreOfReply};
    ghost use Rattle.compound.specs.Views.{in_progress_of};
    ghost use Rattle.compound.specs.Volumes.{IsSeated, HasSameTree, ending};

    /// The reply's whole record, once the last result is there. The slot keeps the result of the
    /// COMPOUND, and if there are edits, a seat holds it by them. No memory is allocated, and what
    /// is left over goes to `results_buffer`.
    #[tactic(auto, unfolding(crate::specs::Views::in_progress_of), using(crate::proofs::Replies::success_length, crate::proofs::Replies::framed_length))]
    pub(crate) fn end(
        self,
        table: &mut Table,
        last: LastResult,
        results_buffer: &mut Writer,
    ) -> Vec<u8>
        requires { AreOfReply (in_progress_of self).slot
            (result_of (in_progress_of self) last.status) (table_of table.old) last.edits }
        ensures reply { result.items ≡ framed (reply_text (in_progress_of self.entry).xid
            (Success (result_of (in_progress_of self.entry) last.status))) }
        ensures kept { table_of table.new ≡ kept_by (in_progress_of self.entry).slot
            (is_some last.edits) (result_of (in_progress_of self.entry) last.status)
            (table_of table.old) }
    {
        let Running {
            xid,
            compound: Compound { tag, .. },
            progress,
            ..
        } = self;
        let Progress {
            answered,
            results,
            reply,
            slot,
            ..
        } = progress;
        let LastResult { status, edits } = last;
        let compound = result_of(status, tag, answered, results.as_slice());
        let record = match write_reply(reply, xid, &Reply::Compound(compound)) {
            Ok(record) => record,
            Err(_) => unreachable!(),
        };
        let kept = KeptResult {
            bytes: &record[BEFORE_RESULT..],
            edits,
        };
        let left = keep_by(table, slot, kept, results);
        give_back(left, results_buffer);
        record
    }

    /// A seat is to hold the reply, and does so on the volume: what that makes of the table's
    /// seats. There is nothing to hold if no slot keeps the reply.
    ///
    /// # Errors
    /// After `Memory` nothing changed; after `Device` the file system is down.
    pub(crate) fn hold<D: Device>(
        &self,
        fs: &mut Fs<D>,
        table: &Table,
        last: Status,
    ) -> Result<Option<SeatEdits>, Fault>
        requires { CanSeat D.keeps_word (fs_of fs.old) (table_of table.now) }
        ensures some { IfOk result (λ edits.
            is_some edits ≡ is_some (in_progress_of self.now).slot) }
        ensures edits { IfOk result (AreOfReply (in_progress_of self.now).slot
            (result_of (in_progress_of self.now) last) (table_of table.now)) }
        ensures same { D.keeps_word → OnOk result (HasSameTree (fs_of fs.old) (fs_of fs.new)) }
        ensures volume { AltersFs fs.old fs.new (IsSeated (fs_of fs.old).volume
            (kept_by (in_progress_of self.now).slot true
            (result_of (in_progress_of self.now) last) (table_of table.now)).seats)
            (ending result) }
    {
        let Some(id) = &self.progress.slot else {
            return Ok(None);
        };
        let result = self.result(last)?;
        let edits = table.plan_hold(&id.session, id.slot, result.as_slice())?;
        put_seats(fs, &edits)?;
        Ok(Some(edits))
    }

    /// The whole result, in its own memory.
    #[tactic(auto, unfolding(crate::specs::Views::in_progress_of))]
    fn result(&self, last: Status) -> Result<Vec<u8>, Fault>
        ensures { OrMemory result (λ bytes.
            bytes.items ≡ result_of (in_progress_of self.now) last) }
    {
        let out = Writer::with_capacity(self.alloc, RESULT_BUFFER)?;
        let progress = &self.progress;
        let results = progress.results.as_slice();
        let compound = result_of(last, self.compound.tag, progress.answered, results);
        Ok(compound.write(out)?)
    }

    /// The reply's whole record, if the result is the one that this slot keeps. No memory is
    /// allocated, and that of the results goes to `results_buffer`.
    #[tactic(auto, unfolding(crate::specs::Views::in_progress_of), using(crate::proofs::Replies::success_length, crate::proofs::Replies::framed_length))]
    pub(crate) fn repeat(self, table: &Table, id: &SlotId, results_buffer: &mut Writer) -> Vec<u8>
        requires { (reply : List ℕ)
            × (reply_kept id.now.session id.now.slot (table_of table.now) ≡ Some reply) }
        ensures { (reply : List ℕ)
            → reply_kept id.now.session id.now.slot (table_of table.now) ≡ Some reply
            → result.items ≡ framed (reply_text (in_progress_of self.entry).xid (Success reply)) }
    {
        let Some(kept) = table.kept(&id.session, id.slot) else {
            unreachable!();
        };
        let Running { xid, progress, .. } = self;
        let Progress { results, reply, .. } = progress;
        *results_buffer = results;
        match write_reply(reply, xid, &Reply::Success(kept)) {
            Ok(reply) => reply,
            Err(_) => unreachable!(),
        }
    }
}

/// The result of a COMPOUND.
fn result_of<'a>(status: Status, tag: Tag<'a>, count: u32, results: &'a [u8]) -> CompoundResult<'a>
    ensures text { result_text result ≡ compound_text status tag.entry.bytes.now count results.now }
    ensures results { result.results.now ≡ results.now }
{
    CompoundResult {
        status,
        tag,
        count,
        results,
    }
}

/// The bytes of a result, and the edits of the seats if one holds it.
#[derive(Drop)]
struct KeptResult<'a> {
    bytes: &'a [u8],
    edits: Option<SeatEdits>,
    ghost short: { length bytes.now ≤ RESULT_BUFFER },
}

/// If a slot runs the COMPOUND it keeps the result, as `keep` says. What is left of the memory
/// comes back.
fn keep_by(
    table: &mut Table,
    slot: Option<SlotId>,
    kept: KeptResult<'_>,
    memory: Writer,
) -> Option<Vec<u8>>
    requires room { RESULT_BUFFER ≤ memory.capacity }
    requires edits { AreOfReply (option_map slot_of slot) kept.bytes.now (table_of table.old)
        kept.edits }
    ensures { table_of table.new ≡ kept_by (option_map slot_of slot) (is_some kept.entry.edits)
        kept.entry.bytes.now (table_of table.old) }
{
    match slot {
        Some(id) => keep(table, &id, kept, memory),
        None => Some(memory.into_vec()),
    }
}

/// The slot keeps the result, in this memory, and if there are edits a seat holds it by them. The
/// memory of the reply before comes back.
#[tactic(auto, unfolding(model::specs::Sessions::Session::finish))]
fn keep(table: &mut Table, id: &SlotId, kept: KeptResult<'_>, memory: Writer) -> Option<Vec<u8>>
    requires room { RESULT_BUFFER ≤ memory.capacity }
    requires edits { AreOfReply (Some (slot_of id.now)) kept.bytes.now (table_of table.old)
        kept.edits }
    ensures { table_of table.new ≡ finish id.now.session id.now.slot (is_some kept.entry.edits)
        kept.entry.bytes.now (table_of table.old) }
{
    let KeptResult { bytes, edits } = kept;
    let bytes = copied(bytes, memory);
    match edits {
        Some(edits) => table.finish_held(&id.session, id.slot, bytes, edits),
        None => table.finish(&id.session, id.slot, bytes),
    }
}

/// The bytes, in place of those that the memory had.
fn copied(bytes: &[u8], memory: Writer) -> Vec<u8>
    requires { length bytes.now ≤ memory.capacity }
    ensures { result.items ≡ bytes.now }
{
    let mut copy = memory.into_vec();
    copy.clear();
    match copy.extend_from_slice(bytes) {
        Ok(()) => copy,
        Err(_) => unreachable!(),
    }
}

/// What is left over of a COMPOUND's memory is there for the next one.
fn give_back(left: Option<Vec<u8>>, results_buffer: &mut Writer) {
    if let Some(memory) = left {
        *results_buffer = Writer::from_vec(memory);
    }
}
