//! Results of the operations that succeeded (RFC 8881, section 18).

ghost use Rattle.std.specs.Prelude.{map};
ghost use Rattle.xdr.specs.Clauses.{Scans, ReadsBy};
ghost use Rattle.xdr.specs.Forms.{chain};
ghost use Rattle.model.specs.Wire.WireAnswers.{access_answer, create_answer, open_answer, read_answer, entry, read_dir_answer, rename_answer, write_answer, exchange_id_answer, create_session_answer, sequence_answer};
ghost use Rattle.wire.specs.AnswerViews.{access_view, create_view, open_view, read_view, entry_view, read_dir_view, rename_view, write_view, exchange_id_view, create_session_view, sequence_view};
ghost use Rattle.wire_client.specs.Reading.{ReadsEntries};

use crate::small::{read_answered, read_change};
use std::alloc::Global;
use wire::{
    ANY_LENGTH, AccessAnswer, Channel, CreateAnswer, CreateSessionAnswer, Entry, ExchangeIdAnswer,
    OpenAnswer, ReadAnswer, ReadDirAnswer, RenameAnswer, SequenceAnswer, StateId, WriteAnswer,
    read_trimmed,
};
use xdr::{Reader, Refusal};

/// Reads `ACCESS4resok`.
pub(crate) fn read_access(r: &mut Reader<'_>) -> Result<AccessAnswer, Refusal>
    ensures { Scans access_view (access_answer.read) r.old r.new result }
{
    let mut at = r.fork();
    let supported = at.read_u32()?;
    let access = at.read_u32()?;
    *r = at;
    Ok(AccessAnswer { supported, access })
}

/// Reads `CREATE4resok`.
pub(crate) fn read_create(r: &mut Reader<'_>) -> Result<CreateAnswer, Refusal>
    ensures { Scans create_view (create_answer.read) r.old r.new result }
{
    let mut at = r.fork();
    let change = read_change(&mut at)?;
    let was_set = read_trimmed(&mut at)?;
    *r = at;
    Ok(CreateAnswer { change, was_set })
}

/// Reads `OPEN4resok`, without a delegation.
pub(crate) fn read_open(r: &mut Reader<'_>) -> Result<OpenAnswer, Refusal>
    ensures { Scans open_view (open_answer.read) r.old r.new result }
{
    let mut at = r.fork();
    let state = StateId::read(&mut at)?;
    let change = read_change(&mut at)?;
    let flags = at.read_u32()?;
    let was_set = read_trimmed(&mut at)?;
    at.read_always(0)?;
    *r = at;
    Ok(OpenAnswer {
        state,
        change,
        flags,
        was_set,
    })
}

/// Reads `READ4resok`.
pub(crate) fn read_data<'a>(r: &mut Reader<'a>) -> Result<ReadAnswer<'a>, Refusal>
    ensures { Scans read_view (read_answer.read) r.old r.new result }
{
    let mut at = r.fork();
    let is_end = at.read_bool()?;
    let data = at.read_opaque(ANY_LENGTH)?;
    *r = at;
    Ok(ReadAnswer { is_end, data })
}

fn read_entry<'a>(r: &mut Reader<'a>) -> Result<Entry<'a>, Refusal>
    ensures { Scans entry_view (entry.read) r.old r.new result }
{
    let mut at = r.fork();
    let cookie = at.read_u64()?;
    let name = at.read_opaque(ANY_LENGTH)?;
    let attributes = read_answered(&mut at)?;
    *r = at;
    Ok(Entry {
        cookie,
        name,
        attributes,
    })
}

/// Reads `READDIR4resok`, with a verifier of zero bytes.
pub(crate) fn read_listing<'a>(
    alloc: Global,
    r: &mut Reader<'a>,
) -> Result<ReadDirAnswer<'a>, Refusal>
    ensures { ReadsBy read_dir_view (read_dir_answer.read) r.old r.new result }
{
    let mut at = r.fork();
    at.read_always_u64(0)?;
    let entries = read_entries(alloc, &mut at)?;
    let is_end = at.read_bool()?;
    *r = at;
    Ok(ReadDirAnswer { entries, is_end })
}

fn read_entries<'a>(alloc: Global, r: &mut Reader<'a>) -> Result<Vec<Entry<'a>>, Refusal>
    ensures { ReadsBy (λ list. map entry_view list.items) ((chain entry).read) r.old r.new result }
{
    let at = r.fork();
    let (entries, at) = each_entry(alloc, at)?;
    *r = at;
    Ok(entries)
}

/// Entries up to the end of their chain; it cannot have more of them than bytes.
fn each_entry<'a>(alloc: Global, at: Reader<'a>) -> Result<(Vec<Entry<'a>>, Reader<'a>), Refusal>
    ensures { ReadsEntries at.entry result }
{
    let mut at = at;
    let mut entries = Vec::new(alloc);
    for _ in 0..at.len() {
        if !at.read_bool()? {
            return Ok((entries, at));
        }
        let entry = read_entry(&mut at)?;
        entries.push(entry)?;
    }
    Err(Refusal::Short)
}

/// Reads `RENAME4resok`.
pub(crate) fn read_rename(r: &mut Reader<'_>) -> Result<RenameAnswer, Refusal>
    ensures { Scans rename_view (rename_answer.read) r.old r.new result }
{
    let mut at = r.fork();
    let source = read_change(&mut at)?;
    let target = read_change(&mut at)?;
    *r = at;
    Ok(RenameAnswer { source, target })
}

/// Reads `WRITE4resok`.
pub(crate) fn read_written(r: &mut Reader<'_>) -> Result<WriteAnswer, Refusal>
    ensures { Scans write_view (write_answer.read) r.old r.new result }
{
    let mut at = r.fork();
    let count = at.read_u32()?;
    let committed = at.read_u32()?;
    let verifier = at.read_array()?;
    *r = at;
    Ok(WriteAnswer {
        count,
        committed,
        verifier,
    })
}

/// Reads `EXCHANGE_ID4resok`, with SP4_NONE, the minor id 0 and no implementation.
pub(crate) fn read_exchange_id<'a>(r: &mut Reader<'a>) -> Result<ExchangeIdAnswer<'a>, Refusal>
    ensures { Scans exchange_id_view (exchange_id_answer.read) r.old r.new result }
{
    let mut at = r.fork();
    let client = at.read_u64()?;
    let sequence = at.read_u32()?;
    let flags = at.read_u32()?;
    at.read_always(0)?;
    at.read_always_u64(0)?;
    let major_id = at.read_opaque(ANY_LENGTH)?;
    let scope = at.read_opaque(ANY_LENGTH)?;
    at.read_always(0)?;
    *r = at;
    Ok(ExchangeIdAnswer {
        client,
        sequence,
        flags,
        major_id,
        scope,
    })
}

/// Reads `CREATE_SESSION4resok`.
pub(crate) fn read_create_session(r: &mut Reader<'_>) -> Result<CreateSessionAnswer, Refusal>
    ensures { Scans create_session_view (create_session_answer.read) r.old r.new result }
{
    let mut at = r.fork();
    let session = at.read_array()?;
    let sequence = at.read_u32()?;
    let flags = at.read_u32()?;
    let fore = Channel::read(&mut at)?;
    let back = Channel::read(&mut at)?;
    *r = at;
    Ok(CreateSessionAnswer {
        session,
        sequence,
        flags,
        fore,
        back,
    })
}

/// Reads `SEQUENCE4resok`.
pub(crate) fn read_sequence(r: &mut Reader<'_>) -> Result<SequenceAnswer, Refusal>
    ensures { Scans sequence_view (sequence_answer.read) r.old r.new result }
{
    let mut at = r.fork();
    let session = at.read_array()?;
    let sequence = at.read_u32()?;
    let slot = at.read_u32()?;
    let highest_slot = at.read_u32()?;
    let target_highest_slot = at.read_u32()?;
    let flags = at.read_u32()?;
    *r = at;
    Ok(SequenceAnswer {
        session,
        sequence,
        slot,
        highest_slot,
        target_highest_slot,
        flags,
    })
}
