//! Records in the sectors of a directory: 15 of 272 bytes each.

ghost use Rattle.std.specs.Prelude.{◌≡◌, ◌<◌, ◌≤◌, ◌+◌, ◌^◌, ◌++◌, ℕ, List, length, drop, take, map, IfOk, IsErrOf};
ghost use Rattle.std.specs.List.{AllByRecursion};
ghost use Rattle.std.specs.Rc.{rc_slice_items};
ghost use Rattle.directory.specs.Records.{Record, record_of, IsRecord};
ghost use Rattle.directory.specs.Encoding.{record_bytes, directory_sector};

use crate::entry::Entry;
use crate::fault::RecordsFault;
use crate::records::Records;
use sector::{SIZE, put_bytes, put_u64, put_zeros, u64_at};
use std::alloc::Global;

/// The records of a sector.
pub const RECORDS: usize = 15;

/// The most bytes of a name.
pub const MAX_NAME_BYTES: usize = 255;

/// How long a record is.
const WIDTH: usize = 272;

fn put_record(sector: &mut [u8; SIZE], at: usize, entry: &Entry)
    requires within { at + WIDTH ≤ SIZE }
    requires few { length (rc_slice_items entry.now.name) ≤ MAX_NAME_BYTES }
    ensures prefix { take (at + WIDTH) sector.new
        ≡ take at sector.old ++ record_bytes (record_of entry.now) }
    ensures len { length sector.new ≡ SIZE }
{
    let len = entry.name.len();
    put_u64(sector, at, entry.number);
    put_u64(sector, at + 8, entry.stamp);
    put_bytes(sector, at + 16, &[len as u8]);
    put_bytes(sector, at + 17, entry.name.as_slice());
    put_zeros(sector, at + 17 + len, MAX_NAME_BYTES - len);
}

/// Writes the sector of these records.
pub(crate) fn write(entries: &[Entry], sector: &mut [u8; SIZE])
    requires few { length entries.now ≤ RECORDS }
    requires each { AllByRecursion IsRecord (map record_of entries.now) }
    ensures { sector.new ≡ directory_sector (map record_of entries.now) }
{
    for (i, entry) in entries.iter().enumerate() {
        put_record(sector, WIDTH * i, entry);
    }
    let end = WIDTH * entries.len();
    put_zeros(sector, end, SIZE - end);
}

/// Writes the sector of `count` records from `from` on.
pub(crate) fn write_part(records: &Records, from: usize, count: usize, sector: &mut [u8; SIZE])
    requires few { count ≤ RECORDS }
    requires within { from + count ≤ length records.now }
    requires each { AllByRecursion IsRecord records.now }
    requires small { from + count < 2 ^ 64 }
    ensures { sector.new ≡ directory_sector (take count (drop from records.now)) }
{
    for i in 0..count {
        put_record(sector, WIDTH * i, records.get(from + i));
    }
    let end = WIDTH * count;
    put_zeros(sector, end, SIZE - end);
}

/// The record that would be at place `at`, whatever follows the name.
fn entry_at(alloc: Global, sector: &[u8; SIZE], at: usize) -> Result<Entry, RecordsFault>
    requires { at + WIDTH ≤ SIZE }
    ensures fits { IfOk result (λ entry. IsRecord (record_of entry)) }
    ensures only { (other : Record) (rest : List ℕ) → IsRecord other
        → drop at sector.now ≡ record_bytes other ++ rest
        → IfOk result (λ entry. record_of entry ≡ other) }
    ensures err { IsErrOf result RecordsFault.NotRecords → (other : Record) (rest : List ℕ)
        → IsRecord other
        → ¬ (drop at sector.now ≡ record_bytes other ++ rest) }
{
    let len = usize::from(sector[at + 16]);
    if len == 0 {
        return Err(RecordsFault::NotRecords);
    }
    let name = &sector[at + 17..at + 17 + len];
    let entry = Entry::new(alloc, name, u64_at(sector, at + 8), u64_at(sector, at))?;
    Ok(entry)
}

/// The first records.
fn entries_in(alloc: Global, count: usize, sector: &[u8; SIZE]) -> Result<Vec<Entry>, RecordsFault>
    requires { count ≤ RECORDS }
    ensures count { IfOk result (λ entries. length entries.items ≡ count) }
    ensures fits { IfOk result (λ entries. AllByRecursion IsRecord (map record_of entries.items)) }
    ensures only { (others : List Record) → AllByRecursion IsRecord others → length others ≡ count
        → sector.now ≡ directory_sector others
        → IfOk result (λ entries. map record_of entries.items ≡ others) }
    ensures err { IsErrOf result RecordsFault.NotRecords → (others : List Record)
        → AllByRecursion IsRecord others
        → length others ≡ count → ¬ (sector.now ≡ directory_sector others) }
{
    let mut entries = Vec::new(alloc);
    for i in 0..count {
        let entry = entry_at(alloc, sector, WIDTH * i)?;
        entries.push(entry)?;
    }
    Ok(entries)
}

/// The `count` records of a sector, all others zero. A name has 1 to 255 bytes; whether these are
/// text is not checked.
///
/// # Errors
/// `NotRecords` exactly if no `count` records have these bytes.
pub fn read_records(
    alloc: Global,
    count: usize,
    sector: &[u8; SIZE],
) -> Result<Vec<Entry>, RecordsFault>
    requires { count ≤ RECORDS }
    ensures count { IfOk result (λ entries. length entries.items ≡ count) }
    ensures fits { IfOk result (λ entries. AllByRecursion IsRecord (map record_of entries.items)) }
    ensures found { IfOk result (λ entries. sector.now
        ≡ directory_sector (map record_of entries.items)) }
    ensures not_records { IsErrOf result RecordsFault.NotRecords → (others : List Record)
        → AllByRecursion IsRecord others
        → length others ≡ count → ¬ (sector.now ≡ directory_sector others) }
{
    let entries = entries_in(alloc, count, sector)?;
    let mut encoded = [0; SIZE];
    write(&entries, &mut encoded);
    if encoded != *sector {
        return Err(RecordsFault::NotRecords);
    }
    Ok(entries)
}
