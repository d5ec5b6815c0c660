//! Entries in a sector: eight bytes each.

ghost use Rattle.std.specs.Prelude.{◌≡◌, ◌≤◌, ◌+◌, ◌*◌, ◌<◌, ℕ, List, length, drop, take, vec_len, IfOk, IsErrOf};
ghost use Rattle.std.specs.List.{AllByRecursion};
ghost use Rattle.sector.specs.Placed.{Places};
ghost use Rattle.extent_tree.specs.declared.entry.Entry.{Entry};
ghost use Rattle.extent_tree.specs.Depth.{depth_of};
ghost use Rattle.extent_tree.specs.Encoding.{entry_bytes, entries_bytes, IsEncodable};
ghost use Rattle.extent_tree.specs.Entries.{AreEntries};

use crate::entry::{Entry, INDEX_ENTRIES, ROOT_ENTRIES, are_entries};
use crate::fault::TreeFault;
use crate::spans::{MAX_BLOCKS, MAX_DEPTH, depth};
use sector::{SIZE, put_u32, u32_at};
use std::alloc::{AllocError, Global};

/// How many bytes an entry has.
const WIDTH: usize = 8;

fn put_entry(sector: &mut [u8; SIZE], at: usize, entry: Entry)
    requires { at + WIDTH ≤ SIZE }
    ensures { Places sector.old sector.new at (entry_bytes entry) }
{
    put_u32(sector, at, entry.sector);
    put_u32(sector, at + 4, entry.length);
}

fn entry_at(sector: &[u8; SIZE], at: usize) -> Entry
    requires { at + WIDTH ≤ SIZE }
    ensures bytes { entry_bytes result ≡ take WIDTH (drop at sector.now) }
    ensures encodable { IsEncodable result }
{
    Entry {
        sector: u32_at(sector, at),
        length: u32_at(sector, at + 4),
    }
}

/// Writes entries at offset `at`.
pub fn put_entries(sector: &mut [u8; SIZE], at: usize, entries: &[Entry])
    requires { at + WIDTH * length entries.now ≤ SIZE }
    ensures { Places sector.old sector.new at (entries_bytes entries.now) }
{
    for (i, entry) in entries.iter().enumerate() {
        put_entry(sector, at + WIDTH * i, *entry);
    }
}

/// Writes an index sector, each byte of it.
pub fn write_index(entries: &[Entry], sector: &mut [u8; SIZE])
    requires { length entries.now ≡ INDEX_ENTRIES }
    ensures { sector.new ≡ entries_bytes entries.now }
{
    put_entries(sector, 0, entries);
}

/// The `many` entries at offset `at`, whatever they are.
fn entries_at(
    alloc: Global,
    sector: &[u8; SIZE],
    at: usize,
    many: usize,
) -> Result<Vec<Entry>, AllocError>
    requires { at + WIDTH * many ≤ SIZE }
    ensures len { IfOk result (λ entries. vec_len entries ≡ many) }
    ensures found { IfOk result (λ entries.
        entries_bytes entries.items ≡ take (WIDTH * many) (drop at sector.now)) }
    ensures encodable { IfOk result (λ entries. AllByRecursion IsEncodable entries.items) }
{
    let mut entries = Vec::new(alloc);
    for i in 0..many {
        entries.push(entry_at(sector, at + WIDTH * i))?;
    }
    Ok(entries)
}

/// The `many` entries at offset `at`, which are at depth `depth`; the file has `count` blocks from
/// the first of their spans on.
fn checked_at(
    alloc: Global,
    sector: &[u8; SIZE],
    at: usize,
    many: usize,
    depth: u8,
    count: u32,
) -> Result<Vec<Entry>, TreeFault>
    requires within { at + WIDTH * many ≤ SIZE }
    requires depth { depth ≤ MAX_DEPTH }
    ensures entries { IfOk result (λ entries. AreEntries depth count entries.items) }
    ensures len { IfOk result (λ entries. vec_len entries ≡ many) }
    ensures found { IfOk result (λ entries.
        entries_bytes entries.items ≡ take (WIDTH * many) (drop at sector.now)) }
    ensures not_entries { IsErrOf result TreeFault.NotEntries → (entries : List Entry)
        → length entries ≡ many → AreEntries depth count entries
        → ¬ (entries_bytes entries ≡ take (WIDTH * many) (drop at sector.now)) }
{
    let entries = entries_at(alloc, sector, at, many)?;
    if !are_entries(&entries, depth, count) {
        return Err(TreeFault::NotEntries);
    }
    Ok(entries)
}

/// The entries of an index sector, which are at depth `depth`; the file has `count` blocks from the
/// first of their spans on.
///
/// # Errors
/// `NotEntries` exactly if no such entries have these bytes.
pub fn read_index(
    alloc: Global,
    sector: &[u8; SIZE],
    depth: u8,
    count: u32,
) -> Result<Vec<Entry>, TreeFault>
    requires { depth < MAX_DEPTH }
    ensures entries { IfOk result (λ entries. AreEntries depth count entries.items) }
    ensures len { IfOk result (λ entries. vec_len entries ≡ INDEX_ENTRIES) }
    ensures found { IfOk result (λ entries. sector.now ≡ entries_bytes entries.items) }
    ensures not_entries { IsErrOf result TreeFault.NotEntries → (entries : List Entry)
        → length entries ≡ INDEX_ENTRIES → AreEntries depth count entries
        → ¬ (sector.now ≡ entries_bytes entries) }
{
    checked_at(alloc, sector, 0, INDEX_ENTRIES, depth, count)
}

/// The entries at offset `at` of the inode of a file of `blocks` blocks.
///
/// # Errors
/// `NotEntries` exactly if no such entries have these bytes.
pub fn read_root(
    alloc: Global,
    sector: &[u8; SIZE],
    at: usize,
    blocks: u32,
) -> Result<Vec<Entry>, TreeFault>
    requires within { at + WIDTH * ROOT_ENTRIES ≤ SIZE }
    requires blocks { blocks ≤ MAX_BLOCKS }
    ensures entries { IfOk result (λ entries. AreEntries (depth_of blocks) blocks entries.items) }
    ensures len { IfOk result (λ entries. vec_len entries ≡ ROOT_ENTRIES) }
    ensures found { IfOk result (λ entries.
        entries_bytes entries.items ≡ take (WIDTH * ROOT_ENTRIES) (drop at sector.now)) }
    ensures not_entries { IsErrOf result TreeFault.NotEntries → (entries : List Entry)
        → length entries ≡ ROOT_ENTRIES → AreEntries (depth_of blocks) blocks entries
        → ¬ (entries_bytes entries ≡ take (WIDTH * ROOT_ENTRIES) (drop at sector.now)) }
{
    checked_at(alloc, sector, at, ROOT_ENTRIES, depth(blocks), blocks)
}
