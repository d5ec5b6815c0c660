//! The records of a directory in blocks that copies share.

ghost use Rattle.std.specs.Prelude.{◌≡◌, ◌<◌, ◌≤◌, ◌-◌, ◌^◌, ◌++◌, ◌∷◌, [], length, map, take, slice_set, slice_index_or, IfOk, OnOk, OnErr};
ghost use Rattle.directory.specs.Records.{Record, record_of, without_place};

use crate::entry::Entry;
use crate::sectors::RECORDS;
use std::alloc::{AllocError, Global};
use std::marker::Model;
use std::rc::Rc;

/// The records of a directory, one block of them for each sector.
///
/// A copy shares the blocks; a change of a record makes its block anew. Contracts see the list of
/// the records. Past `count` the last block may have records that were removed.
#[derive(Drop)]
pub(crate) struct Records {
    alloc: Global,
    blocks: Vec<Rc<Vec<Entry>>>,
    count: usize,
}

impl Model for Records {
    ghost use Rattle.std.specs.Prelude.{ℕ, List, map, take};
    ghost use Rattle.model_tree.specs.Trees.Tree.{DirEntry};
    ghost use Rattle.directory.specs.Blocks.{joined, AreFilled};
    ghost use Rattle.directory.specs.Records.{record_of};

    ghost Value = { List (ℕ × DirEntry) };

    ghost view = { λ records. take records.count (joined
        (map (λ block. map record_of block.value.items) records.blocks.items)) };

    ghost invariant = { λ records. AreFilled records.count
        (map (λ block. map record_of block.value.items) records.blocks.items) };
}

impl Records {
    /// No records.
    pub(crate) fn new(alloc: Global) -> Records
        ensures { result ≡ [] }
    {
        Records {
            alloc,
            blocks: Vec::new(alloc),
            count: 0,
        }
    }

    /// The records of these entries.
    pub(crate) fn from_entries(alloc: Global, entries: &[Entry]) -> Result<Records, AllocError>
        requires { length entries.now ≤ 2 ^ 16 }
        ensures { IfOk result (λ records. records ≡ map record_of entries.now) }
    {
        let mut records = Records::new(alloc);
        for entry in entries {
            records.push(entry.try_clone()?)?;
        }
        Ok(records)
    }

    /// A copy of the records, with the same blocks.
    pub(crate) fn try_clone(&self) -> Result<Records, AllocError>
        ensures { IfOk result (λ records. records ≡ self.now) }
    {
        let blocks = clone_blocks(self.alloc, &self.blocks)?;
        Ok(Records {
            alloc: self.alloc,
            blocks,
            count: self.count,
        })
    }

    /// How many records there are.
    pub(crate) fn len(&self) -> usize
        ensures { result ≡ length self.now }
    {
        self.count
    }

    /// The entry at a place.
    pub(crate) fn get(&self, place: usize) -> &Entry
        requires { place < length self.now }
        ensures { (default : Record)
            → slice_index_or self.now place default ≡ record_of result.now }
    {
        &self.blocks[place / RECORDS][place % RECORDS]
    }

    /// Puts an entry after the last. An `Err` changes nothing.
    pub(crate) fn push(&mut self, entry: Entry) -> Result<(), AllocError>
        requires { length self.old < 2 ^ 16 }
        ensures ok { OnOk result (self.new ≡ self.old ++ record_of entry ∷ []) }
        ensures err { OnErr result (self.new ≡ self.old) }
    {
        let block = self.count / RECORDS;
        if block < self.blocks.len() {
            let made = with_last(self.alloc, &self.blocks[block], self.count % RECORDS, entry)?;
            self.blocks[block] = made;
            self.count += 1;
            return Ok(());
        }
        let made = with_last(self.alloc, &[], 0, entry)?;
        self.blocks.push(made)?;
        self.count += 1;
        Ok(())
    }

    /// Puts an entry in the place of another. An `Err` changes nothing.
    pub(crate) fn set(&mut self, place: usize, entry: Entry) -> Result<(), AllocError>
        requires { place < length self.old }
        ensures ok { OnOk result (self.new ≡ slice_set self.old place (record_of entry)) }
        ensures err { OnErr result (self.new ≡ self.old) }
    {
        let block = place / RECORDS;
        let made = with_changed(self.alloc, &self.blocks[block], place % RECORDS, entry)?;
        self.blocks[block] = made;
        Ok(())
    }

    /// Removes the record at a place, into which the last one moves. An `Err` changes nothing.
    pub(crate) fn swap_remove(&mut self, place: usize) -> Result<(), AllocError>
        requires { place < length self.old }
        ensures ok { OnOk result (self.new ≡ without_place self.old place) }
        ensures err { OnErr result (self.new ≡ self.old) }
    {
        let moved = self.get(self.count - 1).try_clone()?;
        self.set(place, moved)?;
        self.shorten();
        Ok(())
    }

    /// Removes the last record, whose block may keep it until the block is made anew.
    fn shorten(&mut self)
        requires { 0 < length self.old }
        ensures { self.new ≡ take (length self.old - 1) self.old }
    {
        self.count -= 1;
        if self.count % RECORDS == 0 {
            self.blocks.truncate(self.count / RECORDS);
        }
    }
}

/// A copy of the blocks, with the same memory.
fn clone_blocks(alloc: Global, blocks: &[Rc<Vec<Entry>>]) -> Result<Vec<Rc<Vec<Entry>>>, AllocError>
    ensures { IfOk result (λ copy. map (λ block. map record_of block.value.items) copy.items
        ≡ map (λ block. map record_of block.value.items) blocks.now) }
{
    let mut copy = Vec::with_capacity(alloc, blocks.len())?;
    for block in blocks {
        copy.push(block.clone()?)?;
    }
    Ok(copy)
}

/// A copy of the entries, with room for a whole block.
fn clone_entries(alloc: Global, entries: &[Entry]) -> Result<Vec<Entry>, AllocError>
    ensures { IfOk result (λ copy. map record_of copy.items ≡ map record_of entries.now) }
{
    let mut copy = Vec::with_capacity(alloc, RECORDS)?;
    for entry in entries {
        copy.push(entry.try_clone()?)?;
    }
    Ok(copy)
}

/// The first records of a block, and another after them.
fn with_last(
    alloc: Global,
    entries: &[Entry],
    count: usize,
    last: Entry,
) -> Result<Rc<Vec<Entry>>, AllocError>
    requires { count ≤ length entries.now }
    ensures { IfOk result (λ block. map record_of block.value.items
        ≡ take count (map record_of entries.now) ++ record_of last ∷ []) }
{
    let mut made = clone_entries(alloc, &entries[..count])?;
    made.push(last)?;
    Ok(Rc::new(alloc, made)?)
}

/// The records of a block with one of them changed.
fn with_changed(
    alloc: Global,
    entries: &[Entry],
    at: usize,
    changed: Entry,
) -> Result<Rc<Vec<Entry>>, AllocError>
    requires { at < length entries.now }
    ensures { IfOk result (λ block. map record_of block.value.items
        ≡ slice_set (map record_of entries.now) at (record_of changed)) }
{
    let mut made = clone_entries(alloc, entries)?;
    made[at] = changed;
    Ok(Rc::new(alloc, made)?)
}
