//! The list.

ghost use Rattle.std.specs.Prelude.{◌≡◌, ◌<◌, ◌≤◌, ◌+◌, ◌-◌, ◌++◌, ◌∷◌, ◌↔◌, [], Some, length, slice_get, slice_set, insert, remove, take, map, All, IfOk, OnOk, OnErr};
ghost use Rattle.std.specs.List.{flat_map, position_or_len};
ghost use Rattle.chunks.specs.Search.{IsMonotone};
ghost use Rattle.chunks.specs.Chunks.{AreChunks, IsFound, IsInserted};

use crate::chunk::{self, CHUNK_LEN};
use crate::ends::{chunk_at, lower, raise};
use crate::fault::ChunksFault;
use crate::search::{self, Test};
use std::alloc::{AllocError, Global};
use std::marker::Model;
use std::rc::Rc;

/// The most entries of a list.
pub const MAX_LEN: usize = 4_294_967_295;

/// A list of entries in chunks, which copies share until they are changed.
///
/// Contracts see the list.
#[derive(Drop)]
pub struct Chunks<T> {
    alloc: Global,
    chunks: Vec<Rc<Vec<T>>>,
    /// The place after the last entry of each chunk.
    ends: Vec<usize>,
}

impl<T> Model for Chunks<T> {
    ghost use Rattle.std.specs.Prelude.{List};
    ghost use Rattle.std.specs.List.{flat_map};
    ghost use Rattle.chunks.specs.Chunks.{AreChunks};

    ghost Value = { List T };

    ghost view = { λ list. flat_map (λ chunk. chunk.value.items) list.chunks.items };

    ghost invariant = { λ list.
        AreChunks (λ chunk. chunk.value.items) list.chunks.items list.ends.items };
}

impl<T: Copy> Chunks<T> {
    /// Returns the empty list.
    pub fn new(alloc: Global) -> Chunks<T>
        ensures { result ≡ [] }
    {
        Chunks {
            alloc,
            chunks: Vec::new(alloc),
            ends: Vec::new(alloc),
        }
    }

    /// Returns a copy of the list, which shares its chunks.
    pub fn try_clone(&self) -> Result<Chunks<T>, AllocError>
        ensures { IfOk result (λ list. list ≡ self.now) }
    {
        let chunks = clone_chunks(self.alloc, &self.chunks)?;
        let ends = Vec::from_slice(self.alloc, &self.ends)?;
        Ok(Chunks {
            alloc: self.alloc,
            chunks,
            ends,
        })
    }

    /// Returns the number of entries.
    pub fn len(&self) -> usize
        ensures { result ≡ length self.now }
    {
        match self.ends.last() {
            Some(end) => *end,
            None => 0,
        }
    }

    /// Returns the entry at a place, or `None` past the last.
    pub fn get(&self, place: usize) -> Option<T>
        ensures { result ≡ slice_get self.now place }
    {
        if place >= self.len() {
            return None;
        }
        let (chunk, at) = find(&self.chunks, &self.ends, place);
        let entries = &self.chunks[chunk];
        Some(entries[at])
    }

    /// Returns the number of entries before the first that passes a test, by binary search: all, if
    /// none passes.
    pub fn position<S: Test<T>>(&self, test: &S) -> usize
        requires each { All (S.can_test test.now) self.now }
        requires monotone { IsMonotone (S.passes test.now) self.now }
        ensures { result ≡ position_or_len (S.passes test.now) self.now }
    {
        let chunk = search::chunk_position(&self.chunks, test);
        if chunk == self.chunks.len() {
            return self.len();
        }
        let entries = &self.chunks[chunk];
        self.ends[chunk] - entries.len() + search::position(entries.as_slice(), test)
    }

    /// Puts an entry in the place of another. An `Err` changes nothing.
    pub fn set(&mut self, place: usize, entry: T) -> Result<(), AllocError>
        requires { place < length self.old }
        ensures ok { OnOk result (self.new ≡ slice_set self.old place entry) }
        ensures err { OnErr result (self.new ≡ self.old) }
    {
        let (chunk, at) = find(&self.chunks, &self.ends, place);
        chunk::set(self.alloc, &mut self.chunks[chunk], at, entry)?;
        Ok(())
    }

    /// Appends an entry.
    ///
    /// # Errors
    /// `Full` exactly if there are `MAX_LEN` entries already, and `Memory`; then nothing changes.
    pub fn push(&mut self, entry: T) -> Result<(), ChunksFault>
        ensures ok { OnOk result (self.new ≡ self.old ++ entry ∷ []) }
        ensures full { (result ≡ Err ChunksFault.Full) ↔ (length self.old ≡ MAX_LEN) }
        ensures err { OnErr result (self.new ≡ self.old) }
    {
        let len = self.len();
        if len == MAX_LEN {
            return Err(ChunksFault::Full);
        }
        let count = self.chunks.len();
        if count > 0 && self.chunks[count - 1].len() < CHUNK_LEN {
            let at = self.chunks[count - 1].len();
            chunk::insert(self.alloc, &mut self.chunks[count - 1], at, entry)?;
            raise(&mut self.ends, count - 1);
            return Ok(());
        }
        let made = chunk::with_one(self.alloc, entry)?;
        self.ends.reserve(1)?;
        self.chunks.push(made)?;
        match self.ends.push(len + 1) {
            Ok(()) => Ok(()),
            Err(_) => unreachable!(),
        }
    }

    /// Inserts an entry before the one at a place, or after the last.
    ///
    /// # Errors
    /// `Full` exactly if there are `MAX_LEN` entries already, and `Memory`; then nothing changes.
    pub fn insert(&mut self, place: usize, entry: T) -> Result<(), ChunksFault>
        requires { place ≤ length self.old }
        ensures ok { OnOk result (self.new ≡ insert self.old place entry) }
        ensures full { (result ≡ Err ChunksFault.Full) ↔ (length self.old ≡ MAX_LEN) }
        ensures err { OnErr result (self.new ≡ self.old) }
    {
        let len = self.len();
        if place == len {
            return self.push(entry);
        }
        if len == MAX_LEN {
            return Err(ChunksFault::Full);
        }
        let (chunk, at) = find(&self.chunks, &self.ends, place);
        if self.chunks[chunk].len() == CHUNK_LEN {
            insert_in_halves(self.alloc, &mut self.chunks, &mut self.ends, place, entry)?;
        } else {
            chunk::insert(self.alloc, &mut self.chunks[chunk], at, entry)?;
            raise(&mut self.ends, chunk);
        }
        Ok(())
    }

    /// Removes the entry at a place, and returns it. An `Err` changes nothing.
    pub fn remove(&mut self, place: usize) -> Result<T, AllocError>
        requires { place < length self.old }
        ensures removed { IfOk result (λ entry. slice_get self.old place ≡ Some entry) }
        ensures ok { OnOk result (self.new ≡ remove self.old place) }
        ensures err { OnErr result (self.new ≡ self.old) }
    {
        let (chunk, at) = find(&self.chunks, &self.ends, place);
        if self.chunks[chunk].len() == 1 {
            let removed = self.chunks[chunk][at];
            self.chunks.remove(chunk);
            lower(&mut self.ends, chunk);
            self.ends.remove(chunk);
            return Ok(removed);
        }
        let removed = chunk::remove(self.alloc, &mut self.chunks[chunk], at)?;
        lower(&mut self.ends, chunk);
        Ok(removed)
    }

    /// Removes the last entry, and returns it: `None` if there is none. An `Err` changes nothing.
    pub fn pop(&mut self) -> Result<Option<T>, AllocError>
        ensures popped { IfOk result (λ last. last ≡ slice_get self.old (length self.old - 1)) }
        ensures ok { OnOk result (self.new ≡ take (length self.old - 1) self.old) }
        ensures err { OnErr result (self.new ≡ self.old) }
    {
        let len = self.len();
        if len == 0 {
            return Ok(None);
        }
        let last = self.remove(len - 1)?;
        Ok(Some(last))
    }
}

/// The same chunks, in the same memory.
fn clone_chunks<T: Copy>(
    alloc: Global,
    chunks: &[Rc<Vec<T>>],
) -> Result<Vec<Rc<Vec<T>>>, AllocError>
    ensures { IfOk result (λ copy. map (λ chunk. chunk.value.items) copy.items
        ≡ map (λ chunk. chunk.value.items) chunks.now) }
{
    let mut copy = Vec::with_capacity(alloc, chunks.len())?;
    for chunk in chunks {
        copy.push(chunk.clone()?)?;
    }
    Ok(copy)
}

/// The chunk that has the entry at a place, and the place of the entry in it.
fn find<T>(chunks: &[Rc<Vec<T>>], ends: &[usize], place: usize) -> (usize, usize)
    requires kept { AreChunks (λ chunk. chunk.value.items) chunks.now ends.now }
    requires within { place < length (flat_map (λ chunk. chunk.value.items) chunks.now) }
    ensures { IsFound (λ chunk. chunk.value.items) chunks.now place result.0 result.1 }
{
    let chunk = chunk_at(ends, place);
    let at = place + chunks[chunk].len() - ends[chunk];
    (chunk, at)
}

/// Inserts an entry before the one at a place, whose chunk becomes two.
fn insert_in_halves<T: Copy>(
    alloc: Global,
    chunks: &mut Vec<Rc<Vec<T>>>,
    ends: &mut Vec<usize>,
    place: usize,
    entry: T,
) -> Result<(), AllocError>
    requires kept { AreChunks (λ chunk. chunk.value.items) chunks.old.items ends.old.items }
    requires within { place < length (flat_map (λ chunk. chunk.value.items) chunks.old.items) }
    requires room { length (flat_map (λ chunk. chunk.value.items) chunks.old.items) < MAX_LEN }
    ensures ok { OnOk result (IsInserted (λ chunk. chunk.value.items)
        chunks.old.items chunks.new.items ends.new.items place entry) }
    ensures chunks { OnErr result (chunks.new.items ≡ chunks.old.items) }
    ensures ends { OnErr result (ends.new.items ≡ ends.old.items) }
{
    let (chunk, at) = find(chunks, ends, place);
    let (left, right) = chunk::split(alloc, &chunks[chunk], at, entry)?;
    let middle = place - at + left.len();
    ends.reserve(1)?;
    chunks.insert(chunk + 1, right)?;
    chunks[chunk] = left;
    raise(ends, chunk);
    match ends.insert(chunk, middle) {
        Ok(()) => Ok(()),
        Err(_) => unreachable!(),
    }
}
