//! One chunk, which lists share: changed in place, unless another list shares it.

ghost use Rattle.std.specs.Prelude.{◌≡◌, ◌<◌, ◌≤◌, ◌+◌, ◌++◌, ◌∷◌, [], Some, length, slice_get, slice_set, insert, remove, IfOk, OnOk, OnErr};
ghost use Rattle.chunks.specs.Chunks.{IsChunk};

use std::alloc::{AllocError, Global};
use std::rc::Rc;

/// The most entries of a chunk.
pub(crate) const CHUNK_LEN: usize = 1024;

/// A chunk of one entry.
pub(crate) fn with_one<T: Copy>(alloc: Global, entry: T) -> Result<Rc<Vec<T>>, AllocError>
    ensures { IfOk result (λ chunk. chunk.value.items ≡ entry ∷ []) }
{
    let mut entries = Vec::new(alloc);
    entries.push(entry)?;
    Ok(Rc::new(alloc, entries)?)
}

/// Puts an entry in the place of another.
pub(crate) fn set<T: Copy>(
    alloc: Global,
    chunk: &mut Rc<Vec<T>>,
    at: usize,
    entry: T,
) -> Result<(), AllocError>
    requires { at < length chunk.old.value.items }
    ensures ok { OnOk result (chunk.new.value.items ≡ slice_set chunk.old.value.items at entry) }
    ensures err { OnErr result (chunk.new.value.items ≡ chunk.old.value.items) }
{
    if let Some(own) = Rc::get_mut(chunk) {
        own[at] = entry;
        return Ok(());
    }
    let mut own = Vec::from_slice(alloc, chunk.as_slice())?;
    own[at] = entry;
    *chunk = Rc::new(alloc, own)?;
    Ok(())
}

/// Inserts an entry before the one at a place, or after the last.
pub(crate) fn insert<T: Copy>(
    alloc: Global,
    chunk: &mut Rc<Vec<T>>,
    at: usize,
    entry: T,
) -> Result<(), AllocError>
    requires within { at ≤ length chunk.old.value.items }
    requires room { length chunk.old.value.items < CHUNK_LEN }
    ensures ok { OnOk result (chunk.new.value.items ≡ insert chunk.old.value.items at entry) }
    ensures err { OnErr result (chunk.new.value.items ≡ chunk.old.value.items) }
{
    if let Some(own) = Rc::get_mut(chunk) {
        own.insert(at, entry)?;
        return Ok(());
    }
    let mut own = with_room(alloc, chunk.as_slice())?;
    own.insert(at, entry)?;
    *chunk = Rc::new(alloc, own)?;
    Ok(())
}

/// Removes the entry at a place.
pub(crate) fn remove<T: Copy>(
    alloc: Global,
    chunk: &mut Rc<Vec<T>>,
    at: usize,
) -> Result<T, AllocError>
    requires { at < length chunk.old.value.items }
    ensures removed { IfOk result (λ entry. slice_get chunk.old.value.items at ≡ Some entry) }
    ensures ok { OnOk result (chunk.new.value.items ≡ remove chunk.old.value.items at) }
    ensures err { OnErr result (chunk.new.value.items ≡ chunk.old.value.items) }
{
    if let Some(own) = Rc::get_mut(chunk) {
        return Ok(own.remove(at));
    }
    let mut own = Vec::from_slice(alloc, chunk.as_slice())?;
    let removed = own.remove(at);
    *chunk = Rc::new(alloc, own)?;
    Ok(removed)
}

/// The two halves of a chunk with another entry in it.
pub(crate) fn split<T: Copy>(
    alloc: Global,
    entries: &[T],
    at: usize,
    entry: T,
) -> Result<(Rc<Vec<T>>, Rc<Vec<T>>), AllocError>
    requires kept { IsChunk entries.now }
    requires within { at ≤ length entries.now }
    ensures all { IfOk result (λ halves. halves.0.value.items ++ halves.1.value.items
        ≡ insert entries.now at entry) }
    ensures left { IfOk result (λ halves. IsChunk halves.0.value.items) }
    ensures right { IfOk result (λ halves. IsChunk halves.1.value.items) }
{
    let mut all = with_room(alloc, entries)?;
    all.insert(at, entry)?;
    let (left, right) = all.split_at(all.len() / 2);
    let left = Rc::new(alloc, Vec::from_slice(alloc, left)?)?;
    let right = Rc::new(alloc, Vec::from_slice(alloc, right)?)?;
    Ok((left, right))
}

/// A copy of the entries with room for one more.
fn with_room<T: Copy>(alloc: Global, entries: &[T]) -> Result<Vec<T>, AllocError>
    requires { length entries.now ≤ CHUNK_LEN }
    ensures { IfOk result (λ copy. copy.items ≡ entries.now) }
{
    let mut copy = Vec::with_capacity(alloc, entries.len() + 1)?;
    copy.extend_from_slice(entries)?;
    Ok(copy)
}
