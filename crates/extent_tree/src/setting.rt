//! A block gets a sector.

ghost use Rattle.std.specs.Prelude.{◌≡◌, ◌<◌, ◌≤◌, ◌+◌, ◌*◌, ◌^◌, [], ◌∷◌, ◌++◌, Err, length, take, slice_set, MatchOption, IfOk, OnErr};
ghost use Rattle.extent_tree.specs.Held.{entries_by};
ghost use Rattle.extent_tree.specs.Setting.{times, listed, AreSpare, AreTooFew, AreKept, IsRun, IsRunSet, part_of, AreParts, IsBlockSet, AreBlocksSet};
ghost use Rattle.extent_tree.specs.Tree.{AreSomeTrees, indexes_in};

use crate::entry::{Entry, INDEX_ENTRIES};
use crate::fault::SetFault;
use crate::spans::{MAX_DEPTH, span};
use crate::tree::{Nodes, entries_of};
use std::alloc::{AllocError, Global};
use std::rc::Rc;

/// What changed with a block's new sector.
#[derive(Clone, Copy, Debug, PartialEq, Eq)]
pub struct Touched {
    /// How many spare sectors became index sectors, from the first on.
    pub taken: usize,
    /// The index sector that has other entries than before; none if only the inode's changed.
    pub changed: Option<u32>,
}

/// The entry with a sector for the block at a place, if an extent has its blocks.
fn run_with(entry: Entry, place: u32, sector: u32) -> Option<Entry>
    requires run { IsRun MAX_DEPTH entry }
    requires sector { 0 < sector }
    requires place { place < 2 ^ 27 }
    ensures { MatchOption result (place ≡ 0 → 1 < entry.length)
        (λ new. IsRunSet entry place sector new) }
{
    let follows = u64::from(entry.sector) + u64::from(place) == u64::from(sector);
    if follows && 0 < entry.length && place <= entry.length {
        return Some(Entry {
            sector: entry.sector,
            length: entry.length.max(place + 1),
        });
    }
    if place == 0 && entry.length <= 1 {
        return Some(Entry { sector, length: 1 });
    }
    None
}

/// The entry for `span` blocks of those of an entry, from block `first` on.
fn part(entry: Entry, first: u32, span: u32) -> Entry
    requires { entry.sector + entry.length ≤ 2 ^ 32 }
    ensures { result ≡ part_of entry first span }
{
    if first >= entry.length {
        return Entry::HOLE;
    }
    Entry {
        sector: entry.sector + first,
        length: (entry.length - first).min(span),
    }
}

/// The entries at depth `depth` with the blocks of an entry above them.
pub(crate) fn parts(alloc: Global, entry: Entry, depth: u8) -> Result<Vec<Entry>, AllocError>
    requires depth { depth < MAX_DEPTH }
    requires fits { entry.sector + entry.length ≤ 2 ^ 32 }
    ensures { IfOk result (λ made. AreParts depth entry made.items) }
{
    let span = span(depth);
    let mut made = Vec::new(alloc);
    for i in 0..INDEX_ENTRIES as u32 {
        made.push(part(entry, span * i, span))?;
    }
    Ok(made)
}

/// The entry with a sector for a block, instead of one that has no index sector. Takes the first of
/// the spare sectors as index sectors, as many as it returns. An `Err` changes no index sector but
/// spare ones.
pub(crate) fn with_block(
    alloc: Global,
    nodes: &mut Nodes,
    entry: Entry,
    depth: u8,
    place: u32,
    sector: u32,
    spare: &[u32],
) -> Result<(Entry, usize), SetFault>
    requires depth { depth ≤ MAX_DEPTH }
    requires run { IsRun depth entry }
    requires place { (place < 512 ^ depth) × (0 < sector) }
    requires spare { AreSpare spare.now [] }
    ensures ok { IfOk result (λ done. IsBlockSet (entries_by (λ rc. rc.value.items) nodes.old)
        (entries_by (λ rc. rc.value.items) nodes.new) depth place sector entry done.0
        (take done.1 spare.now)) }
    ensures taken { IfOk result (λ done. done.1 ≤ length spare.now) }
    ensures kept { AreKept (entries_by (λ rc. rc.value.items) nodes.old)
        (entries_by (λ rc. rc.value.items) nodes.new) spare.now }
    ensures few { result ≡ Err SetFault.TooFew → length spare.now < depth }
{
    if let Some(new) = run_with(entry, place, sector) {
        return Ok((new, 0));
    }
    let Some((own, others)) = spare.split_first() else {
        return Err(SetFault::TooFew);
    };
    let below = span(depth - 1);
    let at = (place / below) as usize;
    let made = parts(alloc, entry, depth - 1)?;
    let (new, taken) = with_block(
        alloc,
        nodes,
        made[at],
        depth - 1,
        place % below,
        sector,
        others,
    )?;
    nodes.insert(*own, node_with(alloc, made, at, new)?)?;
    Ok((index_entry(*own), taken + 1))
}

/// Gives a sector to a block below an index sector. Takes the first of the spare sectors as index
/// sectors, as many as it returns, and changes one index sector that there was, which it returns.
/// An `Err` changes no index sector but spare ones.
pub(crate) fn set_below(
    alloc: Global,
    nodes: &mut Nodes,
    own: u32,
    depth: u8,
    place: u32,
    sector: u32,
    spare: &[u32],
) -> Result<(u32, usize), SetFault>
    requires depth { depth < MAX_DEPTH }
    requires trees { let index = entries_by (λ rc. rc.value.items) nodes.old in
        AreSomeTrees index depth (index own) }
    requires place { let index = entries_by (λ rc. rc.value.items) nodes.old in
        (place < 512 ^ depth * length (index own)) × (0 < sector) }
    requires spare { let index = entries_by (λ rc. rc.value.items) nodes.old in
        AreSpare spare.now (own ∷ indexes_in index depth (index own)) }
    ensures ok { let index = entries_by (λ rc. rc.value.items) nodes.old in
        let other = entries_by (λ rc. rc.value.items) nodes.new in
        IfOk result (λ done. AreBlocksSet index other depth place sector (index own) (other own)
        (take done.1 spare.now)) }
    ensures taken { IfOk result (λ done. done.1 ≤ length spare.now) }
    ensures kept { let index = entries_by (λ rc. rc.value.items) nodes.old in
        let other = entries_by (λ rc. rc.value.items) nodes.new in
        IfOk result (λ done. AreKept index other (done.0 ∷ spare.now)
        × (0 < times done.0 (own ∷ indexes_in index depth (index own)))) }
    ensures err { OnErr result (AreKept (entries_by (λ rc. rc.value.items) nodes.old)
        (entries_by (λ rc. rc.value.items) nodes.new) spare.now) }
    ensures few { let index = entries_by (λ rc. rc.value.items) nodes.old in
        result ≡ Err SetFault.TooFew
        → AreTooFew index depth place (length spare.now) (index own) }
{
    let entries = entries_of(nodes, own);
    let span = span(depth);
    let at = (place / span) as usize;
    let entry = entries[at];
    let place = place % span;
    if entry.is_index() {
        return set_below(alloc, nodes, entry.sector, depth - 1, place, sector, spare);
    }
    let (entry, taken) = with_block(alloc, nodes, entry, depth, place, sector, spare)?;
    let copy = Vec::from_slice(alloc, entries_of(nodes, own))?;
    nodes.insert(own, node_with(alloc, copy, at, entry)?)?;
    Ok((own, taken))
}

/// Gives a sector to a block of a file, whose entries in the inode are `root`. Takes the first of
/// the spare sectors as index sectors. An `Err` changes no index sector but spare ones.
pub(crate) fn set_in_root(
    alloc: Global,
    nodes: &mut Nodes,
    root: &mut Rc<Vec<Entry>>,
    depth: u8,
    block: u32,
    sector: u32,
    spare: &[u32],
) -> Result<Touched, SetFault>
    requires depth { depth ≤ MAX_DEPTH }
    requires trees { AreSomeTrees (entries_by (λ rc. rc.value.items) nodes.old) depth
        root.old.value.items }
    requires block { (block < 512 ^ depth * length root.old.value.items) × (0 < sector) }
    requires spare { AreSpare spare.now
        (indexes_in (entries_by (λ rc. rc.value.items) nodes.old) depth root.old.value.items) }
    ensures ok { IfOk result (λ touched. AreBlocksSet (entries_by (λ rc. rc.value.items) nodes.old)
        (entries_by (λ rc. rc.value.items) nodes.new) depth block sector root.old.value.items
        root.new.value.items (take touched.taken spare.now)) }
    ensures kept { IfOk result (λ touched. AreKept (entries_by (λ rc. rc.value.items) nodes.old)
        (entries_by (λ rc. rc.value.items) nodes.new) (listed touched.changed ++ spare.now)) }
    ensures taken { IfOk result (λ touched. touched.taken ≤ length spare.now) }
    ensures err { OnErr result (AreKept (entries_by (λ rc. rc.value.items) nodes.old)
        (entries_by (λ rc. rc.value.items) nodes.new) spare.now
        × (root.new.value.items ≡ root.old.value.items)) }
    ensures few { result ≡ Err SetFault.TooFew
        → AreTooFew (entries_by (λ rc. rc.value.items) nodes.old) depth block (length spare.now)
        root.old.value.items }
{
    let entries = root.as_slice();
    let span = span(depth);
    let at = (block / span) as usize;
    let entry = entries[at];
    let place = block % span;
    if entry.is_index() {
        let (own, taken) = set_below(alloc, nodes, entry.sector, depth - 1, place, sector, spare)?;
        return Ok(Touched {
            taken,
            changed: Some(own),
        });
    }
    let (entry, taken) = with_block(alloc, nodes, entry, depth, place, sector, spare)?;
    let copy = Vec::from_slice(alloc, entries)?;
    *root = node_with(alloc, copy, at, entry)?;
    Ok(Touched {
        taken,
        changed: None,
    })
}

/// A node with these entries, one of them put in place of another.
pub(crate) fn node_with(
    alloc: Global,
    mut entries: Vec<Entry>,
    at: usize,
    entry: Entry,
) -> Result<Rc<Vec<Entry>>, AllocError>
    requires { at < length entries.items }
    ensures { IfOk result (λ node. node.value.items ≡ slice_set entries.items at entry) }
{
    entries[at] = entry;
    Ok(Rc::new(alloc, entries)?)
}

/// The entry of an index sector.
fn index_entry(sector: u32) -> Entry
    ensures { result ≡ record { sector = sector; length = 0 } }
{
    Entry { sector, length: 0 }
}
