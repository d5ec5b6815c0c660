//! The last blocks are cut off.

ghost use Rattle.std.specs.Prelude.{◌≡◌, ◌≤◌, ◌<◌, ◌+◌, ◌-◌, ◌*◌, ◌^◌, ◌++◌, ◌∷◌, [], ℕ, ◌⊎◌, length, take, replicate, IfOk, OnOk};
ghost use Rattle.extent_tree.specs.Cutting.{shortened, AreCut, AreLower, IsGivenBack, IsRewritten};
ghost use Rattle.extent_tree.specs.Held.{entries_by, hole};
ghost use Rattle.extent_tree.specs.Setting.{times, AreDistinct, AreKept};
ghost use Rattle.extent_tree.specs.Tree.{AreTrees, AreSomeTrees, indexes_in};

use crate::entry::{Entry, ROOT_ENTRIES};
use crate::setting::parts;
use crate::spans::{MAX_DEPTH, span};
use crate::tree::{Nodes, are_holes, entries_of};
use std::alloc::{AllocError, Global};
use std::rc::Rc;

/// What changed when the last blocks were cut off.
#[derive(Debug, Drop)]
pub struct Truncated {
    /// The index sectors that the tree no longer has.
    pub freed: Vec<u32>,
    /// Those that have other entries than before, and some that it no longer has.
    pub changed: Vec<u32>,
}

/// The first blocks of an extent.
fn shortened(entry: Entry, keep: u32) -> Entry
    ensures { result ≡ shortened entry keep }
{
    if keep == 0 {
        return Entry::HOLE;
    }
    Entry {
        sector: entry.sector,
        length: entry.length.min(keep),
    }
}

/// Adds the index sectors of consecutive entries to those given back.
pub(crate) fn give_back(
    nodes: &Nodes,
    entries: &[Entry],
    depth: u8,
    freed: &mut Vec<u32>,
) -> Result<(), AllocError>
    requires depth { depth ≤ MAX_DEPTH }
    requires trees { AreSomeTrees (entries_by (λ rc. rc.value.items) nodes.now) depth
        entries.now }
    ensures { OnOk result (freed.new.items ≡ freed.old.items
        ++ indexes_in (entries_by (λ rc. rc.value.items) nodes.now) depth entries.now) }
{
    for entry in entries {
        if entry.is_index() {
            freed.push(entry.sector)?;
            give_back(nodes, entries_of(nodes, entry.sector), depth - 1, freed)?;
        }
    }
    Ok(())
}

/// The entries before a place, another there, and holes behind it.
fn cut_behind(mut entries: Vec<Entry>, at: usize, entry: Entry) -> Result<Vec<Entry>, AllocError>
    requires { at < length entries.items }
    ensures { IfOk result (λ made. made.items ≡ take at entries.items
        ++ entry ∷ replicate (length entries.items - at - 1) hole) }
{
    let count = entries.len();
    entries.truncate(at);
    entries.push(entry)?;
    entries.resize(count, Entry::HOLE)?;
    Ok(entries)
}

/// Gives new entries to the index sector of an entry, or gives it back if they are all holes.
fn keep_index(
    alloc: Global,
    nodes: &mut Nodes,
    entry: Entry,
    below: Vec<Entry>,
    freed: &mut Vec<u32>,
    changed: &mut Vec<u32>,
) -> Result<Entry, AllocError>
    ensures new { IfOk result (λ new.
        IsGivenBack (entries_by (λ rc. rc.value.items) nodes.old)
        (entries_by (λ rc. rc.value.items) nodes.new) entry new below.items freed.old.items
        freed.new.items
        ⊎ IsRewritten (entries_by (λ rc. rc.value.items) nodes.old)
        (entries_by (λ rc. rc.value.items) nodes.new) entry new below.items freed.old.items
        freed.new.items) }
    ensures changed { OnOk result (AreKept (entries_by (λ rc. rc.value.items) nodes.old)
        (entries_by (λ rc. rc.value.items) nodes.new) changed.new.items) }
    ensures grows { OnOk result ((s : ℕ) → times s changed.old.items ≤ times s changed.new.items) }
{
    if are_holes(&below) {
        freed.push(entry.sector)?;
        return Ok(Entry::HOLE);
    }
    changed.push(entry.sector)?;
    nodes.insert(entry.sector, Rc::new(alloc, below)?)?;
    Ok(entry)
}

/// The entries of the first `keep` blocks. Gives back the index sectors that they do not have, and
/// adds those that have other entries to those changed.
pub(crate) fn cut(
    alloc: Global,
    nodes: &mut Nodes,
    entries: Vec<Entry>,
    depth: u8,
    keep: u32,
    freed: &mut Vec<u32>,
    changed: &mut Vec<u32>,
) -> Result<Vec<Entry>, AllocError>
    requires depth { depth ≤ MAX_DEPTH }
    requires trees { (n : ℕ) × ((keep ≤ n)
        × AreTrees (entries_by (λ rc. rc.value.items) nodes.old) depth n entries.items) }
    requires once { AreDistinct
        (indexes_in (entries_by (λ rc. rc.value.items) nodes.old) depth entries.items) }
    requires keep { keep ≤ 512 ^ depth * length entries.items }
    ensures cut { IfOk result (λ made. AreCut (entries_by (λ rc. rc.value.items) nodes.old)
        (entries_by (λ rc. rc.value.items) nodes.new) depth keep entries.items made.items
        freed.old.items freed.new.items) }
    ensures kept { OnOk result (AreKept (entries_by (λ rc. rc.value.items) nodes.old)
        (entries_by (λ rc. rc.value.items) nodes.new)
        (indexes_in (entries_by (λ rc. rc.value.items) nodes.old) depth entries.items)) }
    ensures changed { OnOk result (AreKept (entries_by (λ rc. rc.value.items) nodes.old)
        (entries_by (λ rc. rc.value.items) nodes.new) changed.new.items) }
{
    let span = span(depth);
    let at = (keep / span) as usize;
    if at == entries.len() {
        return Ok(entries);
    }
    give_back(nodes, &entries[at + 1..], depth, freed)?;
    let entry = entries[at];
    if !entry.is_index() {
        let made = cut_behind(entries, at, shortened(entry, keep % span))?;
        return Ok(made);
    }
    let copy = Vec::from_slice(alloc, entries_of(nodes, entry.sector))?;
    let below = cut(alloc, nodes, copy, depth - 1, keep % span, freed, changed)?;
    let new = keep_index(alloc, nodes, entry, below, freed, changed)?;
    let made = cut_behind(entries, at, new)?;
    Ok(made)
}

/// The entries of an inode one depth lower, whose first blocks are those of its first entry.
fn lower(
    alloc: Global,
    nodes: &Nodes,
    root: Vec<Entry>,
    depth: u8,
    freed: &mut Vec<u32>,
) -> Result<Vec<Entry>, AllocError>
    requires depth { (0 < depth) × (depth ≤ MAX_DEPTH) }
    requires trees { (n : ℕ) × ((n ≤ 256 * 512 ^ (depth - 1))
        × AreTrees (entries_by (λ rc. rc.value.items) nodes.now) depth n root.items) }
    requires len { length root.items ≡ ROOT_ENTRIES }
    ensures { IfOk result (λ made. AreLower (entries_by (λ rc. rc.value.items) nodes.now) depth
        (depth - 1) root.items made.items freed.old.items freed.new.items) }
{
    let first = root[0];
    if first.is_index() {
        freed.push(first.sector)?;
        let mut below = Vec::from_slice(alloc, entries_of(nodes, first.sector))?;
        below.truncate(ROOT_ENTRIES);
        return Ok(below);
    }
    let mut below = parts(alloc, first, depth - 1)?;
    below.truncate(ROOT_ENTRIES);
    Ok(below)
}

/// The entries of an inode at depth `to`, with the same first blocks.
pub(crate) fn lowered(
    alloc: Global,
    nodes: &Nodes,
    root: Vec<Entry>,
    depth: u8,
    to: u8,
    freed: &mut Vec<u32>,
) -> Result<Vec<Entry>, AllocError>
    requires depth { (to ≤ depth) × (depth ≤ MAX_DEPTH) }
    requires trees { (n : ℕ) × ((n ≤ 256 * 512 ^ to)
        × AreTrees (entries_by (λ rc. rc.value.items) nodes.now) depth n root.items) }
    requires len { length root.items ≡ ROOT_ENTRIES }
    ensures { IfOk result (λ made. AreLower (entries_by (λ rc. rc.value.items) nodes.now) depth to
        root.items made.items freed.old.items freed.new.items) }
{
    if depth == to {
        return Ok(root);
    }
    let below = lower(alloc, nodes, root, depth, freed)?;
    let made = lowered(alloc, nodes, below, depth - 1, to, freed)?;
    Ok(made)
}

/// Forgets index sectors.
pub(crate) fn forget(nodes: &mut Nodes, freed: &[u32])
    ensures { AreKept (entries_by (λ rc. rc.value.items) nodes.old)
        (entries_by (λ rc. rc.value.items) nodes.new) freed.now }
{
    for sector in freed {
        nodes.remove(sector);
    }
}
