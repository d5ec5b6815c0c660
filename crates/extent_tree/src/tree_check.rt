//! Which entries are a tree.

ghost use Rattle.std.specs.Prelude.{◌≡◌, ◌≤◌, ◌↔◌, true, false, length, IfOk, IsTrue};
ghost use Rattle.std.specs.List.{list_all};
ghost use Rattle.extent_tree.specs.Held.{entries_by};
ghost use Rattle.extent_tree.specs.Tree.{AreTrees, IsRoot, file_indexes, is_hole};

use crate::cutting::give_back;
use crate::entry::{Entry, INDEX_ENTRIES, ROOT_ENTRIES, is_entry};
use crate::spans::{MAX_BLOCKS, MAX_DEPTH, depth, span};
use crate::tree::{Nodes, are_holes, entries_of};
use std::alloc::{AllocError, Global};

/// Whether these are the entries in the inode of a file of this many blocks, over the index sectors
/// that have these entries.
pub fn is_root(blocks: u32, root: &[Entry], nodes: &Nodes) -> bool
    requires { blocks ≤ MAX_BLOCKS }
    ensures { IsTrue result ↔ IsRoot (entries_by (λ rc. rc.value.items) nodes.now) blocks root.now }
{
    if root.len() != ROOT_ENTRIES {
        return false;
    }
    are_trees(nodes, root, depth(blocks), blocks)
}

/// The index sectors of a file with these entries, each before those below it.
pub fn index_sectors(
    alloc: Global,
    blocks: u32,
    root: &[Entry],
    nodes: &Nodes,
) -> Result<Vec<u32>, AllocError>
    requires blocks { blocks ≤ MAX_BLOCKS }
    requires root { IsRoot (entries_by (λ rc. rc.value.items) nodes.now) blocks root.now }
    ensures { IfOk result (λ found. found.items
        ≡ file_indexes (entries_by (λ rc. rc.value.items) nodes.now) blocks root.now) }
{
    let mut found = Vec::new(alloc);
    give_back(nodes, root, depth(blocks), &mut found)?;
    Ok(found)
}

/// Whether an index sector may have these entries: they are 512, and not all holes.
fn are_of_index(entries: &[Entry]) -> bool
    ensures { IsTrue result
        ↔ ((length entries.now ≡ INDEX_ENTRIES) × (list_all is_hole entries.now ≡ false)) }
{
    entries.len() == INDEX_ENTRIES && !are_holes(entries)
}

/// Whether these are consecutive trees at this depth, if the file has `count` blocks from the first
/// of their spans on.
fn are_trees(nodes: &Nodes, entries: &[Entry], depth: u8, count: u32) -> bool
    requires { depth ≤ MAX_DEPTH }
    ensures { IsTrue result
        ↔ AreTrees (entries_by (λ rc. rc.value.items) nodes.now) depth count entries.now }
{
    let span = span(depth);
    let mut left = count;
    for entry in entries {
        let here = left.min(span);
        if !is_entry(*entry, depth, here) {
            return false;
        }
        if entry.is_index() {
            let below = entries_of(nodes, entry.sector);
            if !are_of_index(below) {
                return false;
            }
            if !are_trees(nodes, below, depth - 1, here) {
                return false;
            }
        }
        left = left.saturating_sub(span);
    }
    true
}
