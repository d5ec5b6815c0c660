//! Numbers and their places, by rising number.

ghost use Rattle.std.specs.Prelude.{◌≡◌, ◌≤◌, ◌↔◌, None, IsTrue, length, vec_capacity, IfOk, IfSome, IfNone};
ghost use Rattle.std.specs.List.Sorted.{IsPermutation, IsNonDecreasingBy};
ghost use Rattle.model_tree.specs.Trees.Keyed.{at, IsAbove};
ghost use Rattle.node_table.specs.Index.{IsAt, entries_from, AreDifferent};

use crate::boxed_node::BoxedNode;
use crate::table::Table;
use std::alloc::{AllocError, Global};

/// The place of a number's entry in the index.
pub(crate) fn entry_of(index: &[(u64, u32)], number: u64) -> Option<usize>
    requires { IsAbove 0 index.now }
    ensures some { IfSome result (λ i. IsAt index.now number i) }
    ensures none { IfNone result (at number index.now ≡ None) }
{
    index.binary_search_by_key(&number, |entry| entry.0).ok()
}

/// The numbers of the nodes and their places, in the order of the places, with room for an entry
/// for each place.
pub(crate) fn entries(
    alloc: Global,
    cached_nodes: &[Option<BoxedNode>],
) -> Result<Vec<(u64, u32)>, AllocError>
    requires { length cached_nodes.now ≤ Table.MAX_NODES }
    ensures entries { IfOk result (λ index. index.items ≡ entries_from 0 cached_nodes.now) }
    ensures room { IfOk result (λ index. vec_capacity index ≡ length cached_nodes.now) }
{
    let mut index = Vec::with_capacity(alloc, cached_nodes.len())?;
    for (place, cached) in cached_nodes.iter().enumerate() {
        if let Some(cached) = cached {
            index.push_reserved((cached.inode.number, place as u32));
        }
    }
    Ok(index)
}

/// Puts entries in the order of their numbers.
pub(crate) fn sort(index: &mut Vec<(u64, u32)>)
    ensures permutation { IsPermutation index.old.items index.new.items }
    ensures sorted { IsNonDecreasingBy (λ entry. entry.0) index.new.items }
    ensures room { vec_capacity index.new ≡ vec_capacity index.old }
{
    index.sort_unstable_by_key(|entry| entry.0);
}

/// Whether no two neighbours have the same number.
pub(crate) fn are_different(index: &[(u64, u32)]) -> bool
    ensures { IsTrue result ↔ AreDifferent index.now }
{
    for i in 1..index.len() {
        if index[i - 1].0 == index[i].0 {
            return false;
        }
    }
    true
}
