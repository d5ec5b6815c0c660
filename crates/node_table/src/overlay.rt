//! Cached nodes in place of some of a table's, for the duration of a change.

ghost use Rattle.std.specs.Prelude.{◌≡◌, ◌≢◌, ◌<◌, ℕ, Some, None, length, set, slice_index_or, IfOk, IfSome, IfNone, OnOk, OnErr, IsOk};
ghost use Rattle.node_table.specs.Overlays.{overlaid, change_at};
ghost use Rattle.node_table.specs.Tables.{node_number, node_number_at, HasNoNode, IsFree, AreTaken};

use crate::boxed_node::BoxedNode;
use crate::cached_node::CachedNode;
use crate::changes::Changes;
use crate::table::Table;
use std::alloc::{AllocError, Global};
use std::marker::Model;

/// A table with other cached nodes, or none, at some of its places. The table itself does not
/// change.
///
/// Contracts see the table's cached nodes, and the current ones. Each call takes a step for each
/// changed place, of which there are few.
#[derive(Drop)]
pub struct Overlay<'a> {
    alloc: Global,
    table: &'a Table,
    changes: Vec<(u32, Option<BoxedNode>)>,
}

impl<'a> Model for Overlay<'a> {
    ghost use Rattle.std.specs.Prelude.{length};
    ghost use Rattle.node_table.specs.Overlays.{Overlaid, overlaid, HaveOwnPlace, PlacesWithin};

    ghost Value = { Overlaid };

    ghost view = { λ overlay. record {
      table = overlay.table.now;
      cached_nodes = overlaid overlay.table.now overlay.changes.items;
    } };

    ghost invariant = { λ overlay. HaveOwnPlace overlay.changes.items
        × PlacesWithin (length overlay.table.now) overlay.changes.items };
}

impl<'a> Overlay<'a> {
    /// The number of places for which there is room from the start.
    const ROOM: usize = 8;

    /// The cached nodes of a table, none of them changed.
    pub fn new(alloc: Global, table: &'a Table) -> Result<Overlay<'a>, AllocError>
        ensures table { IfOk result (λ overlay. overlay.table ≡ table.now) }
        ensures cached_nodes { IfOk result (λ overlay. overlay.cached_nodes ≡ table.now) }
    {
        let changes = Vec::with_capacity(alloc, Overlay::ROOM)?;
        Ok(Overlay {
            alloc,
            table,
            changes,
        })
    }

    /// How many places there are.
    pub fn places(&self) -> u32
        ensures { result ≡ length self.now.cached_nodes }
    {
        self.table.places()
    }

    /// The cached node at a place.
    pub fn cached(&self, place: u32) -> Option<&CachedNode>
        ensures some { IfSome result (λ cached.
            slice_index_or self.now.cached_nodes place None ≡ Some cached.now) }
        ensures none { IfNone result (slice_index_or self.now.cached_nodes place None ≡ None) }
    {
        match change_of(&self.changes, place) {
            Some(i) => self.changes[i].1.as_deref(),
            None => self.table.cached(place),
        }
    }

    /// The place of the node with a number.
    pub fn find(&self, number: u64) -> Option<u32>
        ensures some { IfSome result
            (λ place. node_number_at self.now.cached_nodes place ≡ Some number) }
        ensures none { IfNone result (HasNoNode self.now.cached_nodes number) }
    {
        if let Some(i) = change_to(&self.changes, number) {
            return Some(self.changes[i].0);
        }
        let place = self.table.find(number)?;
        match change_of(&self.changes, place) {
            Some(_) => None,
            None => Some(place),
        }
    }

    /// A free place, if there is one. It remains free. The places are searched only if the next
    /// free one of the table is taken.
    pub fn free_place(&self) -> Option<u32>
        ensures some { IfSome result (λ place. IsFree self.now.cached_nodes place) }
        ensures none { IfNone result (AreTaken self.now.cached_nodes) }
    {
        match self.table.free_place() {
            Some(place) if self.cached(place).is_none() => Some(place),
            _ => self.first_free(),
        }
    }

    /// The lowest free place.
    fn first_free(&self) -> Option<u32>
        ensures some { IfSome result (λ place. IsFree self.now.cached_nodes place) }
        ensures none { IfNone result (AreTaken self.now.cached_nodes) }
    {
        for place in 0..self.places() {
            if self.cached(place).is_none() {
                return Some(place);
            }
        }
        None
    }

    /// Takes the cached node out of a place, which then has none. It is a copy if it was the
    /// table's. An `Err` changes nothing.
    pub fn take(&mut self, place: u32) -> Result<Option<CachedNode>, AllocError>
        ensures cached { IfOk result (λ cached. cached ≡ slice_index_or self.old.cached_nodes place None) }
        ensures cached_nodes { OnOk result (self.new.cached_nodes ≡ set self.old.cached_nodes place None) }
        ensures table { self.new.table ≡ self.old.table }
        ensures err { OnErr result (self.new.cached_nodes ≡ self.old.cached_nodes) }
    {
        if let Some(i) = change_of(&self.changes, place) {
            return Ok(take_from(&mut self.changes, i));
        }
        let Some(cached) = self.table.cached(place) else {
            return Ok(None);
        };
        let cached = cached.try_clone(self.alloc)?;
        self.changes.push((place, None))?;
        Ok(Some(cached))
    }

    /// Puts a cached node, or none, into a place. An `Err` changes nothing.
    ///
    /// # Errors
    ///
    /// `AllocError`, but never if what is at the place already differs from what the table has
    /// there.
    pub fn put(&mut self, place: u32, cached: Option<BoxedNode>) -> Result<(), AllocError>
        requires { place < length self.old.cached_nodes }
        ensures cached_nodes { OnOk result (self.new.cached_nodes ≡ set self.old.cached_nodes place cached) }
        ensures table { self.new.table ≡ self.old.table }
        ensures err { OnErr result (self.new.cached_nodes ≡ self.old.cached_nodes) }
        ensures again { slice_index_or self.old.cached_nodes place None
            ≢ slice_index_or self.old.table place None → IsOk result }
    {
        match change_of(&self.changes, place) {
            Some(i) => put_into(&mut self.changes, i, cached),
            None => self.changes.push((place, cached))?,
        }
        Ok(())
    }

    /// What is to be done to the table, which is no longer borrowed.
    pub fn into_changes(self) -> Changes
        ensures { overlaid self.entry.table result ≡ self.entry.cached_nodes }
    {
        let Overlay { changes, .. } = self;
        Changes::new(changes)
    }
}

/// The index of the change of a place.
fn change_of(changes: &[(u32, Option<BoxedNode>)], place: u32) -> Option<usize>
    ensures within { IfSome result (λ i. i < length changes.now) }
    ensures some { IfSome result (λ i. (change_at changes.now i).0 ≡ place) }
    ensures none { IfNone result ((i : ℕ)
        → i < length changes.now → (change_at changes.now i).0 ≢ place) }
{
    changes.iter().position(|change| change.0 == place)
}

/// The index of the change that puts a node with this number.
fn change_to(changes: &[(u32, Option<BoxedNode>)], number: u64) -> Option<usize>
    ensures within { IfSome result (λ i. i < length changes.now) }
    ensures some { IfSome result (λ i. node_number (change_at changes.now i).1 ≡ Some number) }
    ensures none { IfNone result ((i : ℕ)
        → i < length changes.now → node_number (change_at changes.now i).1 ≢ Some number) }
{
    changes.iter().position(|change| change
        .1
        .as_ref()
        .is_some_and(|cached| cached.inode.number == number))
}

/// Takes the cached node out of a change.
fn take_from(changes: &mut Vec<(u32, Option<BoxedNode>)>, i: usize) -> Option<CachedNode>
    requires { i < length changes.old.items }
    ensures cached { result ≡ (change_at changes.old.items i).1 }
    ensures changes { changes.new.items
        ≡ set changes.old.items i ((change_at changes.old.items i).0, None) }
{
    let cached = changes[i].1.take()?;
    Some(cached.into_inner())
}

/// Puts a cached node, or none, into a change.
fn put_into(changes: &mut Vec<(u32, Option<BoxedNode>)>, i: usize, cached: Option<BoxedNode>)
    requires { i < length changes.old.items }
    ensures { changes.new.items
        ≡ set changes.old.items i ((change_at changes.old.items i).0, cached) }
{
    changes[i].1 = cached;
}
