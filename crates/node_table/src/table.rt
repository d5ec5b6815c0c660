//! The cached nodes of a volume, by their places.

ghost use Rattle.std.specs.Prelude.{◌≡◌, ◌≤◌, ◌<◌, ◌+◌, ℕ, List, [], ◌∷◌, Some, None, length, vec_capacity, replicate, set, slice_index_or, IfOk, IfSome, IfNone, OnOk, IsErrOf};
ghost use Rattle.layout.specs.Marks.{times};
ghost use Rattle.node_table.specs.Tables.{node_number_at, HasNoNode, HaveOwnPlaces, AreNumbered, AreBelow, IsFree, AreFew, charge_there, charge_of_all, count_of_all, vacant};
ghost use Rattle.model_tree.specs.Trees.Charge.{charge_of_blocks};

use crate::boxed_node::BoxedNode;
use crate::cached_node::CachedNode;
use crate::fault::TableFault;
use crate::index::{self, entry_of};
use extents::{BlockList, MAX_SECTOR_RUNS};
use std::alloc::{AllocError, Global};
use std::marker::Model;

/// A cached node, or none, at each place of a volume's node table. Contracts see the list of them.
///
/// A node is in memory of its own, and a free place takes 36 bytes: an empty box, and the room of
/// an entry in the index and in the list of the free places.
///
/// Finding a number takes one step for each doubling of the table. Making or replacing a node
/// changes one place of each list; removing one moves each of the numbers after it.
#[derive(Drop)]
pub struct Table {
    cached_nodes: Vec<Option<BoxedNode>>,
    /// The numbers of the nodes and their places, by rising number.
    index: Vec<(u64, u32)>,
    /// The free places; the last one is the next to be taken.
    free: Vec<u32>,
    /// What the nodes take of the data region.
    charge: u64,
}

impl Model for Table {
    ghost use Rattle.std.specs.Prelude.{List, Option, vec_capacity};
    ghost use Rattle.layout.specs.CachedNodes as layout;
    ghost use Rattle.node_table.specs.Tables.{IsIndexed, HasCapacity};

    ghost Value = { List (Option layout.CachedNode) };

    ghost view = { λ table. table.cached_nodes.items };

    ghost invariant = { λ table.
        IsIndexed table.cached_nodes.items table.index.items table.free.items table.charge
        × HasCapacity table.cached_nodes.items (vec_capacity table.index) (vec_capacity table.free) };
}

impl Table {
    /// The most nodes of a table, each at its own place.
    pub const MAX_NODES: u32 = 4_194_304;

    /// A table with `places` places, all free.
    pub fn new(alloc: Global, places: u32) -> Result<Table, AllocError>
        requires { places ≤ Table.MAX_NODES }
        ensures { IfOk result (λ table. table ≡ replicate places None) }
    {
        let index = Vec::with_capacity(alloc, places as usize)?;
        let mut free = Vec::with_capacity(alloc, places as usize)?;
        let mut cached_nodes = Vec::with_capacity(alloc, places as usize)?;
        for place in 0..places {
            free.push_reserved(place);
            cached_nodes.push_reserved(None);
        }
        Ok(Table {
            cached_nodes,
            index,
            free,
            charge: 0,
        })
    }

    /// A table of the cached nodes of all places, in their order. Sorting them by number takes at
    /// most 22 steps for each place.
    ///
    /// # Errors
    ///
    /// [`TableFault::SameNumber`] exactly if two cached nodes have the same number;
    /// [`TableFault::Memory`].
    pub fn from_cached_nodes(
        alloc: Global,
        cached_nodes: Vec<Option<BoxedNode>>,
    ) -> Result<Table, TableFault>
        requires few { length cached_nodes.items ≤ Table.MAX_NODES }
        requires numbered { AreNumbered cached_nodes.items }
        ensures table { IfOk result (λ table. table ≡ cached_nodes.items) }
        ensures apart { OnOk result (HaveOwnPlaces cached_nodes.items) }
        ensures same { IsErrOf result TableFault.SameNumber → ¬ HaveOwnPlaces cached_nodes.items }
    {
        let mut index = index::entries(alloc, &cached_nodes)?;
        index::sort(&mut index);
        if !index::are_different(&index) {
            return Err(TableFault::SameNumber);
        }
        let free = free_places(alloc, &cached_nodes)?;
        let charge = charge_of_cached_nodes(&cached_nodes);
        Ok(Table {
            cached_nodes,
            index,
            free,
            charge,
        })
    }

    /// How many places there are.
    pub fn places(&self) -> u32
        ensures places { result ≡ length self.now }
        ensures few { result ≤ Table.MAX_NODES }
    {
        self.cached_nodes.len() as u32
    }

    /// The cached node at a place.
    pub fn cached(&self, place: u32) -> Option<&CachedNode>
        ensures some { IfSome result
            (λ cached. slice_index_or self.now place None ≡ Some cached.now) }
        ensures none { IfNone result (slice_index_or self.now place None ≡ None) }
    {
        match self.cached_nodes.get(place as usize) {
            Some(Some(cached)) => Some(cached),
            _ => None,
        }
    }

    /// The place of the node with a number.
    pub fn find(&self, number: u64) -> Option<u32>
        ensures some { IfSome result (λ place. node_number_at self.now place ≡ Some number) }
        ensures only { HaveOwnPlaces self.now }
        ensures none { IfNone result (HasNoNode self.now number) }
    {
        let i = entry_of(&self.index, number)?;
        Some(self.index[i].1)
    }

    /// A free place, if there is one. It remains free.
    pub fn free_place(&self) -> Option<u32>
        ensures some { IfSome result (λ place. IsFree self.now place) }
        ensures none { IfNone result (count_of_all self.now ≡ length self.now) }
    {
        self.free.last().copied()
    }

    /// How many nodes there are. Each number has one place.
    pub fn count(&self) -> u32
        ensures count { result ≡ count_of_all self.now }
        ensures apart { HaveOwnPlaces self.now }
    {
        self.index.len() as u32
    }

    /// What the nodes take of the data region, in sectors.
    pub fn charge(&self) -> u64
        ensures { result ≡ charge_of_all self.now }
    {
        self.charge
    }

    /// Puts a node whose number is above all others into a free place.
    pub fn make(&mut self, place: u32, cached: BoxedNode)
        requires free { IsFree self.old place }
        requires some { 0 < cached.fields.number }
        requires above { AreBelow self.old cached.fields.number }
        ensures { self.new ≡ set self.old place (Some cached) }
    {
        take_free(&mut self.free, place);
        self.index.push_reserved((cached.inode.number, place));
        self.charge += blocks_charge(&cached.blocks);
        put_cached(&mut self.cached_nodes, place, Some(cached));
    }

    /// Puts a cached node into the place of the one with its number.
    pub fn replace(&mut self, place: u32, cached: BoxedNode)
        requires { node_number_at self.old place ≡ Some cached.fields.number }
        ensures { self.new ≡ set self.old place (Some cached) }
    {
        self.charge -= charge_at(&self.cached_nodes, place);
        self.charge += blocks_charge(&cached.blocks);
        put_cached(&mut self.cached_nodes, place, Some(cached));
    }

    /// Removes the node with a number from its place.
    pub fn remove(&mut self, place: u32, number: u64)
        requires there { node_number_at self.old place ≡ Some number }
        ensures { self.new ≡ set self.old place None }
    {
        let Some(i) = entry_of(&self.index, number) else {
            return;
        };
        self.index.remove(i);
        self.free.push_reserved(place);
        self.charge -= charge_at(&self.cached_nodes, place);
        put_cached(&mut self.cached_nodes, place, None);
    }
}

/// The places without a cached node, with room for all places.
fn free_places(alloc: Global, cached_nodes: &[Option<BoxedNode>]) -> Result<Vec<u32>, AllocError>
    requires { length cached_nodes.now ≤ Table.MAX_NODES }
    ensures times { IfOk result (λ free. (n : ℕ) → times n free.items ≡ vacant n cached_nodes.now) }
    ensures count { IfOk result (λ free.
        length free.items + count_of_all cached_nodes.now ≡ length cached_nodes.now) }
    ensures room { IfOk result (λ free. vec_capacity free ≡ length cached_nodes.now) }
{
    let mut free = Vec::with_capacity(alloc, cached_nodes.len())?;
    for (place, cached) in cached_nodes.iter().enumerate() {
        if cached.is_none() {
            free.push_reserved(place as u32);
        }
    }
    Ok(free)
}

/// What cached nodes take of the data region.
fn charge_of_cached_nodes(cached_nodes: &[Option<BoxedNode>]) -> u64
    requires { length cached_nodes.now ≤ Table.MAX_NODES }
    ensures charge { result ≡ charge_of_all cached_nodes.now }
    ensures few { AreFew cached_nodes.now }
{
    let mut charge = 0;
    for cached in cached_nodes {
        if let Some(cached) = cached {
            charge += blocks_charge(&cached.blocks);
        }
    }
    charge
}

/// The index of a place among the free ones: the search begins with the last.
fn entry_of_free(free: &[u32], place: u32) -> Option<usize>
    ensures some { IfSome result (λ i.
        (i < length free.now) × (slice_index_or free.now i 0 ≡ place)) }
    ensures none { IfNone result (times place free.now ≡ 0) }
{
    let mut i = free.len();
    while i > 0 {
        i -= 1;
        if free[i] == place {
            return Some(i);
        }
    }
    None
}

/// Takes a place out of the free ones.
fn take_free(free: &mut Vec<u32>, place: u32)
    requires { 0 < times place free.old.items }
    ensures times { (n : ℕ)
        → times n free.new.items + times n (place ∷ []) ≡ times n free.old.items }
    ensures len { length free.new.items + 1 ≡ length free.old.items }
    ensures room { vec_capacity free.new ≡ vec_capacity free.old }
{
    if let Some(i) = entry_of_free(free, place) {
        free.remove(i);
    }
}

/// What blocks take of the data region.
fn blocks_charge(blocks: &BlockList) -> u64
    ensures charge { result ≡ charge_of_blocks (length blocks.now) }
    ensures few { length blocks.now ≤ BlockList.MAX_BLOCKS }
{
    let count = u64::from(blocks.len());
    count + count.div_ceil(MAX_SECTOR_RUNS as u64)
}

/// What the cached node at a place takes of the data region.
fn charge_at(cached_nodes: &[Option<BoxedNode>], place: u32) -> u64
    ensures { result ≡ charge_there (slice_index_or cached_nodes.now place None) }
{
    match cached_nodes.get(place as usize) {
        Some(Some(cached)) => blocks_charge(&cached.blocks),
        _ => 0,
    }
}

/// Puts a cached node, or none, into a place.
fn put_cached(cached_nodes: &mut Vec<Option<BoxedNode>>, place: u32, cached: Option<BoxedNode>)
    requires { place < length cached_nodes.old.items }
    ensures { cached_nodes.new.items ≡ set cached_nodes.old.items place cached }
{
    cached_nodes[place as usize] = cached;
}
