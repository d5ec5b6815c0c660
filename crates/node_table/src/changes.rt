//! The effect of a change on a table.

ghost use Rattle.std.specs.Prelude.{◌≡◌, ◌≢◌, ◌<◌, Some, None, length, set};
ghost use Rattle.node_table.specs.Overlays.{overlaid, HaveOwnPlace, IsFresh, CanBecome};
ghost use Rattle.node_table.specs.Tables.{node_number_at};

use crate::boxed_node::BoxedNode;
use crate::table::Table;
use std::marker::Model;

/// A cached node, or none, for each of some places. Contracts see the list of them.
#[derive(Drop)]
pub struct Changes {
    list: Vec<(u32, Option<BoxedNode>)>,
}

impl Model for Changes {
    ghost use Rattle.std.specs.Prelude.{Option};
    ghost use Rattle.model_tree.specs.Trees.Keyed.{Keyed};
    ghost use Rattle.layout.specs.CachedNodes as layout;
    ghost use Rattle.node_table.specs.Overlays.{HaveOwnPlace};

    ghost Value = { Keyed (Option layout.CachedNode) };

    ghost view = { λ changes. changes.list.items };

    ghost invariant = { λ changes. HaveOwnPlace changes.list.items };
}

impl Changes {
    pub(crate) fn new(list: Vec<(u32, Option<BoxedNode>)>) -> Changes
        requires { HaveOwnPlace list.items }
        ensures { result ≡ list.items }
    {
        Changes { list }
    }
}

impl Table {
    /// Puts changes into the table. This needs no memory, and never fails. A place that the table
    /// does not have is skipped.
    pub fn settle(&mut self, changes: Changes)
        requires { CanBecome self.old (overlaid self.old changes) }
        ensures { self.new ≡ overlaid self.old changes }
    {
        let Changes { mut list } = changes;
        while let Some((place, cached)) = list.pop() {
            match cached {
                Some(cached) => self.put(place, cached),
                None => self.vacate(place),
            }
        }
    }

    /// Puts a node into a place, as the next version of the one there or instead of it.
    fn put(&mut self, place: u32, cached: BoxedNode)
        requires { place < length self.old
            → node_number_at self.old place ≢ Some cached.fields.number
            → IsFresh self.old cached.fields.number }
        ensures { self.new ≡ set self.old place (Some cached) }
    {
        if place >= self.places() {
            return;
        }
        if self.number(place) == Some(cached.inode.number) {
            self.replace(place, cached);
        } else {
            self.vacate(place);
            self.make(place, cached);
        }
    }

    /// Removes the node at a place, if there is one.
    fn vacate(&mut self, place: u32)
        ensures { self.new ≡ set self.old place None }
    {
        if let Some(number) = self.number(place) {
            self.remove(place, number);
        }
    }

    /// The number of the node at a place.
    fn number(&self, place: u32) -> Option<u64>
        ensures { result ≡ node_number_at self.now place }
    {
        Some(self.cached(place)?.inode.number)
    }
}
