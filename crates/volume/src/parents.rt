//! The parents of nodes by their places.

ghost use Rattle.std.specs.Prelude.{◌≡◌, ◌<◌, length, set, slice_index_or, IfOk};
ghost use Rattle.node_table.specs.Tables.{HaveOwnPlaces};
ghost use Rattle.layout.specs.SumLaws.{numbers_of};
ghost use Rattle.tree_check.specs.Trees.{IsOneTree};
ghost use Rattle.volume.specs.ParentNotes.{IsNoted};
ghost use Rattle.volume.specs.ParentIndex.{AreParents};

use directory::Names;
use node_table::Table;
use std::alloc::{AllocError, Global};
use std::marker::Model;

/// The parent of each node of a volume, by the place of the node: 8 bytes a place. Contracts see
/// the list of the numbers; 0 means none.
#[derive(Drop)]
pub struct Parents {
    numbers: Vec<u64>,
}

impl Model for Parents {
    ghost use Rattle.std.specs.Prelude.{ℕ, List};

    ghost Value = { List ℕ };

    ghost view = { λ parents. parents.numbers.items };
}

impl Parents {
    /// The parents of a table's nodes: a step for each place, and for each name the steps that it
    /// takes to find its node.
    ///
    /// # Errors
    ///
    /// `AllocError` if there is no memory for a number for each place.
    pub fn from_table(alloc: Global, table: &Table) -> Result<Parents, AllocError>
        requires tree { IsOneTree table.now }
        requires apart { HaveOwnPlaces table.now }
        ensures { IfOk result (λ parents. AreParents table.now parents) }
    {
        let mut numbers = vec![in alloc; 0; table.places() as usize]?;
        for place in 0..table.places() {
            if let Some(cached) = table.cached(place) {
                note_names(&mut numbers, table, &cached.names, cached.inode.number);
            }
        }
        Ok(Parents { numbers })
    }

    /// The number of the directory that has the name of the node at a place: 0 for the root.
    pub fn parent(&self, place: u32) -> u64
        ensures { result ≡ slice_index_or self.now place 0 }
    {
        match self.numbers.get(place as usize) {
            Some(number) => *number,
            None => 0,
        }
    }

    /// The name of the node at a place is in this directory now. Needs no memory.
    pub fn put(&mut self, place: u32, parent: u64)
        requires { place < length self.old }
        ensures { self.new ≡ set self.old place parent }
    {
        self.numbers[place as usize] = parent;
    }
}

/// Puts a directory's number at the place of each node that its names lead to.
fn note_names(numbers: &mut Vec<u64>, table: &Table, names: &Names, directory: u64)
    requires { length numbers.old.items ≡ length table.now }
    ensures { IsNoted table.now numbers.old.items numbers.new.items
        (numbers_of names.now) directory }
{
    for i in 0..names.len() {
        if let Some(place) = table.find(names.entry(i).number) {
            numbers[place as usize] = directory;
        }
    }
}
