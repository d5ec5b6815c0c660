//! The way from a node up to the root.

ghost use Rattle.std.specs.Prelude.{◌≡◌, ℕ};
ghost use Rattle.disk.specs.Moments.{Image};
ghost use Rattle.model_tree.specs.Trees.Ancestors.{parent_of, is_below};
ghost use Rattle.layout.specs.CachedNodes.{tree_of};
ghost use Rattle.layout.specs.Known.{AreCached};
ghost use Rattle.tree_check.specs.Trees.{IsOneTree};
ghost use Rattle.volume.specs.ParentIndex.{AreParents};

use crate::parents::Parents;
use model_tree::node::ROOT;
use node_table::Table;

/// The number of the directory that has a node's name: 0 for the root, and for what is no node's
/// number.
pub(crate) fn parent_of(table: &Table, parents: &Parents, number: u64) -> u64
    requires cached_nodes { (nodes : ℕ) × (mark : ℕ → ℕ) × AreCached nodes mark table.now }
    requires tree { ∥ IsOneTree table.now ∥₁ }
    requires parents { AreParents table.now parents.now }
    ensures { (image : Image) → result ≡ parent_of (tree_of image table.now) number }
{
    match table.find(number) {
        Some(place) => parents.parent(place),
        None => 0,
    }
}

/// Whether a node is the upper one or below it, which a rename needs to know, since it moves no
/// directory below itself. At most one step up per node, with a search by number for each.
pub(crate) fn is_below(table: &Table, parents: &Parents, upper: u64, number: u64) -> bool
    requires cached_nodes { (nodes : ℕ) × (mark : ℕ → ℕ) × AreCached nodes mark table.now }
    requires tree { ∥ IsOneTree table.now ∥₁ }
    requires parents { AreParents table.now parents.now }
    ensures { (image : Image) → result ≡ is_below (tree_of image table.now) upper number }
{
    let mut node = number;
    for _step in 0..table.count() {
        if node == upper {
            return true;
        }
        if node == ROOT {
            return false;
        }
        node = parent_of(table, parents, node);
    }
    false
}
