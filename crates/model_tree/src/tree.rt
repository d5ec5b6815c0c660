//! The laws of the tree: each is the contract of a function that does nothing.

ghost use Rattle.model_tree.specs.Trees.Ancestors.{IsBelowIsReached};
ghost use Rattle.model_tree.specs.Trees.Fresh.{FreshIsWellFormed};
ghost use Rattle.model_tree.specs.Trees.Keyed.{OnlyMap, ReadsBack, KeepsOrder};
ghost use Rattle.model_tree.specs.Trees.Limits.{Limits};
ghost use Rattle.model_tree.specs.Trees.Stamp.{OnlyStamp, StampsRise, ReadsHandle};
ghost use Rattle.model_tree.specs.Trees.Tree.{Node, DirEntry};

/// Two maps that hold the same at each key are equal.
pub fn only_map()
    ensures nodes { OnlyMap Node }
    ensures names { OnlyMap DirEntry }
{}

/// What is read after a change of a map, and what the change does to its order and its sums.
pub fn maps()
    ensures nodes { ReadsBack Node }
    ensures names { ReadsBack DirEntry }
    ensures node_order { KeepsOrder Node }
    ensures name_order { KeepsOrder DirEntry }
{}

/// A stamp determines its run and its number in it, stamps rise, and a filehandle determines its
/// number.
pub fn stamps()
    ensures only { OnlyStamp }
    ensures rise { StampsRise }
    ensures handle { ReadsHandle }
{}

/// The tree of a fresh volume is well formed.
pub fn fresh()
    ensures { (limits : Limits) → FreshIsWellFormed limits }
{}

/// A node is below another exactly if it is reached from it.
pub fn below()
    ensures { IsBelowIsReached }
{}
