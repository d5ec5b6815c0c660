//! The laws of two changes of a map: each is the contract of a function that does nothing.

ghost use Rattle.model_tree.specs.Trees.KeyedChanges.{ChangesMeet};
ghost use Rattle.model_tree.specs.Trees.Tree.{Node, DirEntry};

/// Of two changes of a map at one key only the second remains; two changes at different keys
/// commute.
pub fn two_changes()
    ensures nodes { ChangesMeet Node }
    ensures names { ChangesMeet DirEntry }
{}
