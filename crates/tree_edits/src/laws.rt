//! The laws of outlines: each is the contract of a function that does nothing.

ghost use Rattle.tree_edits.specs.Edits.{DoableAlike, FewAlike};
ghost use Rattle.tree_edits.specs.Outlines.{EachOutline, EditsBlanked};
ghost use Rattle.tree_edits.specs.Sizes.{FitsAlike};

/// What memory knows of a tree, its outline, is the tree with zeros for the bytes of its files, and
/// edits of the one are edits of the other. What fits does not depend on the bytes of files.
pub fn outlines()
    ensures each { EachOutline }
    ensures edits { EditsBlanked }
    ensures doable { DoableAlike }
    ensures few { FewAlike }
    ensures fits { FitsAlike }
{}
