//! What the checks of the cached nodes say about the tree.

ghost use Rattle.tree_check.specs.ShapeLaws.{EachAge, EachFit, EachNode, EachStamp, EachWalk};
ghost use Rattle.tree_check.specs.ShapeLaws.{EachTree, EachKnownTree};

/// Laid cached nodes make one tree exactly if the tree that they represent has a root, one name for
/// each other node, and all its nodes within reach; their stamps are distinct exactly if none is in
/// two directories of it; and they are from before a stamp exactly if the tree is. The sums over
/// the cached nodes decide whether it fits, if no directory has too many names. If the marked
/// sectors hold bytes, the nodes are allowed exactly if the limits allow each of the tree's nodes,
/// no directory has too many names, and the root is a directory. So all of this together holds
/// exactly if the tree is well formed and from before the stamp, whatever the limits are; and for
/// cached nodes that are known whatever the sectors hold, exactly if this is true of their tree,
/// with zeros for the bytes of files.
pub fn decides()
    ensures walk { EachWalk }
    ensures stamps { EachStamp }
    ensures ages { EachAge }
    ensures fits { EachFit }
    ensures nodes { EachNode }
    ensures tree { EachTree }
    ensures known { EachKnownTree }
{}
