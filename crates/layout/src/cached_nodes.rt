//! The cached nodes of a volume.

ghost use Rattle.layout.specs.CachedNodeLaws.{CachedReadsBack, CachedNodesReadBack, OnlyCached, OnlyCachedNodes, Frame, EachAnswer};
ghost use Rattle.layout.specs.Known.{LaidAreCachedNodes, OneCachedChange};

/// A cached node that is held is the one that is read: so a search for cached nodes need only look
/// at those that are read.
pub fn read_back()
    ensures cached { CachedReadsBack }
    ensures cached_nodes { CachedNodesReadBack }
    ensures only_cached { OnlyCached }
    ensures only_cached_nodes { OnlyCachedNodes }
{}

/// A cached node whose sectors are kept is still held, and is the same node.
pub fn frame()
    ensures { Frame }
{}

/// Looking a number up in the tree is looking it up in the cached nodes.
pub fn answers()
    ensures { EachAnswer }
{}

/// What is known of laid cached nodes whatever their sectors hold, and that it stays known if one
/// of them changes along with the marks.
pub fn known()
    ensures laid { LaidAreCachedNodes }
    ensures change { OneCachedChange }
{}
