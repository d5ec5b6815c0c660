//! The tree that a volume holds.

ghost use Rattle.layout.specs.CachedNodeLaws.{OneTree, OneKept, OneProof};
ghost use Rattle.layout.specs.FreshLaws.{FreshStands};
ghost use Rattle.layout.specs.LargeLaws.{LargeFirst, LargeFresh, LargeRegion};
ghost use Rattle.layout.specs.MarkLaws.{KeptAlone, StandsAlone};
ghost use Rattle.layout.specs.Rewriting.{RewrittenStands, RewrittenCachedNodes, FormStays};
ghost use Rattle.layout.specs.Rewriting.{LaidSecond, KnownSecond, CurrentSecond};

/// A volume holds one tree, of one size and one restart count, with one list of seats beside it;
/// that it does has at most one proof.
pub fn one_tree()
    ensures tree { OneTree }
    ensures kept { OneKept }
    ensures proof { OneProof }
{}

/// Only the first of its sectors and those after the journal's are seen.
pub fn kept()
    ensures cached_nodes { KeptAlone }
    ensures tree { StandsAlone }
{}

/// A volume that was just formatted holds the tree of one empty directory.
pub fn fresh()
    ensures { FreshStands }
{}

/// A volume whose nodes are rewritten in the forms of another version, with that version's spare
/// sectors and first sector, holds the same tree. A node that already has its form stays as it is.
pub fn rewritten()
    ensures stands { RewrittenStands }
    ensures cached_nodes { RewrittenCachedNodes }
    ensures stays { FormStays }
{}

/// The cached nodes of a volume are those of one in the current version, except for their forms.
pub fn second()
    ensures laid { LaidSecond }
    ensures known { KnownSecond }
    ensures current { CurrentSecond }
{}

/// A volume of version 3: its first sector is the encoding of its superblock, and its parts are
/// apart. A new one holds the tree of one empty directory.
pub fn large()
    ensures first { LargeFirst }
    ensures region { LargeRegion }
    ensures fresh { LargeFresh }
{}
