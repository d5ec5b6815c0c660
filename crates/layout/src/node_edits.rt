//! The changes of a volume, each an edit of its tree.

ghost use Rattle.layout.specs.NodeEdits.{WritePart, WriteFile, FillBlock, CutFile, GrowFile, PutOneName, DropOneName, ShowOther, MakeNode, FreeNode};

/// Bytes are written within a block of a file, a hole is filled, a file is truncated or grows.
pub fn files()
    ensures part { WritePart }
    ensures write { WriteFile }
    ensures fill { FillBlock }
    ensures cut { CutFile }
    ensures grow { GrowFile }
{}

/// A name is put or removed.
pub fn names()
    ensures put { PutOneName }
    ensures drop { DropOneName }
{}

/// A node is made, gets other metadata, or is removed.
pub fn nodes()
    ensures make { MakeNode }
    ensures show { ShowOther }
    ensures free { FreeNode }
{}
