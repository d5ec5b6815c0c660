//! What a volume that holds a tree says about its cached nodes.

ghost use Rattle.volume_load.specs.Volumes.{StandsIsFew};

/// If a volume holds a tree, and its version's files have at most 16 MiB, no node has more than
/// 4,096 blocks, so the volume is not `Damaged`.
pub fn standing_is_few()
    ensures { StandsIsFew }
{}
