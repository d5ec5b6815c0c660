//! Nodes that are made, and their metadata.

ghost use Rattle.std.specs.Prelude.{◌≤◌, ◌<◌, ◌+◌, ◌^◌, length, OnOk};
ghost use Rattle.disk.specs.Moments.{Image, applied};
ghost use Rattle.inode.specs.Fields.{IsInode};
ghost use Rattle.inode.specs.Encoding.{inode_sector};
ghost use Rattle.tree_transaction.specs.Blocks.{IsSectorPut};
ghost use Rattle.tree_transaction.specs.Ranges.{IsInRange};

use crate::updates::Updates;
use layout::places::NODES;
use model_tree::acl::Acl;
use node_table::CachedNode;
use std::alloc::AllocError;

/// The metadata of a node.
#[derive(Drop)]
pub struct Metadata {
    pub owner: u32,
    pub group: u32,
    pub acl: Acl,
    /// The change value (RFC 8881, section 5.8.1.4).
    pub change: u64,
    /// When it was last modified, in nanoseconds since 1970.
    pub time_modify: u64,
    // The ranges of the numbers, which a proof thus knows without a read.
    ghost in_range: { IsInRange owner group change time_modify },
}

/// Writes a node's sector.
pub(crate) fn put_node(
    updates: &mut Updates,
    place: u32,
    cached: &CachedNode,
) -> Result<(), AllocError>
    requires fits { IsInode cached.now.form cached.now.fields }
    requires small { NODES + place < 2 ^ 32 }
    ensures image { OnOk result ((image : Image) → IsSectorPut (applied updates.old image)
        (applied updates.new image) (NODES + place)
        (inode_sector cached.now.form cached.now.fields)) }
    ensures count { length updates.new ≤ length updates.old + 1 }
{
    updates.put_inode(NODES + place, &cached.inode, cached.form)
}
