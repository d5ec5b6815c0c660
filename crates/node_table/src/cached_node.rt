//! What is kept in memory of a node.

ghost use Rattle.std.specs.Prelude.{◌≡◌, IfOk};

use directory::Names;
use extents::{BlockList, Runs};
use inode::{Form, Inode};
use std::alloc::{AllocError, Global};
use std::marker::Model;

/// A node in memory, without the bytes of a file. Contracts see it as the layout's cached node.
#[derive(Drop)]
pub struct CachedNode {
    pub form: Form,
    pub inode: Inode,
    /// The runs of its blocks, as its run sectors have them.
    pub runs: Runs,
    pub blocks: BlockList,
    /// None if the node is a file.
    pub names: Names,
}

impl Model for CachedNode {
    ghost use Rattle.layout.specs.CachedNodes as layout;
    ghost use Rattle.node_table.specs.Seen.{seen};

    ghost Value = { layout.CachedNode };

    ghost view = { λ cached. seen cached.form cached.inode cached.runs cached.blocks cached.names };
}

impl CachedNode {
    /// A copy of the cached node, which shares the memory of its runs and blocks.
    pub fn try_clone(&self, alloc: Global) -> Result<CachedNode, AllocError>
        ensures { IfOk result (λ cached. cached ≡ self.now) }
    {
        Ok(CachedNode {
            form: self.form,
            inode: self.inode.try_clone(alloc)?,
            runs: self.runs.try_clone()?,
            blocks: self.blocks.try_clone()?,
            names: self.names.try_clone()?,
        })
    }
}
