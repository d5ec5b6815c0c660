//! Whether a node's list grants a caller rights.

ghost use Rattle.std.specs.Prelude.{◌≡◌, ◌||◌};
ghost use Rattle.model_tree.specs.Rights.Acl.{granted, delete, delete_child};
ghost use Rattle.model_tree.specs.Trees.Keyed.{at};
ghost use Rattle.model.specs.Operations.Need.{granted_on};
ghost use Rattle.fs.specs.Views.{fs_of};

use crate::fs::Fs;
use acl_eval::{Cred, Mask};
use disk::Device;
use node_table::CachedNode;

/// Whether the list of a node grants a caller these rights.
pub(crate) fn grants(cached: &CachedNode, cred: &Cred, mask: Mask) -> bool
    ensures { result ≡ granted cached.now.fields.acl
        cached.now.fields.owner cached.now.fields.group cred.now mask.0 }
{
    let inode = &cached.inode;
    acl_eval::granted(inode.acl.as_slice(), inode.owner, inode.group, cred, mask)
}

#[tactic(auto, unfolding(crate::specs::Views::fs_of))]
impl<D: Device> Fs<D> {
    /// Whether a caller may remove a name that leads to a node: it may delete the node, or any
    /// child of its directory.
    pub(crate) fn may_remove(&self, cred: &Cred, directory: &CachedNode, number: u64) -> bool
        ensures { result ≡ (granted_on (at number (fs_of self.now).volume.tree) cred.now delete
            || granted directory.now.fields.acl directory.now.fields.owner
            directory.now.fields.group cred.now delete_child) }
    {
        let own = match self.volume.node(number) {
            Some(cached) => grants(cached, cred, Mask::DELETE),
            None => false,
        };
        own || grants(directory, cred, Mask::DELETE_CHILD)
    }
}
