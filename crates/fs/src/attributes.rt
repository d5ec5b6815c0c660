//! GETATTR.

use crate::fault::FsFault;
use crate::fs::Fs;
use crate::rights::grants;
use acl_eval::{Cred, Mask};
use disk::Device;
use model_tree::status::Status;
use node_table::CachedNode;
use wire_attributes::{Attribute, AttributesAnswer, NodeAttributes, is_asked};

#[tactic(auto, unfolding(crate::specs::Views::fs_of))]
impl<D: Device> Fs<D> {
    ghost use Rattle.std.specs.Prelude.{◌≡◌, ◌≤◌, true, ℕ, length, IfOk, IsErrOf};
    ghost use Rattle.layout.specs.Known.{IsCached};
    ghost use Rattle.model.specs.Operations.Step.{State};
    ghost use Rattle.fs.specs.Attributes.{AreAttributes, GetsAttributes, ShowsCached};
    ghost use Rattle.fs.specs.Views.{fs_of};
    ghost use Rattle.fs.specs.Operations.{IsOn};
    ghost use Rattle.model_tree.specs.declared.acl.TheConstants.Acl.{MAX_STORED};
    ghost use Rattle.wire_attributes.specs.NodeValues.{HasFewEntries};

    /// GETATTR (RFC 8881, section 18.7) of the attributes in a bitmap, of any length, for the node
    /// of this number. The result borrows the node: it gives its size, and is encoded when it is
    /// written.
    ///
    /// # Errors
    ///
    /// STALE, then ACCESS if the list is asked for and the caller may not read it.
    pub fn attributes<'a>(
        &'a self,
        cred: &Cred,
        number: u64,
        asked: &'a [u32],
    ) -> Result<AttributesAnswer<'a>, FsFault>
        ensures step { (state : State) (now : ℕ)
            → IsOn (fs_of self.entry.now) cred.now number state
            → GetsAttributes (fs_of self.entry.now) state now asked.entry.now result }
        ensures few { IfOk result (λ answer. HasFewEntries answer.node) }
        ensures down { (fs_of self.entry.now).volume.is_down ≡ true
            → IsErrOf result FsFault.Down }
    {
        if self.is_down() {
            return Err(FsFault::Down);
        }
        Ok(self.asked_attributes(cred, number, asked)?)
    }

    /// The attributes that are asked for of a node, for a caller who may read them.
    fn asked_attributes<'a>(
        &'a self,
        cred: &Cred,
        number: u64,
        asked: &'a [u32],
    ) -> Result<AttributesAnswer<'a>, Status>
        ensures attributes { AreAttributes (fs_of self.entry.now).volume.limits
            (fs_of self.entry.now).volume.tree cred.now number asked.entry.now result }
        ensures few { IfOk result (λ answer. HasFewEntries answer.node) }
    {
        let Some(cached) = self.volume.node(number) else {
            return Err(Status::Stale);
        };
        if is_asked(asked, Attribute::Acl.number()) && !grants(cached, cred, Mask::READ_ACL) {
            return Err(Status::Access);
        }
        Ok(AttributesAnswer {
            node: self.metadata(cached),
            asked,
        })
    }

    /// The attributes of a cached node.
    pub(crate) fn metadata<'a>(&self, cached: &'a CachedNode) -> NodeAttributes<'a>
        requires fits { IsCached cached.now }
        requires few { length cached.now.fields.acl ≤ MAX_STORED }
        ensures shows { ShowsCached (fs_of self.now).volume.limits cached.entry.now result }
        ensures few { HasFewEntries result }
    {
        let inode = &cached.inode;
        let limits = self.volume.limits();
        NodeAttributes {
            kind: inode.kind,
            number: inode.number,
            owner: inode.owner,
            group: inode.group,
            acl: inode.acl.as_slice(),
            change: inode.change,
            time_modify: inode.time_modify,
            size: inode.size,
            max_file_size: limits.file_bytes as u64,
            max_name: limits.name_bytes as u32,
            max_transfer: limits.transfer_bytes as u64,
        }
    }
}
