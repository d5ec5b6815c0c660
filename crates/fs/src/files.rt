//! Files by number, and who may use one.

use crate::fs::Fs;
use crate::nodes::is_directory;
use crate::rights::grants;
use acl_eval::{Cred, Mask};
use disk::Device;
use model_tree::status::Status;
use node_table::CachedNode;

#[tactic(auto, unfolding(crate::specs::Views::fs_of))]
impl<D: Device> Fs<D> {
    ghost use Rattle.std.specs.Prelude.{◌≡◌, IfOk};
    ghost use Rattle.layout.specs.Known.{IsCached};
    ghost use Rattle.model_tree.specs.declared.node.NodeKind.TheVariants as kind;
    ghost use Rattle.wire_attributes.specs.Given.{IsChecked};
    ghost use Rattle.fs.specs.Files.{file_refusals, permit_refusals};
    ghost use Rattle.fs.specs.Views.{fs_of};
    ghost use Rattle.volume.specs.Nodes.{IsNodeOf};

    /// The file of this number. STALE if no node has it, ISDIR if it is a directory's.
    pub(crate) fn file(&self, number: u64) -> Result<&CachedNode, Status>
        ensures tests { IsChecked (file_refusals (fs_of self.entry.now).volume.tree number) result }
        ensures node { IfOk result (λ cached.
            IsNodeOf (fs_of self.entry.now).volume.tree number cached.now) }
        ensures file { IfOk result (λ cached. cached.now.fields.kind ≡ kind.File) }
        ensures fit { IfOk result (λ cached. IsCached cached.now) }
    {
        let Some(cached) = self.volume.node(number) else {
            return Err(Status::Stale);
        };
        if is_directory(cached) {
            return Err(Status::IsDir);
        }
        Ok(cached)
    }

    /// The file of this number, for a caller who has these rights on it and whose stateid has this
    /// verdict. STALE, ISDIR, the verdict's refusal, ACCESS.
    pub(crate) fn permit_file(
        &self,
        cred: &Cred,
        number: u64,
        verdict: Result<(), Status>,
        mask: Mask,
    ) -> Result<&CachedNode, Status>
        ensures tests { IsChecked (permit_refusals (fs_of self.entry.now).volume.tree cred.now
            number mask.0 verdict) result }
        ensures node { IfOk result (λ cached.
            IsNodeOf (fs_of self.entry.now).volume.tree number cached.now) }
        ensures file { IfOk result (λ cached. cached.now.fields.kind ≡ kind.File) }
        ensures fit { IfOk result (λ cached. IsCached cached.now) }
    {
        let cached = self.file(number)?;
        verdict?;
        if !grants(cached, cred, mask) {
            return Err(Status::Access);
        }
        Ok(cached)
    }
}
