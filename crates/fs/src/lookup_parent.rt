//! LOOKUPP.

use crate::fault::FsFault;
use crate::fs::Fs;
use crate::nodes::is_directory;
use crate::rights::grants;
use acl_eval::{Cred, Mask};
use disk::Device;
use model_tree::node::ROOT;
use model_tree::status::Status;

#[tactic(auto, unfolding(crate::specs::Views::fs_of))]
impl<D: Device> Fs<D> {
    ghost use Rattle.std.specs.Prelude.{◌≡◌, true, ℕ, IsErrOf};
    ghost use Rattle.model.specs.Operations.Step.{State};
    ghost use Rattle.fs.specs.Views.{fs_of};
    ghost use Rattle.fs.specs.Operations.{IsOn};
    ghost use Rattle.fs.specs.Parents.{IsParent, LooksUpParent};

    /// LOOKUPP (RFC 8881, section 18.14) on the directory of this number: the number of the
    /// directory that has its name.
    ///
    /// # Errors
    ///
    /// Refused by the first of these that holds: STALE, NOTDIR, ACCESS without the right to look up
    /// names in this directory, and NOENT at the root.
    pub fn parent(&self, cred: &Cred, directory: u64) -> Result<u64, FsFault>
        ensures step { (state : State) (now : ℕ) → IsOn (fs_of self.now) cred.now directory state
            → LooksUpParent (fs_of self.now) state now result }
        ensures down { (fs_of self.now).volume.is_down ≡ true → IsErrOf result FsFault.Down }
    {
        if self.is_down() {
            return Err(FsFault::Down);
        }
        Ok(self.parent_entry(cred, directory)?)
    }

    /// The number of a directory's parent, for a caller who may look it up.
    fn parent_entry(&self, cred: &Cred, directory: u64) -> Result<u64, Status>
        ensures { IsParent (fs_of self.now).volume.limits (fs_of self.now).volume.tree
            cred.now directory result }
    {
        let Some(cached) = self.volume.node(directory) else {
            return Err(Status::Stale);
        };
        if !is_directory(cached) {
            return Err(Status::NotDir);
        }
        if !grants(cached, cred, Mask::EXECUTE) {
            return Err(Status::Access);
        }
        if directory == ROOT {
            return Err(Status::NoEnt);
        }
        Ok(self.volume.parent(directory))
    }
}
