//! LOOKUP.

use crate::fault::FsFault;
use crate::fs::Fs;
use crate::nodes::is_directory;
use crate::rights::grants;
use acl_eval::{Cred, Mask};
use directory::check_name;
use disk::Device;
use model_tree::status::Status;

#[tactic(auto, unfolding(crate::specs::Views::fs_of))]
impl<D: Device> Fs<D> {
    ghost use Rattle.std.specs.Prelude.{◌≡◌, true, ℕ, IsErrOf};
    ghost use Rattle.model.specs.Operations.Step.{State};
    ghost use Rattle.fs.specs.OnTree.{LooksUpIn};
    ghost use Rattle.fs.specs.Views.{fs_of};
    ghost use Rattle.fs.specs.Operations.{IsOn, LooksUp};

    /// LOOKUP (RFC 8881, section 18.13) in the directory of this number: the number of the node
    /// that the name leads to.
    pub fn lookup(&self, cred: &Cred, directory: u64, name: &[u8]) -> Result<u64, FsFault>
        ensures step { (state : State) (now : ℕ) → IsOn (fs_of self.now) cred.now directory state
            → LooksUp (fs_of self.now) state now name.now result }
        ensures down { (fs_of self.now).volume.is_down ≡ true → IsErrOf result FsFault.Down }
    {
        if self.is_down() {
            return Err(FsFault::Down);
        }
        Ok(self.entry(cred, directory, name)?)
    }

    /// The number that a name in a directory leads to, for a caller who may look it up.
    fn entry(&self, cred: &Cred, directory: u64, name: &[u8]) -> Result<u64, Status>
        ensures { LooksUpIn (fs_of self.now).volume.limits (fs_of self.now).volume.tree
            cred.now directory name.now result }
    {
        let Some(cached) = self.volume.node(directory) else {
            return Err(Status::Stale);
        };
        if !is_directory(cached) {
            return Err(Status::NotDir);
        }
        check_name(name, self.volume.limits())?;
        if !grants(cached, cred, Mask::EXECUTE) {
            return Err(Status::Access);
        }
        let Some((_, number)) = cached.names.get(name) else {
            return Err(Status::NoEnt);
        };
        Ok(number)
    }
}
