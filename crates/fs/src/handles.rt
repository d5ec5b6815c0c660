//! Operations that move the current filehandle or return it.

ghost use Rattle.std.specs.Prelude.{◌≡◌, MatchResult, IsTrue, IsFalse};
ghost use Rattle.model_tree.specs.Trees.Stamp.{filehandle_of, is_filehandle, handle_number};

use crate::fault::FsFault;
use crate::fs::Fs;
use disk::Device;
use model_tree::status::Status;

// The filehandle of a node.
fn filehandle_of(number: u64) -> [u8; 8]
    ensures { result ≡ filehandle_of number }
{
    number.to_be_bytes()
}

// The number of the node that a filehandle names, if it is one of this server's.
fn number_of(handle: &[u8]) -> Result<u64, Status>
    ensures { MatchResult result
        (λ number. (number ≡ handle_number handle.now) × IsTrue (is_filehandle handle.now))
        (λ refused. (refused ≡ Status.BadHandle) × IsFalse (is_filehandle handle.now)) }
{
    let Ok(bytes) = <[u8; 8]>::try_from(handle) else {
        return Err(Status::BadHandle);
    };
    Ok(u64::from_be_bytes(bytes))
}

#[tactic(auto, unfolding(crate::specs::Views::fs_of))]
impl<D: Device> Fs<D> {
    ghost use Rattle.std.specs.Prelude.{◌≡◌, true, ℕ, IsErrOf};
    ghost use Rattle.model_tree.specs.declared.acl.Cred.{Cred};
    ghost use Rattle.model.specs.Operations.Step.{State};
    ghost use Rattle.fs.specs.Views.{fs_of};
    ghost use Rattle.fs.specs.Operations.{IsOn, PutsHandle, GetsHandle, TestsCurrent};

    /// PUTFH (RFC 8881, section 18.19): the number of the node that a filehandle names. BADHANDLE
    /// if it is none of this server's, STALE if the node is gone.
    pub fn put_handle(&self, handle: &[u8]) -> Result<u64, FsFault>
        ensures step { (state : State) (now : ℕ) → state.tree ≡ (fs_of self.now).volume.tree
            → PutsHandle (fs_of self.now) state now handle.now result }
        ensures down { (fs_of self.now).volume.is_down ≡ true → IsErrOf result FsFault.Down }
    {
        if self.is_down() {
            return Err(FsFault::Down);
        }
        let number = number_of(handle)?;
        if !self.has(number) {
            return Err(FsFault::Status(Status::Stale));
        }
        Ok(number)
    }

    /// GETFH (RFC 8881, section 18.8): the filehandle of the node of this number. STALE if it is
    /// gone.
    pub fn handle(&self, number: u64) -> Result<[u8; 8], FsFault>
        ensures step { (cred : Cred) (state : State) (now : ℕ)
            → IsOn (fs_of self.now) cred number state
            → GetsHandle (fs_of self.now) state now result }
        ensures down { (fs_of self.now).volume.is_down ≡ true → IsErrOf result FsFault.Down }
    {
        if self.is_down() {
            return Err(FsFault::Down);
        }
        if !self.has(number) {
            return Err(FsFault::Status(Status::Stale));
        }
        Ok(filehandle_of(number))
    }

    /// Tests the current filehandle, that of the node of this number (RFC 8881, section
    /// 16.2.3.1.1). STALE if it is gone.
    pub fn check_node(&self, number: u64) -> Result<(), FsFault>
        ensures step { (cred : Cred) (state : State) → IsOn (fs_of self.now) cred number state
            → TestsCurrent (fs_of self.now) state result }
        ensures down { (fs_of self.now).volume.is_down ≡ true → IsErrOf result FsFault.Down }
    {
        if self.is_down() {
            return Err(FsFault::Down);
        }
        if !self.has(number) {
            return Err(FsFault::Status(Status::Stale));
        }
        Ok(())
    }
}
