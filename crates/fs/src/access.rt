//! ACCESS.

ghost use Rattle.std.specs.Prelude.{◌≡◌, ◌≤◌, ◌&&◌, if◌then◌else◌};
ghost use Rattle.fs.specs.AccessRights.{access_answer, access_on};
ghost use Rattle.fs.specs.Outline.{node_metadata};
ghost use Rattle.model.specs.Operations.Access.{access_masks, asked_bits, granted_bits};
ghost use Rattle.model_tree.specs.Rights.Acl.{granted, meets};

use crate::fault::FsFault;
use crate::fs::Fs;
use crate::rights::grants;
use acl_eval::{Cred, Mask, NodeKind};
use bitflags::Flags;
use disk::Device;
use model_tree::status::Status;
use node_table::CachedNode;

/// `ACCESS4_READ`: to read a file's bytes, or to list a directory.
const READ: u32 = 0x01;

/// `ACCESS4_LOOKUP`: to look up a name in a directory.
const LOOKUP: u32 = 0x02;

/// `ACCESS4_MODIFY`: to rewrite a file's bytes, or to alter the names of a directory.
const MODIFY: u32 = 0x04;

/// `ACCESS4_EXTEND`: to write new bytes, or to add names.
const EXTEND: u32 = 0x08;

/// `ACCESS4_DELETE`: to delete a name of a directory.
const DELETE: u32 = 0x10;

/// `ACCESS4_EXECUTE`: to execute a file.
const EXECUTE: u32 = 0x20;

/// The result of ACCESS: of the bits that are asked for, those that a node of this kind has, and
/// those of them that the caller is granted.
#[derive(Clone, Copy, PartialEq, Eq)]
pub struct Access {
    pub supported: u32,
    pub granted: u32,
}

/// `bit` if it holds, and 0 otherwise.
fn bit_if(holds: bool, bit: u32) -> u32
    ensures value { result ≡ (if holds then bit else 0) }
    ensures small { result ≤ bit }
{
    if holds { bit } else { 0 }
}

/// The bits that are asked for, of those that a kind has.
fn supported_bits(kind: NodeKind, asked: u32) -> u32
    ensures { result ≡ asked_bits asked (access_masks kind) }
{
    let read = bit_if(asked & READ != 0, READ);
    let modify = bit_if(asked & MODIFY != 0, MODIFY);
    let extend = bit_if(asked & EXTEND != 0, EXTEND);
    match kind {
        NodeKind::File => read + (modify + (extend + bit_if(asked & EXECUTE != 0, EXECUTE))),
        NodeKind::Directory => {
            let lookup = bit_if(asked & LOOKUP != 0, LOOKUP);
            let delete = bit_if(asked & DELETE != 0, DELETE);
            read + (lookup + (modify + (extend + delete)))
        }
    }
}

/// `bit` if it is asked for and the node grants the caller `mask`, and 0 otherwise.
fn granted_bit(cached: &CachedNode, cred: &Cred, asked: u32, bit: u32, mask: Mask) -> u32
    ensures value { result ≡ (if meets asked bit && granted cached.now.fields.acl
        cached.now.fields.owner cached.now.fields.group cred.now mask.0 then bit else 0) }
    ensures small { result ≤ bit }
{
    bit_if(asked & bit != 0 && grants(cached, cred, mask), bit)
}

/// The bits that are asked for and granted.
fn granted_bits(cached: &CachedNode, cred: &Cred, asked: u32) -> u32
    ensures { result ≡ granted_bits (node_metadata cached.now) cred.now asked
        (access_masks cached.now.fields.kind) }
{
    let add = Mask::WRITE_DATA.union(Mask::APPEND_DATA);
    let add_or_delete = add.union(Mask::DELETE_CHILD);
    let read = granted_bit(cached, cred, asked, READ, Mask::READ_DATA);
    match cached.inode.kind {
        NodeKind::File => {
            let modify = granted_bit(cached, cred, asked, MODIFY, Mask::WRITE_DATA);
            let extend = granted_bit(cached, cred, asked, EXTEND, Mask::WRITE_DATA);
            let execute = granted_bit(cached, cred, asked, EXECUTE, Mask::EXECUTE);
            read + (modify + (extend + execute))
        }
        NodeKind::Directory => {
            let lookup = granted_bit(cached, cred, asked, LOOKUP, Mask::EXECUTE);
            let modify = granted_bit(cached, cred, asked, MODIFY, add_or_delete);
            let extend = granted_bit(cached, cred, asked, EXTEND, add);
            let delete = granted_bit(cached, cred, asked, DELETE, Mask::DELETE_CHILD);
            read + (lookup + (modify + (extend + delete)))
        }
    }
}

/// What a cached node supports and grants, of the bits that are asked for.
fn access_on(cached: &CachedNode, cred: &Cred, asked: u32) -> Access
    ensures { access_answer result ≡ access_on cached.now cred.now asked }
{
    Access {
        supported: supported_bits(cached.inode.kind, asked),
        granted: granted_bits(cached, cred, asked),
    }
}

#[tactic(auto, unfolding(crate::specs::Views::fs_of))]
impl<D: Device> Fs<D> {
    ghost use Rattle.std.specs.Prelude.{◌≡◌, true, ℕ, IsErrOf};
    ghost use Rattle.model.specs.Operations.Step.{State};
    ghost use Rattle.fs.specs.AccessRights.{TellsAccess};
    ghost use Rattle.fs.specs.Views.{fs_of};
    ghost use Rattle.fs.specs.Operations.{IsOn};

    /// ACCESS (RFC 8881, section 18.1) of these bits, on the node of this number. STALE if it is
    /// gone; no right is needed to ask.
    pub fn access(&self, cred: &Cred, number: u64, asked: u32) -> Result<Access, FsFault>
        ensures step { (state : State) (now : ℕ) → IsOn (fs_of self.now) cred.now number state
            → TellsAccess (fs_of self.now) state now asked result }
        ensures down { (fs_of self.now).volume.is_down ≡ true → IsErrOf result FsFault.Down }
    {
        if self.is_down() {
            return Err(FsFault::Down);
        }
        let Some(cached) = self.volume.node(number) else {
            return Err(FsFault::Status(Status::Stale));
        };
        Ok(access_on(cached, cred, asked))
    }
}
