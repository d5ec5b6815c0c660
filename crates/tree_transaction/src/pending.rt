//! Inodes whose sectors are not encoded yet.

ghost use Rattle.std.specs.Prelude.{◌≡◌, IfOk};
ghost use Rattle.inode.specs.Fields.{IsInode, fields_of};
ghost use Rattle.inode.specs.Encoding.{inode_sector};

use disk::SECTOR;
use inode::{Form, Inode, to_sector};
use std::alloc::{AllocError, Global};
use std::marker::Model;

/// An inode whose sector is not encoded yet. Contracts see the sector.
#[derive(Drop)]
pub struct PendingInode {
    form: Form,
    inode: Inode,
}

impl Model for PendingInode {
    ghost use Rattle.std.specs.Prelude.{List, ℕ};
    ghost use Rattle.inode.specs.Fields.{IsInode, fields_of};
    ghost use Rattle.inode.specs.Encoding.{inode_sector};

    ghost Value = { List ℕ };

    ghost view = { λ pending. inode_sector pending.form (fields_of pending.inode) };

    ghost invariant = { λ pending. IsInode pending.form (fields_of pending.inode) };
}

impl PendingInode {
    /// A copy of an inode, which shares the memory of its ACL.
    pub(crate) fn new(alloc: Global, inode: &Inode, form: Form) -> Result<PendingInode, AllocError>
        requires { IsInode form (fields_of inode.now) }
        ensures { IfOk result (λ pending. pending ≡ inode_sector form (fields_of inode.now)) }
    {
        let inode = inode.try_clone(alloc)?;
        Ok(PendingInode { form, inode })
    }

    /// Encodes the inode.
    pub(crate) fn encode(&self, sector: &mut [u8; SECTOR])
        ensures { sector.new ≡ self.now }
    {
        to_sector(&self.inode, self.form, sector);
    }
}
