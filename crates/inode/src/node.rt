//! What a node's sector says about it.

ghost use Rattle.std.specs.Prelude.{◌≡◌, ◌≤◌, IfOk, OnOk, vec_capacity};
ghost use Rattle.inode.specs.Ranges.{AreInRange};

use model_tree::acl::Acl;
use model_tree::node::NodeKind;
use std::alloc::{AllocError, Global};

/// The forms of node sectors.
#[derive(Clone, Copy, PartialEq, Eq)]
pub enum Form {
    /// `NODE`, with up to 40 entries, whose number is byte 5.
    One,
    /// `NOD2`, with up to 72 entries, whose number is in bytes 84 and 85.
    Two,
}

impl Form {
    ghost use Rattle.inode.specs.Fields.{most_entries};

    /// The most entries that a node of this form has room for.
    pub(crate) fn most_entries(self) -> usize
        ensures { result ≡ most_entries self }
    {
        match self {
            Form::One => 40,
            Form::Two => 72,
        }
    }
}

/// A node, apart from its bytes or names.
#[derive(Drop)]
pub struct Inode {
    pub kind: NodeKind,
    /// The node's number, as in its filehandle.
    pub number: u64,
    pub owner: u32,
    pub group: u32,
    /// The change value (RFC 8881, section 5.8.1.4).
    pub change: u64,
    /// When it was modified last, in nanoseconds since 1970.
    pub time_modify: u64,
    /// Bytes of a file, names of a directory.
    pub size: u64,
    /// The number of runs that its blocks are in.
    pub runs: u16,
    /// The sectors that keep those runs, 500 each, the last one perhaps fewer.
    pub run_sectors: Vec<u32>,
    pub acl: Acl,
    // What a proof knows of the numbers without a read.
    ghost in_range: { AreInRange number owner group change time_modify size },
}

impl Inode {
    ghost use Rattle.inode.specs.Fields.{fields_of};

    /// The most run sectors of a node.
    pub const MAX_RUN_SECTORS: usize = 9;

    /// A copy of the node, which shares the memory of its list.
    pub fn try_clone(&self, alloc: Global) -> Result<Inode, AllocError>
        ensures { IfOk result (λ inode. fields_of inode ≡ fields_of self.now) }
    {
        Ok(Inode {
            kind: self.kind,
            number: self.number,
            owner: self.owner,
            group: self.group,
            change: self.change,
            time_modify: self.time_modify,
            size: self.size,
            runs: self.runs,
            run_sectors: Vec::from_slice(alloc, &self.run_sectors)?,
            acl: self.acl.try_clone()?,
        })
    }

    /// Reserves memory for the maximal number of run sectors of a node.
    pub fn reserve(&mut self) -> Result<(), AllocError>
        ensures same { fields_of self.new ≡ fields_of self.old }
        ensures room { OnOk result (Inode.MAX_RUN_SECTORS ≤ vec_capacity self.new.run_sectors) }
    {
        let additional = Inode::MAX_RUN_SECTORS.saturating_sub(self.run_sectors.len());
        self.run_sectors.reserve(additional)
    }
}
