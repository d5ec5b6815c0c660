//! A volume that is only read.

ghost use Rattle.std.specs.Prelude.{◌≡◌};

use crate::fault::{ArchiveFault, Reason};
use crate::path::refuse;
use crate::shelf::Shelf;
use disk::FileDevice;
use model_tree::node::{NodeKind, ROOT};
use node_table::CachedNode;
use std::alloc::Global;
use volume::{Unmounted, Volume};

/// A volume that is read as its next mount would find it, and stays as it is.
#[derive(Drop)]
pub struct View {
    pub(crate) alloc: Global,
    volume: Volume<Shelf>,
}

impl View {
    /// Mounts the volume in memory: whatever that writes, the file is not written.
    ///
    /// # Errors
    /// Mount.
    pub fn new(alloc: Global, file: FileDevice) -> Result<View, ArchiveFault> {
        match Volume::mount(alloc, Shelf::to_read(alloc, file)) {
            Ok(volume) => Ok(View { alloc, volume }),
            Err(Unmounted { fault, device: _ }) => Err(fault.into()),
        }
    }

    /// The node of this number, without a file's bytes.
    pub(crate) fn node(&self, number: u64) -> Result<&CachedNode, ArchiveFault> {
        match self.volume.node(number) {
            Some(node) => Ok(node),
            None => Err(ArchiveFault::Device),
        }
    }

    /// The number of the node that a path leads to.
    ///
    /// # Errors
    /// NoEntry, NotDirectory.
    pub(crate) fn find(&self, path: &str) -> Result<u64, ArchiveFault> {
        let mut number = ROOT;
        for name in path.split('/') {
            if name.is_empty() || name == "." {
                continue;
            }
            number = match self.child(number, name.as_bytes())? {
                Ok(child) => child,
                Err(reason) => return Err(refuse(self.alloc, reason, path.as_bytes())),
            };
        }
        Ok(number)
    }

    fn child(&self, number: u64, name: &[u8]) -> Result<Result<u64, Reason>, ArchiveFault> {
        let node = self.node(number)?;
        if node.inode.kind != NodeKind::Directory {
            return Ok(Err(Reason::NotDirectory));
        }
        match node.names.get(name) {
            Some((_, child)) => Ok(Ok(child)),
            None => Ok(Err(Reason::NoEntry)),
        }
    }

    /// Appends at most `most` bytes of a file, from an offset on, and none of a directory.
    pub(crate) fn read(
        &mut self,
        number: u64,
        offset: u64,
        most: usize,
        out: &mut Vec<u8>,
    ) -> Result<(), ArchiveFault> {
        let Some(node) = self.volume.node(number) else {
            return Err(ArchiveFault::Device);
        };
        match node.inode.kind {
            NodeKind::File => Ok(self.volume.bytes(number, offset, most, out)?),
            NodeKind::Directory => Ok(()),
        }
    }
}
