//! Nodes by number, and what their cached nodes hold.

ghost use Rattle.std.specs.Prelude.{◌≡◌, ◌↔◌, IsTrue, option_map};
ghost use Rattle.directory.specs.Records.{record_from};
ghost use Rattle.model_tree.specs.declared.node.NodeKind.TheVariants as kind;
ghost use Rattle.model_tree.specs.Trees.Keyed.{is_key};
ghost use Rattle.model.specs.Operations.Rename.{has_names};
ghost use Rattle.model_tree.specs.Trees.Tree.{entry_of, is_directory_at, names_at};
ghost use Rattle.fs.specs.Views.{fs_of};

use crate::fs::Fs;
use acl_eval::NodeKind;
use disk::Device;
use node_table::CachedNode;

/// Whether a node is a directory.
pub(crate) fn is_directory(cached: &CachedNode) -> bool
    ensures { IsTrue result ↔ (cached.now.fields.kind ≡ kind.Directory) }
{
    matches!(cached.inode.kind, NodeKind::Directory)
}

#[tactic(auto, unfolding(crate::specs::Views::fs_of))]
impl<D: Device> Fs<D> {
    /// Whether there is a node of this number.
    pub(crate) fn has(&self, number: u64) -> bool
        ensures { result ≡ is_key number (fs_of self.now).volume.tree }
    {
        self.volume.node(number).is_some()
    }

    /// Whether there is a directory of this number.
    pub(crate) fn has_directory(&self, number: u64) -> bool
        ensures { result ≡ is_directory_at (fs_of self.now).volume.tree number }
    {
        match self.volume.node(number) {
            Some(cached) => is_directory(cached),
            None => false,
        }
    }

    /// The stamp and the number of the entry of a name in the directory of this number: `None` if
    /// there is no such directory, or the name is not there.
    pub(crate) fn named_in(&self, directory: u64, name: &[u8]) -> Option<(u64, u64)>
        ensures { option_map (λ found. record_from found.0 name.now found.1) result
            ≡ entry_of name.now (names_at (fs_of self.now).volume.tree directory) }
    {
        let cached = self.volume.node(directory)?;
        if !is_directory(cached) {
            return None;
        }
        cached.names.get(name)
    }

    /// Whether there is a directory of this number, with names.
    pub(crate) fn has_names(&self, number: u64) -> bool
        ensures { result ≡ has_names (fs_of self.now).volume.tree number }
    {
        match self.volume.node(number) {
            Some(cached) => is_directory(cached) && cached.names.len() > 0,
            None => false,
        }
    }
}
