//! What an edit is.

use model_tree::node::NodeKind;
use tree_transaction::Metadata;

/// One change of the tree's maps. Every change of a tree is a list of them, removals before
/// insertions.
#[derive(Drop)]
pub enum Edit<'a> {
    /// A node without bytes or names.
    PutNode {
        number: u64,
        kind: NodeKind,
        metadata: Metadata,
    },
    /// A node is removed, with its bytes or names.
    DropNode {
        number: u64,
    },
    /// The metadata of a node becomes this.
    Show {
        number: u64,
        metadata: Metadata,
    },
    /// A name in a directory, under its own entry stamp.
    PutName {
        directory: u64,
        stamp: u64,
        name: &'a [u8],
        number: u64,
    },
    /// The name with an entry stamp is removed from its directory.
    DropName {
        directory: u64,
        stamp: u64,
        name: &'a [u8],
    },
    /// Bytes of a file from an offset on; the file grows if they pass its end.
    PutBytes {
        file: u64,
        offset: usize,
        bytes: &'a [u8],
    },
    /// A file is truncated to a size, or extended to it with zeros.
    SetSize {
        file: u64,
        size: u64,
    },
}
