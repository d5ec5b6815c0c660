//! The blocks of an inode of form three: a tree of extents.
#![tactic(auto)]

mod cutting;
mod encoding;
mod entry;
mod fault;
mod laws;
mod setting;
mod spans;
mod tree;
mod tree_check;

pub use cutting::Truncated;
pub use encoding::{put_entries, read_index, read_root, write_index};
pub use entry::{Entry, INDEX_ENTRIES, ROOT_ENTRIES, are_entries, is_entry};
pub use fault::{SetFault, TreeFault};
pub use laws::{charge_covers, depth_is_least, reads_back};
pub use setting::Touched;
pub use spans::{MAX_BLOCKS, MAX_DEPTH, depth, span};
pub use tree::{ExtentTree, Nodes};
pub use tree_check::{index_sectors, is_root};
