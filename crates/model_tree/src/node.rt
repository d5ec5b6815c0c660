//! What a node of the tree is.

/// The number of the root directory.
pub const ROOT: u64 = 1;

/// The kinds of nodes (RFC 8881, section 5.8.1.2, `nfs_ftype4`, of which this server has two).
#[derive(Clone, Copy, PartialEq, Eq)]
pub enum NodeKind {
    File = 1,
    Directory = 2,
}
