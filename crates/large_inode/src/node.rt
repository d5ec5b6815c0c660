//! What an inode's sector says about it.

ghost use Rattle.large_inode.specs.Ranges.{AreInRange};

use extent_tree::Entry;
use model_tree::acl::Acl;
use model_tree::node::NodeKind;

/// An inode of form three, apart from its bytes or names.
#[derive(Drop)]
pub struct LargeInode {
    pub kind: NodeKind,
    /// The depth of its extents.
    pub depth: u8,
    /// The inode's number, as in its filehandle.
    pub number: u64,
    pub owner: u32,
    pub group: u32,
    /// The change value (RFC 8881, section 5.8.1.4).
    pub change: u64,
    /// When it was modified last; as all times, in nanoseconds since 1970.
    pub time_modify: u64,
    /// Bytes of a file, names of a directory.
    pub size: u64,
    /// When anything that it shows changed last.
    pub time_metadata: u64,
    /// When it was created.
    pub time_create: u64,
    /// The verifier of the exclusive create that made the file.
    pub verifier: Option<[u8; 8]>,
    pub acl: Acl,
    /// The root of the tree that has its blocks.
    pub extents: Vec<Entry>,
    // What a proof knows of the fields without a read.
    ghost in_range: { AreInRange number owner group change time_modify size time_metadata
        time_create verifier },
}
