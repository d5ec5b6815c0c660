//! How deep a tree is, and how many blocks an entry spans.

ghost use Rattle.std.specs.Prelude.{◌≡◌, ◌≤◌, ◌^◌};
ghost use Rattle.extent_tree.specs.Depth.{depth_of, IsDepth};

/// The most blocks of a file.
pub const MAX_BLOCKS: u32 = 1 << 28;

/// The depth of an inode's entries is at most this one.
pub const MAX_DEPTH: u8 = 3;

/// How many blocks an entry at this depth spans.
pub fn span(depth: u8) -> u32
    requires { depth ≤ MAX_DEPTH }
    ensures { result ≡ 512 ^ depth }
{
    512u32.pow(u32::from(depth))
}

/// The depth of the entries in the inode of a file of this many blocks: the least at which 256
/// entries span them.
pub fn depth(blocks: u32) -> u8
    requires { blocks ≤ MAX_BLOCKS }
    ensures value { result ≡ depth_of blocks }
    ensures least { IsDepth blocks result }
    ensures most { result ≤ MAX_DEPTH }
{
    if blocks <= 256 {
        0
    } else if blocks <= 256 * 512 {
        1
    } else if blocks <= 256 * 512 * 512 {
        2
    } else {
        3
    }
}
