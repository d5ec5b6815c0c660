//! Writing an inode's sector.

ghost use Rattle.std.specs.Prelude.{◌≡◌, ◌≤◌, ◌++◌, length, take};
ghost use Rattle.std.specs.List.{AllByRecursion};
ghost use Rattle.inode.specs.Encoding as small;
ghost use Rattle.inode.specs.Fields.{IsAce};
ghost use Rattle.large_inode.specs.Fields.{fields_of, IsLargeInode};
ghost use Rattle.large_inode.specs.Encoding.{large_inode_sector, head, verifier_part, acl_part};

use crate::entries::{MOST, WIDTH, put_ace};
use crate::node::LargeInode;
use extent_tree::put_entries;
use model_tree::acl::Ace;
use model_tree::node::NodeKind;
use sector::{SIZE, put_bytes, put_u16, put_u32, put_u64, put_zeros};

/// The offsets at which the verifier, its flag, the entries of the ACL, those of the extents and
/// the zeros after them begin.
pub(crate) const VERIFIER: usize = 64;

pub(crate) const FLAG: usize = 72;

pub(crate) const ENTRIES: usize = 128;

pub(crate) const EXTENTS: usize = 1280;

const END: usize = 3328;

fn kind_byte(kind: NodeKind) -> u8
    ensures { result ≡ small.kind_byte kind }
{
    match kind {
        NodeKind::File => 1,
        NodeKind::Directory => 2,
    }
}

fn put_head(inode: &LargeInode, sector: &mut [u8; SIZE])
    requires { length inode.now.acl ≤ MOST }
    ensures prefix { take VERIFIER sector.new ≡ head (fields_of inode.now) }
    ensures len { length sector.new ≡ SIZE }
{
    put_bytes(sector, 0, b"NOD3");
    put_bytes(sector, 4, &[kind_byte(inode.kind), inode.depth]);
    put_u16(sector, 6, inode.acl.as_slice().len() as u16);
    put_u64(sector, 8, inode.number);
    put_u32(sector, 16, inode.owner);
    put_u32(sector, 20, inode.group);
    put_u64(sector, 24, inode.change);
    put_u64(sector, 32, inode.time_modify);
    put_u64(sector, 40, inode.size);
    put_u64(sector, 48, inode.time_metadata);
    put_u64(sector, 56, inode.time_create);
}

fn put_verifier(verifier: Option<[u8; 8]>, sector: &mut [u8; SIZE])
    ensures prefix { take ENTRIES sector.new ≡ take VERIFIER sector.old ++ verifier_part verifier }
    ensures len { length sector.new ≡ SIZE }
{
    let (flag, bytes) = match verifier {
        Some(bytes) => (1, bytes),
        None => (0, [0; 8]),
    };
    put_bytes(sector, VERIFIER, &bytes);
    put_bytes(sector, FLAG, &[flag]);
    put_zeros(sector, FLAG + 1, ENTRIES - FLAG - 1);
}

fn put_acl(aces: &[Ace], sector: &mut [u8; SIZE])
    requires few { length aces.now ≤ MOST }
    requires each { AllByRecursion IsAce aces.now }
    ensures prefix { take EXTENTS sector.new ≡ take ENTRIES sector.old ++ acl_part aces.now }
    ensures len { length sector.new ≡ SIZE }
{
    for (i, ace) in aces.iter().enumerate() {
        put_ace(sector, ENTRIES + WIDTH * i, *ace);
    }
    let end = ENTRIES + WIDTH * aces.len();
    put_zeros(sector, end, EXTENTS - end);
}

/// Writes the sector of an inode, each byte of it.
pub fn to_sector(inode: &LargeInode, sector: &mut [u8; SIZE])
    requires { IsLargeInode (fields_of inode.now) }
    ensures { sector.new ≡ large_inode_sector (fields_of inode.now) }
{
    put_head(inode, sector);
    put_verifier(inode.verifier, sector);
    put_acl(inode.acl.as_slice(), sector);
    put_entries(sector, EXTENTS, &inode.extents);
    put_zeros(sector, END, SIZE - END);
}
