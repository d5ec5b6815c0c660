//! Writing a node's sector.

ghost use Rattle.std.specs.Prelude.{◌≡◌, ◌≤◌, ◌+◌, ◌-◌, ◌*◌, ◌++◌, length, take};
ghost use Rattle.std.specs.List.{AllByRecursion};
ghost use Rattle.inode.specs.Fields.{fields_of, most_entries, IsAce, IsInode};
ghost use Rattle.inode.specs.Encoding.{inode_sector, head, nine, magic, acl_bytes};
ghost use Rattle.inode.specs.Encoding as encoded;

use crate::entries::{MOST, WIDTH, put_ace};
use crate::node::{Form, Inode};
use model_tree::acl::Ace;
use model_tree::node::NodeKind;
use sector::{SIZE, put_bytes, put_u16, put_u32, put_u64, put_zeros};

/// The offsets at which the numbers of the run sectors, the second number of entries, the zeros
/// after it and the entries begin.
pub(crate) const RUN_NUMBERS: usize = 48;

pub(crate) const SECOND_COUNT: usize = 84;

const ZEROS: usize = 86;

pub(crate) const ENTRIES: usize = 128;

fn kind_byte(kind: NodeKind) -> u8
    ensures { result ≡ encoded.kind_byte kind }
{
    match kind {
        NodeKind::File => 1,
        NodeKind::Directory => 2,
    }
}

fn magic_of(form: Form) -> [u8; 4]
    ensures { result ≡ magic form }
{
    match form {
        Form::One => *b"NODE",
        Form::Two => *b"NOD2",
    }
}

/// The number of entries, as byte 5 encodes it.
fn first_count(form: Form, count: usize) -> u8
    requires { count ≤ most_entries form }
    ensures { result ≡ encoded.first_count form count }
{
    match form {
        Form::One => count as u8,
        Form::Two => 0,
    }
}

/// The number of entries, as bytes 84 and 85 encode it.
fn second_count(form: Form, count: usize) -> u16
    requires { count ≤ most_entries form }
    ensures { result ≡ encoded.second_count form count }
{
    match form {
        Form::One => 0,
        Form::Two => count as u16,
    }
}

fn put_head(inode: &Inode, form: Form, sector: &mut [u8; SIZE])
    requires { length inode.now.acl ≤ most_entries form }
    ensures prefix { take RUN_NUMBERS sector.new ≡ head form (fields_of inode.now) }
    ensures len { length sector.new ≡ SIZE }
{
    let count = first_count(form, inode.acl.as_slice().len());
    put_bytes(sector, 0, &magic_of(form));
    put_bytes(sector, 4, &[kind_byte(inode.kind), count]);
    put_u16(sector, 6, inode.runs);
    put_u64(sector, 8, inode.number);
    put_u32(sector, 16, inode.owner);
    put_u32(sector, 20, inode.group);
    put_u64(sector, 24, inode.change);
    put_u64(sector, 32, inode.time_modify);
    put_u64(sector, 40, inode.size);
}

fn put_run_sectors(numbers: &[u32], sector: &mut [u8; SIZE])
    requires { length numbers.now ≤ Inode.MAX_RUN_SECTORS }
    ensures prefix { take SECOND_COUNT sector.new ≡ take RUN_NUMBERS sector.old ++ nine numbers.now }
    ensures len { length sector.new ≡ SIZE }
{
    for (i, number) in numbers.iter().enumerate() {
        put_u32(sector, RUN_NUMBERS + 4 * i, *number);
    }
    let end = RUN_NUMBERS + 4 * numbers.len();
    put_zeros(sector, end, SECOND_COUNT - end);
}

fn put_entries(aces: &[Ace], sector: &mut [u8; SIZE])
    requires few { length aces.now ≤ MOST }
    requires each { AllByRecursion IsAce aces.now }
    ensures { sector.new ≡ take ENTRIES sector.old ++ acl_bytes aces.now }
{
    for (i, ace) in aces.iter().enumerate() {
        put_ace(sector, ENTRIES + WIDTH * i, *ace);
    }
    let end = ENTRIES + WIDTH * aces.len();
    put_zeros(sector, end, SIZE - end);
}

/// Writes the sector of a node, each byte of it.
pub fn to_sector(inode: &Inode, form: Form, sector: &mut [u8; SIZE])
    requires { IsInode form (fields_of inode.now) }
    ensures { sector.new ≡ inode_sector form (fields_of inode.now) }
{
    put_head(inode, form, sector);
    put_run_sectors(&inode.run_sectors, sector);
    let count = second_count(form, inode.acl.as_slice().len());
    put_u16(sector, SECOND_COUNT, count);
    put_zeros(sector, ZEROS, ENTRIES - ZEROS);
    put_entries(inode.acl.as_slice(), sector);
}
