//! Reading a node's sector.

ghost use Rattle.std.specs.Prelude.{◌≡◌, ◌≤◌, ◌+◌, ◌*◌, ◌++◌, ℕ, List, length, drop, vec_len, IfOk, IfSome, IsErrOf, Some};
ghost use Rattle.std.specs.List.{AllByRecursion, flat_map};
ghost use Rattle.model_tree.specs.declared.acl.Ace.{Ace};
ghost use Rattle.model_tree.specs.declared.node.NodeKind.{NodeKind};
ghost use Rattle.inode.specs.Fields.{Fields, fields_of, IsAce, IsRunSector, IsInode};
ghost use Rattle.inode.specs.Encoding.{inode_sector, ace_bytes, number_bytes, kind_byte};
ghost use Rattle.inode.specs.Reading.{count_in};

use crate::entries::{MOST, WIDTH, ace_at};
use crate::fault::InodeFault;
use crate::node::{Form, Inode};
use crate::writing::{ENTRIES, RUN_NUMBERS, SECOND_COUNT, to_sector};
use extents::MAX_SECTOR_RUNS;
use model_tree::acl::Acl;
use model_tree::node::NodeKind;
use sector::{SIZE, u16_at, u32_at, u64_at};
use std::alloc::Global;

/// The most runs that nine run sectors keep.
const MAX_RUNS: u16 = 9 * MAX_SECTOR_RUNS as u16;

fn kind_from(byte: u8) -> Option<NodeKind>
    ensures { (kind : NodeKind) → byte ≡ kind_byte kind → result ≡ Some kind }
{
    match byte {
        1 => Some(NodeKind::File),
        2 => Some(NodeKind::Directory),
        _ => None,
    }
}

/// The number of a run sector at place `at`; none if 0 is there.
fn run_sector_at(sector: &[u8; SIZE], at: usize) -> Option<u32>
    requires { at + 4 ≤ SIZE }
    ensures fits { IfSome result IsRunSector }
    ensures only { (number : ℕ) (rest : List ℕ) → IsRunSector number
        → drop at sector.now ≡ number_bytes number ++ rest → result ≡ Some number }
{
    let number = u32_at(sector, at);
    if number == 0 { None } else { Some(number) }
}

/// The numbers of the first run sectors.
fn run_sectors_in(alloc: Global, sector: &[u8; SIZE], count: usize) -> Result<Vec<u32>, InodeFault>
    requires { count ≤ Inode.MAX_RUN_SECTORS }
    ensures fits { IfOk result (λ numbers. (vec_len numbers ≡ count)
        × AllByRecursion IsRunSector numbers.items) }
    ensures only { (numbers : List ℕ) (rest : List ℕ) → AllByRecursion IsRunSector numbers
        → length numbers ≡ count
        → drop RUN_NUMBERS sector.now ≡ flat_map number_bytes numbers ++ rest
        → IfOk result (λ found. found.items ≡ numbers) }
    ensures err { IsErrOf result InodeFault.NotInode → (numbers : List ℕ) (rest : List ℕ)
        → AllByRecursion IsRunSector numbers
        → length numbers ≡ count
        → ¬ (drop RUN_NUMBERS sector.now ≡ flat_map number_bytes numbers ++ rest) }
{
    let mut numbers = Vec::new(alloc);
    for i in 0..count {
        let Some(number) = run_sector_at(sector, RUN_NUMBERS + 4 * i) else {
            return Err(InodeFault::NotInode);
        };
        numbers.push(number)?;
    }
    Ok(numbers)
}

/// The first entries.
fn acl_in(alloc: Global, sector: &[u8; SIZE], count: usize) -> Result<Acl, InodeFault>
    requires { count ≤ MOST }
    ensures fits { IfOk result (λ acl. (length acl ≡ count) × AllByRecursion IsAce acl) }
    ensures only { (aces : List Ace) (rest : List ℕ) → AllByRecursion IsAce aces
        → length aces ≡ count
        → drop ENTRIES sector.now ≡ flat_map ace_bytes aces ++ rest
        → IfOk result (λ acl. acl ≡ aces) }
    ensures err { IsErrOf result InodeFault.NotInode → (aces : List Ace) (rest : List ℕ)
        → AllByRecursion IsAce aces
        → length aces ≡ count → ¬ (drop ENTRIES sector.now ≡ flat_map ace_bytes aces ++ rest) }
{
    let mut acl = Acl::new(alloc);
    for i in 0..count {
        let Some(ace) = ace_at(sector, ENTRIES + WIDTH * i) else {
            return Err(InodeFault::NotInode);
        };
        acl.push(ace)?;
    }
    Ok(acl)
}

/// The number of entries in a sector of this form, whatever it holds.
fn count_at(form: Form, sector: &[u8; SIZE]) -> usize
    ensures { result ≡ count_in form sector.now }
{
    match form {
        Form::One => usize::from(sector[5]),
        Form::Two => usize::from(u16_at(sector, SECOND_COUNT)),
    }
}

/// The inode that would be in a sector of this form, whatever the bytes between its fields hold.
fn inode_in(alloc: Global, form: Form, sector: &[u8; SIZE]) -> Result<Inode, InodeFault>
    ensures fits { IfOk result (λ inode. IsInode form (fields_of inode)) }
    ensures only { (fields : Fields) → IsInode form fields
        → sector.now ≡ inode_sector form fields
        → IfOk result (λ inode. fields_of inode ≡ fields) }
    ensures err { IsErrOf result InodeFault.NotInode → (fields : Fields) → IsInode form fields
        → ¬ (sector.now ≡ inode_sector form fields) }
{
    let Some(kind) = kind_from(sector[4]) else {
        return Err(InodeFault::NotInode);
    };
    let aces = count_at(form, sector);
    let runs = u16_at(sector, 6);
    if aces > form.most_entries() {
        return Err(InodeFault::NotInode);
    }
    if runs > MAX_RUNS {
        return Err(InodeFault::NotInode);
    }
    let run_sectors = run_sectors_in(alloc, sector, usize::from(runs).div_ceil(MAX_SECTOR_RUNS))?;
    let acl = acl_in(alloc, sector, aces)?;
    Ok(Inode {
        kind,
        number: u64_at(sector, 8),
        owner: u32_at(sector, 16),
        group: u32_at(sector, 20),
        change: u64_at(sector, 24),
        time_modify: u64_at(sector, 32),
        size: u64_at(sector, 40),
        runs,
        run_sectors,
        acl,
    })
}

/// The inode that has these bytes.
///
/// # Errors
/// `NotInode` exactly if no inode has them: whatever is read is written again, and must give each
/// byte back.
pub fn from_sector(alloc: Global, form: Form, sector: &[u8; SIZE]) -> Result<Inode, InodeFault>
    ensures fits { IfOk result (λ inode. IsInode form (fields_of inode)) }
    ensures found { IfOk result (λ inode. sector.now ≡ inode_sector form (fields_of inode)) }
    ensures not_inode { IsErrOf result InodeFault.NotInode → (fields : Fields) → IsInode form fields
        → ¬ (sector.now ≡ inode_sector form fields) }
{
    let inode = inode_in(alloc, form, sector)?;
    let mut encoded = [0; SIZE];
    to_sector(&inode, form, &mut encoded);
    if encoded != *sector {
        return Err(InodeFault::NotInode);
    }
    Ok(inode)
}
