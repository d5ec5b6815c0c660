//! Reading an inode's sector.

ghost use Rattle.std.specs.Prelude.{◌≡◌, ◌<◌, ◌≤◌, ◌+◌, ◌++◌, ◌↔◌, ℕ, List, length, drop, vec_len, IfOk, IsErrOf, IsTrue, Some};
ghost use Rattle.std.specs.List.{AllByRecursion, flat_map};
ghost use Rattle.model_tree.specs.declared.acl.Ace.{Ace};
ghost use Rattle.model_tree.specs.declared.node.NodeKind.{NodeKind};
ghost use Rattle.inode.specs.Fields.{IsAce};
ghost use Rattle.inode.specs.Encoding.{ace_bytes, kind_byte};
ghost use Rattle.extent_tree.specs.declared.entry.Entry.{Entry};
ghost use Rattle.extent_tree.specs.Encoding.{entry_bytes, entries_bytes, IsEncodable};
ghost use Rattle.large_inode.specs.Fields.{Fields, fields_of, IsLargeInode};
ghost use Rattle.large_inode.specs.Encoding.{large_inode_sector};
ghost use Rattle.large_inode.specs.Reading.{verifier_in};

use crate::entries::{MOST, WIDTH, ace_at};
use crate::node::LargeInode;
use crate::writing::{ENTRIES, EXTENTS, FLAG, VERIFIER, to_sector};
use extent_tree::{Entry, MAX_DEPTH, ROOT_ENTRIES};
use inode::InodeFault;
use model_tree::acl::Acl;
use model_tree::node::NodeKind;
use sector::{SIZE, u16_at, u32_at, u64_at};
use std::alloc::{AllocError, Global};

/// How many bytes an entry of the extents has.
const EXTENT_WIDTH: usize = 8;

fn kind_from(byte: u8) -> Option<NodeKind>
    ensures { (kind : NodeKind) → byte ≡ kind_byte kind → result ≡ Some kind }
{
    match byte {
        1 => Some(NodeKind::File),
        2 => Some(NodeKind::Directory),
        _ => None,
    }
}

/// The verifier, if the flag is 1.
fn verifier_of(sector: &[u8; SIZE]) -> Option<[u8; 8]>
    ensures { result ≡ verifier_in sector.now }
{
    if sector[FLAG] != 1 {
        return None;
    }
    let mut verifier = [0; 8];
    verifier.copy_from_slice(&sector[VERIFIER..FLAG]);
    Some(verifier)
}

/// The first entries of the ACL.
fn acl_in(alloc: Global, sector: &[u8; SIZE], count: usize) -> Result<Acl, InodeFault>
    requires { count ≤ MOST }
    ensures fits { IfOk result (λ acl. (length acl ≡ count) × AllByRecursion IsAce acl) }
    ensures only { (aces : List Ace) (rest : List ℕ) → AllByRecursion IsAce aces
        → length aces ≡ count
        → drop ENTRIES sector.now ≡ flat_map ace_bytes aces ++ rest
        → IfOk result (λ acl. acl ≡ aces) }
    ensures err { IsErrOf result InodeFault.NotInode → (aces : List Ace) (rest : List ℕ)
        → AllByRecursion IsAce aces
        → length aces ≡ count → ¬ (drop ENTRIES sector.now ≡ flat_map ace_bytes aces ++ rest) }
{
    let mut acl = Acl::new(alloc);
    for i in 0..count {
        let Some(ace) = ace_at(sector, ENTRIES + WIDTH * i) else {
            return Err(InodeFault::NotInode);
        };
        acl.push(ace)?;
    }
    Ok(acl)
}

fn extent_at(sector: &[u8; SIZE], at: usize) -> Entry
    requires { at + EXTENT_WIDTH ≤ SIZE }
    ensures fits { IsEncodable result }
    ensures only { (entry : Entry) (rest : List ℕ) → IsEncodable entry
        → drop at sector.now ≡ entry_bytes entry ++ rest → result ≡ entry }
{
    Entry {
        sector: u32_at(sector, at),
        length: u32_at(sector, at + 4),
    }
}

/// The entries of the extents, whatever they are.
fn extents_in(alloc: Global, sector: &[u8; SIZE]) -> Result<Vec<Entry>, AllocError>
    ensures fits { IfOk result (λ entries. (vec_len entries ≡ ROOT_ENTRIES)
        × AllByRecursion IsEncodable entries.items) }
    ensures only { (entries : List Entry) (rest : List ℕ) → AllByRecursion IsEncodable entries
        → length entries ≡ ROOT_ENTRIES
        → drop EXTENTS sector.now ≡ entries_bytes entries ++ rest
        → IfOk result (λ found. found.items ≡ entries) }
{
    let mut entries = Vec::new(alloc);
    for i in 0..ROOT_ENTRIES {
        entries.push(extent_at(sector, EXTENTS + EXTENT_WIDTH * i))?;
    }
    Ok(entries)
}

/// Whether an inode may have this depth, number and number of entries of its ACL.
fn are_in_range(depth: u8, number: u64, aces: usize) -> bool
    ensures { IsTrue result ↔ ((depth ≤ MAX_DEPTH) × (0 < number) × (aces ≤ MOST)) }
{
    depth <= MAX_DEPTH && number > 0 && aces <= MOST
}

/// The inode that would be in a sector, whatever the bytes between its fields hold.
fn inode_in(alloc: Global, sector: &[u8; SIZE]) -> Result<LargeInode, InodeFault>
    ensures fits { IfOk result (λ inode. IsLargeInode (fields_of inode)) }
    ensures only { (fields : Fields) → IsLargeInode fields
        → sector.now ≡ large_inode_sector fields
        → IfOk result (λ inode. fields_of inode ≡ fields) }
    ensures err { IsErrOf result InodeFault.NotInode → (fields : Fields) → IsLargeInode fields
        → ¬ (sector.now ≡ large_inode_sector fields) }
{
    let Some(kind) = kind_from(sector[4]) else {
        return Err(InodeFault::NotInode);
    };
    let depth = sector[5];
    let aces = usize::from(u16_at(sector, 6));
    let number = u64_at(sector, 8);
    if !are_in_range(depth, number, aces) {
        return Err(InodeFault::NotInode);
    }
    let acl = acl_in(alloc, sector, aces)?;
    Ok(LargeInode {
        kind,
        depth,
        number,
        owner: u32_at(sector, 16),
        group: u32_at(sector, 20),
        change: u64_at(sector, 24),
        time_modify: u64_at(sector, 32),
        size: u64_at(sector, 40),
        time_metadata: u64_at(sector, 48),
        time_create: u64_at(sector, 56),
        verifier: verifier_of(sector),
        acl,
        extents: extents_in(alloc, sector)?,
    })
}

/// The inode that has these bytes.
///
/// # Errors
/// `NotInode` exactly if no inode of form three has them: whatever is read is written again, and
/// must give each byte back. A free place, which is all zeros, is none.
pub fn from_sector(alloc: Global, sector: &[u8; SIZE]) -> Result<LargeInode, InodeFault>
    ensures fits { IfOk result (λ inode. IsLargeInode (fields_of inode)) }
    ensures found { IfOk result (λ inode. sector.now ≡ large_inode_sector (fields_of inode)) }
    ensures not_inode { IsErrOf result InodeFault.NotInode → (fields : Fields)
        → IsLargeInode fields → ¬ (sector.now ≡ large_inode_sector fields) }
{
    let inode = inode_in(alloc, sector)?;
    let mut encoded = [0; SIZE];
    to_sector(&inode, &mut encoded);
    if encoded != *sector {
        return Err(InodeFault::NotInode);
    }
    Ok(inode)
}
