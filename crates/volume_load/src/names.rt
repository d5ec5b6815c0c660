//! What the blocks of a node hold: the names of a directory, and the zeros after a file's last
//! byte.

ghost use Rattle.std.specs.Prelude.{◌≡◌, ◌↔◌, ◌<◌, ◌≤◌, ◌+◌, ◌/◌, List, length, map, IfOk, OnOk};
ghost use Rattle.std.specs.Prelude.{IsErrOf, IsTrue};
ghost use Rattle.std.specs.List.{AllByRecursion};
ghost use Rattle.model_tree.specs.Trees.Charge.{blocks_of, divided_up};
ghost use Rattle.model_tree.specs.declared.node.NodeKind.TheVariants as kind;
ghost use Rattle.directory.specs.Records.{Record, record_of, IsDirectory, NamesStamped};
ghost use Rattle.layout.specs.Health.{FailsOrStays};
ghost use Rattle.volume_load.specs.Names.{AreSetWithin, FindsPart, FindsRecords, FindsContent};
ghost use Rattle.volume_load.specs.Names.{HasTail};

use crate::fault::ScanFault;
use crate::numbers::are_apart;
use crate::sectors::{fetch, is_zero_from};
use directory::{Entry, Names, RECORDS, read_records};
use disk::SECTOR;
use extents::BlockList;
use layout::sectors::Sectors;
use model_tree::node::NodeKind;
use std::alloc::{AllocError, Global};

/// The `count` records that a sector is to hold.
fn read_part<S: Sectors>(
    alloc: Global,
    sectors: &mut S,
    sector: u32,
    count: usize,
) -> Result<Vec<Entry>, ScanFault>
    requires within { sector < S.size (S.kept sectors.old) }
    requires few { count ≤ RECORDS }
    ensures found { IfOk result (λ entries. FindsPart S.keeps_word
        (S.image (S.kept sectors.old) sector) count (map record_of entries.items)) }
    // If it fails
    ensures damaged { S.keeps_word → IsErrOf result ScanFault.Damaged → (names : List Record)
        → ¬ FindsPart S.keeps_word (S.image (S.kept sectors.old) sector) count names }
    // It only reads
    ensures kept { S.kept sectors.new ≡ S.kept sectors.old }
    ensures health { FailsOrStays (S.health sectors.old) (S.health sectors.new)
        (IsErrOf result ScanFault.Device) }
{
    let content = fetch(sectors, sector)?;
    let entries = read_records(alloc, count, &content)?;
    Ok(entries)
}

/// The `count` records that these blocks hold; all blocks except the last are full.
fn read_entries<S: Sectors>(
    alloc: Global,
    sectors: &mut S,
    blocks: &BlockList,
    count: usize,
) -> Result<Vec<Entry>, ScanFault>
    requires within { AreSetWithin (S.size (S.kept sectors.old)) blocks.now }
    requires enough { length blocks.now ≡ divided_up count RECORDS }
    ensures found { IfOk result (λ entries. FindsRecords S.keeps_word
        (S.image (S.kept sectors.old)) blocks.now count (map record_of entries.items)) }
    // If it fails
    ensures damaged { S.keeps_word → IsErrOf result ScanFault.Damaged → (names : List Record)
        → ¬ FindsRecords S.keeps_word (S.image (S.kept sectors.old)) blocks.now count names }
    // It only reads
    ensures kept { S.kept sectors.new ≡ S.kept sectors.old }
    ensures health { FailsOrStays (S.health sectors.old) (S.health sectors.new)
        (IsErrOf result ScanFault.Device) }
{
    let mut entries = Vec::new(alloc);
    for block in 0..blocks.len() {
        let Some(sector) = blocks.at(block) else {
            return Err(ScanFault::Damaged);
        };
        let left = count - entries.len();
        let mut part = read_part(alloc, sectors, sector, left.min(RECORDS))?;
        entries.append(&mut part)?;
    }
    Ok(entries)
}

/// Whether all stamps are above 0.
fn are_above(entries: &[Entry]) -> bool
    ensures { IsTrue result ↔ AllByRecursion (λ entry. 0 < entry.0) (map record_of entries.now) }
{
    for entry in entries {
        if entry.stamp == 0 {
            return false;
        }
    }
    true
}

fn stamps_of(alloc: Global, entries: &[Entry]) -> Result<Vec<u64>, AllocError>
    ensures { IfOk result (λ stamps. stamps.items ≡ map (λ entry. entry.stamp) entries.now) }
{
    let mut stamps = Vec::with_capacity(alloc, entries.len())?;
    for entry in entries {
        stamps.push(entry.stamp)?;
    }
    Ok(stamps)
}

/// Whether all stamps are above 0, and none occurs twice.
fn are_stamped(alloc: Global, entries: &[Entry]) -> Result<bool, AllocError>
    ensures { IfOk result (λ are. IsTrue are ↔ NamesStamped (map record_of entries.now)) }
{
    if !are_above(entries) {
        return Ok(false);
    }
    let stamps = stamps_of(alloc, entries)?;
    let apart = are_apart(stamps)?;
    Ok(apart)
}

/// The names of a directory with these records.
fn names_from(alloc: Global, entries: Vec<Entry>) -> Result<Names, ScanFault>
    ensures found { IfOk result (λ names. names ≡ map record_of entries.items) }
    ensures names { IfOk result IsDirectory }
    ensures stamped { IfOk result NamesStamped }
    // If it fails
    ensures damaged { IsErrOf result ScanFault.Damaged
        → IsDirectory (map record_of entries.items) → ¬ NamesStamped (map record_of entries.items) }
    ensures device { ¬ IsErrOf result ScanFault.Device }
{
    if !are_stamped(alloc, &entries)? {
        return Err(ScanFault::Damaged);
    }
    match Names::from_entries(alloc, entries)? {
        Some(names) => Ok(names),
        None => Err(ScanFault::Damaged),
    }
}

/// The names of a directory of this size.
fn read_names<S: Sectors>(
    alloc: Global,
    sectors: &mut S,
    size: u64,
    blocks: &BlockList,
) -> Result<Names, ScanFault>
    requires within { AreSetWithin (S.size (S.kept sectors.old)) blocks.now }
    requires enough { length blocks.now ≡ blocks_of kind.Directory size }
    ensures found { IfOk result (λ names. FindsContent S.keeps_word
        (S.image (S.kept sectors.old)) kind.Directory size blocks.now names) }
    // If it fails
    ensures damaged { S.keeps_word → IsErrOf result ScanFault.Damaged → (names : List Record)
        → ¬ FindsContent S.keeps_word (S.image (S.kept sectors.old)) kind.Directory size blocks.now
        names }
    // It only reads
    ensures kept { S.kept sectors.new ≡ S.kept sectors.old }
    ensures health { FailsOrStays (S.health sectors.old) (S.health sectors.new)
        (IsErrOf result ScanFault.Device) }
{
    if size > Names::MAX_NAMES as u64 {
        return Err(ScanFault::Damaged);
    }
    let entries = read_entries(alloc, sectors, blocks, size as usize)?;
    names_from(alloc, entries)
}

/// Checks that the bytes of a file's last block past its size are zero.
fn check_tail<S: Sectors>(sectors: &mut S, size: u64, blocks: &BlockList) -> Result<(), ScanFault>
    requires within { AreSetWithin (S.size (S.kept sectors.old)) blocks.now }
    requires enough { length blocks.now ≡ blocks_of kind.File size }
    requires few { length blocks.now ≤ BlockList.MAX_BLOCKS }
    ensures found { OnOk result (S.keeps_word
        → HasTail (S.image (S.kept sectors.old)) blocks.now size) }
    // If it fails
    ensures damaged { S.keeps_word → IsErrOf result ScanFault.Damaged
        → ¬ HasTail (S.image (S.kept sectors.old)) blocks.now size }
    // It only reads
    ensures kept { S.kept sectors.new ≡ S.kept sectors.old }
    ensures health { FailsOrStays (S.health sectors.old) (S.health sectors.new)
        (IsErrOf result ScanFault.Device) }
{
    let Some(sector) = blocks.at((size / SECTOR as u64) as u32) else {
        return Ok(());
    };
    let content = fetch(sectors, sector)?;
    if !is_zero_from(&content, (size % SECTOR as u64) as usize) {
        return Err(ScanFault::Damaged);
    }
    Ok(())
}

/// The names of a node of this size with these blocks. A file has none, and its last block is
/// checked.
pub(crate) fn read_content<S: Sectors>(
    alloc: Global,
    sectors: &mut S,
    kind: NodeKind,
    size: u64,
    blocks: &BlockList,
) -> Result<Names, ScanFault>
    requires within { AreSetWithin (S.size (S.kept sectors.old)) blocks.now }
    requires enough { length blocks.now ≡ blocks_of kind size }
    requires few { length blocks.now ≤ BlockList.MAX_BLOCKS }
    ensures found { IfOk result (λ names. FindsContent S.keeps_word
        (S.image (S.kept sectors.old)) kind size blocks.now names) }
    // If it fails
    ensures damaged { S.keeps_word → IsErrOf result ScanFault.Damaged → (names : List Record)
        → ¬ FindsContent S.keeps_word (S.image (S.kept sectors.old)) kind size blocks.now names }
    // It only reads
    ensures kept { S.kept sectors.new ≡ S.kept sectors.old }
    ensures health { FailsOrStays (S.health sectors.old) (S.health sectors.new)
        (IsErrOf result ScanFault.Device) }
{
    match kind {
        NodeKind::File => {
            check_tail(sectors, size, blocks)?;
            Ok(Names::new(alloc))
        }
        NodeKind::Directory => read_names(alloc, sectors, size, blocks),
    }
}
