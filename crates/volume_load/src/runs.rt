//! Runs in their sectors, and the blocks that they encode.

ghost use Rattle.std.specs.Prelude.{◌≡◌, ◌<◌, ◌≤◌, ◌+◌, ◌-◌, ◌/◌, ◌*◌, ℕ, List, Option, length};
ghost use Rattle.std.specs.Prelude.{min, IfOk, IfSome, IfNone, IsErrOf};
ghost use Rattle.extents.specs.declared.run.Run.{Run};
ghost use Rattle.extents.specs.Runs.{AreRunsOf};
ghost use Rattle.model_tree.specs.Trees.Charge.{blocks_of, divided_up};
ghost use Rattle.volume_load.specs.Runs.{FindsPart, FindsRuns, SectorsWithin};
ghost use Rattle.layout.specs.Health.{FailsOrStays};

use crate::fault::ScanFault;
use crate::sectors::fetch;
use directory::RECORDS;
use disk::SECTOR;
use extents::{BlockList, MAX_SECTOR_RUNS, Run, read_run_sector};
use layout::sectors::Sectors;
use model_tree::node::NodeKind;
use std::alloc::Global;

/// The `count` runs that a run sector is to hold.
fn runs_in(alloc: Global, content: &[u8; SECTOR], count: usize) -> Result<Vec<Run>, ScanFault>
    requires some { 0 < count }
    requires few { count ≤ MAX_SECTOR_RUNS }
    ensures found { IfOk result (λ runs. FindsPart (Unit {0}) content.now count runs.items) }
    // If it fails
    ensures damaged { IsErrOf result ScanFault.Damaged
        → (runs : List Run) → ¬ FindsPart (Unit {0}) content.now count runs }
    ensures device { ¬ IsErrOf result ScanFault.Device }
{
    let runs = read_run_sector(alloc, content)?;
    if runs.len() != count {
        return Err(ScanFault::Damaged);
    }
    Ok(runs)
}

/// The same, for a sector that is read.
fn read_part<S: Sectors>(
    alloc: Global,
    sectors: &mut S,
    sector: u32,
    count: usize,
) -> Result<Vec<Run>, ScanFault>
    requires within { sector < S.size (S.kept sectors.old) }
    requires some { 0 < count }
    requires few { count ≤ MAX_SECTOR_RUNS }
    ensures found { IfOk result (λ runs. FindsPart S.keeps_word
        (S.image (S.kept sectors.old) sector) count runs.items) }
    // If it fails
    ensures damaged { S.keeps_word → IsErrOf result ScanFault.Damaged → (runs : List Run)
        → ¬ FindsPart S.keeps_word (S.image (S.kept sectors.old) sector) count runs }
    // It only reads
    ensures kept { S.kept sectors.new ≡ S.kept sectors.old }
    ensures health { FailsOrStays (S.health sectors.old) (S.health sectors.new)
        (IsErrOf result ScanFault.Device) }
{
    let content = fetch(sectors, sector)?;
    runs_in(alloc, &content, count)
}

/// The `count` runs that these sectors hold; all sectors except the last are full.
pub(crate) fn read_runs<S: Sectors>(
    alloc: Global,
    sectors: &mut S,
    numbers: &[u32],
    count: usize,
) -> Result<Vec<Run>, ScanFault>
    requires within { SectorsWithin (S.size (S.kept sectors.old)) numbers.now }
    requires enough { length numbers.now ≡ divided_up count MAX_SECTOR_RUNS }
    ensures found { IfOk result (λ runs. FindsRuns S.keeps_word
        (S.image (S.kept sectors.old)) numbers.now count runs.items) }
    // If it fails
    ensures damaged { S.keeps_word → IsErrOf result ScanFault.Damaged → (runs : List Run)
        → ¬ FindsRuns S.keeps_word (S.image (S.kept sectors.old)) numbers.now count runs }
    // It only reads
    ensures kept { S.kept sectors.new ≡ S.kept sectors.old }
    ensures health { FailsOrStays (S.health sectors.old) (S.health sectors.new)
        (IsErrOf result ScanFault.Device) }
{
    let mut runs = Vec::new(alloc);
    for number in numbers {
        let left = count - runs.len();
        let mut part = read_part(alloc, sectors, *number, left.min(MAX_SECTOR_RUNS))?;
        runs.append(&mut part)?;
    }
    Ok(runs)
}

/// How many blocks a node of this size has: none if there are more than [`BlockList::MAX_BLOCKS`].
fn count_of(kind: NodeKind, size: u64) -> Option<u32>
    ensures some { IfSome result (λ count.
        (count ≡ blocks_of kind size) × (count ≤ BlockList.MAX_BLOCKS)) }
    ensures none { IfNone result (BlockList.MAX_BLOCKS < blocks_of kind size) }
{
    let count = match kind {
        NodeKind::File => size.div_ceil(SECTOR as u64),
        NodeKind::Directory => size.div_ceil(RECORDS as u64),
    };
    if count > u64::from(BlockList::MAX_BLOCKS) {
        return None;
    }
    Some(count as u32)
}

/// The blocks of a node of this size that these runs encode.
pub(crate) fn blocks_from(
    alloc: Global,
    kind: NodeKind,
    size: u64,
    runs: &[Run],
) -> Result<BlockList, ScanFault>
    ensures runs { IfOk result (λ blocks. AreRunsOf runs.now blocks) }
    ensures count { IfOk result (λ blocks. length blocks ≡ blocks_of kind size) }
    ensures few { IfOk result (λ blocks. length blocks ≤ BlockList.MAX_BLOCKS) }
    // If it fails
    ensures damaged { IsErrOf result ScanFault.Damaged → (blocks : List (Option ℕ))
        → AreRunsOf runs.now blocks → length blocks ≡ blocks_of kind size
        → ¬ (length blocks ≤ BlockList.MAX_BLOCKS) }
    ensures device { ¬ IsErrOf result ScanFault.Device }
{
    let Some(count) = count_of(kind, size) else {
        return Err(ScanFault::Damaged);
    };
    let blocks = BlockList::from_runs(alloc, count, runs)?;
    Ok(blocks)
}
