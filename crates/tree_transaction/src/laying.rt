//! Writing a node's sectors.

ghost use Rattle.std.specs.Prelude.{◌≡◌, ◌≤◌, ◌<◌, ◌+◌, ◌*◌, ◌/◌, length, OnOk, IsErrOf};
ghost use Rattle.disk.specs.Moments.{Image, applied};
ghost use Rattle.freemap.specs.Kept.{free_places};
ghost use Rattle.inode.specs.Fields.{IsInode};
ghost use Rattle.layout.specs.Marks.{times};
ghost use Rattle.tree_transaction.specs.Blocks.{set_blocks};
ghost use Rattle.tree_transaction.specs.Laying.{AreOnce, LaysPrefix, LaysNode, LaysCached, CanBeLaid, AreRunsFor, sectors_for};

use crate::fault::SpaceFault;
use crate::numbers::{give_numbers, take_numbers};
use crate::updates::Updates;
use extents::{MAX_SECTOR_RUNS, Run, Runs};
use freemap::SharedBitmap;
use layout::places::NODES;
use node_table::CachedNode;
use std::alloc::{AllocError, Global};

/// The number of run sectors that runs take, 500 each.
fn sectors_for(runs: usize) -> usize
    ensures { result ≡ sectors_for runs }
{
    runs.div_ceil(MAX_SECTOR_RUNS)
}

/// Writes runs, 500 in each sector.
fn lay_runs(updates: &mut Updates, numbers: &[u32], runs: &[Run]) -> Result<(), AllocError>
    // The sectors, and no more runs than they have room for
    requires once { AreOnce numbers.now }
    requires few { length numbers.now ≤ 9 }
    requires room { length runs.now ≤ MAX_SECTOR_RUNS * length numbers.now }
    requires last { MAX_SECTOR_RUNS * length numbers.now < length runs.now + MAX_SECTOR_RUNS }
    // Written
    ensures lays { OnOk result ((image : Image) → LaysPrefix (applied updates.old image)
        (applied updates.new image) numbers.now runs.now (length numbers.now)) }
    ensures count { length updates.new ≤ length updates.old + length numbers.now }
{
    for i in 0..numbers.len() {
        let from = MAX_SECTOR_RUNS * i;
        let to = runs.len().min(from + MAX_SECTOR_RUNS);
        updates.put_runs(numbers[i], &runs[from..to])?;
    }
    Ok(())
}

/// Writes a node's sector and its run sectors.
fn store_node_sectors(
    updates: &mut Updates,
    sector: u32,
    cached: &CachedNode,
) -> Result<(), AllocError>
    // A cached node that can be encoded, in distinct sectors
    requires fits { IsInode cached.now.form cached.now.fields }
    requires count { length cached.now.runs ≡ cached.now.fields.runs }
    requires once { AreOnce cached.now.fields.run_sectors }
    requires apart { times sector cached.now.fields.run_sectors ≡ 0 }
    // Written
    ensures lays { OnOk result ((image : Image)
        → LaysNode (applied updates.old image) (applied updates.new image) sector cached.now) }
    ensures count { length updates.new
        ≤ length updates.old + 1 + length cached.now.fields.run_sectors }
{
    lay_runs(updates, &cached.inode.run_sectors, cached.runs.as_slice())?;
    updates.put_inode(sector, &cached.inode, cached.form)?;
    Ok(())
}

/// Puts runs into a cached node that has enough run sectors for them, frees the others, and writes
/// its inode.
pub(crate) fn store_given_runs(
    updates: &mut Updates,
    places: &mut SharedBitmap,
    nodes: u32,
    place: u32,
    cached: &mut CachedNode,
    runs: Vec<Run>,
) -> Result<(), AllocError>
    requires can { CanBeLaid nodes place places.old cached.old }
    requires runs { AreRunsFor runs.items cached.old }
    requires enough { sectors_for (length runs.items) ≤ length cached.old.fields.run_sectors }
    ensures laid { OnOk result
        (LaysCached nodes place places.old places.new updates.old updates.new cached.old cached.new) }
    ensures count { length updates.new
        ≤ length updates.old + 1 + sectors_for (length runs.items) }
{
    let wanted = sectors_for(runs.len());
    give_numbers(places, NODES + nodes, &mut cached.inode.run_sectors, wanted)?;
    cached.inode.runs = runs.len() as u16;
    let runs = Runs::from_vec(runs)?;
    cached.runs = runs;
    store_node_sectors(updates, NODES + place, cached)?;
    Ok(())
}

/// Encodes the blocks of a cached node as runs again, and writes its inode.
pub(crate) fn rerun(
    alloc: Global,
    updates: &mut Updates,
    places: &mut SharedBitmap,
    nodes: u32,
    place: u32,
    cached: &mut CachedNode,
) -> Result<(), SpaceFault>
    requires { CanBeLaid nodes place places.old cached.old }
    ensures laid { OnOk result
        (LaysCached nodes place places.old places.new updates.old updates.new cached.old cached.new) }
    ensures count { length updates.new
        ≤ length updates.old + 1 + sectors_for (set_blocks cached.old.blocks) }
    ensures full { IsErrOf result SpaceFault.Full
        → free_places places.old + length cached.old.fields.run_sectors
        < sectors_for (set_blocks cached.old.blocks) }
{
    let runs = cached.blocks.to_runs(alloc)?;
    let wanted = sectors_for(runs.len());
    take_numbers(places, NODES + nodes, &mut cached.inode.run_sectors, wanted)?;
    store_given_runs(updates, places, nodes, place, cached, runs)?;
    Ok(())
}
