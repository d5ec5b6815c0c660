//! The run sectors of a node.

ghost use Rattle.std.specs.Prelude.{◌≡◌, ◌≤◌, ◌<◌, ◌+◌, ◌^◌, ℕ, length, take, OnOk, IsErrOf};
ghost use Rattle.freemap.specs.Kept.{free_places};
ghost use Rattle.tree_transaction.specs.Blocks.{HaveMarks};
ghost use Rattle.tree_transaction.specs.Laying.{Follow, AreMarked};
ghost use Rattle.layout.specs.Marks.{times_set, mark_by};

use crate::fault::SpaceFault;
use extents::BlockList;
use freemap::SharedBitmap;
use std::alloc::AllocError;

/// Allocates sectors until there are at least `wanted`.
pub(crate) fn take_numbers(
    places: &mut SharedBitmap,
    first: u32,
    numbers: &mut Vec<u32>,
    wanted: usize,
) -> Result<(), SpaceFault>
    requires { first + length places.old ≤ 2 ^ 32 }
    // How many there are afterwards
    ensures least { OnOk result (wanted ≤ length numbers.new.items) }
    ensures most { length numbers.old.items ≤ wanted → length numbers.new.items ≤ wanted }
    // What it costs
    ensures marks { OnOk result (Follow first places.old places.new
        numbers.old.items numbers.new.items) }
    ensures len { length places.new ≡ length places.old }
    // If it fails
    ensures full { IsErrOf result SpaceFault.Full
        → free_places places.old + length numbers.old.items < wanted }
{
    while numbers.len() < wanted {
        let place = places.take()?;
        numbers.push(first + place)?;
    }
    Ok(())
}

/// Frees sectors until there are at most `wanted`.
pub(crate) fn give_numbers(
    places: &mut SharedBitmap,
    first: u32,
    numbers: &mut Vec<u32>,
    wanted: usize,
) -> Result<(), AllocError>
    requires { AreMarked first places.old numbers.old.items }
    // How many are left
    ensures most { OnOk result (length numbers.new.items ≤ wanted) }
    ensures least { wanted ≤ length numbers.old.items → wanted ≤ length numbers.new.items }
    // What it frees
    ensures marks { OnOk result (Follow first places.old places.new
        numbers.old.items numbers.new.items) }
    ensures len { length places.new ≡ length places.old }
{
    while numbers.len() > wanted {
        if let Some(number) = numbers.pop() {
            places.give(number - first)?;
        }
    }
    Ok(())
}

/// Frees the sectors of the blocks from block `from` on.
pub(crate) fn give_blocks(
    places: &mut SharedBitmap,
    first: u32,
    blocks: &BlockList,
    from: u32,
) -> Result<(), AllocError>
    requires { HaveMarks first places.old blocks.now }
    ensures marks { OnOk result ((n : ℕ) → mark_by first places.new n + times_set n blocks.now
        ≡ mark_by first places.old n + times_set n (take from blocks.now)) }
    ensures len { length places.new ≡ length places.old }
{
    for block in from..blocks.len() {
        if let Some(sector) = blocks.at(block) {
            places.give(sector - first)?;
        }
    }
    Ok(())
}
