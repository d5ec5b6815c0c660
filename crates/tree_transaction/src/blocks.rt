//! Bytes and names in a node's blocks.

ghost use Rattle.std.specs.Prelude.{◌≡◌, ◌≤◌, ◌<◌, ◌+◌, ◌*◌, ◌/◌, ◌%◌, ◌^◌, ℕ, false, Some, None, length, replicate, max, ◌-◌, set, slice_index_or, IfOk, OnOk, IsErrOf};
ghost use Rattle.disk.specs.Calls.{zero_sector};
ghost use Rattle.sector.specs.Placed.{placed};
ghost use Rattle.disk.specs.Moments.{Image, applied};
ghost use Rattle.freemap.specs.Kept.{free_places};
ghost use Rattle.tree_transaction.specs.Blocks.{IsSectorPut, TakesSector, HaveRegion, GetSectors, GetsSector, FindsNone, WritesOne, BlocksWithin, ClearsTail, WritesBytes, ChangeBlocks, FillHoles, set_blocks};
ghost use Rattle.tree_transaction.specs.Naming.{Rewrites};
ghost use Rattle.tree_transaction.specs.Updates.{ChangeOne};
ghost use Rattle.directory.specs.Encoding.{directory_sector};
ghost use Rattle.layout.specs.Health.{FailsOrStays};
ghost use Rattle.layout.specs.Laid.{names_of_block};
ghost use Rattle.layout.specs.Marks.{times_set};

use crate::fault::{SpaceFault, TransactionFault};
use crate::updates::Updates;
use directory::{Names, RECORDS};
use disk::SECTOR;
use extents::BlockList;
use freemap::SharedBitmap;
use layout::sectors::Sectors;
use sector::{put_bytes, put_zeros};
use std::alloc::AllocError;

/// Bytes from an offset in a block on.
#[derive(Clone, Copy)]
struct Part<'a> {
    block: u32,
    from: usize,
    bytes: &'a [u8],
}

/// Overwrites bytes of a sector.
fn write_over<S: Sectors>(
    updates: &mut Updates,
    base: &mut S,
    sector: u32,
    from: usize,
    bytes: &[u8],
) -> Result<(), TransactionFault>
    requires within { sector < S.size (S.kept base.old) }
    requires room { from + length bytes.now ≤ SECTOR }
    ensures image { S.keeps_word → OnOk result (IsSectorPut
        (applied updates.old (S.image (S.kept base.old)))
        (applied updates.new (S.image (S.kept base.old))) sector
        (placed (applied updates.old (S.image (S.kept base.old)) sector) from bytes.now)) }
    ensures whole { S.keeps_word
        → OnOk result (length (applied updates.old (S.image (S.kept base.old)) sector) ≡ SECTOR) }
    ensures others { OnOk result (ChangeOne updates.old updates.new sector) }
    // What it costs
    ensures count { length updates.new ≤ length updates.old + 1 }
    ensures full { ¬ IsErrOf result TransactionFault.Full }
    // It only reads the base
    ensures kept { S.kept base.new ≡ S.kept base.old }
    ensures health { FailsOrStays (S.health base.old) (S.health base.new)
        (IsErrOf result TransactionFault.Device) }
{
    let mut content = updates.read(base, sector)?;
    put_bytes(&mut content, from, bytes);
    updates.put(sector, &content)?;
    Ok(())
}

/// Writes bytes into a sector of zeros.
fn write_new(
    updates: &mut Updates,
    sector: u32,
    from: usize,
    bytes: &[u8],
) -> Result<(), AllocError>
    requires room { from + length bytes.now ≤ SECTOR }
    ensures image { OnOk result ((image : Image)
        → IsSectorPut (applied updates.old image) (applied updates.new image) sector
        (placed zero_sector from bytes.now)) }
    ensures count { length updates.new ≤ length updates.old + 1 }
{
    // The bytes of a whole sector need no zeros below them.
    if let Some(whole) = bytes.first_chunk::<SECTOR>() {
        updates.put(sector, whole)?;
        return Ok(());
    }
    let mut content = [0; SECTOR];
    put_bytes(&mut content, from, bytes);
    updates.put(sector, &content)?;
    Ok(())
}

/// Allocates a sector for a hole.
fn take_sector(
    places: &mut SharedBitmap,
    first: u32,
    blocks: &mut BlockList,
    block: u32,
) -> Result<u32, SpaceFault>
    requires room { first + length places.old < 2 ^ 32 }
    requires within { block < length blocks.old }
    requires few { length blocks.old ≤ BlockList.MAX_BLOCKS }
    ensures taken { IfOk result (λ sector. TakesSector first places.old places.new sector) }
    ensures blocks { IfOk result (λ sector. blocks.new ≡ set blocks.old block (Some sector)) }
    // If it fails
    ensures full { IsErrOf result SpaceFault.Full → free_places places.old ≡ 0 }
{
    let place = places.take()?;
    blocks.set(block, first + place)?;
    Ok(first + place)
}

/// Writes a part within one block, which gets a sector if it is a hole. Returns whether it was one.
fn write_block<S: Sectors>(
    updates: &mut Updates,
    places: &mut SharedBitmap,
    base: &mut S,
    first: u32,
    blocks: &mut BlockList,
    part: Part<'_>,
) -> Result<bool, TransactionFault>
    requires region { HaveRegion first places.old blocks.old
        × (first + length places.old ≤ S.size (S.kept base.old)) }
    requires part { (part.block < length blocks.old)
        × (part.from + length part.bytes.now ≤ SECTOR) }
    ensures bytes { S.keeps_word → OnOk result (WritesBytes
        (applied updates.old (S.image (S.kept base.old)))
        (applied updates.new (S.image (S.kept base.old)))
        blocks.old blocks.new (SECTOR * part.entry.block + part.entry.from) part.entry.bytes.now) }
    ensures gets { OnOk result (GetSectors first places.old places.new blocks.old blocks.new
        × (length blocks.new ≡ length blocks.old)) }
    ensures others { OnOk result (ChangeBlocks updates.old updates.new blocks.new) }
    ensures fills { IfOk result (λ filled. FillHoles filled blocks.old blocks.new) }
    // What it costs
    ensures count { length updates.new ≤ length updates.old + 1 }
    ensures full { IsErrOf result TransactionFault.Full
        → FindsNone places.old blocks.old part.entry.block }
    // It only reads the base
    ensures kept { S.kept base.new ≡ S.kept base.old }
    ensures health { FailsOrStays (S.health base.old) (S.health base.new)
        (IsErrOf result TransactionFault.Device) }
{
    match blocks.at(part.block) {
        // A whole sector is not read first.
        Some(sector) if part.bytes.len() == SECTOR => {
            write_new(updates, sector, part.from, part.bytes)?;
            Ok(false)
        }
        Some(sector) => {
            write_over(updates, base, sector, part.from, part.bytes)?;
            Ok(false)
        }
        None => {
            let sector = take_sector(places, first, blocks, part.block)?;
            write_new(updates, sector, part.from, part.bytes)?;
            Ok(true)
        }
    }
}

/// Writes bytes over blocks, part by part; holes on the way get sectors. Returns whether there were
/// any.
pub(crate) fn write_blocks<S: Sectors>(
    updates: &mut Updates,
    places: &mut SharedBitmap,
    base: &mut S,
    first: u32,
    blocks: &mut BlockList,
    offset: usize,
    bytes: &[u8],
) -> Result<bool, TransactionFault>
    requires region { HaveRegion first places.old blocks.old
        × (first + length places.old ≤ S.size (S.kept base.old)) }
    requires within { offset + length bytes.now ≤ SECTOR * length blocks.old }
    ensures bytes { S.keeps_word → OnOk result (WritesBytes
        (applied updates.old (S.image (S.kept base.old)))
        (applied updates.new (S.image (S.kept base.old)))
        blocks.old blocks.new offset bytes.now) }
    ensures gets { OnOk result (GetSectors first places.old places.new blocks.old blocks.new
        × (length blocks.new ≡ length blocks.old)) }
    ensures others { OnOk result (ChangeBlocks updates.old updates.new blocks.new) }
    ensures fills { IfOk result (λ filled. FillHoles filled blocks.old blocks.new) }
    // What it costs
    ensures count { OnOk result (length updates.new
        ≤ length updates.old + (offset % SECTOR + length bytes.now + 4095) / SECTOR) }
    ensures full { IsErrOf result TransactionFault.Full
        → free_places places.old + set_blocks blocks.old < length blocks.old }
    // It only reads the base
    ensures kept { S.kept base.new ≡ S.kept base.old }
    ensures health { FailsOrStays (S.health base.old) (S.health base.new)
        (IsErrOf result TransactionFault.Device) }
{
    let mut filled = false;
    let mut done = 0;
    while done < bytes.len() {
        let at = offset + done;
        let from = at % SECTOR;
        let count = (SECTOR - from).min(bytes.len() - done);
        let part = Part {
            block: (at / SECTOR) as u32,
            from,
            bytes: &bytes[done..done + count],
        };
        filled |= write_block(updates, places, base, first, blocks, part)?;
        done += count;
    }
    Ok(filled)
}

/// The sector of a block, which allocates one if it is a hole.
fn sector_for(
    places: &mut SharedBitmap,
    first: u32,
    blocks: &mut BlockList,
    block: u32,
) -> Result<u32, SpaceFault>
    requires region { HaveRegion first places.old blocks.old }
    requires within { block < length blocks.old }
    ensures gets { IfOk result (λ sector.
        GetsSector first places.old places.new blocks.old blocks.new block sector) }
    ensures same { (sector : ℕ) → slice_index_or blocks.old block None ≡ Some sector
        → blocks.new ≡ blocks.old }
    ensures full { IsErrOf result SpaceFault.Full → FindsNone places.old blocks.old block }
{
    match blocks.at(block) {
        Some(sector) => Ok(sector),
        None => take_sector(places, first, blocks, block),
    }
}

/// Writes the names of a block, which may be a new one after the last. Returns whether it was new
/// or a hole.
pub(crate) fn write_names(
    updates: &mut Updates,
    places: &mut SharedBitmap,
    first: u32,
    blocks: &mut BlockList,
    names: &Names,
    block: u32,
) -> Result<bool, SpaceFault>
    requires region { HaveRegion first places.old blocks.old }
    requires within { (block ≤ length blocks.old) × (block < BlockList.MAX_BLOCKS) }
    ensures names { OnOk result ((image : Image)
        → WritesOne (applied updates.old image) (applied updates.new image) blocks.old blocks.new
        block (directory_sector (names_of_block block names.now))) }
    ensures gets { OnOk result (GetSectors first places.old places.new blocks.old blocks.new) }
    ensures same { IfOk result (λ filled. filled ≡ false → blocks.new ≡ blocks.old) }
    // What it costs
    ensures count { length updates.new ≤ length updates.old + 1 }
    ensures full { IsErrOf result SpaceFault.Full
        → free_places places.old + set_blocks blocks.old < max (length blocks.old) (block + 1) }
{
    let filled = blocks.at(block).is_none();
    blocks.grow(block + 1)?;
    let sector = sector_for(places, first, blocks, block)?;
    let mut encoded = [0; SECTOR];
    names.write_sector(RECORDS * block as usize, &mut encoded);
    updates.put(sector, &encoded)?;
    Ok(filled)
}

/// Writes the names of a block again, if there is such a block.
pub(crate) fn rewrite_names(
    updates: &mut Updates,
    blocks: &BlockList,
    names: &Names,
    block: u32,
) -> Result<(), AllocError>
    requires { block < BlockList.MAX_BLOCKS }
    ensures names { OnOk result ((image : Image) → Rewrites (applied updates.old image)
        (applied updates.new image) (slice_index_or blocks.now block None)
        (directory_sector (names_of_block block names.now))) }
    ensures count { length updates.new ≤ length updates.old + 1 }
{
    let Some(sector) = blocks.at(block) else {
        return Ok(());
    };
    let mut encoded = [0; SECTOR];
    names.write_sector(RECORDS * block as usize, &mut encoded);
    updates.put(sector, &encoded)?;
    Ok(())
}

/// Puts zeros from byte `size` of these blocks on, up to the end of the block that has it.
pub(crate) fn clear_tail<S: Sectors>(
    updates: &mut Updates,
    base: &mut S,
    blocks: &BlockList,
    size: u64,
) -> Result<(), TransactionFault>
    requires sectors { BlocksWithin (S.size (S.kept base.old)) blocks.now
        × ((n : ℕ) → times_set n blocks.now ≤ 1) }
    requires small { size ≤ SECTOR * BlockList.MAX_BLOCKS }
    ensures tail { S.keeps_word → OnOk result (ClearsTail
        (applied updates.old (S.image (S.kept base.old)))
        (applied updates.new (S.image (S.kept base.old))) blocks.now size) }
    ensures others { OnOk result (ChangeBlocks updates.old updates.new blocks.now) }
    // What it costs
    ensures count { length updates.new ≤ length updates.old + 1 }
    ensures full { ¬ IsErrOf result TransactionFault.Full }
    // It only reads the base
    ensures kept { S.kept base.new ≡ S.kept base.old }
    ensures health { FailsOrStays (S.health base.old) (S.health base.new)
        (IsErrOf result TransactionFault.Device) }
{
    let from = (size % SECTOR as u64) as usize;
    if from == 0 {
        return Ok(());
    }
    match blocks.at((size / SECTOR as u64) as u32) {
        Some(sector) => clear_from(updates, base, sector, from),
        None => Ok(()),
    }
}

/// Puts zeros into a sector from an offset on.
fn clear_from<S: Sectors>(
    updates: &mut Updates,
    base: &mut S,
    sector: u32,
    from: usize,
) -> Result<(), TransactionFault>
    requires within { sector < S.size (S.kept base.old) }
    requires room { from ≤ SECTOR }
    ensures image { S.keeps_word → OnOk result (IsSectorPut
        (applied updates.old (S.image (S.kept base.old)))
        (applied updates.new (S.image (S.kept base.old))) sector
        (placed (applied updates.old (S.image (S.kept base.old)) sector) from
        (replicate (SECTOR - from) 0))) }
    ensures whole { S.keeps_word
        → OnOk result (length (applied updates.old (S.image (S.kept base.old)) sector) ≡ SECTOR) }
    ensures others { OnOk result (ChangeOne updates.old updates.new sector) }
    // What it costs
    ensures count { length updates.new ≤ length updates.old + 1 }
    ensures full { ¬ IsErrOf result TransactionFault.Full }
    // It only reads the base
    ensures kept { S.kept base.new ≡ S.kept base.old }
    ensures health { FailsOrStays (S.health base.old) (S.health base.new)
        (IsErrOf result TransactionFault.Device) }
{
    let mut content = updates.read(base, sector)?;
    put_zeros(&mut content, from, SECTOR - from);
    updates.put(sector, &content)?;
    Ok(())
}
