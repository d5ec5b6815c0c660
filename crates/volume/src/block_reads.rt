//! A part of a file's bytes, block by block.

ghost use Rattle.std.specs.Prelude.{◌≡◌, ◌≤◌, ◌<◌, ◌+◌, ◌-◌, ◌*◌, ◌^◌, ◌++◌, None};
ghost use Rattle.std.specs.Prelude.{length, take, drop, min, slice_index_or, OnOk, OnErr, IsErrOf};
ghost use Rattle.layout.specs.CachedNodes.{bytes_in};
ghost use Rattle.layout.specs.Health.{FailsOrStays};
ghost use Rattle.volume.specs.FileBlocks.{FileWithin, GetsMore};
ghost use Rattle.volume.specs.FileParts.{Appends, IsBytesPrefix};

use crate::fault::ReadingFault;
use disk::SECTOR;
use extents::BlockList;
use layout::sectors::Sectors;
use node_table::CachedNode;
use std::alloc::AllocError;

/// How many bytes of a file there are from `offset` on, but at most `len`.
fn count_from(size: u64, offset: u64, len: usize) -> usize
    ensures { result ≡ min len (size - offset) }
{
    size.saturating_sub(offset).min(len as u64) as usize
}

/// The sector of a block; `None` if it is a hole, or past the last block.
fn sector_of(blocks: &BlockList, block: u64) -> Option<u32>
    ensures { result ≡ slice_index_or blocks.now block None }
{
    if block >= u64::from(blocks.len()) {
        return None;
    }
    blocks.at(block as u32)
}

/// Appends `count` bytes of a sector, from byte `from` on.
fn append_part(
    content: &[u8; SECTOR],
    from: usize,
    count: usize,
    out: &mut Vec<u8>,
) -> Result<(), AllocError>
    requires room { from + count ≤ SECTOR }
    ensures part { OnOk result (out.new.items
        ≡ out.old.items ++ take count (drop from content.now)) }
    ensures err { OnErr result (out.new.items ≡ out.old.items) }
    ensures whole { length content.now ≡ SECTOR }
{
    out.extend_from_slice(&content[from..from + count])
}

/// Appends `count` bytes of a block, from byte `from` on.
fn read_block<S: Sectors>(
    base: &mut S,
    blocks: &BlockList,
    block: u64,
    from: usize,
    count: usize,
    out: &mut Vec<u8>,
) -> Result<(), ReadingFault>
    requires within { FileWithin (S.size (S.kept base.old)) blocks.now }
    requires room { from + count ≤ SECTOR }
    // What it appends
    ensures bytes { OnOk result (Appends S.keeps_word (S.image (S.kept base.old)) blocks.now
        (SECTOR * block + from) count out.old.items out.new.items) }
    ensures err { OnErr result (out.new.items ≡ out.old.items) }
    // It only reads the base
    ensures kept { S.kept base.new ≡ S.kept base.old }
    ensures health { FailsOrStays (S.health base.old) (S.health base.new)
        (IsErrOf result ReadingFault.Device) }
{
    match sector_of(blocks, block) {
        Some(sector) => {
            let content = base.read(sector)?;
            append_part(&content, from, count, out)?;
        }
        None => out.resize(out.len() + count, 0)?,
    }
    Ok(())
}

/// Appends `count` bytes of blocks, from byte `offset` on. An `Err` may leave some of them.
fn read_blocks<S: Sectors>(
    base: &mut S,
    blocks: &BlockList,
    offset: u64,
    count: usize,
    out: &mut Vec<u8>,
) -> Result<(), ReadingFault>
    requires within { FileWithin (S.size (S.kept base.old)) blocks.now }
    requires room { offset + count < 2 ^ 64 }
    // What it appends
    ensures bytes { OnOk result (Appends S.keeps_word (S.image (S.kept base.old)) blocks.now
        offset count out.old.items out.new.items) }
    ensures prefix { IsBytesPrefix out.old.items out.new.items }
    // It only reads the base
    ensures kept { S.kept base.new ≡ S.kept base.old }
    ensures health { FailsOrStays (S.health base.old) (S.health base.new)
        (IsErrOf result ReadingFault.Device) }
{
    let mut done = 0;
    while done < count {
        let at = offset + done as u64;
        let from = (at % SECTOR as u64) as usize;
        let more = (SECTOR - from).min(count - done);
        read_block(base, blocks, at / SECTOR as u64, from, more, out)?;
        done += more;
    }
    Ok(())
}

/// Appends to `out` the bytes of a file from `offset` on: `len` of them, or fewer if the file ends
/// before. A hole reads as zeros, without a read of the device. The number of steps depends only on
/// the blocks that have these bytes, however long the file is.
///
/// # Errors
///
/// [`ReadingFault::Device`] if the device failed, and [`ReadingFault::Memory`]: `out` is as it was.
pub(crate) fn read_bytes<S: Sectors>(
    base: &mut S,
    cached: &CachedNode,
    offset: u64,
    len: usize,
    out: &mut Vec<u8>,
) -> Result<(), ReadingFault>
    requires within { FileWithin (S.size (S.kept base.old)) cached.now.blocks }
    ensures bytes { S.keeps_word → OnOk result (out.new.items ≡ out.old.items
        ++ take len (drop offset (bytes_in (S.image (S.kept base.old))
        cached.now.blocks cached.now.fields.size))) }
    // On any device
    ensures count { OnOk result (GetsMore out.old.items out.new.items
        (min len (cached.now.fields.size - offset))) }
    ensures err { OnErr result (out.new.items ≡ out.old.items) }
    // It only reads the base
    ensures kept { S.kept base.new ≡ S.kept base.old }
    ensures health { FailsOrStays (S.health base.old) (S.health base.new)
        (IsErrOf result ReadingFault.Device) }
{
    let count = count_from(cached.inode.size, offset, len);
    let before = out.len();
    out.reserve(count)?;
    let read = read_blocks(base, &cached.blocks, offset, count, out);
    if read.is_err() {
        out.truncate(before);
    }
    read
}
