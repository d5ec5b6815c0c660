//! The marks of used sectors, written if they change.

ghost use Rattle.std.specs.Prelude.{◌≤◌, ◌<◌, ◌+◌, length, OnOk};
ghost use Rattle.disk.specs.Moments.{Image, applied};
ghost use Rattle.tree_transaction.specs.Updates.{UpdatesApart};
ghost use Rattle.tree_transaction.specs.Whole.{ShowsPart};

use crate::updates::Updates;
use disk::SECTOR;
use freemap::SharedBitmap;
use layout::places::BITMAP;
use std::alloc::AllocError;

/// Writes bitmap sector 0 or 1 if its places have changed.
pub(crate) fn put_marks(
    updates: &mut Updates,
    places: &SharedBitmap,
    before: &SharedBitmap,
    part: u32,
) -> Result<(), AllocError>
    requires { part < 2 }
    ensures image { OnOk result ((image : Image) → ShowsPart (applied updates.old image)
        (applied updates.new image) before.now places.now part) }
    ensures count { length updates.new ≤ length updates.old + 1 }
    ensures apart { UpdatesApart updates.new }
{
    if places.has_same_part(before, part) {
        updates.tell_apart();
        return Ok(());
    }
    let mut content = [0; SECTOR];
    places.write_sector(part, &mut content);
    updates.put(BITMAP + part, &content)?;
    Ok(())
}
