//! Marks of the sectors that nodes name.

ghost use Rattle.std.specs.Prelude.{◌≡◌, ◌==◌, true, false};
ghost use Rattle.volume_load.specs.Marking.{CanMark, AreMarked};
ghost use Rattle.layout.specs.Marks.{once_if, times, times_set};

use extents::BlockList;
use freemap::Bitmap;

/// Marks a sector, and returns whether it is in the data region and was not marked.
fn mark_sector(places: &mut Bitmap, first: u32, sector: u32) -> bool
    ensures marked { result ≡ true
        → AreMarked first places.old places.new (λ n. once_if (n == sector)) }
    ensures refused { result ≡ false → ¬ CanMark first places.old (λ n. once_if (n == sector)) }
{
    let Some(place) = sector.checked_sub(first) else {
        return false;
    };
    if place >= places.len() || places.is_used(place) {
        return false;
    }
    places.mark(place);
    true
}

/// Marks sectors, and returns whether all are in the data region, none was marked, and none occurs
/// twice.
pub(crate) fn mark_sectors(places: &mut Bitmap, first: u32, sectors: &[u32]) -> bool
    ensures marked { result ≡ true
        → AreMarked first places.old places.new (λ n. times n sectors.now) }
    ensures refused { result ≡ false → ¬ CanMark first places.old (λ n. times n sectors.now) }
{
    for sector in sectors {
        if !mark_sector(places, first, *sector) {
            return false;
        }
    }
    true
}

/// Marks the sectors of blocks in the same way.
pub(crate) fn mark_blocks(places: &mut Bitmap, first: u32, blocks: &BlockList) -> bool
    ensures marked { result ≡ true
        → AreMarked first places.old places.new (λ n. times_set n blocks.now) }
    ensures refused { result ≡ false → ¬ CanMark first places.old (λ n. times_set n blocks.now) }
{
    for block in 0..blocks.len() {
        if let Some(sector) = blocks.at(block) {
            if !mark_sector(places, first, sector) {
                return false;
            }
        }
    }
    true
}
