//! The transaction of edits of all places.

ghost use Rattle.std.specs.Prelude.{◌≡◌, IfOk};
ghost use Rattle.layout.specs.Versions.{IsNumber};
ghost use Rattle.model_tree.specs.Seats.SeatEdits.{edits_view};
ghost use Rattle.volume.specs.SeatTransactions.{AreUpdates};
ghost use Rattle.volume.specs.SeatUpdates.{updates_by};

use crate::seat_places::push_edit;
use disk::Update;
use layout::versions::VersionNumber;
use model_tree::seat_edits::SeatEdits;
use std::alloc::{AllocError, Global};

/// All that the edits write, in the order of their places; an edit past the last one writes
/// nothing.
fn all_updates(
    alloc: Global,
    version: VersionNumber,
    edits: &SeatEdits,
) -> Result<Vec<Update>, AllocError>
    requires { IsNumber version }
    ensures { IfOk result
        (λ updates. updates.items ≡ updates_by version (edits_view edits.now)) }
{
    let count = edits.list.len().min(version.seat_sizes().places as usize);
    let mut updates = Vec::new(alloc);
    for place in 0..count {
        push_edit(&mut updates, version, place as u32, &edits.list[place])?;
    }
    Ok(updates)
}

/// The transaction of these edits: all sectors of a place that is taken, and of one that is freed
/// too, or the first in version 3; four for a reply that is held, and none for a place that stays.
pub(crate) fn updates_of(
    alloc: Global,
    version: VersionNumber,
    edits: &SeatEdits,
) -> Result<Vec<Update>, AllocError>
    requires { IsNumber version }
    ensures { IfOk result (λ updates. AreUpdates version (edits_view edits.now) updates.items) }
{
    all_updates(alloc, version, edits)
}
