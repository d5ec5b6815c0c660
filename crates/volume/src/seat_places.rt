//! What the edit of one place writes.

ghost use Rattle.std.specs.Prelude.{◌≡◌, ◌<◌, ◌+◌, ◌^◌, ◌++◌, OnOk};
ghost use Rattle.std.specs.Option.{option_map};
ghost use Rattle.layout.specs.Versions.{IsNumber, sizes_by};
ghost use Rattle.model_tree.specs.Seats.SeatEdits.{edit_view};
ghost use Rattle.model_tree.specs.Seats.SeatViews.{held_view, seat_view};
ghost use Rattle.volume.specs.SeatUpdates.{edit_updates, freed_sectors, place_start, row, sectors_by, slot_updates, slots_by};
ghost use Rattle.seats.specs.Encoding.{seat_sector};

use disk::{SECTOR, Update};
use layout::versions::VersionNumber;
use model_tree::seats::{HeldReply, Seat, SeatEdit};
use seats::{SLOT_SECTORS, slot_sector, taken_sector};
use std::alloc::AllocError;

/// The first sector of a place.
fn first_of(version: VersionNumber, place: u32) -> u32
    requires number { IsNumber version }
    requires place { place < (sizes_by version).places }
    ensures value { result ≡ place_start version place }
    ensures room { result + sectors_by version < 2 ^ 32 }
{
    version.seats_from() + version.seat_sizes().place_sectors() * place
}

/// How many sectors of a place freeing it writes.
fn freed_sectors(version: VersionNumber) -> u32
    requires { IsNumber version }
    ensures { result ≡ freed_sectors version }
{
    if version.frees_whole() {
        version.seat_sizes().place_sectors()
    } else {
        1
    }
}

/// The content of one of a place's sectors.
fn content_of(seat: Option<&Seat>, k: u32) -> [u8; SECTOR]
    ensures { result ≡ seat_sector k (option_map (λ s. seat_view s.now) seat.entry) }
{
    match seat {
        None => [0; SECTOR],
        Some(seat) => taken_sector(seat, k as usize),
    }
}

/// Adds the first `count` sectors of a place that this seat has, or none.
fn push_place(
    updates: &mut Vec<Update>,
    first: u32,
    count: u32,
    seat: Option<&Seat>,
) -> Result<(), AllocError>
    requires { first + count < 2 ^ 32 }
    ensures { OnOk result (updates.new.items ≡ updates.old.items
        ++ row first count (λ k. seat_sector k (option_map (λ s. seat_view s.now) seat.entry))) }
{
    for k in 0..count {
        updates.push(Update {
            target: first + k,
            content: content_of(seat, k),
        })?;
    }
    Ok(())
}

/// Adds the four sectors of a slot that holds this reply.
fn push_slot(
    updates: &mut Vec<Update>,
    version: VersionNumber,
    place: u32,
    slot: usize,
    held: &HeldReply,
) -> Result<(), AllocError>
    requires number { IsNumber version }
    requires place { place < (sizes_by version).places }
    requires slot { slot < slots_by version }
    ensures { OnOk result (updates.new.items ≡ updates.old.items
        ++ slot_updates version place slot (held_view held.now)) }
{
    let first = first_of(version, place) + 1 + SLOT_SECTORS * slot as u32;
    for part in 0..SLOT_SECTORS {
        updates.push(Update {
            target: first + part,
            content: slot_sector(held, part as usize),
        })?;
    }
    Ok(())
}

/// Adds what the edit of a place writes.
pub(crate) fn push_edit(
    updates: &mut Vec<Update>,
    version: VersionNumber,
    place: u32,
    edit: &SeatEdit,
) -> Result<(), AllocError>
    requires number { IsNumber version }
    requires place { place < (sizes_by version).places }
    ensures { OnOk result (updates.new.items
        ≡ updates.old.items ++ edit_updates version place (edit_view edit.now)) }
{
    let first = first_of(version, place);
    let sizes = version.seat_sizes();
    match edit {
        SeatEdit::Stays => Ok(()),
        SeatEdit::Frees => push_place(updates, first, freed_sectors(version), None),
        SeatEdit::Takes(seat) => push_place(updates, first, sizes.place_sectors(), Some(seat)),
        SeatEdit::Holds { slot, held } if *slot < sizes.slots as usize => {
            push_slot(updates, version, place, *slot, held)
        }
        SeatEdit::Holds { .. } => Ok(()),
    }
}
