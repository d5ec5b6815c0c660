//! The seats of persistent sessions.

ghost use Rattle.std.specs.Prelude.{◌≡◌, ◌≤◌, ◌<◌, ◌+◌, ◌*◌, ◌^◌, ◌↔◌, ◌⊎◌, ℕ, Option, None, false, true};
ghost use Rattle.std.specs.Prelude.{IfOk, IsErrOf, IsTrue, length, map, replicate, slice_index_or, []};
ghost use Rattle.layout.specs.Health.{FailsOrStays};
ghost use Rattle.layout.specs.Stands.{HoldSeats, IsNumber, MayHaveSeats, five_places, seats_from, sizes_by};
ghost use Rattle.model_tree.specs.Seats.Seats as model;
ghost use Rattle.model_tree.specs.Seats.Seats.{SeatsApart, AreOfRuns, has_seat, no_seats};
ghost use Rattle.model_tree.specs.Seats.SeatViews.{place_view, seats_view};
ghost use Rattle.volume_load.specs.Seating.{AreMade, IsOfRuns, MayStand, at_place};
ghost use Rattle.seats.specs.Encoding.{ArePlaces, HoldPlace, IsSeatPlace};
ghost use Rattle.seats.specs.Sizes.{AreSizes, all_sectors, place_sectors};

use crate::fault::ScanFault;
use crate::sectors::fetch;
use byteorder::{BigEndian, ByteOrder};
use disk::SECTOR;
use layout::sectors::Sectors;
use layout::versions::VersionNumber;
use model_tree::seats::{Seat, Seats};
use seats::{SeatSizes, read_seat};
use std::alloc::Global;

/// The sectors of a place. The seats begin at sector `first`.
fn fetch_place<S: Sectors>(
    alloc: Global,
    sectors: &mut S,
    first: u32,
    sizes: SeatSizes,
    place: u32,
) -> Result<Vec<[u8; SECTOR]>, ScanFault>
    // The place is one of the volume's
    requires sizes { AreSizes sizes }
    requires place { place < sizes.places }
    requires fits { first + all_sectors sizes < 2 ^ 32 }
    requires within { first + all_sectors sizes ≤ S.size (S.kept sectors.old) }
    // What is read
    ensures count { IfOk result (λ content. length content.items ≡ place_sectors sizes) }
    ensures content { S.keeps_word → IfOk result (λ content. (k : ℕ) → k < place_sectors sizes
        → slice_index_or content.items k []
        ≡ at_place sizes first (S.image (S.kept sectors.old)) place k) }
    ensures damaged { ¬ IsErrOf result ScanFault.Damaged }
    // It only reads
    ensures kept { S.kept sectors.new ≡ S.kept sectors.old }
    ensures health { FailsOrStays (S.health sectors.old) (S.health sectors.new)
        (IsErrOf result ScanFault.Device) }
{
    let count = sizes.place_sectors();
    let mut content = Vec::with_capacity(alloc, count as usize)?;
    for k in 0..count {
        let sector = fetch(sectors, first + (count * place + k))?;
        content.push(sector)?;
    }
    Ok(content)
}

/// The seat of a place, or none if it is free. The seats begin at sector `first`, and `whole` says
/// whether each sector of a free place is zero.
fn read_place<S: Sectors>(
    alloc: Global,
    sectors: &mut S,
    first: u32,
    sizes: SeatSizes,
    whole: bool,
    place: u32,
) -> Result<Option<Seat>, ScanFault>
    // The place is one of the volume's
    requires sizes { AreSizes sizes }
    requires place { place < sizes.places }
    requires fits { first + all_sectors sizes < 2 ^ 32 }
    requires within { first + all_sectors sizes ≤ S.size (S.kept sectors.old) }
    // What is read
    ensures fits { IfOk result (λ seat. IsSeatPlace sizes.slots (place_view seat)) }
    ensures found { S.keeps_word → IfOk result (λ seat. HoldPlace sizes.slots whole
        (at_place sizes first (S.image (S.kept sectors.old)) place) (place_view seat)) }
    // If it fails
    ensures damaged { S.keeps_word → IsErrOf result ScanFault.Damaged
        → (seat : Option model.Seat) → IsSeatPlace sizes.slots seat → ¬ HoldPlace sizes.slots whole
        (at_place sizes first (S.image (S.kept sectors.old)) place) seat }
    // It only reads
    ensures kept { S.kept sectors.new ≡ S.kept sectors.old }
    ensures health { FailsOrStays (S.health sectors.old) (S.health sectors.new)
        (IsErrOf result ScanFault.Device) }
{
    let content = fetch_place(alloc, sectors, first, sizes, place)?;
    let seat = read_seat(alloc, &content, sizes.slots, whole)?;
    Ok(seat)
}

/// The seats of all places.
fn read_places<S: Sectors>(
    alloc: Global,
    sectors: &mut S,
    number: VersionNumber,
) -> Result<Seats, ScanFault>
    requires number { IsNumber number }
    requires within { seats_from number + all_sectors (sizes_by number)
        ≤ S.size (S.kept sectors.old) }
    ensures fits { IfOk result (λ seats. ArePlaces (sizes_by number) (seats_view seats)) }
    ensures found { S.keeps_word → IfOk result (λ seats.
        HoldSeats number (S.image (S.kept sectors.old)) (seats_view seats)) }
    // If it fails
    ensures damaged { S.keeps_word → IsErrOf result ScanFault.Damaged → (seats : model.Seats)
        → ArePlaces (sizes_by number) seats → ¬ HoldSeats number (S.image (S.kept sectors.old)) seats }
    // It only reads
    ensures kept { S.kept sectors.new ≡ S.kept sectors.old }
    ensures health { FailsOrStays (S.health sectors.old) (S.health sectors.new)
        (IsErrOf result ScanFault.Device) }
{
    let first = number.seats_from();
    let sizes = number.seat_sizes();
    let whole = number.frees_whole();
    let mut places = Vec::with_capacity(alloc, sizes.places as usize)?;
    for place in 0..sizes.places {
        let seat = read_place(alloc, sectors, first, sizes, whole, place)?;
        places.push(seat)?;
    }
    Ok(Seats { places })
}

/// Whether one of these places has a seat of the session.
fn is_seated(id: &[u8; 16], places: &[Option<Seat>]) -> bool
    ensures { result ≡ has_seat id.now (map place_view places.now) }
{
    for place in places {
        if let Some(seat) = place {
            if seat.session == *id {
                return true;
            }
        }
    }
    false
}

/// Whether no two seats are of the same session.
fn are_apart(places: &[Option<Seat>]) -> bool
    ensures { IsTrue result ↔ SeatsApart (map place_view places.now) }
{
    for (i, place) in places.iter().enumerate() {
        if let Some(seat) = place {
            if is_seated(&seat.session, &places[i + 1..]) {
                return false;
            }
        }
    }
    true
}

/// Whether a session with this id was made in one of the runs up to `run`.
fn is_of_runs(id: &[u8; 16], run: u32) -> bool
    ensures { IsTrue result ↔ IsOfRuns run id.now }
{
    let made = BigEndian::read_u64(&id[..8]) >> 32;
    1 <= made && made <= u64::from(run)
}

/// Whether the session of each seat was.
fn are_made(places: &[Option<Seat>], run: u32) -> bool
    ensures { IsTrue result ↔ AreMade run (map place_view places.now) }
{
    for place in places {
        if let Some(seat) = place {
            if !is_of_runs(&seat.session, run) {
                return false;
            }
        }
    }
    true
}

/// Whether no two seats are of the same session, and each session was made in one of the runs up to
/// `run`.
fn are_of_runs(seats: &Seats, run: u32) -> bool
    ensures { IsTrue result ↔ AreOfRuns run (seats_view seats.now) }
{
    are_apart(&seats.places) && are_made(&seats.places, run)
}

/// Whether no place has a seat.
fn is_free(seats: &Seats) -> bool
    ensures { IsTrue result
        ↔ (seats_view seats.now ≡ replicate (length (seats_view seats.now)) None) }
{
    for place in &seats.places {
        if place.is_some() {
            return false;
        }
    }
    true
}

/// Whether a volume of this version with this mark may keep seats; otherwise it keeps none.
pub(crate) fn may_keep(number: VersionNumber, mark: Option<u32>) -> bool
    ensures may { (seats : model.Seats)
        → MayHaveSeats number mark seats ↔ ((result ≡ true) ⊎ (seats ≡ no_seats)) }
    ensures five { result ≡ false → sizes_by number ≡ five_places }
{
    match number {
        VersionNumber::One => false,
        VersionNumber::Two => mark.is_none(),
        VersionNumber::Three(_) => true,
    }
}

/// Reads the seats of a volume of this version that was mounted `run` times, and may keep some or
/// none.
pub(crate) fn read_seats<S: Sectors>(
    alloc: Global,
    sectors: &mut S,
    number: VersionNumber,
    run: u32,
    may_keep: bool,
) -> Result<Seats, ScanFault>
    // Versions 1 and 2 have five places
    requires number { IsNumber number }
    requires five { may_keep ≡ false → sizes_by number ≡ five_places }
    requires within { seats_from number + all_sectors (sizes_by number)
        ≤ S.size (S.kept sectors.old) }
    // What is read
    ensures stands { IfOk result
        (λ seats. MayStand (sizes_by number) run may_keep (seats_view seats)) }
    ensures found { S.keeps_word → IfOk result (λ seats.
        HoldSeats number (S.image (S.kept sectors.old)) (seats_view seats)) }
    // If it fails
    ensures damaged { S.keeps_word → IsErrOf result ScanFault.Damaged → (seats : model.Seats)
        → MayStand (sizes_by number) run may_keep seats
        → ¬ HoldSeats number (S.image (S.kept sectors.old)) seats }
    // It only reads
    ensures kept { S.kept sectors.new ≡ S.kept sectors.old }
    ensures health { FailsOrStays (S.health sectors.old) (S.health sectors.new)
        (IsErrOf result ScanFault.Device) }
{
    let seats = read_places(alloc, sectors, number)?;
    if !are_of_runs(&seats, run) || !(may_keep || is_free(&seats)) {
        return Err(ScanFault::Damaged);
    }
    Ok(seats)
}
