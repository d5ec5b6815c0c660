//! Reading the sectors of a seat.

ghost use Rattle.std.specs.Prelude.{◌≡◌, ◌<◌, ◌+◌, ◌*◌, ◌≤◌, ℕ, length, map, vec_len, Bool, Option, Some, IfOk, IsErrOf, IsTrue, ◌↔◌};
ghost use Rattle.std.specs.Option.{option_map};
ghost use Rattle.model_tree.specs.Seats.Seats as kept;
ghost use Rattle.model_tree.specs.Seats.SeatViews.{held_view, seat_view, place_view};
ghost use Rattle.seats.specs.Encoding.{AreSectorsOf, HoldPlace, IsSeatPlace, IsSeat, IsSlot, is_determined, sector_of, slot_text};
ghost use Rattle.seats.specs.Reading.{taken_from, text_from, seat_in};
ghost use Rattle.seats.specs.Reading as total;

use crate::fault::SeatFault;
use crate::writing::{OWNER, RESULT, SLOT_PARTS, seat_sector};
use model_tree::seats::{HeldReply, MAX_HELD_RESULT, Seat};
use sector::{SIZE, u32_at};
use std::alloc::Global;

/// The most bytes of an owner.
const MAX_OWNER: usize = 1024;

/// The reply that the four sectors from this one on would encode, whatever the bytes between its
/// fields are.
fn slot_in(
    alloc: Global,
    sectors: &[[u8; SIZE]],
    first: usize,
) -> Result<Option<HeldReply>, SeatFault>
    requires { first + 4 ≤ length sectors.now }
    ensures value { IfOk result (λ slot. option_map held_view slot
        ≡ total.slot_in (text_from (sector_of sectors.now) first)) }
    ensures err { IsErrOf result SeatFault.NotSeat → (slot : Option kept.HeldReply) → IsSlot slot
        → ¬ (text_from (sector_of sectors.now) first ≡ slot_text slot) }
{
    let head = &sectors[first];
    if u32_at(head, 0) != 1 {
        return Ok(None);
    }
    let len = u32_at(head, 12) as usize;
    if len > MAX_HELD_RESULT {
        return Err(SeatFault::NotSeat);
    }
    let text = sectors[first..first + SLOT_PARTS].as_flattened();
    let result = Vec::from_slice(alloc, &text[RESULT..RESULT + len])?;
    Ok(Some(HeldReply {
        number: u32_at(head, 4),
        uid: u32_at(head, 8),
        result,
    }))
}

/// The first `count` slots that the sectors of a seat would encode.
fn slots_in(
    alloc: Global,
    sectors: &[[u8; SIZE]],
    count: u32,
) -> Result<Vec<Option<HeldReply>>, SeatFault>
    requires few { count ≤ 8 }
    requires sectors { 1 + 4 * count ≤ length sectors.now }
    ensures value { IfOk result (λ slots. map (option_map held_view) slots.items
        ≡ total.slots_in count (sector_of sectors.now)) }
    ensures count { IfOk result (λ slots. vec_len slots ≡ count) }
    ensures err { IsErrOf result SeatFault.NotSeat → (room : ℕ) (seat : kept.Seat) → count ≤ room
        → IsSeat room seat → ¬ AreSectorsOf room (sector_of sectors.now) (Some seat) }
{
    let mut slots = Vec::new(alloc);
    for slot in 0..count as usize {
        slots.push(slot_in(alloc, sectors, 1 + SLOT_PARTS * slot)?)?;
    }
    Ok(slots)
}

/// The seat that these sectors would encode, whatever the bytes between its fields are.
fn taken_in(alloc: Global, sectors: &[[u8; SIZE]], room: u32) -> Result<Seat, SeatFault>
    requires few { room ≤ 8 }
    requires sectors { length sectors.now ≡ 1 + 4 * room }
    ensures value { IfOk result (λ seat. seat_view seat ≡ taken_from (sector_of sectors.now)) }
    ensures fits { IfOk result (λ seat. vec_len seat.slots ≤ room) }
    ensures err { IsErrOf result SeatFault.NotSeat → (seat : kept.Seat) → IsSeat room seat
        → ¬ AreSectorsOf room (sector_of sectors.now) (Some seat) }
{
    let head = &sectors[0];
    let count = u32_at(head, 24);
    let len = u32_at(head, 28) as usize;
    if count == 0 {
        return Err(SeatFault::NotSeat);
    }
    if count > room {
        return Err(SeatFault::NotSeat);
    }
    if len > MAX_OWNER {
        return Err(SeatFault::NotSeat);
    }
    let slots = slots_in(alloc, sectors, count)?;
    let owner = Vec::from_slice(alloc, &head[OWNER..OWNER + len])?;
    let mut session = [0; 16];
    session.copy_from_slice(&head[4..20]);
    Ok(Seat {
        session,
        owner,
        principal: u32_at(head, 20),
        slots,
    })
}

/// The place that these sectors would encode, whatever the bytes between its fields are.
fn place_in(alloc: Global, sectors: &[[u8; SIZE]], room: u32) -> Result<Option<Seat>, SeatFault>
    requires few { room ≤ 8 }
    requires sectors { length sectors.now ≡ 1 + 4 * room }
    ensures value { IfOk result (λ place. place_view place ≡ seat_in (sector_of sectors.now)) }
    ensures fits { IfOk result (λ place. IsSeatPlace room (place_view place)) }
    ensures err { IsErrOf result SeatFault.NotSeat → (whole : Bool) (place : Option kept.Seat)
        → IsSeatPlace room place → ¬ HoldPlace room whole (sector_of sectors.now) place }
{
    if sectors[0][0] != b'S' {
        return Ok(None);
    }
    let seat = taken_in(alloc, sectors, room)?;
    Ok(Some(seat))
}

/// Whether sector `k` of a place is determined: of a free place the first is, and the others are
/// zero if places are freed as a whole.
fn is_determined(whole: bool, k: usize, place: &Option<Seat>) -> bool
    ensures { result ≡ is_determined whole k (place_view place.now) }
{
    whole || k == 0 || place.is_some()
}

/// Whether these sectors are those of the place, as far as they are determined.
fn are_sectors_of(sectors: &[[u8; SIZE]], room: u32, whole: bool, place: &Option<Seat>) -> bool
    requires { length sectors.now ≡ 1 + 4 * room }
    ensures { IsTrue result
        ↔ HoldPlace room whole (sector_of sectors.now) (place_view place.now) }
{
    for (k, sector) in sectors.iter().enumerate() {
        if is_determined(whole, k, place) && *sector != seat_sector(place, k) {
            return false;
        }
    }
    true
}

/// The place for a seat that has these sectors, with room for `room` slots. Of a free place all are
/// zero if places are freed as a whole, and else the first.
///
/// # Errors
/// `NotSeat` exactly if no place has them: whatever is read is written again, and has to give each
/// byte back.
pub fn read_seat(
    alloc: Global,
    sectors: &[[u8; SIZE]],
    room: u32,
    whole: bool,
) -> Result<Option<Seat>, SeatFault>
    requires few { room ≤ 8 }
    requires sectors { length sectors.now ≡ 1 + 4 * room }
    ensures fits { IfOk result (λ place. IsSeatPlace room (place_view place)) }
    ensures found { IfOk result (λ place.
        HoldPlace room whole (sector_of sectors.now) (place_view place)) }
    ensures not_seat { IsErrOf result SeatFault.NotSeat → (place : Option kept.Seat)
        → IsSeatPlace room place → ¬ HoldPlace room whole (sector_of sectors.now) place }
{
    let place = place_in(alloc, sectors, room)?;
    if !are_sectors_of(sectors, room, whole, &place) {
        return Err(SeatFault::NotSeat);
    }
    Ok(place)
}
