//! Writing the sectors of a seat.

ghost use Rattle.std.specs.Prelude.{◌≡◌, ◌≤◌, ◌<◌, ◌-◌, ◌++◌, Some, length, replicate, take};
ghost use Rattle.std.specs.Option.{option_map};
ghost use Rattle.model_tree.specs.Seats.SeatViews.{held_view, seat_view, place_view};
ghost use Rattle.seats.specs.Padding.{padded};
ghost use Rattle.seats.specs.Encoding.{head_prefix, held_prefix, part_of, slot_at, slot_text};
ghost use Rattle.seats.specs.Encoding as encoded;

use crate::sizes::SLOT_SECTORS;
use model_tree::seats::{HeldReply, Seat};
use sector::{SIZE, put_bytes, put_u32, put_zeros};

/// The offset of the owner in the first sector, and of the result in a slot's.
pub(crate) const OWNER: usize = 32;

pub(crate) const RESULT: usize = 24;

/// How many sectors a slot has, as a count of parts.
pub(crate) const SLOT_PARTS: usize = SLOT_SECTORS as usize;

fn zeros() -> [u8; SIZE]
    ensures { result ≡ replicate SIZE 0 }
{
    [0; SIZE]
}

/// Fills a sector from place `at` on with these bytes, as far as they fit, and zeros.
fn fill(sector: &mut [u8; SIZE], at: usize, bytes: &[u8])
    requires { at ≤ SIZE }
    ensures { sector.new ≡ take at sector.old ++ padded (SIZE - at) bytes.now }
{
    let count = bytes.len().min(SIZE - at);
    put_bytes(sector, at, &bytes[..count]);
    put_zeros(sector, at + count, SIZE - at - count);
}

fn put_held_prefix(held: &HeldReply, sector: &mut [u8; SIZE])
    ensures prefix { take RESULT sector.new ≡ held_prefix (held_view held.now) }
    ensures len { length sector.new ≡ SIZE }
{
    put_u32(sector, 0, 1);
    put_u32(sector, 4, held.number);
    put_u32(sector, 8, held.uid);
    put_u32(sector, 12, held.result.len() as u32);
    put_zeros(sector, 16, 8);
}

fn first_part(held: &HeldReply) -> [u8; SIZE]
    ensures { result ≡ part_of 0 (slot_text (Some (held_view held.now))) }
{
    let mut sector = [0; SIZE];
    put_held_prefix(held, &mut sector);
    fill(&mut sector, RESULT, &held.result);
    sector
}

fn later_part(held: &HeldReply, part: usize) -> [u8; SIZE]
    requires some { 0 < part }
    requires part { part < SLOT_PARTS }
    ensures { result ≡ part_of part (slot_text (Some (held_view held.now))) }
{
    let mut sector = [0; SIZE];
    let start = held.result.len().min(SIZE * part - RESULT);
    fill(&mut sector, 0, &held.result[start..]);
    sector
}

/// One of the four sectors of a slot that holds this reply.
pub fn slot_sector(held: &HeldReply, part: usize) -> [u8; SIZE]
    requires { part < SLOT_PARTS }
    ensures { result ≡ part_of part (slot_text (Some (held_view held.now))) }
{
    if part == 0 {
        first_part(held)
    } else {
        later_part(held, part)
    }
}

fn put_head_prefix(seat: &Seat, sector: &mut [u8; SIZE])
    ensures prefix { take OWNER sector.new ≡ head_prefix (seat_view seat.now) }
    ensures len { length sector.new ≡ SIZE }
{
    put_bytes(sector, 0, b"SESS");
    put_bytes(sector, 4, &seat.session);
    put_u32(sector, 20, seat.principal);
    put_u32(sector, 24, seat.slots.len() as u32);
    put_u32(sector, 28, seat.owner.len() as u32);
}

fn head_sector(seat: &Seat) -> [u8; SIZE]
    ensures { result ≡ encoded.head_sector (seat_view seat.now) }
{
    let mut sector = [0; SIZE];
    put_head_prefix(seat, &mut sector);
    fill(&mut sector, OWNER, &seat.owner);
    sector
}

/// One of the four sectors of what is held for a slot.
fn part_of_held(held: &Option<HeldReply>, part: usize) -> [u8; SIZE]
    requires { part < SLOT_PARTS }
    ensures { result ≡ part_of part (slot_text (option_map held_view held.now)) }
{
    match held {
        None => zeros(),
        Some(held) => slot_sector(held, part),
    }
}

/// One of the four sectors of a slot of a seat.
fn part_of_slot(seat: &Seat, slot: usize, part: usize) -> [u8; SIZE]
    requires { part < SLOT_PARTS }
    ensures { result ≡ part_of part (slot_text (slot_at slot (seat_view seat.now))) }
{
    match seat.slots.get(slot) {
        None => zeros(),
        Some(held) => part_of_held(held, part),
    }
}

/// Sector `k` of a place that this seat has.
pub fn taken_sector(seat: &Seat, k: usize) -> [u8; SIZE]
    ensures { result ≡ encoded.seat_sector k (Some (seat_view seat.now)) }
{
    if k == 0 {
        return head_sector(seat);
    }
    part_of_slot(seat, (k - 1) / SLOT_PARTS, (k - 1) % SLOT_PARTS)
}

/// Sector `k` of a place for a seat.
pub fn seat_sector(place: &Option<Seat>, k: usize) -> [u8; SIZE]
    ensures { result ≡ encoded.seat_sector k (place_view place.now) }
{
    match place {
        None => zeros(),
        Some(seat) => taken_sector(seat, k),
    }
}
