//! Seats of persistent sessions (RFC 8881, section 2.10.6.5): their data.

ghost use Rattle.std.specs.Prelude.{◌≡◌, ◌≤◌, ◌<◌, ◌^◌, length};

/// The most bytes that the result in a seat has.
pub const MAX_HELD_RESULT: usize = 16_360;

/// The reply that a seat holds for a request of a slot.
#[derive(Drop)]
pub struct HeldReply {
    /// The request's number, and who sent it.
    pub number: u32,
    pub uid: u32,
    /// The whole COMPOUND result.
    pub result: Vec<u8>,
    // What a proof thus knows about the numbers without a read.
    ghost number_fits: { number < 2 ^ 32 },
    ghost uid_fits: { uid < 2 ^ 32 },
    ghost short: { length result.items ≤ 16360 },
}

/// The seat of a session.
#[derive(Drop)]
pub struct Seat {
    /// The session's id.
    pub session: [u8; 16],
    /// The owner id and the principal of its client.
    pub owner: Vec<u8>,
    pub principal: u32,
    /// What is held for each slot.
    pub slots: Vec<Option<HeldReply>>,
    // What a proof thus knows about the id and the number without a read.
    ghost sixteen: { length session ≡ 16 },
    ghost principal_fits: { principal < 2 ^ 32 },
    ghost owned: { length owner.items ≤ 1024 },
    ghost some: { 1 ≤ length slots.items },
    ghost few: { length slots.items ≤ 8 },
}

/// The places for seats, of which any may be free.
#[derive(Drop)]
pub struct Seats {
    pub places: Vec<Option<Seat>>,
    ghost few: { length places.items ≤ 64 },
}

/// What becomes of a place.
#[derive(Drop)]
pub enum SeatEdit {
    /// Nothing.
    Stays,
    /// It is free from then on.
    Frees,
    /// This seat takes it.
    Takes(Seat),
    /// The seat in it holds this reply for a slot.
    Holds { slot: usize, held: HeldReply },
}
