//! Which seats change when a session is made or ends, and when a reply is held (RFC 8881, section
//! 2.10.6.5).

ghost use Rattle.std.specs.Prelude.{◌≡◌, ◌≤◌, ◌<◌, ℕ, length, map, position, replicate, None, Some, IfSome, IfOk};
ghost use Rattle.std.specs.List.{list_any};
ghost use Rattle.std.specs.Option.{option_map, option_copied};
ghost use Rattle.model_tree.specs.Seats.SeatEdits.{edit_view, edits_view, CanEdit};
ghost use Rattle.model_tree.specs.Seats.Seats.{Seat as KnownSeat, seat_of, has_seat, held_in};
ghost use Rattle.model_tree.specs.Seats.SeatViews.{held_view, seat_view, place_view, seats_view};
ghost use Rattle.model.specs.Sessions.Session.{is_session, staying, is_done_with, is_oldest_dead, is_dead_before, is_dead, asks_seat, lacks_seat, id_number, holds_reply};
ghost use Rattle.wire.specs.ArgumentViews.{create_session_view};
ghost use Rattle.session.specs.Seating.{EditsOne, is_place_of, freeing, is_left_free, gives_way_if, place_for, seat_with, edits_with};
ghost use Rattle.session.specs.Views.{table_of, client_of};

use crate::client::Client;
use crate::edits::idle_edits;
use crate::flags::SessionFlags;
use crate::table::Table;
use bitflags::Flags;
use model_tree::seat_edits::SeatEdits;
use model_tree::seats::{HeldReply, Seat, SeatEdit, Seats};
use std::alloc::{AllocError, Global};
use wire::CreateSessionArguments;

#[tactic(auto, unfolding(crate::specs::Views::table_of))]
impl Table {
    /// Whether the session of this id has a seat.
    pub fn has_seat(&self, id: &[u8; 16]) -> bool
        ensures { result ≡ has_seat id.now (table_of self.now).seats }
    {
        find_seat(&self.seats, id).is_some()
    }

    /// Whether the reply to such a request is held: one that made a change which has to last, or
    /// none.
    pub fn holds(&self, altered: bool) -> bool
        ensures { result ≡ holds_reply (table_of self.now).settings.holding altered }
    {
        self.settings.holding.holds(altered)
    }

    // Whether the seat gives way to a session of the client: the oldest dead one if that lacks a
    // seat, and one that it is done with.
    fn gives_way(&self, client: &Client, lacks: bool, seat: &Seat) -> bool
        ensures { result
            ≡ gives_way_if lacks (client_of client.now) (table_of self.now) (seat_view seat.now) }
    {
        lacks && self.is_oldest_dead(seat) || self.is_done_with(client, seat)
    }

    fn is_done_with(&self, client: &Client, seat: &Seat) -> bool
        ensures { result
            ≡ is_done_with (client_of client.now) (table_of self.now) (seat_view seat.now) }
    {
        if self.sessions.has(&seat.session) {
            !self.is_staying(client, &seat.session)
        } else {
            seat.owner.as_slice() == client.owner.as_slice() && seat.principal == client.principal
        }
    }

    // Whether the seat is the dead one of the oldest run.
    fn is_oldest_dead(&self, seat: &Seat) -> bool
        ensures { result ≡ is_oldest_dead (table_of self.now) (seat_view seat.now) }
    {
        self.is_dead(seat) && !self.has_dead_before(seat)
    }

    fn has_dead_before(&self, seat: &Seat) -> bool
        ensures { result ≡ list_any (is_dead_before (table_of self.now) (seat_view seat.now))
            (table_of self.now).seats }
    {
        self.seats
            .places
            .iter()
            .any(|place| self.is_dead_before(seat, place))
    }

    // Whether at this place is a dead seat of an earlier session.
    fn is_dead_before(&self, seat: &Seat, place: &Option<Seat>) -> bool
        ensures { result ≡ is_dead_before (table_of self.now) (seat_view seat.now)
            (place_view place.now) }
    {
        match place {
            Some(other) => self.is_dead(other)
                && id_number(&other.session) < id_number(&seat.session),
            None => false,
        }
    }

    fn is_dead(&self, seat: &Seat) -> bool
        ensures { result ≡ is_dead (table_of self.now) (seat_view seat.now) }
    {
        !self.sessions.has(&seat.session)
    }

    // Whether a new session of the client is to have a seat.
    fn asks_seat(&self, arguments: &CreateSessionArguments<'_>) -> bool
        ensures { result ≡ asks_seat (create_session_view arguments.now) (table_of self.now) }
    {
        let flags = SessionFlags::from_bits_retain(arguments.flags);
        self.settings.holding.may_persist() && flags.contains(SessionFlags::PERSIST)
    }

    /// Whether it is to have one, none is free for it, and the oldest dead one may give way.
    pub(crate) fn lacks_seat(&self, client: &Client, arguments: &CreateSessionArguments<'_>) -> bool
        ensures { result ≡ lacks_seat (create_session_view arguments.now) (client_of client.now)
            (table_of self.now) }
    {
        self.settings.yields_when_full
            && self.asks_seat(arguments)
            && self.first_left_free(client, false).is_none()
    }

    // Whether this is a session that stays if one of the client is made.
    fn is_staying(&self, client: &Client, id: &[u8; 16]) -> bool
        ensures { result ≡ list_any (is_session id.now)
            (staying (client_of client.now) (table_of self.now)) }
    {
        let clients = &self.clients;
        self.sessions.list.iter().any(|session| !clients.is_ending(client, session.client)
            && session.has_id(id))
    }

    /// The place of the seat that a new session of the client gets, if it gets one.
    pub(crate) fn place_for(
        &self,
        client: &Client,
        lacks: bool,
        arguments: &CreateSessionArguments<'_>,
    ) -> Option<usize>
        ensures { result ≡ place_for lacks (create_session_view arguments.now)
            (client_of client.now) (table_of self.now) }
    {
        if !self.asks_seat(arguments) {
            return None;
        }
        self.first_left_free(client, lacks)
    }

    fn first_left_free(&self, client: &Client, lacks: bool) -> Option<usize>
        ensures { result ≡ position (is_left_free (gives_way_if lacks (client_of client.now)
            (table_of self.now))) (table_of self.now).seats }
    {
        self.seats
            .places
            .iter()
            .position(|place| self.is_left_free(client, lacks, place))
    }

    // Whether the place is free once the seats that give way are.
    fn is_left_free(&self, client: &Client, lacks: bool, place: &Option<Seat>) -> bool
        ensures { result ≡ is_left_free (gives_way_if lacks (client_of client.now)
            (table_of self.now)) (place_view place.now) }
    {
        match place {
            Some(seat) => self.gives_way(client, lacks, seat),
            None => true,
        }
    }

    /// How the seats change if the client gets a session of this id with `slots` slots, whose seat
    /// is to be at `place`.
    pub(crate) fn plan_seats(
        &self,
        client: &Client,
        lacks: bool,
        id: [u8; 16],
        slots: u32,
        place: Option<usize>,
    ) -> Result<SeatEdits, AllocError>
        requires place { IfSome place (λ at. at < length (table_of self.now).seats) }
        requires some { 1 ≤ slots }
        requires few { slots ≤ 8 }
        ensures { IfOk result (λ edits. edits_view edits
            ≡ edits_with (gives_way_if lacks (client_of client.now) (table_of self.now)) place
            (seat_with (client_of client.now) id slots) (table_of self.now).seats) }
    {
        let mut edits = self.free_seats(client, lacks)?;
        let Some(place) = place else {
            return Ok(edits);
        };
        edits.list[place] = SeatEdit::Takes(new_seat(self.alloc, client, id, slots)?);
        Ok(edits)
    }

    // The seats that give way to a session of the client are freed.
    fn free_seats(&self, client: &Client, lacks: bool) -> Result<SeatEdits, AllocError>
        ensures { IfOk result (λ edits. edits_view edits
            ≡ map (freeing (gives_way_if lacks (client_of client.now) (table_of self.now)))
            (table_of self.now).seats) }
    {
        let mut list = Vec::new(self.alloc);
        for place in &self.seats.places {
            list.push(self.free_place(client, lacks, place))?;
        }
        Ok(SeatEdits { list })
    }

    fn free_place(&self, client: &Client, lacks: bool, place: &Option<Seat>) -> SeatEdit
        ensures { edit_view result ≡ freeing (gives_way_if lacks (client_of client.now)
            (table_of self.now)) (place_view place.now) }
    {
        match place {
            Some(seat) if self.gives_way(client, lacks, seat) => SeatEdit::Frees,
            Some(_) | None => SeatEdit::Stays,
        }
    }

    /// This edit of the session's seat, and no other. If it has none, each place stays.
    pub(crate) fn edit_seat(&self, id: &[u8; 16], edit: SeatEdit) -> Result<SeatEdits, AllocError>
        requires { (slots : ℕ) (seat : KnownSeat)
            → seat_of id.now (table_of self.now).seats ≡ Some seat
            → CanEdit slots (edit_view edit) (Some seat) }
        ensures { IfOk result (λ edits. EditsOne id.now (edit_view edit)
            (table_of self.now).seats (edits_view edits)) }
    {
        let mut edits = idle_edits(self.alloc, self.seats.places.len())?;
        let Some(place) = place_of(&self.seats, id) else {
            return Ok(edits);
        };
        edits.list[place] = edit;
        Ok(edits)
    }
}

fn id_number(id: &[u8; 16]) -> u128
    ensures { result ≡ id_number id.now }
{
    u128::from_be_bytes(*id)
}

/// The seat of the session of this id.
pub(crate) fn find_seat<'a>(seats: &'a Seats, id: &[u8; 16]) -> Option<&'a Seat>
    ensures { option_map seat_view (option_copied result) ≡ seat_of id.now (seats_view seats.now) }
{
    for place in &seats.places {
        if let Some(seat) = place {
            if seat.session == *id {
                return Some(seat);
            }
        }
    }
    None
}

/// The reply that the seat holds of this slot.
pub(crate) fn held_of(seat: &Seat, slot: u32) -> Option<&HeldReply>
    ensures { option_map held_view (option_copied result)
        ≡ held_in slot (Some (seat_view seat.now)) }
{
    seat.slots.get(slot as usize)?.as_ref()
}

// The place of the seat of the session of this id.
fn place_of(seats: &Seats, id: &[u8; 16]) -> Option<usize>
    ensures { result ≡ position (is_place_of id.now) (seats_view seats.now) }
{
    seats.places.iter().position(|place| is_place_of(place, id))
}

fn is_place_of(place: &Option<Seat>, id: &[u8; 16]) -> bool
    ensures { result ≡ is_place_of id.now (place_view place.now) }
{
    match place {
        Some(seat) => seat.session == *id,
        None => false,
    }
}

// The seat of a new session of the client, which holds no reply.
fn new_seat(alloc: Global, client: &Client, id: [u8; 16], slots: u32) -> Result<Seat, AllocError>
    requires some { 1 ≤ slots }
    requires few { slots ≤ 8 }
    ensures { IfOk result (λ seat. seat_view seat ≡ seat_with (client_of client.now) id slots) }
{
    let owner = Vec::from_slice(alloc, &client.owner)?;
    let slots = nothing_held(alloc, slots)?;
    Ok(Seat {
        session: id,
        owner,
        principal: client.principal,
        slots,
    })
}

fn nothing_held(alloc: Global, slots: u32) -> Result<Vec<Option<HeldReply>>, AllocError>
    ensures { IfOk result (λ held. map (option_map held_view) held.items ≡ replicate slots None) }
{
    let mut held = Vec::new(alloc);
    for _slot in 0..slots {
        held.push(None)?;
    }
    Ok(held)
}
