//! The replies that slots keep, and those that seats hold.

ghost use Rattle.std.specs.Prelude.{◌≡◌, ◌≤◌, true, false, length, IfOk, IfSome};
ghost use Rattle.std.specs.List.{find};
ghost use Rattle.std.specs.Option.{option_map};
ghost use Rattle.model_tree.specs.Seats.SeatEdits.{edited_all, edits_view};
ghost use Rattle.model_tree.specs.Seats.Seats.{seat_of};
ghost use Rattle.model.specs.Sessions.Session.{is_session, held_by, finish};
ghost use Rattle.session.specs.Plans.{IsHoldPlanned};
ghost use Rattle.session.specs.Seating.{reply_held, has_held_slot};
ghost use Rattle.session.specs.Views.{table_of, reply_kept};

use crate::edits::{edit_seats, idle_edits};
use crate::limits::MAX_RECORD_BYTES;
use crate::seating::{find_seat, held_of};
use crate::table::Table;
use model_tree::seat_edits::SeatEdits;
use model_tree::seats::{HeldReply, SeatEdit};
use std::alloc::AllocError;

#[tactic(auto, unfolding(crate::specs::Views::table_of, crate::specs::Views::reply_kept, model::specs::Sessions::Session::finish))]
impl Table {
    /// The reply, a whole COMPOUND result, that the slot keeps. Of a session of an earlier run it is
    /// the one that the seat holds.
    pub fn kept(&self, id: &[u8; 16], slot: u32) -> Option<&[u8]>
        ensures short { IfSome result (λ bytes. length bytes.now ≤ MAX_RECORD_BYTES) }
        ensures kept { option_map (λ bytes. bytes.now) result
            ≡ reply_kept id.now slot (table_of self.now) }
    {
        match self.sessions.find(id) {
            Some(session) => session.kept(slot),
            None => self.held(id, slot),
        }
    }

    // The reply that the seat holds of the slot.
    fn held(&self, id: &[u8; 16], slot: u32) -> Option<&[u8]>
        ensures short { IfSome result (λ bytes. length bytes.now ≤ MAX_RECORD_BYTES) }
        ensures held { option_map (λ bytes. bytes.now) result
            ≡ reply_held slot (seat_of id.now (table_of self.now).seats) }
    {
        let held = held_of(find_seat(&self.seats, id)?, slot)?;
        Some(held.result.as_slice())
    }

    /// The slot keeps the reply, whatever it held, and the memory of the reply before comes back.
    /// If no session has this id, or the session has no such slot, nothing changes, and the reply's
    /// own comes back. No seat holds the reply: for that there is `finish_held`.
    pub fn finish(&mut self, id: &[u8; 16], slot: u32, reply: Vec<u8>) -> Option<Vec<u8>>
        requires { length reply.items ≤ MAX_RECORD_BYTES }
        ensures { table_of self.new ≡ finish id.now slot false reply.items (table_of self.old) }
    {
        self.sessions.keep(id, slot, reply)
    }

    /// The edits that make the session's seat hold a reply. If the session has no seat, or the seat
    /// no such slot, each place stays.
    pub fn plan_hold(&self, id: &[u8; 16], slot: u32, reply: &[u8]) -> Result<SeatEdits, AllocError>
        requires { length reply.now ≤ 16360 }
        ensures { IfOk result (IsHoldPlanned id.now slot reply.now (table_of self.now)) }
    {
        let Some(session) = self.sessions.find(id) else {
            return idle_edits(self.alloc, self.seats.places.len());
        };
        if !self.has_held_slot(id, slot as usize) {
            return idle_edits(self.alloc, self.seats.places.len());
        }
        let (number, uid) = session.last(slot);
        let result = Vec::from_slice(self.alloc, reply)?;
        let slot = slot as usize;
        let held = HeldReply {
            number,
            uid,
            result,
        };
        self.edit_seat(id, SeatEdit::Holds { slot, held })
    }

    // Whether the session has a seat, and that has this slot.
    fn has_held_slot(&self, id: &[u8; 16], slot: usize) -> bool
        ensures { result ≡ has_held_slot slot (seat_of id.now (table_of self.now).seats) }
    {
        match find_seat(&self.seats, id) {
            Some(seat) => slot < seat.slots.len(),
            None => false,
        }
    }

    /// The slot keeps the reply, and the seat holds it, by the edits that were planned. It takes no
    /// memory, and gives back what `finish` does.
    pub fn finish_held(
        &mut self,
        id: &[u8; 16],
        slot: u32,
        reply: Vec<u8>,
        edits: SeatEdits,
    ) -> Option<Vec<u8>>
        requires small { length reply.items ≤ MAX_RECORD_BYTES }
        requires planned { edited_all (edits_view edits) (table_of self.old).seats
            ≡ held_by id.now slot reply.items (table_of self.old).seats
            (find (is_session id.now) (table_of self.old).sessions) }
        ensures { table_of self.new ≡ finish id.now slot true reply.items (table_of self.old) }
    {
        let former = self.sessions.keep(id, slot, reply);
        edit_seats(&mut self.seats, edits);
        former
    }
}
