//! Edits of seats: those that change nothing, and how they are made.

ghost use Rattle.std.specs.Prelude.{◌≡◌, ◌≤◌, replicate, IfOk};
ghost use Rattle.model_tree.specs.Seats.SeatEdits.{Stays, edited_seat, edited_all, edit_view, edits_view, all_stay};
ghost use Rattle.model_tree.specs.Seats.Seats.{with_held};
ghost use Rattle.model_tree.specs.Seats.SeatViews.{held_view, seat_view, place_view, seats_view};

use model_tree::seat_edits::SeatEdits;
use model_tree::seats::{HeldReply, Seat, SeatEdit, Seats};
use std::alloc::{AllocError, Global};

/// Whether each place stays as it is.
pub fn is_idle(edits: &SeatEdits) -> bool
    ensures { result ≡ all_stay (edits_view edits.now) }
{
    edits
        .list
        .iter()
        .all(|edit| matches!(edit, SeatEdit::Stays))
}

/// Makes the edits, as many as there are places. It takes no memory.
pub fn edit_seats(seats: &mut Seats, edits: SeatEdits)
    ensures { seats_view seats.new ≡ edited_all (edits_view edits) (seats_view seats.old) }
{
    for (place, edit) in edits.list.into_iter().enumerate() {
        if place < seats.places.len() {
            edit_place(&mut seats.places[place], edit);
        }
    }
}

fn edit_place(place: &mut Option<Seat>, edit: SeatEdit)
    ensures { place_view place.new ≡ edited_seat (edit_view edit) (place_view place.old) }
{
    match edit {
        SeatEdit::Stays => {}
        SeatEdit::Frees => *place = None,
        SeatEdit::Takes(seat) => *place = Some(seat),
        SeatEdit::Holds { slot, held } => {
            if let Some(seat) = place {
                hold(seat, slot, held);
            }
        }
    }
}

fn hold(seat: &mut Seat, slot: usize, held: HeldReply)
    ensures { seat_view seat.new ≡ with_held slot (held_view held) (seat_view seat.old) }
{
    if slot < seat.slots.len() {
        seat.slots[slot] = Some(held);
    }
}

/// As many edits as there are places, each of which stays.
pub(crate) fn idle_edits(alloc: Global, places: usize) -> Result<SeatEdits, AllocError>
    requires { places ≤ 64 }
    ensures { IfOk result (λ edits. edits_view edits ≡ replicate places Stays) }
{
    let mut list = Vec::new(alloc);
    for _place in 0..places {
        list.push(SeatEdit::Stays)?;
    }
    Ok(SeatEdits { list })
}
