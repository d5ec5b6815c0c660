//! Edits of all places for seats.

ghost use Rattle.std.specs.Prelude.{◌≤◌, length};
ghost use Rattle.model_tree.specs.Seats.SeatWrites.{writes_of};

use crate::seats::SeatEdit;

/// What becomes of the places: one edit for each. At most one writes a seat or a reply.
#[derive(Drop)]
pub struct SeatEdits {
    pub list: Vec<SeatEdit>,
    ghost few: { length list.items ≤ 64 },
    ghost one: { writes_of list.items ≤ 1 },
}
