//! The sectors of seats.
#![tactic(auto)]

mod fault;
mod laws;
mod reading;
mod sizes;
mod writing;

pub use fault::SeatFault;
pub use laws::reads_back;
pub use reading::read_seat;
pub use sizes::{SLOT_SECTORS, SeatSizes};
pub use writing::{seat_sector, slot_sector, taken_sector};
