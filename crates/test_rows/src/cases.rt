//! Cases of a program: its commands, one after the other, with what they are to leave.

mod case;
mod files;
mod line;
mod output;
mod player;
mod port;
mod sheet;
mod step;
mod text;

pub use case::Case;
pub use output::Output;
pub use player::{Program, play as play_case};
pub use sheet::read_sheet as read_cases;
