//! What a mount reads of a volume: its mark, its seats and the cached nodes of its nodes, or that
//! it is damaged.
#![tactic(auto)]

mod ahead;
mod fault;
mod laws;
mod marks;
mod migration;
mod names;
mod nodes;
mod numbers;
mod runs;
mod seating;
mod sectors;
mod table;
mod volume;

pub use fault::ScanFault;
pub use laws::standing_is_few;
pub use volume::{Contents, read_volume};
