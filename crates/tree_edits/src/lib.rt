//! Edits of a volume's tree, each of which is performed on its transaction.
#![tactic(auto)]

mod doing;
mod edit;
mod laws;
mod outcome;
mod room;

pub use edit::Edit;
pub use laws::outlines;
pub use outcome::outcome_of;
pub use room::fits;
