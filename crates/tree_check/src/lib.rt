//! Whether the nodes of a volume make one tree: what a mount checks of the cached nodes that it has
//! read.
#![tactic(auto)]

mod ages;
mod laws;
mod nodes;
mod stamps;
mod walk;
mod well_formed;

pub use laws::decides;
pub use walk::is_one_tree;
pub use well_formed::are_well_formed;
