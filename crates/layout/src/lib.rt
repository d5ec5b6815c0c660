//! What the sectors of a volume represent, and the laws about it: each is the contract of a
//! function that does nothing.
#![tactic(auto)]

pub mod cached_nodes;
pub mod changes;
pub mod directories;
pub mod examples;
pub mod files;
pub mod marks;
pub mod node_edits;
pub mod places;
pub mod sectors;
pub mod sums;
pub mod versions;
pub mod volumes;
