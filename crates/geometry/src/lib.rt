//! The superblock of layout version 3, and where the parts of such a volume are.
#![tactic(auto)]

mod geometry;
mod laws;
mod superblock;

pub use geometry::{
    Geometry, MAX_FILE_BYTES, MAX_LOG, MAX_NAMES, MAX_NODES, MAX_SEATS, MAX_SLOTS, MIN_LOG,
    MIN_NODES,
};
pub use laws::{end_to_end, fits_is_tested, reads_back};
pub use superblock::Superblock;
