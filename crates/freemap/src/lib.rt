//! The set of used places of a volume's data region, and the sectors that it is kept in.
#![tactic(auto)]

mod bitmap;
mod fault;
mod group;
mod groups;
mod page;
mod pages;
mod places;
mod sectors;

pub use bitmap::{Bitmap, one_encoding};
pub use fault::{Full, TakeFault};
pub use places::SharedBitmap;
pub use sectors::SECTOR_PLACES;
