//! Rows whose device crashes or fails, and the mounts after that.

mod cached;
mod crashes;
mod device;
mod landings;
mod life;
mod looking;
mod remount;
mod restart;
mod tally;

pub use crashes::crash;
pub use device::{TrialDevice, lasting};
pub use tally::Tally;
