//! What the programs ask of the system, and how they report the outcome.
#![tactic(auto)]

mod beginning;
mod identity;
mod large;
mod machine;
mod number;
mod outcome;
mod refused;
mod settings;
mod size;
mod time;
mod volume_file;

pub use beginning::{Begun, Unbegun, begin};
pub use identity::identity_of;
pub use large::{LargeSize, format_large_device, format_large_file, sectors_in};
pub use machine::Machine;
pub use number::decimal;
pub use outcome::{tell_outcome, tell_usage};
pub use refused::Refused;
pub use settings::standard_settings;
pub use size::VolumeSize;
pub use time::{WallClock, moment};
pub use volume_file::{
    begins_as_volume, check_file, format_file, open_refusal, open_volume, open_volume_to_read,
    served_version,
};
