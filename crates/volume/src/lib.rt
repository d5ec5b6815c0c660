//! A volume on a device: nodes, files and directories in sectors, which a crash at any moment
//! leaves whole.
#![tactic(auto)]

mod ancestors;
mod block_reads;
mod change;
mod checking;
mod fault;
mod file_bytes;
mod formatting;
mod laws;
mod load;
mod mount;
mod parent_calls;
mod parents;
mod room;
mod seat_edits;
mod seat_places;
mod seat_updates;
mod start;
mod store;
pub mod superblock;
mod view_store;
mod volume;

pub use checking::{Checked, check};
pub use fault::{FormatFault, MountFault, VolumeFault};
pub use formatting::{format, format_large};
pub use laws::{answers_by_shown, every_remount, one_stands, superblock_tells, unflushed};
pub use room::Room;
pub use volume::{Mounted, Unmounted, Volume};
