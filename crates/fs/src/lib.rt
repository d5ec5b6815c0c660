//! A file system on a volume: the operations of a COMPOUND on its tree, which survives a crash at
//! any moment.
#![tactic(auto)]

mod access;
mod attributes;
mod changing;
mod created;
mod fault;
mod files;
mod fs;
mod handles;
mod laws;
mod listing;
mod lists;
mod lookup;
mod lookup_parent;
mod making;
mod nodes;
mod open_file;
mod opening;
mod read;
mod removing;
mod renaming;
mod rights;
mod setting;
mod writing;

pub use access::Access;
pub use created::Created;
pub use fault::FsFault;
pub use fs::{Fs, Mounted};
pub use laws::verdicts;
pub use listing::{Listing, Page};
pub use making::NewDirectory;
pub use opening::{How, OpenEffect, OpenRoom, Opened, Opening, Share};
pub use removing::Removed;
pub use renaming::{Change, Renamed, Renaming};
pub use setting::Setting;
pub use volume::superblock::is_volume_size;
pub use volume::{Checked, FormatFault, MountFault, Room, Unmounted};
pub use writing::Writing;
