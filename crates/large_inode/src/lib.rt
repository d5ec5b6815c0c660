//! The sector of an inode of form three.
#![tactic(auto)]

mod entries;
mod laws;
mod node;
mod reading;
mod writing;

pub use laws::reads_back;
pub use node::LargeInode;
pub use reading::from_sector;
pub use writing::to_sector;
