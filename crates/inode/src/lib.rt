//! The sector of a node.
#![tactic(auto)]

mod entries;
mod fault;
mod laws;
mod node;
mod reading;
mod writing;

pub use fault::InodeFault;
pub use laws::reads_back;
pub use node::{Form, Inode};
pub use reading::from_sector;
pub use writing::to_sector;
