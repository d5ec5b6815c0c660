//! Block devices of 4,096-byte sectors, and what a crash may leave of their contents.
//!
//! A sector is never torn. After a crash each sector, by itself, holds what it held at the last
//! successful sync or any content written to it since. `specs/Moments.antt` says so as data: every
//! write and every sync makes a new moment, and a crash stops at one of them.
#![tactic(auto)]

mod borrowed;
mod call;
mod counts;
mod crash;
mod device;
mod fault;
mod faulty;
mod file;
mod landing;
mod memory;
mod run;
mod trial;
mod update;

pub use call::Call;
pub use counts::{Counts, Failure};
pub use crash::{CrashDevice, Stop};
pub use device::Device;
pub use fault::DiskFault;
pub use faulty::{CallKind, FaultDevice};
pub use file::FileDevice;
pub use landing::{Landed, Unsynced};
pub use memory::MemDevice;
pub use trial::{ALL_COMBINATIONS, landings};
pub use update::{SECTOR, Update};
