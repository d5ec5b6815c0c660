//! The places of a node's blocks: a list of sectors with holes, and the runs that it is kept in on
//! disk.
#![tactic(auto)]

mod fault;
mod laws;
mod list;
mod run;
mod runs;
mod sector_runs;
mod shared;

pub use fault::ExtentsFault;
pub use laws::reads_back;
pub use list::BlockList;
pub use run::Run;
pub use runs::Runs;
pub use sector_runs::{MAX_SECTOR_RUNS, read_run_sector, write_run_sector};
