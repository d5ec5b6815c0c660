//! The program `nfs41`, apart from the process around it: it formats volumes, serves them over TCP,
//! and runs scripts of clients against a server.
#![tactic(auto)]

mod process;
mod run;
mod serve;
mod words;

pub use process::run_process;
pub use run::command;
