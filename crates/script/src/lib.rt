//! Scripts: their lines, and what each of them has a user do.
#![tactic(auto)]

mod actions;
mod arguments;
mod line;
mod mounts;
mod operation;
mod user;

pub use mounts::run_script;
