//! The definitions of operations, sessions, RPC and the server, on top of those of trees
//! (`model_tree`), which are the only ones that storage needs.
//!
//! `specs/` has one file for each subject, with the section of the public standard that it comes
//! from.
#![tactic(auto)]

pub mod attributes;
pub mod holding;
pub mod not_done;
pub mod rpc;
pub mod runs;
pub mod session;
pub mod sound;
pub mod step;
