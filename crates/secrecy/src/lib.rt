//! What a caller learns of bytes that he may not read: nothing.
#![tactic(auto)]

mod blind;

pub use blind::{every_operation_is_blind, every_run_is_blind};
