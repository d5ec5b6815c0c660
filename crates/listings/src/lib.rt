//! The listing that a client of READDIR gets of a directory, whatever changes between its calls.
#![tactic(auto)]

mod reading;

pub use reading::{every_reading, reading_example};
