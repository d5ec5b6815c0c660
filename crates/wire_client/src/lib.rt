//! The client's direction of NFS version 4.1 on the wire (RFC 8881, section 18; RFC 5662):
//! arguments are written, and results read, by the grammars by which a server reads and writes
//! them.
//!
//! The types are those of `wire`; names and data of a result are borrowed from the record that was
//! read.
#![tactic(auto)]

mod answers;
mod argument;
mod channel;
mod directory;
mod file;
mod laws;
mod open;
mod outcome;
mod session;
mod small;
mod status;

pub use argument::write_argument;
pub use channel::CHANNEL;
pub use laws::encoded_arguments_fit;
pub use outcome::read_outcome;
