//! The opens of a run, and the stateids that name them (RFC 8881, sections 8.2, 18.2 and 18.16).
//!
//! `Opens` keeps who opened which file, and how. An open grants no right: it says what an
//! operation may use a stateid for.
#![tactic(auto)]

mod access;
mod found;
mod open;
mod opens;

pub use access::Access;
pub use found::{Found, StateIdContext};
pub use open::{Entry, Open};
pub use opens::Opens;
