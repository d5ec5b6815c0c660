//! Client records, sessions and their slots (RFC 8881, section 2.10): what a server knows of its
//! clients in one run.
//!
//! `Table` takes EXCHANGE_ID, CREATE_SESSION, DESTROY_SESSION, DESTROY_CLIENTID, RECLAIM_COMPLETE
//! and SEQUENCE. A slot keeps the reply to its last request, which a retry gets again.
#![tactic(auto)]

mod client;
mod clients;
mod create;
mod destroy;
mod edits;
mod exchange;
mod flags;
mod held;
mod laws;
mod limits;
mod plan;
mod replies;
mod seating;
mod sequence;
mod session;
mod sessions;
mod settings;
mod slot;
mod table;

pub use edits::{edit_seats, is_idle};
pub use exchange::ExchangedId;
pub use laws::every_slot;
pub use limits::{Limits, MAX_RECORD_BYTES, MAX_SLOTS};
pub use plan::{CreatedSession, Creation, NewSession};
pub use sequence::Begun;
pub use settings::{MAX_NAME_BYTES, NameFault, STANDARD_NAME, ServerName, Settings};
pub use table::Table;
