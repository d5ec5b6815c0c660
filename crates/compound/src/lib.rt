//! One operation of one COMPOUND (RFC 8881, section 16.2), which is the server's atomic step.
//!
//! `Running` is a COMPOUND over its record, made anew for each operation; `Progress` is what is
//! kept of it from one operation to the next.
#![tactic(auto)]

mod access;
mod ahead;
mod attributes;
mod begin;
mod clients;
mod closing;
mod encoded_result;
mod end;
mod engine;
mod executed;
mod fault;
mod handles;
mod held_replies;
mod listing;
mod next;
mod open_named;
mod opening;
mod operate;
mod profile;
mod progress;
mod read;
mod reading;
mod removing;
mod renaming;
mod results;
mod running;
mod sequence;
mod setting;
mod stateids;
mod step;
mod tree;
mod writing;

pub use ahead::Ahead;
pub use begin::Call;
pub use fault::Fault;
pub use progress::Progress;
pub use results::MAX_REPLY_BYTES;
pub use running::Running;
pub use step::{StepError, Stepped};
