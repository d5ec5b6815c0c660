//! Callers of a server: its calls, and callers that reach it over the loopback interface in the
//! thread that it runs in.
#![tactic(auto)]

mod caller;
mod fault;
pub mod link;
mod loopback;

pub use caller::{Caller, Results};
pub use fault::ScriptFault;
pub use loopback::{Connection, connect};
