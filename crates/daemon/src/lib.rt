//! What a daemon needs of the system besides its files: the socket on which it listens, the
//! connections that wait there, who may connect, and the service manager. Nothing here knows what
//! is served.
#![tactic(auto)]

mod admission;
mod door;
mod guests;
mod monitor;
mod origin;
mod readiness;
mod timeouts;

pub use admission::Admission;
pub use door::{Arrival, Door};
pub use guests::{Guests, Network};
pub use monitor::{MONITOR, Monitor, VISITOR};
pub use origin::Origin;
pub use readiness::report_ready;
