//! A server and its peers, up to 16 at a time or one after the other, in one thread. No call waits
//! for one socket: the loop over them sleeps if none has anything to do.
#![tactic(auto)]

mod calls;
mod counted;
mod counts;
mod desk;
mod glance;
mod hub;
mod line;
mod lines;
mod operations;
mod page;
mod reminders;
mod seating;
mod settings;
mod sockets;
mod watched;

pub use calls::mounted;
pub use counted::{Bytes, Counted, Socket};
pub use counts::Counts;
pub use daemon::{Admission, Door, Guests, Network};
pub use hub::{End, Hub, serve};
pub use lines::Lines;
pub use peer::{Keeping, Pace};
pub use settings::Settings;
pub use watched::Watched;
