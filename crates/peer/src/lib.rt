//! A connection of a server and the stream that it comes by: what one step of it does.
#![tactic(auto)]

mod calls;
mod delayed;
mod inbox;
mod keeping;
mod pace;
mod peer;
mod peers;
mod ran;
mod reply;
mod session_news;
mod stream;

pub use delayed::{Answered, Delayed, compound_status};
pub use inbox::Inbox;
pub use keeping::Keeping;
pub use pace::Pace;
pub use peer::{Peer, Step};
pub use peers::{NotAdmitted, Peers, Stepped};
pub use ran::Ran;
pub use session_news::SessionNews;
pub use stream::Stream;
