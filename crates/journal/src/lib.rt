//! A journal of transactions on a device, which a crash cannot split.
#![tactic(auto)]

mod cache;
mod commit;
mod fault;
mod gate;
mod index;
mod journal;
mod laws;
mod layout;
mod list;
mod phase;
mod recorded;
mod recover;
mod view;

pub use fault::{JournalFault, Unmounted};
pub use journal::{CACHED_SECTORS, Journal};
pub use laws::every_end;
pub use layout::{FIRST_TARGET, LogArea, MAX_TARGETS, MIN_SECTORS};
pub use view::View;
