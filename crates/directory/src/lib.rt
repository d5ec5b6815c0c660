//! The names of a directory, the records that they are kept in, and which names a client may give.
#![tactic(auto)]

mod check;
mod entry;
mod fault;
mod laws;
mod listing;
mod names;
mod order;
mod paging;
mod records;
mod sectors;

pub use check::check_name;
pub use entry::Entry;
pub use fault::{DirectoryFault, RecordsFault};
pub use laws::reads_back;
pub use listing::ListAfter;
pub use names::Names;
pub use paging::every_paging;
pub use sectors::{MAX_NAME_BYTES, RECORDS, read_records};
