//! A volume's files out of it and into it, without a server: listings, the bytes of a file, and
//! archives in the formats of tar.
#![tactic(auto)]

mod acl_text;
mod attributes;
mod fault;
mod filling;
mod listing;
mod path;
mod putting;
mod shelf;
mod time;
mod view;
mod writing;

pub use fault::{ArchiveFault, Reason};
pub use filling::fill;
pub use listing::list;
pub use view::View;
pub use writing::{write_file, write_tree};
