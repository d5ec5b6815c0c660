//! Attributes and the entries of access control lists on the wire (RFC 8881, sections 5, 6.2 and
//! 18.30; RFC 5662): their numbers, their values, what a client may set, and what is refused.
//!
//! A typed value for each attribute that the server has; handles and texts are borrowed from the
//! record that was read.
#![tactic(auto)]

mod ace;
mod answer;
mod attribute;
mod bitmap;
mod checks;
mod entry;
mod given;
mod listed;
mod node;
mod settings;
mod value;
mod values;
mod who;

pub use ace::{ace_of, entry_of};
pub use answer::AttributesAnswer;
pub use attribute::{
    Attribute, SETTABLE_AT_CREATION, SETTABLE_AT_OPEN, SETTABLE_AT_SETATTR, is_among,
};
pub use bitmap::{is_asked, numbers_of};
pub use checks::check_attributes;
pub use entry::AclEntry;
pub use given::GivenAttributes;
pub use listed::{ListedAttributes, ListedEntry};
pub use node::NodeAttributes;
pub use settings::{Settings, settings_in};
pub use value::{FileSystemId, Time, Value};
pub use values::{read_values, values_of, write_values};
pub use who::{number_of, text_of, who_of};
