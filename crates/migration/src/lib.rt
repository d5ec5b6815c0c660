//! Migrating a volume from version 1 to version 2: its nodes are moved to form two by flushed
//! transactions, a mark records how far this has come, and in the end the mark is removed. At each
//! moment the volume holds the same tree.
#![tactic(auto)]

mod commit;
mod fault;
mod mark;
mod nodes;
mod plan;

pub use fault::MigrationFault;
pub use mark::{clear, clearing};
pub use nodes::migrate;
