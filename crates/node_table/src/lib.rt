//! The nodes of a volume in memory: everything except the bytes of files.
#![tactic(auto)]

mod boxed_node;
mod cached_node;
mod changes;
mod fault;
mod index;
mod overlay;
mod table;

pub use boxed_node::BoxedNode;
pub use cached_node::CachedNode;
pub use changes::Changes;
pub use fault::TableFault;
pub use overlay::Overlay;
pub use table::Table;
