//! A transaction that is being prepared: sectors that are to be written, and the marks of those
//! that are allocated or freed.
#![tactic(auto)]

mod blocks;
mod fault;
mod laying;
mod marks;
mod nodes;
mod numbers;
mod pending;
mod transaction;
mod updates;

pub use fault::{SpaceFault, TransactionFault};
pub use nodes::Metadata;
pub use transaction::{PreparedTransaction, Transaction};
pub use updates::Updates;
