//! A server's counters over HTTP, in Prometheus' text format: a page of metrics, and the visits of
//! those who read it. Nothing here waits: each step of a visit reads or writes once.
#![tactic(auto)]

mod page;
mod request;
#[cfg(test)]
mod tests;
mod visit;

pub use page::{Kind, Page};
pub use visit::{Step, Visit};
