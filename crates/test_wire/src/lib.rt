//! Tests of the client and of what only a client reads and writes.
#![tactic(auto)]

#[cfg(test)]
mod tests;
