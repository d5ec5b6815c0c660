//! Tests of a file system over memory: its operations, and what is on the sectors of its volume.
#![tactic(auto)]

#[cfg(test)]
mod tests;
