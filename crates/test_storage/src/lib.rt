//! Tests of devices, of the journal, and of what keeps lists, places and names.
#![tactic(auto)]

#[cfg(test)]
mod tests;
