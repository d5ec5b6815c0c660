//! Cases, and their steps.

use super::step::Step;
use super::text::Texts;

/// A case: steps that follow each other.
#[derive(Drop)]
pub struct Case<'a> {
    pub name: &'a str,
    /// What is in front of what each of its commands reads and writes.
    pub prefix: Texts,
    pub steps: Vec<Placed<'a>>,
}

/// A step, and its line.
#[derive(Drop)]
pub struct Placed<'a> {
    pub line: u32,
    pub step: Step<'a>,
}
