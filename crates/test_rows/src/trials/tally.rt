//! What the trials of a row came to.

use std::alloc::{AllocError, Global};
use std::fmt;

/// What was tried, and what was found.
#[derive(Drop)]
pub struct Tally {
    /// How often the device crashed, and the device of a mount after that.
    pub crashes: u32,
    pub mounts: u32,
    /// How many of its calls failed, one in each life.
    pub failures: u32,
    /// How often each state was found.
    found: Vec<u32>,
}

impl Tally {
    pub fn new(alloc: Global) -> Tally {
        Tally {
            crashes: 0,
            mounts: 0,
            failures: 0,
            found: Vec::new(alloc),
        }
    }

    /// The state of this number was found.
    pub fn count(&mut self, number: usize) -> Result<(), AllocError> {
        if self.found.len() <= number {
            self.found.resize(number.saturating_add(1), 0)?;
        }
        if let Some(times) = self.found.get_mut(number) {
            *times = times.saturating_add(1);
        }
        Ok(())
    }

    /// How many different ones were found.
    fn states(&self) -> usize {
        self.found.iter().filter(|times| **times > 0).count()
    }
}

impl fmt::Display for Tally {
    fn fmt<W: fmt::Write>(&self, f: &mut fmt::Formatter<W>) -> fmt::Result {
        let Tally {
            crashes,
            mounts,
            failures,
            ..
        } = self;
        let states = self.states();
        write!(
            f,
            "{crashes} crashes, {failures} failures, {mounts} crashes of mounts, states {states}"
        )
    }
}
