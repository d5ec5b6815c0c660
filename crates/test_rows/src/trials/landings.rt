//! Which landings were tried of a device that crashes at one step after the other.

use disk::{Call, CrashDevice, Landed, landings};
use std::alloc::{AllocError, Global};

/// The landings since the last sync, each time after the same calls.
#[derive(Drop)]
pub struct Tried {
    alloc: Global,
    /// How many syncs came before them: the same landings after the same number of syncs give the
    /// same contents.
    syncs: usize,
    landings: Vec<Vec<Landed>>,
    /// The mounts of these landings that crashed.
    mounts: Vec<Course>,
}

/// What a mount found, and how many steps of the device it took.
#[derive(Clone, Copy, PartialEq, Eq)]
pub struct Course {
    pub found: usize,
    pub steps: u64,
}

impl Tried {
    pub fn new(alloc: Global) -> Tried {
        Tried {
            alloc,
            syncs: 0,
            landings: Vec::new(alloc),
            mounts: Vec::new(alloc),
        }
    }

    /// Whether this landing of a crashed device was not tried yet. From now on it counts as tried.
    pub fn adds(&mut self, crashed: &CrashDevice, landing: &[Landed]) -> Result<bool, AllocError> {
        let syncs = count_syncs(crashed.calls());
        if syncs != self.syncs {
            self.syncs = syncs;
            self.landings.clear();
            self.mounts.clear();
        }
        let landed = landed_only(self.alloc, landing)?;
        if self.has(&landed) {
            return Ok(false);
        }
        self.landings.push(landed)?;
        Ok(true)
    }

    /// Whether no mount of these landings went like this. From now on one did.
    pub fn adds_mount(&mut self, course: Course) -> Result<bool, AllocError> {
        if self.mounts.contains(&course) {
            return Ok(false);
        }
        self.mounts.push(course)?;
        Ok(true)
    }

    fn has(&self, landing: &[Landed]) -> bool {
        self.landings
            .iter()
            .any(|tried| tried.as_slice() == landing)
    }
}

/// What may land of a device that crashed.
pub fn landings_of(alloc: Global, crashed: &CrashDevice) -> Result<Vec<Vec<Landed>>, AllocError> {
    landings(alloc, &crashed.unsynced(alloc)?)
}

/// How many of these calls are syncs.
pub fn count_syncs(calls: &[Call]) -> usize {
    calls
        .iter()
        .filter(|call| matches!(call, Call::Sync))
        .count()
}

/// A landing without the sectors on which nothing landed.
fn landed_only(alloc: Global, landing: &[Landed]) -> Result<Vec<Landed>, AllocError> {
    let mut only = Vec::new(alloc);
    for landed in landing {
        if landed.content > 0 {
            only.push(*landed)?;
        }
    }
    Ok(only)
}
