//! Mounts of what a crash or a failure left, each of which crashes within its steps.

use super::cached::unsynced_again;
use super::device::{TrialDevice, crashing, disk_of, lasting};
use super::landings::{Course, Tried, count_syncs, landings_of};
use super::looking::find;
use super::tally::Tally;
use crate::difference::Difference;
use crate::host::{Host, Unmounted};
use crate::refusal::Refusal;
use crate::rows::{Aftermath, Choices, Left};
use disk::{CrashDevice, MemDevice, Stop};
use std::alloc::Global;

/// A device, with the states of which one is on it.
#[derive(Clone, Copy)]
pub struct Remount<'a> {
    pub alloc: Global,
    pub aftermath: &'a Aftermath,
    pub device: &'a CrashDevice,
    pub left: Left,
}

impl Remount<'_> {
    /// Crashes within each step of the mount: a write that crashes lands or not, so what a crash
    /// before it leaves is among that. Once the mount has synced, the mount after it finds the state
    /// that the whole mount finds.
    pub fn crash<H: Host>(&self, tally: &mut Tally) -> Result<(), Difference> {
        let course = self.course::<H>(tally)?;
        self.crash_each::<H>(course, tally)
    }

    /// The same, unless the mount goes as one whose landings were tried before.
    pub fn crash_new<H: Host>(
        &self,
        before: &mut Tried,
        tally: &mut Tally,
    ) -> Result<(), Difference> {
        let course = self.course::<H>(tally)?;
        if before.adds_mount(course)? {
            self.crash_each::<H>(course, tally)?;
        }
        Ok(())
    }

    /// How the whole mount goes.
    fn course<H: Host>(&self, tally: &mut Tally) -> Result<Course, Difference> {
        let found = self.find::<H>(self.again()?)?;
        tally.count(found)?;
        Ok(Course {
            found,
            steps: self.count_steps::<H>()?,
        })
    }

    fn crash_each<H: Host>(&self, course: Course, tally: &mut Tally) -> Result<(), Difference> {
        let mut tried = Tried::new(self.alloc);
        for step in 0..course.steps {
            self.crash_at::<H>(Stop::Within(step), course.found, &mut tried, tally)?;
        }
        Ok(())
    }

    fn find<H: Host>(&self, device: MemDevice) -> Result<usize, Difference> {
        find::<H>(
            self.alloc,
            self.aftermath,
            self.left,
            lasting(self.alloc, device),
        )
    }

    /// How many steps of the device the mount takes.
    fn count_steps<H: Host>(&self) -> Result<u64, Difference> {
        Ok(mount::<H>(self.alloc, lasting(self.alloc, self.again()?))?.steps())
    }

    /// The device once more.
    fn again(&self) -> Result<MemDevice, Difference> {
        Ok(unsynced_again(self.alloc, self.device)?)
    }

    fn crash_at<H: Host>(
        &self,
        stop: Stop,
        found: usize,
        tried: &mut Tried,
        tally: &mut Tally,
    ) -> Result<(), Difference> {
        let crashed = crash::<H>(self.alloc, crashing(self.alloc, self.again()?, stop))?;
        tally.mounts = tally.mounts.saturating_add(1);
        self.land::<H>(&crashed, found, tried, tally)
    }

    /// Tries what may land of a device, and mounts each.
    fn land<H: Host>(
        &self,
        crashed: &CrashDevice,
        found: usize,
        tried: &mut Tried,
        tally: &mut Tally,
    ) -> Result<(), Difference> {
        for landing in landings_of(self.alloc, crashed)?.iter() {
            if tried.adds(crashed, landing)? {
                let got = self.find::<H>(crashed.landed(self.alloc, landing)?)?;
                tally.count(got)?;
                expect_same(count_syncs(crashed.calls()) > 0, found, got)?;
            }
        }
        Ok(())
    }
}

/// Begins a run on a device, and ends it.
fn mount<H: Host>(alloc: Global, device: TrialDevice) -> Result<CrashDevice, Difference> {
    let host = H::mount(alloc, device, Choices::FIRST)?;
    Ok(disk_of(host.into_device()))
}

/// The same of a device that crashes meanwhile.
fn crash<H: Host>(alloc: Global, device: TrialDevice) -> Result<CrashDevice, Difference> {
    match H::mount(alloc, device, Choices::FIRST) {
        Err(
            Unmounted {
                device,
                fault: Refusal::Device,
            },
        ) => Ok(disk_of(device)),
        Err(unmounted) => Err(unmounted.into()),
        Ok(_) => Err(Difference::NoCrash),
    }
}

fn expect_same(has_synced: bool, found: usize, got: usize) -> Result<(), Difference> {
    if has_synced && got != found {
        Err(Difference::OtherState)
    } else {
        Ok(())
    }
}
