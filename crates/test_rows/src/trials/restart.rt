//! Restarts over what the system reads after a call failed, and crashes of these.

use super::cached::CachedDevice;
use super::device::{disk_of, lasting, over};
use super::life::unless_failed;
use super::looking::{ask, find_in, look_at};
use super::tally::Tally;
use crate::answer::{Answer, expect};
use crate::difference::Difference;
use crate::direct::connect;
use crate::host::{Host, Unmounted};
use crate::player::Patience;
use crate::refusal::Refusal;
use crate::rows::{Aftermath, Choices, Left, Sequel};
use crate::served::Served;
use disk::{Call, CrashDevice, Stop};
use std::alloc::{AllocError, Global};

/// A device whose call failed, with the states of which one is on it.
#[derive(Clone, Copy)]
pub struct Restart<'a> {
    pub alloc: Global,
    pub aftermath: &'a Aftermath,
    pub sequel: &'a Sequel,
    pub device: &'a CachedDevice,
    pub left: Left,
}

/// How far a restart came.
#[derive(Drop)]
struct Went {
    /// The state that it showed.
    found: Option<usize>,
    /// Whether it went on after that.
    has_gone_on: bool,
    disk: CrashDevice,
}

impl Restart<'_> {
    /// Mounts what is read, looks, and goes on. The power fails before each sync of that, and at
    /// its end.
    pub fn crash<H: Host>(&self, tally: &mut Tally) -> Result<(), Difference> {
        let whole = self.go::<H>(Stop::Never)?;
        if !whole.has_gone_on {
            return expect(Answer::Reply, Answer::NoReply);
        }
        for step in syncs_of(self.alloc, &whole.disk)?.iter() {
            self.remount::<H>(&self.go::<H>(Stop::Before(*step))?, tally)?;
        }
        self.remount::<H>(&whole, tally)
    }

    /// Restarts on a disk that stops there.
    fn go<H: Host>(&self, stop: Stop) -> Result<Went, Difference> {
        let device = over(self.device.again(stop)?);
        match Served::<H>::mount(self.alloc, device, Choices::FIRST, Patience::None) {
            Ok(served) => self.go_on(served),
            Err(unmounted) => not_mounted(unmounted),
        }
    }

    fn go_on<H: Host>(&self, mut served: Served<H>) -> Result<Went, Difference> {
        let found = unless_failed(self.find(&mut served))?;
        let has_gone_on = found.is_some() && unless_failed(self.ask(&mut served))?.is_some();
        Ok(Went {
            found,
            has_gone_on,
            disk: disk_of(served.into_device()),
        })
    }

    fn find<H: Host>(&self, served: &mut Served<H>) -> Result<usize, Difference> {
        connect(served)?;
        find_in(self.alloc, self.aftermath, self.left, served)
    }

    /// Asks what comes after the looks, whatever the reply.
    fn ask<H: Host>(&self, served: &mut Served<H>) -> Result<(), Difference> {
        let record = self.sequel.record.spell(self.alloc, served.run())?;
        ask(served, &record)?;
        Ok(())
    }

    /// Mounts what is on the disk, on which nothing unsynced landed.
    fn remount<H: Host>(&self, went: &Went, tally: &mut Tally) -> Result<(), Difference> {
        tally.crashes = tally.crashes.saturating_add(1);
        let mut served = self.mount::<H>(&went.disk)?;
        self.compare(went, &mut served, tally)
    }

    fn mount<H: Host>(&self, disk: &CrashDevice) -> Result<Served<H>, Difference> {
        let device = lasting(self.alloc, disk.landed(self.alloc, &[])?);
        let served = Served::mount(self.alloc, device, Choices::FIRST, Patience::None)?;
        Ok(served)
    }

    /// A mount has the state that the restart before it showed, and what came after.
    fn compare<H: Host>(
        &self,
        went: &Went,
        served: &mut Served<H>,
        tally: &mut Tally,
    ) -> Result<(), Difference> {
        let got = self.find(served)?;
        tally.count(got)?;
        if went.found.is_some_and(|found| found != got) {
            return Err(Difference::OtherState);
        }
        if went.has_gone_on {
            look_at(self.alloc, &self.sequel.look, served)?;
        }
        Ok(())
    }
}

/// A restart that crashed before it served.
fn not_mounted(unmounted: Unmounted) -> Result<Went, Difference> {
    let Unmounted { fault, device } = unmounted;
    if fault != Refusal::Device {
        return Err(Difference::Mount(fault));
    }
    Ok(Went {
        found: None,
        has_gone_on: false,
        disk: disk_of(device),
    })
}

/// Which of the steps of a disk are syncs. What it was made with is none of its steps.
fn syncs_of(alloc: Global, disk: &CrashDevice) -> Result<Vec<u64>, AllocError> {
    let calls = disk.calls();
    let before = calls.len().saturating_sub(disk.steps() as usize);
    let mut syncs = Vec::new(alloc);
    let mut step = 0_u64;
    for call in calls.iter().skip(before) {
        if let Call::Sync = call {
            syncs.push(step)?;
        }
        step = step.saturating_add(1);
    }
    Ok(syncs)
}
