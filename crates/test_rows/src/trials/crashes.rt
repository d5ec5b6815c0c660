//! Rows whose device crashes or fails: the mount after that finds a state that may be left.

use super::cached::CachedDevice;
use super::device::{Failing, TrialDevice, crashing, disk_of, failing_at, lasting};
use super::landings::{Tried, landings_of};
use super::life::{Life, live};
use super::looking::find;
use super::remount::Remount;
use super::restart::Restart;
use super::tally::Tally;
use crate::difference::{Difference, Differs, placed};
use crate::fault::Fault;
use crate::host::Host;
use crate::player::{Patience, new_volume};
use crate::rows::{Left, Mark, Placed, Row, Sequel, Step};
use disk::{CallKind, CrashDevice, Device, Landed, MemDevice, Stop};
use std::alloc::Global;

/// Has the device of a row crash and fail as the row says.
pub fn crash<H: Host>(alloc: Global, row: &Row<'_>) -> Result<Tally, Differs> {
    expect_one_mount(row)?;
    let volume = placed(0, new_volume::<H>(alloc, row.layout, Patience::None))?;
    let mut trial = Trial::new(alloc, row, disk_of(volume));
    trial.go::<H>()?;
    Ok(trial.tally)
}

/// A life has one mount, and no sockets over which a record waits.
fn expect_one_mount(row: &Row<'_>) -> Result<(), Differs> {
    for Placed { line, step } in row.steps.iter() {
        if matches!(step, Step::Restarts(_) | Step::Waits { .. }) {
            return Err(Differs {
                line: *line,
                difference: Difference::Record(Fault::Step),
            });
        }
    }
    Ok(())
}

/// What a failed read leaves: what the one before it left, unless a write or a sync is between them.
#[derive(Clone, Copy, PartialEq)]
struct Unread {
    /// How many steps of the device were done.
    steps: u64,
    left: Left,
}

/// A row that is played again and again on the same volume.
#[derive(Drop)]
struct Trial<'a> {
    alloc: Global,
    row: &'a Row<'a>,
    steps: &'a [Placed],
    /// The volume at rest, and the states of which one is on it.
    volume: CrashDevice,
    left: Left,
    tried: Tried,
    tally: Tally,
}

impl<'a> Trial<'a> {
    fn new(alloc: Global, row: &'a Row<'a>, volume: CrashDevice) -> Trial<'a> {
        Trial {
            alloc,
            row,
            steps: row.steps.as_slice(),
            volume,
            left: Left { first: 0, end: 0 },
            tried: Tried::new(alloc),
            tally: Tally::new(alloc),
        }
    }

    /// Does all that the row asks for.
    fn go<H: Host>(&mut self) -> Result<(), Differs> {
        if self.row.aftermath.trials.crashes {
            self.crash_each::<H>()?;
        }
        if let Some(sequel) = &self.row.aftermath.sequel {
            self.forget_all::<H>(sequel)?;
        }
        if self.row.aftermath.trials.fails {
            self.fail_all::<H>()?;
            self.settle::<H>()?;
            self.fail_all::<H>()?;
        }
        Ok(())
    }

    fn at_rest(&self) -> Result<MemDevice, Differs> {
        match self.volume.landed(self.alloc, &[]) {
            Ok(device) => Ok(device),
            Err(fault) => placed(0, Err(fault.into())),
        }
    }

    /// Plays these steps on a device that holds the volume.
    fn live<H: Host>(&self, steps: &[Placed], device: TrialDevice) -> Result<Life, Differs> {
        live::<H>(self.alloc, steps, self.left, device)
    }

    /// Plays the row to its end. From then on a trial begins with what that leaves, and has no
    /// steps except the mount.
    fn settle<H: Host>(&mut self) -> Result<(), Differs> {
        let life = self.live::<H>(self.steps, lasting(self.alloc, self.at_rest()?))?;
        self.volume = disk_of(life.device);
        self.left = life.left;
        self.steps = &[];
        Ok(())
    }

    /// How many steps the device takes up to the end of these of the row.
    fn steps_of<H: Host>(&self, steps: &[Placed]) -> Result<u64, Differs> {
        let life = self.live::<H>(steps, lasting(self.alloc, self.at_rest()?))?;
        Ok(disk_of(life.device).steps())
    }

    /// The steps of the row in front of those that crash.
    fn prefix(&self) -> &'a [Placed] {
        let begins = self
            .steps
            .iter()
            .position(|placed| matches!(placed.step, Step::Marks(Mark::Begins)));
        match self.steps.get(..begins.unwrap_or(0)) {
            Some(prefix) => prefix,
            None => &[],
        }
    }

    /// Crashes before and within each step of the device.
    fn crash_each<H: Host>(&mut self) -> Result<(), Differs> {
        let first = self.steps_of::<H>(self.prefix())?;
        for step in first..self.steps_of::<H>(self.steps)? {
            self.crash_at::<H>(Stop::Before(step))?;
            self.crash_at::<H>(Stop::Within(step))?;
        }
        Ok(())
    }

    fn crash_at<H: Host>(&mut self, stop: Stop) -> Result<(), Differs> {
        let life = self.live::<H>(self.steps, crashing(self.alloc, self.at_rest()?, stop))?;
        self.tally.crashes = self.tally.crashes.saturating_add(1);
        placed(0, self.land::<H>(&disk_of(life.device), life.left))
    }

    /// Tries what may land of the device, and mounts each.
    fn land<H: Host>(&mut self, crashed: &CrashDevice, left: Left) -> Result<(), Difference> {
        if !crashed.is_stopped() {
            return Err(Difference::NoCrash);
        }
        for landing in landings_of(self.alloc, crashed)?.iter() {
            self.look::<H>(crashed, landing, left)?;
        }
        Ok(())
    }

    /// Mounts what landed. A new landing crashes in its turn, if the row says so.
    fn look<H: Host>(
        &mut self,
        crashed: &CrashDevice,
        landing: &[Landed],
        left: Left,
    ) -> Result<(), Difference> {
        let is_new = self.tried.adds(crashed, landing)?;
        let landed = crashed.landed(self.alloc, landing)?;
        if self.row.aftermath.trials.twice && is_new {
            return self.crash_again::<H>(&CrashDevice::new(landed, Stop::Never), left);
        }
        let found = find::<H>(
            self.alloc,
            &self.row.aftermath,
            left,
            lasting(self.alloc, landed),
        )?;
        Ok(self.tally.count(found)?)
    }

    /// Mounts a landing, which crashes in its turn unless that goes as another mount did.
    fn crash_again<H: Host>(&mut self, device: &CrashDevice, left: Left) -> Result<(), Difference> {
        let remount = Remount {
            alloc: self.alloc,
            aftermath: &self.row.aftermath,
            device,
            left,
        };
        remount.crash_new::<H>(&mut self.tried, &mut self.tally)
    }

    /// Mounts the device, and crashes that in its turn.
    fn remount<H: Host>(&mut self, device: &CrashDevice, left: Left) -> Result<(), Difference> {
        let remount = Remount {
            alloc: self.alloc,
            aftermath: &self.row.aftermath,
            device,
            left,
        };
        remount.crash::<H>(&mut self.tally)
    }

    /// Lets each call of the device fail, one in each life.
    fn fail_all<H: Host>(&mut self) -> Result<(), Differs> {
        for kind in [CallKind::Read, CallKind::Write, CallKind::Sync] {
            self.fail_each::<H>(Failing::Call(kind), None)?;
        }
        Ok(())
    }

    /// The same of syncs that forget, after each of which the program ends, restarts and goes on.
    fn forget_all<H: Host>(&mut self, sequel: &Sequel) -> Result<(), Differs> {
        let ways = [
            Failing::Call(CallKind::Read),
            Failing::Call(CallKind::Write),
            Failing::Sync { lands: false },
            Failing::Sync { lands: true },
        ];
        for failing in ways {
            self.fail_each::<H>(failing, Some(sequel))?;
        }
        Ok(())
    }

    fn fail_each<H: Host>(&mut self, way: Failing, sequel: Option<&Sequel>) -> Result<(), Differs> {
        let mut before = None;
        for number in 0..u64::MAX {
            let life = self.fail::<H>(way, number)?;
            if !life.has_failed {
                break;
            }
            self.tally.failures = self.tally.failures.saturating_add(1);
            let device = life.device.into_inner();
            let unread = after_read(way, device.disk(), life.left);
            if unread.is_none() || unread != before {
                placed(0, self.come_back::<H>(&device, life.left, sequel))?;
            }
            before = unread;
        }
        Ok(())
    }

    /// A life in which the call of this number fails, if there is such a call.
    fn fail<H: Host>(&self, way: Failing, number: u64) -> Result<Life, Differs> {
        let device = failing_at(self.alloc, self.at_rest()?, way, number);
        let life = self.live::<H>(self.steps, device)?;
        let has_failed = life.device.failures() > 0;
        if has_failed != life.has_failed {
            return placed(0, Err(Difference::Unreturned));
        }
        Ok(life)
    }

    /// Mounts a device that failed, or restarts over it.
    fn come_back<H: Host>(
        &mut self,
        device: &CachedDevice,
        left: Left,
        sequel: Option<&Sequel>,
    ) -> Result<(), Difference> {
        let Some(sequel) = sequel else {
            return self.remount::<H>(device.disk(), left);
        };
        let restart = Restart {
            alloc: self.alloc,
            aftermath: &self.row.aftermath,
            sequel,
            device,
            left,
        };
        restart.crash::<H>(&mut self.tally)
    }
}

/// What a failed read leaves; None if another call failed.
fn after_read(way: Failing, disk: &CrashDevice, left: Left) -> Option<Unread> {
    match way {
        Failing::Call(CallKind::Read) => Some(Unread {
            steps: disk.steps(),
            left,
        }),
        _ => None,
    }
}
