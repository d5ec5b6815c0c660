//! Crashes before and within each write and each sync of a format, and of one that leaves the log
//! and sectors that nothing reads as they are.

use super::super::drivers::{byte_of, change, fill, filled, landed, stopping, sync, write};
use super::SECTORS;
use super::held::{Held, format, format_without};
use disk::{CrashDevice, Device, DiskFault, Landed, Stop, Unsynced, landings};
use journal::JournalFault;
use std::alloc::{AllocError, Global};
use std::process::Abort;
use std::test::Fail;

// Where the log is, and so which format.
#[derive(Clone, Copy)]
struct Log {
    is_behind: bool,
    // the first sector of its payload
    first: u32,
    // the last sector that a transaction may write
    last: u8,
    // how many sectors a format leaves unsynced at most
    unsynced: usize,
}

const IN_FRONT: Log = Log {
    is_behind: false,
    first: 2,
    last: 255,
    unsynced: 255,
};

// all but sector 0, 30 that nothing reads, and 48 of the payload
const BEHIND: Log = Log {
    is_behind: true,
    first: 208,
    last: 207,
    unsynced: 177,
};

// What a device holds: for each sector the byte that fills it. The journal's own count as 0.
type Contents = [u8; 256];

// What a mount finds.
fn mounted<D: Device>(alloc: Global, device: D, log: Log) -> Result<Contents, JournalFault> {
    let mut held = if log.is_behind {
        Held::mount_behind(alloc, device)?
    } else {
        Held::mount(alloc, device)?
    };
    let mut found = [0; 256];
    for n in 0..SECTORS {
        if held.is_shown(n) {
            found[n as usize] = held.byte_at(n)?;
        }
    }
    Ok(found)
}

// what fills sector 0 before a format and after it
const OLD: u8 = 5;

const NEW: u8 = 8;

// the sectors in use before it, each with what fills it: two of the payload among them
fn in_use(log: Log) -> [(u32, u8); 6] {
    let next = log.first.saturating_add(1);
    let last = u32::from(log.last);
    [
        (0, OLD),
        (log.first, 3),
        (next, 4),
        (98, 1),
        (150, 6),
        (last, 1),
    ]
}

// the device as it is if nothing unsynced lands, up to a crash
fn restarted(alloc: Global, device: &CrashDevice, stop: Stop) -> Result<CrashDevice, DiskFault> {
    Ok(CrashDevice::new(landed(device, alloc, &[])?, stop))
}

// a device in use, with a gate that is open for the first and the last that a transaction may write
fn old_device(alloc: Global, log: Log) -> Result<CrashDevice, DiskFault> {
    let mut device = stopping(alloc, SECTORS, Stop::Never)?;
    let mut gate = filled(0);
    change(&mut gate, &[(3, 1), (7, 2), (11, 98), (15, log.last)]);
    write(&mut device, 1, &gate)?;
    for (n, byte) in in_use(log) {
        fill(&mut device, n, byte)?;
    }
    sync(&mut device)?;
    restarted(alloc, &device, Stop::Never)
}

fn format_until(
    alloc: Global,
    old: &CrashDevice,
    stop: Stop,
    log: Log,
) -> Result<CrashDevice, Fail> {
    let mut device = restarted(alloc, old, stop)?;
    let formatted = if log.is_behind {
        format_without(alloc, &mut device, NEW, (&[120, 98], 9))
    } else {
        format(alloc, &mut device, NEW, (&[120, 98], 9))
    };
    match formatted {
        Ok(()) | Err(JournalFault::Fault) => Ok(device),
        Err(fault) => Err(fault)?,
    }
}

// the landing of everything
fn whole(alloc: Global, unsynced: &[Unsynced]) -> Result<Vec<Landed>, AllocError> {
    let mut all = Vec::new(alloc);
    for sector in unsynced {
        all.push(Landed {
            sector: sector.sector,
            content: sector.contents,
        })?;
    }
    Ok(all)
}

// The old contents and the new ones, and whether after some crash the old ones were found, a sector
// 0 of zeros, and the new ones.
#[derive(Drop)]
struct Trial {
    log: Log,
    old: Contents,
    new: Contents,
    found: [bool; 3],
}

impl Trial {
    fn land(
        &mut self,
        alloc: Global,
        stopped: &CrashDevice,
        landing: &[Landed],
    ) -> Result<(), Fail> {
        let mut left = landed(stopped, alloc, landing)?;
        if byte_of(&mut left, 0)? == 0 {
            self.found[1] = true;
            return Ok(());
        }
        let contents = mounted(alloc, left, self.log)?;
        if contents == self.old {
            self.found[0] = true;
        } else if contents == self.new {
            self.found[2] = true;
        } else {
            return Err("neither old nor new".into());
        }
        Ok(())
    }

    fn land_each(
        &mut self,
        alloc: Global,
        stopped: &CrashDevice,
        unsynced: &[Unsynced],
    ) -> Result<(), Fail> {
        for landing in landings(alloc, unsynced)?.iter() {
            self.land(alloc, stopped, landing)?;
        }
        Ok(())
    }

    // If there are up to six unsynced sectors, or all are unsynced, the landings that matter; else
    // nothing and everything.
    fn stop(
        &mut self,
        rt: &impl Abort,
        alloc: Global,
        old: &CrashDevice,
        stop: Stop,
    ) -> Result<(), Fail> {
        let stopped = format_until(alloc, old, stop, self.log)?;
        assert!(rt; stopped.is_stopped());
        let unsynced = stopped.unsynced(alloc)?;
        if unsynced.len() <= 6 || unsynced.len() >= self.log.unsynced {
            return self.land_each(alloc, &stopped, &unsynced);
        }
        self.land(alloc, &stopped, &[])?;
        self.land(alloc, &stopped, &whole(alloc, &unsynced)?)
    }
}

// what is on a device if nothing unsynced lands
fn contents(alloc: Global, device: &CrashDevice, log: Log) -> Result<Contents, Fail> {
    Ok(mounted(alloc, landed(device, alloc, &[])?, log)?)
}

fn crash(rt: &impl Abort, alloc: Global, log: Log) -> Result<(), Fail> {
    let old = old_device(alloc, log)?;
    let whole = format_until(alloc, &old, Stop::Never, log)?;
    assert_eq!(rt; whole.unsynced(alloc)?.len(), 0);
    let mut trial = Trial {
        log,
        old: contents(alloc, &old, log)?,
        new: contents(alloc, &whole, log)?,
        found: [false; 3],
    };
    assert_eq!(rt; (trial.old[0], trial.new[0]), (OLD, NEW));
    for step in 0..whole.steps() {
        trial.stop(rt, alloc, &old, Stop::Before(step))?;
        trial.stop(rt, alloc, &old, Stop::Within(step))?;
    }
    assert_eq!(rt; trial.found, [true; 3]);
    Ok(())
}

#[test]
fn crashes_of_a_format(rt: HostRuntime) -> Result<(), Fail> {
    crash(&rt, rt.alloc(), IN_FRONT)
}

#[test]
fn crashes_of_a_format_that_leaves_sectors(rt: HostRuntime) -> Result<(), Fail> {
    crash(&rt, rt.alloc(), BEHIND)
}
