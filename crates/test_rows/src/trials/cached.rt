//! A device as Linux gives it: after a sync that failed, reads return what is not on the disk.

ghost use Rattle.std.specs.Prelude.{◌≡◌, []};
ghost use Rattle.disk.specs.Cause.{IsCounted};
ghost use Rattle.disk.specs.Moments.{at_rest};

use disk::{
    Call, CrashDevice, Device, DiskFault, Landed, MemDevice, SECTOR, Stop, Unsynced, Update,
};
use std::alloc::{AllocError, Global};

/// A sync that fails.
#[derive(Clone, Copy)]
pub struct Lapse {
    /// How many syncs come before it.
    pub number: u64,
    /// Whether what it was to fix is on the disk.
    pub lands: bool,
}

/// A disk behind the cache of a system. A sync that fails forgets what was not synced: it is not on
/// the disk, reads still return it, and the next sync succeeds without it.
///
/// It never claims to keep its word.
#[derive(Drop)]
pub struct CachedDevice {
    alloc: Global,
    disk: CrashDevice,
    sectors: u32,
    /// What reads return in place of what is on the disk.
    forgotten: Vec<Update>,
    /// The sync that is to fail.
    lapse: Option<Lapse>,
    failures: u64,
}

impl CachedDevice {
    /// A device over this disk, of which this sync fails.
    pub fn new(alloc: Global, disk: CrashDevice, lapse: Option<Lapse>) -> CachedDevice {
        CachedDevice {
            alloc,
            sectors: disk.sectors(),
            disk,
            forgotten: Vec::new(alloc),
            lapse,
            failures: 0,
        }
    }

    /// The disk.
    pub fn disk(&self) -> &CrashDevice {
        &self.disk
    }

    /// The disk, without what is forgotten.
    pub fn into_disk(self) -> CrashDevice {
        self.disk
    }

    /// The device once more, with what is forgotten, over a disk that stops there.
    pub fn again(&self, stop: Stop) -> Result<CachedDevice, DiskFault> {
        let disk = CrashDevice::new(unsynced_again(self.alloc, &self.disk)?, stop);
        let mut again = CachedDevice::new(self.alloc, disk, None);
        keep_all(&mut again.forgotten, &self.forgotten)?;
        Ok(again)
    }

    /// Counts a failure.
    fn fail(&mut self) -> DiskFault
        ensures fault { result ≡ DiskFault.Fault }
        ensures counted { IsCounted self.old.failures self.new.failures }
        ensures size { self.new.sectors ≡ self.old.sectors }
    {
        self.failures = self.failures.saturating_add(1);
        DiskFault::Fault
    }
}

impl Device for CachedDevice {
    ghost keeps_word = { ⊥ };

    ghost size = { λ device. device.sectors };

    ghost failed = { λ device. device.failures };

    ghost history = { λ _. at_rest (λ _. []) };

    fn sectors(&self) -> u32 {
        self.sectors
    }

    fn failures(&self) -> u64 {
        self.failures
    }

    fn read(&mut self, n: u32, content: &mut [u8; SECTOR]) -> Result<(), DiskFault> {
        if n >= self.sectors {
            return Err(DiskFault::Range);
        }
        if let Some(update) = newest(&self.forgotten, n) {
            *content = update.content;
            return Ok(());
        }
        match self.disk.read(n, content) {
            Ok(()) => Ok(()),
            Err(_) => Err(self.fail()),
        }
    }

    /// What is written again is no longer forgotten.
    fn write(&mut self, n: u32, content: &[u8; SECTOR]) -> Result<(), DiskFault> {
        if n >= self.sectors {
            return Err(DiskFault::Range);
        }
        match self.disk.write(n, content) {
            Ok(()) => {
                self.forgotten.retain(|update| update.target != n);
                Ok(())
            }
            Err(_) => Err(self.fail()),
        }
    }

    fn sync(&mut self) -> Result<(), DiskFault> {
        let done = match begin_sync(&mut self.lapse) {
            Some(lands) => forget(self.alloc, &mut self.disk, &mut self.forgotten, lands),
            None => self.disk.sync(),
        };
        match done {
            Ok(()) => Ok(()),
            Err(_) => Err(self.fail()),
        }
    }

    ghost holds_sectors = { λ never. absurd never };
}

/// What is forgotten of this sector.
fn newest(forgotten: &[Update], n: u32) -> Option<&Update> {
    forgotten.iter().find(|update| update.target == n)
}

/// Begins a sync. If it is the one that fails, returns whether what it was to fix is on the disk.
fn begin_sync(lapse: &mut Option<Lapse>) -> Option<bool> {
    let Lapse { number, lands } = (*lapse)?;
    *lapse = match number.checked_sub(1) {
        Some(number) => Some(Lapse { number, lands }),
        None => None,
    };
    lapse.is_none().then_some(lands)
}

/// Fails a sync: what is not synced is forgotten, or landed and is synced.
fn forget(
    alloc: Global,
    disk: &mut CrashDevice,
    forgotten: &mut Vec<Update>,
    lands: bool,
) -> Result<(), DiskFault> {
    let unsynced = match disk.unsynced(alloc) {
        Ok(unsynced) => unsynced,
        Err(_) => return Err(DiskFault::Memory),
    };
    let landing = if lands {
        newest_of(alloc, &unsynced)
    } else {
        keep_unsynced(disk, forgotten, &unsynced)?;
        Ok(Vec::new(alloc))
    };
    match landing {
        Ok(landing) => *disk = CrashDevice::new(disk.landed(alloc, &landing)?, Stop::Never),
        Err(_) => return Err(DiskFault::Memory),
    }
    Err(DiskFault::Fault)
}

/// The landing in which each sector has its newest content.
fn newest_of(alloc: Global, unsynced: &[Unsynced]) -> Result<Vec<Landed>, AllocError> {
    let mut landing = Vec::new(alloc);
    for sector in unsynced {
        landing.push(Landed {
            sector: sector.sector,
            content: sector.contents,
        })?;
    }
    Ok(landing)
}

/// Keeps the newest contents of these sectors for reads.
fn keep_unsynced(
    disk: &mut CrashDevice,
    forgotten: &mut Vec<Update>,
    unsynced: &[Unsynced],
) -> Result<(), DiskFault> {
    for sector in unsynced {
        let mut content = [0; SECTOR];
        disk.read(sector.sector, &mut content)?;
        keep(forgotten, sector.sector, content)?;
    }
    Ok(())
}

/// Keeps what an earlier device has forgotten.
fn keep_all(forgotten: &mut Vec<Update>, earlier: &[Update]) -> Result<(), DiskFault> {
    for update in earlier {
        keep(forgotten, update.target, update.content)?;
    }
    Ok(())
}

fn keep(forgotten: &mut Vec<Update>, target: u32, content: [u8; SECTOR]) -> Result<(), DiskFault> {
    match forgotten.push(Update { target, content }) {
        Ok(()) => Ok(()),
        Err(_) => Err(DiskFault::Memory),
    }
}

/// A disk once more: what is fixed, and what is not synced still.
pub fn unsynced_again(alloc: Global, disk: &CrashDevice) -> Result<MemDevice, DiskFault> {
    let mut copy = disk.landed(alloc, &[])?;
    for call in disk.calls().iter().skip(synced_count(disk.calls())) {
        if let Call::Write(update) = call {
            copy.write(update.target, &update.content)?;
        }
    }
    Ok(copy)
}

/// How many calls there are up to the last sync, and with it.
fn synced_count(calls: &[Call]) -> usize {
    let unsynced = calls
        .iter()
        .rev()
        .take_while(|call| matches!(call, Call::Write(_)));
    calls.len().saturating_sub(unsynced.count())
}
