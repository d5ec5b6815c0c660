//! The device of a volume that nobody serves.

ghost use Rattle.std.specs.Prelude.{◌≡◌, []};
ghost use Rattle.disk.specs.Cause.{IsCounted};
ghost use Rattle.disk.specs.Moments.{at_rest};

use disk::{Device, DiskFault, FileDevice, SECTOR};
use std::alloc::{AllocError, Global};

/// A volume's file: one that is never written, as what is written is kept in memory, or one that
/// is synced only at the end. It claims nothing of what it holds.
#[derive(Drop)]
pub(crate) struct Shelf {
    file: FileDevice,
    sectors: u32,
    /// What was written, if the file is not.
    written: Option<Written>,
    failures: u64,
}

/// Sectors that were written, each once.
#[derive(Drop)]
struct Written {
    numbers: Vec<u32>,
    contents: Vec<[u8; SECTOR]>,
}

impl Written {
    fn new(alloc: Global) -> Written {
        Written {
            numbers: Vec::new(alloc),
            contents: Vec::new(alloc),
        }
    }

    fn get(&self, n: u32) -> Option<&[u8; SECTOR]> {
        let place = self.numbers.iter().position(|number| *number == n)?;
        self.contents.get(place)
    }

    fn put(&mut self, n: u32, content: &[u8; SECTOR]) -> Result<(), AllocError> {
        if let Some(place) = self.numbers.iter().position(|number| *number == n)
            && let Some(old) = self.contents.get_mut(place)
        {
            *old = *content;
            return Ok(());
        }
        self.contents.push(*content)?;
        self.numbers.push(n)?;
        Ok(())
    }
}

impl Shelf {
    /// A device whose file is not written.
    pub(crate) fn to_read(alloc: Global, file: FileDevice) -> Shelf {
        Shelf {
            sectors: file.sectors(),
            file,
            written: Some(Written::new(alloc)),
            failures: 0,
        }
    }

    /// A device whose file is written, but not synced.
    pub(crate) fn to_fill(file: FileDevice) -> Shelf {
        Shelf {
            sectors: file.sectors(),
            file,
            written: None,
            failures: 0,
        }
    }

    /// Syncs the file. Returns whether it holds all that was written.
    pub(crate) fn finish(self) -> bool {
        let Shelf { mut file, .. } = self;
        file.sync().is_ok()
    }

    /// Counts a failure.
    fn fail(&mut self) -> DiskFault
        ensures fault { result ≡ DiskFault.Fault }
        ensures counted { IsCounted self.old.failures self.new.failures }
        ensures size { self.new.sectors ≡ self.old.sectors }
    {
        self.failures = self.failures.saturating_add(1);
        DiskFault::Fault
    }

    /// Whether a sector was read.
    fn copy_out(&mut self, n: u32, content: &mut [u8; SECTOR]) -> bool
        ensures size { self.new.sectors ≡ self.old.sectors }
        ensures failures { self.new.failures ≡ self.old.failures }
    {
        if let Some(written) = &self.written
            && let Some(newest) = written.get(n)
        {
            *content = *newest;
            return true;
        }
        self.file.read(n, content).is_ok()
    }

    /// Whether a sector was written.
    fn copy_in(&mut self, n: u32, content: &[u8; SECTOR]) -> bool
        ensures size { self.new.sectors ≡ self.old.sectors }
        ensures failures { self.new.failures ≡ self.old.failures }
    {
        match &mut self.written {
            Some(written) => written.put(n, content).is_ok(),
            None => self.file.write(n, content).is_ok(),
        }
    }
}

impl Device for Shelf {
    ghost keeps_word = { ⊥ };

    ghost size = { λ device. device.sectors };

    ghost failed = { λ device. device.failures };

    ghost history = { λ _. at_rest (λ _. []) };

    fn sectors(&self) -> u32 {
        self.sectors
    }

    fn failures(&self) -> u64 {
        self.failures
    }

    fn read(&mut self, n: u32, content: &mut [u8; SECTOR]) -> Result<(), DiskFault> {
        if n >= self.sectors {
            return Err(DiskFault::Range);
        }
        if self.copy_out(n, content) {
            Ok(())
        } else {
            Err(self.fail())
        }
    }

    fn write(&mut self, n: u32, content: &[u8; SECTOR]) -> Result<(), DiskFault> {
        if n >= self.sectors {
            return Err(DiskFault::Range);
        }
        if self.copy_in(n, content) {
            Ok(())
        } else {
            Err(self.fail())
        }
    }

    /// Does nothing: a volume that is to be filled was empty, so a crash takes nothing from it.
    fn sync(&mut self) -> Result<(), DiskFault> {
        Ok(())
    }

    ghost holds_sectors = { λ never. absurd never };
}
