//! The device of a volume: memory, or a file. It is one type, so that a file system is compiled
//! once.

ghost use Rattle.std.specs.Prelude.{◌≡◌, [], IfOk};
ghost use Rattle.disk.specs.Cause.{IsCounted};
ghost use Rattle.disk.specs.Moments.{at_rest};

use disk::{Device, DiskFault, FileDevice, SECTOR};
use std::alloc::{AllocError, Global};

/// Where the sectors are stored.
#[derive(Drop)]
enum Store {
    Memory(Vec<[u8; SECTOR]>),
    File(FileDevice),
}

/// Sectors in memory, without a record of the calls, or those of a file. It claims nothing.
#[derive(Drop)]
pub struct Rows {
    store: Store,
    sectors: u32,
    failures: u64,
}

impl Rows {
    /// `sectors` sectors of zeros in memory.
    pub fn new(alloc: Global, sectors: u32) -> Result<Rows, AllocError>
        ensures size { IfOk result (λ device. device.sectors ≡ sectors) }
    {
        Ok(Rows {
            store: Store::Memory(Vec::from_elem(alloc, [0; SECTOR], sectors as usize)?),
            sectors,
            failures: 0,
        })
    }

    /// The sectors of a file.
    pub fn over(file: FileDevice) -> Rows {
        Rows {
            sectors: file.sectors(),
            store: Store::File(file),
            failures: 0,
        }
    }

    /// Counts a failure.
    fn fail(&mut self) -> DiskFault
        ensures fault { result ≡ DiskFault.Fault }
        ensures counted { IsCounted self.old.failures self.new.failures }
        ensures size { self.new.sectors ≡ self.old.sectors }
    {
        self.failures = self.failures.saturating_add(1);
        DiskFault::Fault
    }

    /// Whether a sector was read.
    fn copy_out(&mut self, n: u32, content: &mut [u8; SECTOR]) -> bool
        ensures size { self.new.sectors ≡ self.old.sectors }
        ensures failures { self.new.failures ≡ self.old.failures }
    {
        match &mut self.store {
            Store::Memory(rows) => copy_row(rows, n, content),
            Store::File(file) => file.read(n, content).is_ok(),
        }
    }

    /// Whether a sector was written.
    fn copy_in(&mut self, n: u32, content: &[u8; SECTOR]) -> bool
        ensures size { self.new.sectors ≡ self.old.sectors }
        ensures failures { self.new.failures ≡ self.old.failures }
    {
        match &mut self.store {
            Store::Memory(rows) => set_row(rows, n, content),
            Store::File(file) => file.write(n, content).is_ok(),
        }
    }

    /// Whether the sectors were synced.
    fn flush(&mut self) -> bool
        ensures size { self.new.sectors ≡ self.old.sectors }
        ensures failures { self.new.failures ≡ self.old.failures }
    {
        match &mut self.store {
            Store::Memory(_) => true,
            Store::File(file) => file.sync().is_ok(),
        }
    }
}

/// Whether there is such a row, which is then copied.
fn copy_row(rows: &[[u8; SECTOR]], n: u32, content: &mut [u8; SECTOR]) -> bool {
    match rows.get(n as usize) {
        Some(row) => {
            *content = *row;
            true
        }
        None => false,
    }
}

/// Whether there is such a row, which then has this content.
fn set_row(rows: &mut [[u8; SECTOR]], n: u32, content: &[u8; SECTOR]) -> bool {
    match rows.get_mut(n as usize) {
        Some(row) => {
            *row = *content;
            true
        }
        None => false,
    }
}

impl Device for Rows {
    ghost keeps_word = { ⊥ };

    ghost size = { λ device. device.sectors };

    ghost failed = { λ device. device.failures };

    ghost history = { λ _. at_rest (λ _. []) };

    fn sectors(&self) -> u32 {
        self.sectors
    }

    fn failures(&self) -> u64 {
        self.failures
    }

    fn read(&mut self, n: u32, content: &mut [u8; SECTOR]) -> Result<(), DiskFault> {
        if n >= self.sectors {
            return Err(DiskFault::Range);
        }
        if self.copy_out(n, content) {
            Ok(())
        } else {
            Err(self.fail())
        }
    }

    fn write(&mut self, n: u32, content: &[u8; SECTOR]) -> Result<(), DiskFault> {
        if n >= self.sectors {
            return Err(DiskFault::Range);
        }
        if self.copy_in(n, content) {
            Ok(())
        } else {
            Err(self.fail())
        }
    }

    fn sync(&mut self) -> Result<(), DiskFault> {
        if self.flush() {
            Ok(())
        } else {
            Err(self.fail())
        }
    }

    ghost holds_sectors = { λ never. absurd never };
}
