//! What a journal keeps in memory of what it read.

use super::super::drivers::memory;
use super::SECTORS;
use super::held::{Held, Step};
use disk::{Device, DiskFault, SECTOR};
use journal::JournalFault;
use std::alloc::Global;
use std::num::NonZeroUsize;
use std::test::Fail;

// a device that counts how often each of these sectors is read
#[derive(Drop)]
struct Counting<D: Device> {
    device: D,
    reads: [u64; 256],
}

impl<D: Device> Device for Counting<D> {
    ghost keeps_word = { D.keeps_word };

    ghost size = { λ counting. D.size counting.device };

    ghost failed = { λ counting. D.failed counting.device };

    ghost history = { λ counting. D.history counting.device };

    fn sectors(&self) -> u32 {
        self.device.sectors()
    }

    fn failures(&self) -> u64 {
        self.device.failures()
    }

    fn read(&mut self, n: u32, content: &mut [u8; SECTOR]) -> Result<(), DiskFault> {
        if n < 256 {
            let place = n as usize;
            self.reads[place] = self.reads[place].saturating_add(1);
        }
        self.device.read(n, content)
    }

    fn write(&mut self, n: u32, content: &[u8; SECTOR]) -> Result<(), DiskFault> {
        self.device.write(n, content)
    }

    fn sync(&mut self) -> Result<(), DiskFault> {
        self.device.sync()
    }

    ghost holds_sectors = { λ keeps counting n there. D.holds_sectors keeps counting.device n there };
}

// whether the steps return what is expected, and how often the device read this sector
fn reads_of(
    alloc: Global,
    cached: usize,
    steps: &[(Step<'_>, u8)],
    sector: usize,
) -> Result<(bool, u64), JournalFault> {
    let mut counting = Counting {
        device: memory(alloc, SECTORS)?,
        reads: [0; 256],
    };
    let cached = NonZeroUsize::new(cached).unwrap_or(NonZeroUsize::MIN);
    let mut is_right = true;
    {
        let mut held = Held::mount_cached(alloc, &mut counting, cached)?;
        for (step, wanted) in steps {
            let answer = held.take(alloc, *step)?;
            is_right = is_right && answer == *wanted;
        }
    }
    Ok((is_right, counting.reads.get(sector).copied().unwrap_or(0)))
}

const BETWEEN: [(Step<'static>, u8); 3] = [
    (Step::Byte(200), 0),
    (Step::Byte(201), 0),
    (Step::Byte(200), 0),
];

// how many sectors are kept, steps with what they return, and how often a sector is then read
type Row = (usize, &'static [(Step<'static>, u8)], usize, u64);

const ROWS: [Row; 7] = [
    // twice
    (64, &[(Step::Byte(200), 0), (Step::Byte(200), 0)], 200, 1),
    (1, &[(Step::Byte(200), 0), (Step::Byte(200), 0)], 200, 1),
    // with another between
    (64, &BETWEEN, 200, 1),
    (1, &BETWEEN, 200, 2),
    // what waits is read in memory, and what was flushed behind the gate
    (
        64,
        &[
            (Step::Byte(200), 0),
            (Step::Apply(&[200], 7), 0),
            (Step::Byte(200), 7),
            (Step::Flush, 0),
            (Step::Byte(200), 7),
            (Step::Byte(200), 7),
        ],
        200,
        1,
    ),
    // what the gate shows is in memory, also for the flush that copies it home, and a checkpoint
    (
        64,
        &[
            (Step::Apply(&[200], 7), 0),
            (Step::Flush, 0),
            (Step::Byte(200), 7),
            (Step::Apply(&[200], 8), 0),
            (Step::Flush, 0),
            (Step::Byte(200), 8),
            (Step::Checkpoint, 0),
            (Step::Byte(200), 8),
        ],
        2,
        0,
    ),
    // the first sector is not kept
    (
        64,
        &[
            (Step::Byte(0), 0),
            (Step::Superblock(9), 0),
            (Step::Byte(0), 9),
        ],
        0,
        2,
    ),
];

#[test]
fn sectors_are_read_once(rt: HostRuntime) -> Result<(), Fail> {
    for (i, (cached, steps, sector, wanted)) in ROWS.iter().enumerate() {
        let (is_right, reads) = reads_of(rt.alloc(), *cached, steps, *sector)?;
        assert!(rt; is_right, "row {i}");
        assert_eq!(rt; reads, *wanted, "row {i}");
    }
    Ok(())
}
