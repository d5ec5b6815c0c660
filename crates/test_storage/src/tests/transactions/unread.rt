//! A format that leaves the log as it is, and sectors that nothing reads.

use super::super::drivers::{byte_of, fill, memory, sync};
use super::SECTORS;
use super::held::{Held, format_without};
use disk::{DiskFault, MemDevice};
use std::alloc::Global;
use std::test::Fail;

// what fills each sector before
const BEFORE: u8 = 7;

fn old_device(alloc: Global) -> Result<MemDevice, DiskFault> {
    let mut device = memory(alloc, SECTORS)?;
    for n in 0..SECTORS {
        fill(&mut device, n, BEFORE)?;
    }
    sync(&mut device)?;
    Ok(device)
}

// what fills it afterwards
fn wanted(n: u32) -> u8 {
    match n {
        0 => 8,
        98 | 149 | 180 | 207 => 9,
        150..=179 | 208.. => BEFORE,
        _ => 0,
    }
}

#[test]
fn sectors_that_nothing_reads_stay(rt: HostRuntime) -> Result<(), Fail> {
    let mut device = old_device(rt.alloc())?;
    // the range has two of these
    let updated = [98, 149, 150, 179, 180, 207];
    format_without(rt.alloc(), &mut device, 8, (&updated, 9))?;
    for n in 0..SECTORS {
        assert_eq!(rt; byte_of(&mut device, n)?, wanted(n), "{n}");
    }
    let mut held = Held::mount_behind(rt.alloc(), &mut device)?;
    for n in 0..SECTORS {
        if held.is_shown(n) {
            assert_eq!(rt; held.byte_at(n)?, wanted(n), "{n}");
        }
    }
    Ok(())
}
