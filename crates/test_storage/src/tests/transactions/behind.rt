//! A log behind what transactions write, which may name a sector again: a flush of the same sector
//! copies nothing home, and the later content counts.

use super::super::drivers::{content_of, memory};
use super::SECTORS;
use super::gathering::{gate_of, syncs};
use super::held::{Held, Step};
use std::test::Fail;

const STEPS: [Step<'static>; 5] = [
    Step::Apply(&[200], 1),
    Step::Flush,
    Step::Apply(&[201, 200], 2),
    Step::Flush,
    Step::Checkpoint,
];

// the first steps, by their number: the syncs since the mount, what the gate then names, and what
// fills sector 200 after another mount
const ROWS: [(usize, u64, &[u32], u8); 4] = [
    (1, 0, &[], 0),
    (2, 2, &[200], 1),
    (4, 4, &[200, 201, 200], 2),
    (5, 6, &[], 2),
];

#[test]
fn the_later_content_counts(rt: HostRuntime) -> Result<(), Fail> {
    for (count, wanted, targets, byte) in ROWS {
        let mut device = memory(rt.alloc(), SECTORS)?;
        let steps = STEPS.get(..count).unwrap_or(&STEPS);
        Held::mount_behind(rt.alloc(), &mut device)?.take_all(rt.alloc(), steps)?;
        assert_eq!(rt; syncs(&device), wanted, "{count} steps");
        let gate = content_of(&mut device, 1)?;
        assert!(rt; gate == gate_of(targets), "{count} steps");
        let found = Held::mount_behind(rt.alloc(), &mut device)?.byte_at(200)?;
        assert_eq!(rt; found, byte, "{count} steps");
    }
    Ok(())
}

// the log has room for 48 sectors: the flush that needs the 49th copies home what it names
#[test]
fn a_full_log_is_copied_home(rt: HostRuntime) -> Result<(), Fail> {
    let mut device = memory(rt.alloc(), SECTORS)?;
    {
        let mut held = Held::mount_behind(rt.alloc(), &mut device)?;
        for byte in 1..50 {
            held.take_all(rt.alloc(), &[Step::Apply(&[200], byte), Step::Flush])?;
        }
        assert_eq!(rt; held.byte_at(200)?, 49);
    }
    assert_eq!(rt; syncs(&device), 48 * 2 + 4);
    assert!(rt; content_of(&mut device, 1)? == gate_of(&[200]));
    Ok(())
}
