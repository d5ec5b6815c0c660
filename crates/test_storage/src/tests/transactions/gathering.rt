//! Flushes behind one gate, and a checkpoint: how many syncs they take, and what the gate names
//! then.

use super::super::drivers::{content_of, filled, memory, put};
use super::SECTORS;
use super::held::{Held, Step};
use disk::{Call, MemDevice, SECTOR};
use std::test::Fail;

const STEPS: [Step<'static>; 21] = [
    Step::Apply(&[200], 1),
    Step::Apply(&[200], 2),
    Step::Apply(&[200], 3),
    Step::Apply(&[200], 4),
    Step::Apply(&[200], 5),
    Step::Apply(&[200], 6),
    Step::Apply(&[200], 7),
    Step::Apply(&[200], 8),
    Step::Apply(&[200], 9),
    Step::Apply(&[200], 10),
    Step::Flush,
    Step::Apply(&[201], 11),
    Step::Flush,
    Step::Flush,
    Step::Apply(&[200], 12),
    Step::Flush,
    Step::Superblock(13),
    Step::Checkpoint,
    Step::Checkpoint,
    Step::Apply(&[200], 14),
    Step::Flush,
];

// the first steps, by their number: the syncs since the mount, and what the gate then names
const ROWS: [(usize, u64, &[u32]); 9] = [
    (10, 0, &[]),
    (11, 2, &[200]),
    (13, 4, &[200, 201]),
    (14, 4, &[200, 201]),
    (16, 8, &[200]),
    (17, 9, &[200]),
    // the gate is closed, once; so the same sector again takes two syncs instead of four
    (18, 11, &[]),
    (19, 11, &[]),
    (21, 13, &[200]),
];

// a gate that names these sectors, or zeros if there are none
pub(super) fn gate_of(targets: &[u32]) -> [u8; SECTOR] {
    let mut sector = filled(0);
    if targets.is_empty() {
        return sector;
    }
    put(&mut sector, 3, &[1]);
    put(&mut sector, 7, &[u8::try_from(targets.len()).unwrap_or(0)]);
    for (i, target) in targets.iter().enumerate() {
        put(
            &mut sector,
            i.saturating_mul(4).saturating_add(8),
            &target.to_be_bytes(),
        );
    }
    sector
}

// the syncs after the mount's
pub(super) fn syncs(device: &MemDevice) -> u64 {
    let mut syncs = 0u64;
    for call in device.calls() {
        if matches!(call, Call::Sync) {
            syncs = syncs.saturating_add(1);
        }
    }
    syncs.saturating_sub(1)
}

#[test]
fn flushes_go_behind_one_gate(rt: HostRuntime) -> Result<(), Fail> {
    for (count, wanted, targets) in ROWS {
        let mut device = memory(rt.alloc(), SECTORS)?;
        let steps = STEPS.get(..count).unwrap_or(&STEPS);
        Held::mount(rt.alloc(), &mut device)?.take_all(rt.alloc(), steps)?;
        assert_eq!(rt; syncs(&device), wanted, "{count} steps");
        let gate = content_of(&mut device, 1)?;
        assert!(rt; gate == gate_of(targets), "{count} steps");
    }
    Ok(())
}
