//! The device of a row.

use super::cached::{CachedDevice, Lapse};
use disk::{CallKind, CrashDevice, FaultDevice, MemDevice, Stop};
use std::alloc::Global;

/// A call that a row does not come to.
const NO_CALL: u64 = u64::MAX;

/// A device in memory, which may crash at a step or fail in a call. Every row has this one type,
/// since the server is compiled once for each type of device.
pub type TrialDevice = FaultDevice<CachedDevice>;

/// How a call of a device fails.
#[derive(Clone, Copy)]
pub enum Failing {
    /// One of this kind does nothing else.
    Call(CallKind),
    /// A sync forgets what it was to fix, which is on the disk or not.
    Sync { lands: bool },
}

/// A device that goes on from this one.
pub fn lasting(alloc: Global, device: MemDevice) -> TrialDevice {
    crashing(alloc, device, Stop::Never)
}

/// One that crashes there.
pub fn crashing(alloc: Global, device: MemDevice, stop: Stop) -> TrialDevice {
    over(CachedDevice::new(alloc, CrashDevice::new(device, stop), None))
}

/// One of which no call fails except those of the inner one.
pub fn over(device: CachedDevice) -> TrialDevice {
    FaultDevice::new(device, CallKind::Sync, NO_CALL)
}

/// One whose call of this number fails so.
pub fn failing_at(alloc: Global, device: MemDevice, way: Failing, number: u64) -> TrialDevice {
    let disk = CrashDevice::new(device, Stop::Never);
    match way {
        Failing::Call(kind) => {
            FaultDevice::new(CachedDevice::new(alloc, disk, None), kind, number)
        }
        Failing::Sync { lands } => {
            over(CachedDevice::new(alloc, disk, Some(Lapse { number, lands })))
        }
    }
}

/// The disk below a device.
pub fn disk_of(device: TrialDevice) -> CrashDevice {
    device.into_inner().into_disk()
}
