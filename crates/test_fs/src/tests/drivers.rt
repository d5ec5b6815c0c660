//! The calls of a file system and of a device. Each is here once, with no contract: a call brings
//! all that it promises into the proof of its caller.

use super::sectors::Image;
use disk::{Call, CallKind, CrashDevice, Device, FaultDevice, MemDevice, SECTOR, Stop};
use fs::{Fs, MountFault};
use std::alloc::Global;
use std::num::NonZeroUsize;
use std::test::Fail;

/// Memory that crashes, or of which a call fails. It is the one type of device that a file system
/// is compiled for.
pub(super) type Disk = FaultDevice<CrashDevice>;

/// No call of a device.
pub(super) const NO_CALL: (CallKind, u64) = (CallKind::Read, u64::MAX);

/// Memory with these sectors that stops there, and of which the call of this kind and number fails.
pub(super) fn disk_of(
    alloc: Global,
    image: Image,
    stop: Stop,
    failing: (CallKind, u64),
) -> Result<Disk, Fail> {
    if image.len() > u32::MAX as usize {
        return Err("too many sectors".into());
    }
    let device = CrashDevice::new(MemDevice::with_sectors(alloc, image)?, stop);
    Ok(FaultDevice::new(device, failing.0, failing.1))
}

/// A new volume.
pub(super) fn formatted(alloc: Global, sectors: u32, nodes: u32) -> Result<Disk, Fail> {
    let device = CrashDevice::new(MemDevice::new(alloc, sectors)?, Stop::Never);
    let mut disk = FaultDevice::new(device, NO_CALL.0, NO_CALL.1);
    Fs::format(alloc, &mut disk, nodes)?;
    Ok(disk)
}

/// Mounts a disk, whatever it holds, with a journal that keeps one sector, and leaves it. Returns
/// the run, or why it was refused.
pub(super) fn try_mount(alloc: Global, disk: &mut Disk) -> Result<u32, MountFault> {
    match Fs::mount_cached(alloc, disk, NonZeroUsize::MIN) {
        Ok(fs) => Ok(fs.restart_count()),
        Err(refused) => Err(refused.fault),
    }
}

/// Whether a disk holds a tree.
pub(super) fn check(alloc: Global, disk: &mut Disk) -> Result<(), MountFault> {
    let mut disk = disk;
    Fs::check(alloc, &mut disk)?;
    Ok(())
}

/// What a check and a mount both return, if they return the same, and neither writes to what it
/// refuses.
pub(super) fn judge(alloc: Global, disk: Disk) -> Option<Result<(), MountFault>> {
    let mut disk = disk;
    let checked = check(alloc, &mut disk);
    let holds = match try_mount(alloc, &mut disk) {
        Ok(_) => checked.is_ok(),
        Err(fault) => checked == Err(fault) && is_as_it_was(&disk.into_inner()),
    };
    holds.then_some(checked)
}

/// Whether nothing was written to it.
fn is_as_it_was(device: &CrashDevice) -> bool {
    device.calls().iter().all(|call| matches!(call, Call::Sync))
}

/// The sectors of a device.
pub(super) fn image_of<D: Device>(alloc: Global, device: &mut D) -> Result<Image, Fail> {
    let mut image = Vec::new(alloc);
    for number in 0..device.sectors() {
        let mut content = [0; SECTOR];
        device.read(number, &mut content)?;
        image.push(content)?;
    }
    Ok(image)
}
