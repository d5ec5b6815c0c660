//! The mounts of a volume without the file system above it.

use super::drivers::{Disk, formatted};
use std::alloc::Global;
use std::num::NonZeroUsize;
use std::test::Fail;
use volume::Volume;

/// The run that a mount begins.
fn mount(alloc: Global, disk: &mut Disk) -> Result<u32, Fail> {
    match Volume::mount(alloc, disk) {
        Ok(volume) => Ok(volume.restart_count()),
        Err(refused) => Err(refused.fault.into()),
    }
}

/// The same by a journal that keeps one sector.
fn mount_cached(alloc: Global, disk: &mut Disk) -> Result<u32, Fail> {
    match Volume::mount_cached(alloc, disk, NonZeroUsize::MIN) {
        Ok(volume) => Ok(volume.restart_count()),
        Err(refused) => Err(refused.fault.into()),
    }
}

#[test]
fn a_volume_is_mounted_with_either_cache(rt: HostRuntime) -> Result<(), Fail> {
    let mut disk = formatted(rt.alloc(), 256, 16)?;
    let first = mount(rt.alloc(), &mut disk)?;
    assert!(rt; first == 1, "another run than the first");
    let next = mount_cached(rt.alloc(), &mut disk)?;
    assert!(rt; next == 2, "another run than the second");
    Ok(())
}
