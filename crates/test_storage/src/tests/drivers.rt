//! Numbers that look random, and the calls of devices and of sectors. Each of these is here once,
//! with no contract: a call brings all that it promises into the proof of its caller.

ghost use Rattle.std.specs.Prelude.{◌<◌};

use disk::{CrashDevice, Device, DiskFault, Landed, MemDevice, SECTOR, Stop};
use std::alloc::Global;

/// Numbers that look random.
#[derive(Drop)]
pub(super) struct Random(pub(super) u64);

impl Random {
    pub(super) fn below(&mut self, end: usize) -> usize
        requires { 0 < end }
        ensures { result < end }
    {
        self.0 = self
            .0
            .wrapping_mul(6_364_136_223_846_793_005)
            .wrapping_add(1_442_695_040_888_963_407);
        (self.0 >> 33) as usize % end
    }
}

pub(super) fn filled(byte: u8) -> [u8; SECTOR] {
    [byte; SECTOR]
}

/// Changes bytes of a sector, each by its place.
pub(super) fn change(sector: &mut [u8; SECTOR], bytes: &[(usize, u8)]) {
    for (place, byte) in bytes {
        if *place < SECTOR {
            sector[*place] = *byte;
        }
    }
}

/// Puts bytes into a sector from a place on, if they fit.
pub(super) fn put(sector: &mut [u8; SECTOR], at: usize, bytes: &[u8]) {
    if at < SECTOR && bytes.len() <= SECTOR - at {
        sector[at..at + bytes.len()].copy_from_slice(bytes);
    }
}

pub(super) fn memory(alloc: Global, sectors: u32) -> Result<MemDevice, DiskFault> {
    MemDevice::new(alloc, sectors)
}

/// A device of zeros that stops there.
pub(super) fn stopping(alloc: Global, sectors: u32, stop: Stop) -> Result<CrashDevice, DiskFault> {
    Ok(CrashDevice::new(memory(alloc, sectors)?, stop))
}

/// What is found if the power goes and this lands.
pub(super) fn landed(
    device: &CrashDevice,
    alloc: Global,
    landing: &[Landed],
) -> Result<MemDevice, DiskFault> {
    device.landed(alloc, landing)
}

pub(super) fn write<D: Device>(
    device: &mut D,
    n: u32,
    content: &[u8; SECTOR],
) -> Result<(), DiskFault> {
    device.write(n, content)
}

pub(super) fn fill<D: Device>(device: &mut D, n: u32, byte: u8) -> Result<(), DiskFault> {
    write(device, n, &filled(byte))
}

pub(super) fn sync<D: Device>(device: &mut D) -> Result<(), DiskFault> {
    device.sync()
}

pub(super) fn content_of<D: Device>(device: &mut D, n: u32) -> Result<[u8; SECTOR], DiskFault> {
    let mut content = filled(255);
    device.read(n, &mut content)?;
    Ok(content)
}

/// The byte that a sector is filled with, or 255.
pub(super) fn byte_in(content: &[u8; SECTOR]) -> u8 {
    let byte = content[0];
    if *content == filled(byte) { byte } else { 255 }
}

pub(super) fn byte_of<D: Device>(device: &mut D, n: u32) -> Result<u8, DiskFault> {
    Ok(byte_in(&content_of(device, n)?))
}
