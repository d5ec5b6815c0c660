//! Devices whose calls are counted.

use disk::{Counts, CrashDevice, Device, FaultDevice, FileDevice, MemDevice};

/// A device that may count its calls.
pub trait Watched: Device {
    /// How often each call came, if the device counts.
    fn calls(&self) -> Option<Counts> {
        None
    }
}

impl Watched for FileDevice {
    fn calls(&self) -> Option<Counts> {
        Some(self.counts())
    }
}

impl Watched for MemDevice {}

impl Watched for CrashDevice {}

impl<D: Watched + Drop> Watched for FaultDevice<D> {}

impl<D: Watched> Watched for &mut D {
    fn calls(&self) -> Option<Counts> {
        (**self).calls()
    }
}
