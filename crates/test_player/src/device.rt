//! The device of a row, as the loop over sockets takes it.

use disk::{Device, DiskFault, SECTOR};
use event_loop::Watched;
use test_rows::TrialDevice;

/// A device that counts no calls.
#[derive(Drop)]
pub struct Uncounted<D: Device> {
    pub inner: D,
}

/// Every row has this one device, since the server is compiled once for each type of device.
pub type RowDevice = Uncounted<TrialDevice>;

impl<D: Device> Watched for Uncounted<D> {}

impl<D: Device> Device for Uncounted<D> {
    ghost keeps_word = { D.keeps_word };

    ghost size = { λ device. D.size device.inner };

    ghost failed = { λ device. D.failed device.inner };

    ghost history = { λ device. D.history device.inner };

    fn sectors(&self) -> u32 {
        self.inner.sectors()
    }

    fn failures(&self) -> u64 {
        self.inner.failures()
    }

    fn read(&mut self, n: u32, content: &mut [u8; SECTOR]) -> Result<(), DiskFault> {
        self.inner.read(n, content)
    }

    fn write(&mut self, n: u32, content: &[u8; SECTOR]) -> Result<(), DiskFault> {
        self.inner.write(n, content)
    }

    fn sync(&mut self) -> Result<(), DiskFault> {
        self.inner.sync()
    }

    ghost holds_sectors = { λ keeps device n there. D.holds_sectors keeps device.inner n there };
}
