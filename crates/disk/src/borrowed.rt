//! A borrowed device is a device.

use crate::{Device, DiskFault, SECTOR};

impl<D: Device> Device for &mut D {
    ghost keeps_word = { D.keeps_word };

    ghost size = { λ device. D.size device.now };

    ghost failed = { λ device. D.failed device.now };

    ghost history = { λ device. D.history device.now };

    fn sectors(&self) -> u32 {
        (**self).sectors()
    }

    fn failures(&self) -> u64 {
        (**self).failures()
    }

    fn read(&mut self, n: u32, content: &mut [u8; SECTOR]) -> Result<(), DiskFault> {
        (**self).read(n, content)
    }

    fn read_run(&mut self, first: u32, contents: &mut [[u8; SECTOR]]) -> Result<(), DiskFault> {
        (**self).read_run(first, contents)
    }

    fn write(&mut self, n: u32, content: &[u8; SECTOR]) -> Result<(), DiskFault> {
        (**self).write(n, content)
    }

    fn sync(&mut self) -> Result<(), DiskFault> {
        (**self).sync()
    }

    ghost holds_sectors = { λ keeps device n there. D.holds_sectors keeps device.now n there };
}
