use thiserror::Error;

/// Why a device did not do what it was asked.
#[derive(Clone, Copy, Debug, PartialEq, Eq, Error)]
pub enum DiskFault {
    /// The device has no such sector. Nothing was touched.
    #[error("no such sector")]
    Range,
    /// The device failed, and counted it.
    #[error("the device failed")]
    Fault,
    /// No memory to make a device.
    #[error("out of memory")]
    Memory,
    /// The file of a device to be made could not be opened.
    #[error("the file could not be opened")]
    Open,
}
