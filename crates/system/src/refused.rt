//! Why a program fails.

use disk::DiskFault;
use server::{FormatFault, MountFault, ServerFault};
use std::alloc::{AllocError, AllocFailed};
use std::fmt::{Debug, Display, Formatter, Write};
use std::io::ErrorKind;
use std::{fmt, io};
use thiserror::Error;

/// Why a program fails. It prints the name.
#[derive(Clone, Copy, Debug, Error)]
pub enum Refused {
    /// A file could not be opened or read.
    Open,
    /// Input or output failed.
    Io,
    /// No memory.
    Memory,
    /// No volume has this many sectors and nodes.
    Size,
    /// The device failed.
    Device,
    /// No volume.
    NotVolume,
    /// A volume that is not as formats and mounts leave it.
    Damaged,
    /// A volume that was mounted as often as can be counted.
    Worn,
    /// There are 16 connections already.
    Full,
    /// The server has no such connection.
    NoConnection,
    /// The server closed the connection.
    Closed,
}

impl Display for Refused {
    fn fmt<W: Write>(&self, f: &mut Formatter<W>) -> fmt::Result {
        Debug::fmt(self, f)
    }
}

impl From<AllocError> for Refused {
    fn from(_: AllocError) -> Refused {
        Refused::Memory
    }
}

impl<T: Drop> From<AllocFailed<T>> for Refused {
    fn from(_: AllocFailed<T>) -> Refused {
        Refused::Memory
    }
}

impl From<io::Error> for Refused {
    fn from(error: io::Error) -> Refused {
        match error.kind() {
            ErrorKind::OutOfMemory => Refused::Memory,
            _ => Refused::Io,
        }
    }
}

impl From<DiskFault> for Refused {
    fn from(fault: DiskFault) -> Refused {
        match fault {
            DiskFault::Open => Refused::Open,
            DiskFault::Memory => Refused::Memory,
            DiskFault::Range | DiskFault::Fault => Refused::Device,
        }
    }
}

impl From<FormatFault> for Refused {
    fn from(fault: FormatFault) -> Refused {
        match fault {
            FormatFault::Device => Refused::Device,
            FormatFault::Memory => Refused::Memory,
            FormatFault::Size => Refused::Size,
        }
    }
}

impl From<MountFault> for Refused {
    fn from(fault: MountFault) -> Refused {
        match fault {
            MountFault::Device => Refused::Device,
            MountFault::Damaged => Refused::Damaged,
            MountFault::NotVolume => Refused::NotVolume,
            MountFault::Worn => Refused::Worn,
            MountFault::Memory => Refused::Memory,
        }
    }
}

impl From<ServerFault> for Refused {
    fn from(fault: ServerFault) -> Refused {
        match fault {
            ServerFault::NoConnection => Refused::NoConnection,
            ServerFault::Full => Refused::Full,
            ServerFault::Closed => Refused::Closed,
            ServerFault::Device => Refused::Device,
            ServerFault::Memory => Refused::Memory,
        }
    }
}
