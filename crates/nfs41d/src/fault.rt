//! Why the program fails.

use archive::ArchiveFault;
use disk::{CallKind, Failure};
use std::alloc::{AllocError, AllocFailed};
use std::fmt::{Display, Formatter, Write};
use std::net::AddrParseError;
use std::{fmt, io};
use system::{Refused, Unbegun};
use thiserror::Error;

/// Why the program fails. It prints the name.
#[derive(Debug, Drop, Error)]
pub enum Fault {
    /// The words are no request.
    #[error("Usage")]
    Usage(Usage),
    /// The file is a volume already.
    #[error("Volume (format --force overwrites it)")]
    Volume,
    /// The volume's file failed, in this way.
    #[error("Device ({0})")]
    Device(DeviceFailure),
    /// Nothing was listed, read or put.
    #[error("{0}")]
    Archive(#[from] ArchiveFault),
    /// What any program can fail with.
    #[error("{0}")]
    Refused(#[from] Refused),
}

/// Which call of the volume's file failed, and what the system said.
#[derive(Clone, Copy, Debug)]
pub struct DeviceFailure(Failure);

impl From<Failure> for DeviceFailure {
    fn from(failure: Failure) -> DeviceFailure {
        DeviceFailure(failure)
    }
}

impl Display for DeviceFailure {
    fn fmt<W: Write>(&self, f: &mut Formatter<W>) -> fmt::Result {
        let call = match self.0.call {
            CallKind::Read => "read",
            CallKind::Write => "write",
            CallKind::Sync => "sync",
        };
        write!(f, "{call} failed: {}", self.0.kind)
    }
}

/// What is wrong with the words.
#[derive(Clone, Copy, Debug, PartialEq, Eq)]
pub enum Usage {
    /// They have no form.
    Form,
    /// They have no name for the server, and the one that it has by default is too long.
    Nameless,
}

impl Usage {
    /// Which words there may be.
    pub fn text(self) -> &'static str {
        match self {
            Usage::Form => {
                "nfs41d [[serve] [OPTIONS] FILE [ADDRESS:PORT] | \
                 format [--force] [--nodes N] [--log SECTORS] [--seats P] FILE SIZE | \
                 format [--force] FILE SECTORS NODES | check FILE | ls FILE PATH | \
                 get FILE PATH | tar FILE | put FILE TAR | help [COMMAND] | --version]"
            }
            Usage::Nameless => {
                "nfs41d --name NAME FILE [ADDRESS:PORT], \
                 as the name of the host and the path of the volume exceed 1024 bytes"
            }
        }
    }
}

impl From<Unbegun> for Fault {
    fn from(unbegun: Unbegun) -> Fault {
        match unbegun {
            Unbegun::Word => Fault::Usage(Usage::Form),
            Unbegun::Refused(refused) => Fault::Refused(refused),
        }
    }
}

impl From<AddrParseError> for Fault {
    fn from(_: AddrParseError) -> Fault {
        Fault::Usage(Usage::Form)
    }
}

impl From<AllocError> for Fault {
    fn from(error: AllocError) -> Fault {
        Fault::Refused(error.into())
    }
}

impl<T: Drop> From<AllocFailed<T>> for Fault {
    fn from(failed: AllocFailed<T>) -> Fault {
        Fault::Refused(failed.into())
    }
}

impl From<io::Error> for Fault {
    fn from(error: io::Error) -> Fault {
        Fault::Refused(error.into())
    }
}
