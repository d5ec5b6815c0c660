//! Errors of listing, reading and filling a volume.

use fs::FsFault;
use model_tree::status::Status;
use std::alloc::{AllocError, AllocFailed};
use std::fmt::{Debug, Display, Formatter, Write};
use std::io::ErrorKind;
use std::{fmt, io};
use tar::{Kind, TarFault};
use thiserror::Error;
use volume::{MountFault, VolumeFault};
use xdr::Refusal;

/// An error of listing, reading or filling a volume. It is printed by its name.
#[derive(Debug, Drop, Error)]
pub enum ArchiveFault {
    /// The volume cannot be mounted.
    Mount(#[from] MountFault),
    /// The archive cannot be read.
    Tar(#[from] TarFault),
    /// The volume that is to be filled is not empty.
    NotEmpty,
    /// Something is wrong with this path.
    Path { reason: Reason, path: String },
    /// The volume's file failed.
    Device,
    /// The output failed.
    Io,
    Memory,
}

impl Display for ArchiveFault {
    fn fmt<W: Write>(&self, f: &mut Formatter<W>) -> fmt::Result {
        match self {
            ArchiveFault::Mount(fault) => Display::fmt(fault, f),
            ArchiveFault::Tar(fault) => Display::fmt(fault, f),
            ArchiveFault::Path { reason, path } => write!(f, "{reason} ({path})"),
            _ => Debug::fmt(self, f),
        }
    }
}

/// What is wrong with a path, or with what an archive has under it. It is printed by its name.
#[derive(Clone, Copy, Debug, PartialEq, Eq, Error)]
pub enum Reason {
    /// It leads nowhere.
    NoEntry,
    /// A name within it is a file's.
    NotDirectory,
    /// It leads to a directory.
    IsDirectory,
    /// No name of a volume: empty, `..`, longer than 255 bytes or not UTF-8.
    Name,
    /// It is there already.
    Exists,
    /// A link, which a volume does not have.
    Link,
    /// A device or a pipe, which a volume does not have.
    Special,
    /// A file whose holes are left out in the archive.
    Sparse,
    /// A kind of entry that is not known.
    Kind,
    /// An access control list that no node may have.
    Acl,
    /// A file of more than 16 MiB.
    TooLarge,
    /// The volume has no room.
    NoSpace,
    /// The volume's access control lists deny it.
    Access,
    /// Any other status.
    Refused,
}

impl Display for Reason {
    fn fmt<W: Write>(&self, f: &mut Formatter<W>) -> fmt::Result {
        Debug::fmt(self, f)
    }
}

impl Reason {
    /// Why an entry of this kind is refused.
    pub(crate) fn of_kind(kind: Kind) -> Reason {
        match kind {
            Kind::Link => Reason::Link,
            Kind::Device => Reason::Special,
            Kind::Sparse => Reason::Sparse,
            Kind::File | Kind::Directory | Kind::Unknown => Reason::Kind,
        }
    }
}

impl From<Status> for Reason {
    fn from(status: Status) -> Reason {
        match status {
            Status::Inval | Status::BadChar | Status::BadName | Status::NameTooLong => Reason::Name,
            Status::Exist => Reason::Exists,
            Status::NotDir => Reason::NotDirectory,
            Status::AttrNotSupp => Reason::Acl,
            Status::FBig => Reason::TooLarge,
            Status::NoSpc => Reason::NoSpace,
            Status::Access => Reason::Access,
            _ => Reason::Refused,
        }
    }
}

/// An error of the file system, an encoder or the archive.
#[derive(Clone, Copy, Debug, PartialEq, Eq)]
pub(crate) enum StepFault {
    Reason(Reason),
    Tar(TarFault),
    Device,
    Memory,
}

impl From<FsFault> for StepFault {
    fn from(fault: FsFault) -> StepFault {
        match fault {
            FsFault::Status(status) => StepFault::Reason(status.into()),
            FsFault::NoRoom => StepFault::Reason(Reason::Refused),
            FsFault::Memory => StepFault::Memory,
            FsFault::Device | FsFault::Down => StepFault::Device,
        }
    }
}

impl From<Refusal> for StepFault {
    fn from(refusal: Refusal) -> StepFault {
        match refusal {
            Refusal::Memory => StepFault::Memory,
            _ => StepFault::Reason(Reason::Acl),
        }
    }
}

impl From<TarFault> for StepFault {
    fn from(fault: TarFault) -> StepFault {
        StepFault::Tar(fault)
    }
}

impl From<AllocError> for StepFault {
    fn from(_: AllocError) -> StepFault {
        StepFault::Memory
    }
}

impl<T: Drop> From<AllocFailed<T>> for StepFault {
    fn from(_: AllocFailed<T>) -> StepFault {
        StepFault::Memory
    }
}

impl From<VolumeFault> for ArchiveFault {
    fn from(fault: VolumeFault) -> ArchiveFault {
        match fault {
            VolumeFault::Memory => ArchiveFault::Memory,
            VolumeFault::Device | VolumeFault::Down | VolumeFault::NoSpace => ArchiveFault::Device,
        }
    }
}

impl From<AllocError> for ArchiveFault {
    fn from(_: AllocError) -> ArchiveFault {
        ArchiveFault::Memory
    }
}

impl<T: Drop> From<AllocFailed<T>> for ArchiveFault {
    fn from(_: AllocFailed<T>) -> ArchiveFault {
        ArchiveFault::Memory
    }
}

impl From<io::Error> for ArchiveFault {
    fn from(error: io::Error) -> ArchiveFault {
        match error.kind() {
            ErrorKind::OutOfMemory => ArchiveFault::Memory,
            _ => ArchiveFault::Io,
        }
    }
}
