//! Why a file system does not do what it is asked to do.

ghost use Rattle.std.specs.Prelude.{◌≡◌};

use model::not_done::NotDone;
use model_tree::status::Status;
use std::alloc::AllocError;
use thiserror::Error;
use volume::VolumeFault;

/// Why an operation was not done.
#[derive(Clone, Copy, Debug, PartialEq, Eq, Error)]
pub enum FsFault {
    /// Refused with this status (RFC 8881, section 15.1). Nothing changed.
    #[error("{0:?}")]
    Status(Status),
    /// Nothing refuses it, but its reply has no room for the result. Nothing changed.
    #[error("NoRoom")]
    NoRoom,
    /// No memory. Nothing changed.
    #[error("Memory")]
    Memory,
    /// The device failed: it is not known whether the change was kept. The file system is down from
    /// then on.
    #[error("Device")]
    Device,
    /// Down since the device failed.
    #[error("Down")]
    Down,
}

impl From<AllocError> for FsFault {
    ghost use Rattle.fs.specs.declared.fault.FsFault.TheVariants.{Memory};

    ghost from_gives = { λ _ fault. fault ≡ Memory };

    fn from(_: AllocError) -> Self {
        FsFault::Memory
    }
}

impl From<NotDone> for FsFault {
    ghost use Rattle.fs.specs.Refusals.{fault_of};

    ghost from_gives = { λ refusal fault. fault ≡ fault_of refusal };

    fn from(refusal: NotDone) -> Self {
        match refusal {
            NotDone::Status(status) => FsFault::Status(status),
            NotDone::Memory => FsFault::Memory,
        }
    }
}

impl From<Status> for FsFault {
    ghost use Rattle.fs.specs.declared.fault.FsFault.TheVariants as faults;

    ghost from_gives = { λ status fault. fault ≡ faults.Status status };

    fn from(status: Status) -> Self {
        FsFault::Status(status)
    }
}

impl From<VolumeFault> for FsFault {
    ghost use Rattle.fs.specs.Refusals.{volume_fault};

    ghost from_gives = { λ refusal fault. fault ≡ volume_fault refusal };

    fn from(fault: VolumeFault) -> Self {
        match fault {
            VolumeFault::NoSpace => FsFault::Status(Status::NoSpc),
            VolumeFault::Memory => FsFault::Memory,
            VolumeFault::Device => FsFault::Device,
            VolumeFault::Down => FsFault::Down,
        }
    }
}
