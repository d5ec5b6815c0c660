//! Why a volume could not be read.

ghost use Rattle.std.specs.Prelude.{◌≡◌};
ghost use Rattle.volume_load.specs.declared.fault.ScanFault.TheVariants.{Device, Memory};

use directory::RecordsFault;
use extents::ExtentsFault;
use inode::InodeFault;
use layout::sectors::ReadFault;
use seats::SeatFault;
use std::alloc::{AllocError, AllocFailed};
use thiserror::Error;

/// Why a volume could not be read.
#[derive(Clone, Copy, Debug, PartialEq, Eq, Error)]
pub enum ScanFault {
    /// The device failed.
    #[error("device fault")]
    Device,
    /// The sectors do not hold a mark, seats and cached nodes of a volume.
    #[error("damaged")]
    Damaged,
    /// Memory ran out.
    #[error("out of memory")]
    Memory,
}

impl From<ReadFault> for ScanFault {
    ghost from_gives = { λ _ e. e ≡ Device };

    fn from(_e: ReadFault) -> ScanFault {
        ScanFault::Device
    }
}

impl From<InodeFault> for ScanFault {
    ghost use Rattle.volume_load.specs.Faults.{of_inode};

    ghost from_gives = { λ fault e. e ≡ of_inode fault };

    fn from(e: InodeFault) -> ScanFault {
        match e {
            InodeFault::NotInode => ScanFault::Damaged,
            InodeFault::Memory => ScanFault::Memory,
        }
    }
}

impl From<ExtentsFault> for ScanFault {
    ghost use Rattle.volume_load.specs.Faults.{of_extents};

    ghost from_gives = { λ fault e. e ≡ of_extents fault };

    fn from(e: ExtentsFault) -> ScanFault {
        match e {
            ExtentsFault::NotRuns => ScanFault::Damaged,
            ExtentsFault::Memory => ScanFault::Memory,
        }
    }
}

impl From<RecordsFault> for ScanFault {
    ghost use Rattle.volume_load.specs.Faults.{of_records};

    ghost from_gives = { λ fault e. e ≡ of_records fault };

    fn from(e: RecordsFault) -> ScanFault {
        match e {
            RecordsFault::NotRecords => ScanFault::Damaged,
            RecordsFault::Memory => ScanFault::Memory,
        }
    }
}

impl From<SeatFault> for ScanFault {
    ghost use Rattle.volume_load.specs.Faults.{of_seat};

    ghost from_gives = { λ fault e. e ≡ of_seat fault };

    fn from(e: SeatFault) -> ScanFault {
        match e {
            SeatFault::NotSeat => ScanFault::Damaged,
            SeatFault::Memory => ScanFault::Memory,
        }
    }
}

impl From<AllocError> for ScanFault {
    ghost from_gives = { λ _ e. e ≡ Memory };

    fn from(_e: AllocError) -> ScanFault {
        ScanFault::Memory
    }
}

impl<T: Drop> From<AllocFailed<T>> for ScanFault {
    ghost from_gives = { λ _ e. e ≡ Memory };

    fn from(_e: AllocFailed<T>) -> ScanFault {
        ScanFault::Memory
    }
}
