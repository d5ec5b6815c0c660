//! Why a volume is not made, mounted or changed.

ghost use Rattle.std.specs.Prelude.{◌≡◌};

use journal::JournalFault;
use layout::sectors::ReadFault;
use migration::MigrationFault;
use node_table::TableFault;
use std::alloc::AllocError;
use thiserror::Error;
use volume_load::ScanFault;

/// Why a device was not formatted.
#[derive(Clone, Copy, Debug, PartialEq, Eq, Error)]
pub enum FormatFault {
    /// The device failed; a crash within the format may leave the same.
    #[error("Device")]
    Device,
    /// No memory. Nothing was written.
    #[error("Memory")]
    Memory,
    /// No volume has this many sectors and nodes, or this geometry. Nothing was written.
    #[error("Size")]
    Size,
}

/// Why a volume was not mounted.
#[derive(Clone, Copy, Debug, PartialEq, Eq, Error)]
pub enum MountFault {
    /// The device failed; a volume of version 1 may be migrated in part, and the restart count may
    /// be raised.
    #[error("Device")]
    Device,
    /// A volume, but it holds no tree.
    #[error("Damaged")]
    Damaged,
    /// No volume of version 1, 2 or 3 and of the device's size.
    #[error("NotVolume")]
    NotVolume,
    /// The restart count is full.
    #[error("Worn")]
    Worn,
    /// No memory.
    #[error("Memory")]
    Memory,
}

/// Why a volume was not changed or read.
#[derive(Clone, Copy, Debug, PartialEq, Eq, Error)]
pub enum VolumeFault {
    /// The tree would not fit. Nothing changed.
    #[error("NoSpace")]
    NoSpace,
    /// No memory. Nothing changed.
    #[error("Memory")]
    Memory,
    /// The device failed: it is not known whether the change was kept. The volume is down from then
    /// on.
    #[error("Device")]
    Device,
    /// Down since the device failed.
    #[error("Down")]
    Down,
}

/// Why the bytes of a file were not read.
#[derive(Clone, Copy, Debug, PartialEq, Eq, Error)]
pub enum ReadingFault {
    /// The device failed.
    #[error("device fault")]
    Device,
    /// Memory ran out.
    #[error("out of memory")]
    Memory,
}

impl From<JournalFault> for VolumeFault {
    ghost use Rattle.volume.specs.Refusals.{fault_of};

    ghost from_gives = { λ refusal fault. fault ≡ fault_of refusal };

    fn from(fault: JournalFault) -> Self {
        match fault {
            JournalFault::Memory => VolumeFault::Memory,
            JournalFault::Down => VolumeFault::Down,
            JournalFault::Fault | JournalFault::Damaged | JournalFault::TooMany => {
                VolumeFault::Device
            }
        }
    }
}

impl From<AllocError> for VolumeFault {
    ghost use Rattle.volume.specs.declared.fault.VolumeFault.TheVariants.{Memory};

    ghost from_gives = { λ _ fault. fault ≡ Memory };

    fn from(_: AllocError) -> Self {
        VolumeFault::Memory
    }
}

impl From<AllocError> for FormatFault {
    ghost use Rattle.volume.specs.declared.fault.FormatFault.TheVariants.{Memory};

    ghost from_gives = { λ _ fault. fault ≡ Memory };

    fn from(_: AllocError) -> Self {
        FormatFault::Memory
    }
}

impl From<AllocError> for MountFault {
    ghost use Rattle.volume.specs.declared.fault.MountFault.TheVariants.{Memory};

    ghost from_gives = { λ _ fault. fault ≡ Memory };

    fn from(_: AllocError) -> Self {
        MountFault::Memory
    }
}

impl From<ScanFault> for MountFault {
    ghost use Rattle.volume.specs.Refusals.{mount_fault};

    ghost from_gives = { λ refusal fault. fault ≡ mount_fault refusal };

    fn from(fault: ScanFault) -> Self {
        match fault {
            ScanFault::Device => MountFault::Device,
            ScanFault::Damaged => MountFault::Damaged,
            ScanFault::Memory => MountFault::Memory,
        }
    }
}

impl From<JournalFault> for MountFault {
    ghost use Rattle.volume.specs.Refusals.{gate_fault};

    ghost from_gives = { λ refusal fault. fault ≡ gate_fault refusal };

    fn from(fault: JournalFault) -> Self {
        match fault {
            JournalFault::Memory => MountFault::Memory,
            JournalFault::Damaged => MountFault::Damaged,
            JournalFault::Fault | JournalFault::TooMany | JournalFault::Down => MountFault::Device,
        }
    }
}

impl From<MigrationFault> for MountFault {
    ghost use Rattle.volume.specs.Refusals.{migration_fault};

    ghost from_gives = { λ refusal fault. fault ≡ migration_fault refusal };

    fn from(fault: MigrationFault) -> Self {
        match fault {
            MigrationFault::Device => MountFault::Device,
            MigrationFault::Memory => MountFault::Memory,
        }
    }
}

impl From<TableFault> for MountFault {
    ghost use Rattle.volume.specs.Refusals.{table_fault};

    ghost from_gives = { λ refusal fault. fault ≡ table_fault refusal };

    fn from(fault: TableFault) -> Self {
        match fault {
            TableFault::SameNumber => MountFault::Damaged,
            TableFault::Memory => MountFault::Memory,
        }
    }
}

impl From<ReadFault> for ReadingFault {
    ghost use Rattle.volume.specs.declared.fault.ReadingFault.TheVariants.{Device};

    ghost from_gives = { λ _ fault. fault ≡ Device };

    fn from(_: ReadFault) -> Self {
        ReadingFault::Device
    }
}

impl From<AllocError> for ReadingFault {
    ghost use Rattle.volume.specs.declared.fault.ReadingFault.TheVariants.{Memory};

    ghost from_gives = { λ _ fault. fault ≡ Memory };

    fn from(_: AllocError) -> Self {
        ReadingFault::Memory
    }
}
