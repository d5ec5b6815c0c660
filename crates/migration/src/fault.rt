//! Why a volume was not migrated.

ghost use Rattle.std.specs.Prelude.{◌≡◌};

use journal::JournalFault;
use std::alloc::AllocError;
use thiserror::Error;

/// Why a volume was not migrated.
#[derive(Clone, Copy, Debug, PartialEq, Eq, Error)]
pub enum MigrationFault {
    /// The device failed: some nodes may have been moved, and the mark says which.
    #[error("device fault")]
    Device,
    /// Memory ran out. Nothing was written.
    #[error("out of memory")]
    Memory,
}

impl From<JournalFault> for MigrationFault {
    ghost use Rattle.migration.specs.Faults.{fault_of};

    ghost from_gives = { λ refusal fault. fault ≡ fault_of refusal };

    fn from(fault: JournalFault) -> Self {
        match fault {
            JournalFault::Memory => MigrationFault::Memory,
            JournalFault::Fault
            | JournalFault::Damaged
            | JournalFault::TooMany
            | JournalFault::Down => MigrationFault::Device,
        }
    }
}

impl From<AllocError> for MigrationFault {
    ghost use Rattle.migration.specs.declared.fault.MigrationFault.TheVariants.{Memory};

    ghost from_gives = { λ _ fault. fault ≡ Memory };

    fn from(_: AllocError) -> Self {
        MigrationFault::Memory
    }
}
