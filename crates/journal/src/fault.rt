ghost use Rattle.std.specs.Prelude.{◌≡◌};

use disk::DiskFault;
use std::alloc::AllocError;
use thiserror::Error;

/// Why the journal did not do what it was asked.
#[derive(Debug, Drop, Error)]
pub enum JournalFault {
    /// The device failed. The journal is down from then on.
    #[error("the device failed")]
    Fault,
    /// The sector of the commit record has no form that a journal writes.
    #[error("the gate has no form")]
    Damaged,
    /// A transaction of more sectors than `LogArea::max_updates`. Nothing changed.
    #[error("too many sectors in a transaction")]
    TooMany,
    /// No memory to mount. The device was not touched.
    #[error("out of memory")]
    Memory,
    /// The device failed in an earlier call.
    #[error("down since the device failed")]
    Down,
}

impl From<DiskFault> for JournalFault {
    ghost use Rattle.journal.specs.declared.fault.JournalFault.TheVariants.{Fault};

    ghost from_gives = { λ _ fault. fault ≡ Fault };

    fn from(_: DiskFault) -> JournalFault {
        JournalFault::Fault
    }
}

impl From<AllocError> for JournalFault {
    ghost use Rattle.journal.specs.declared.fault.JournalFault.TheVariants.{Memory};

    ghost from_gives = { λ _ fault. fault ≡ Memory };

    fn from(_: AllocError) -> JournalFault {
        JournalFault::Memory
    }
}

/// A mount or a view that failed, with the device as it is now.
#[derive(Drop)]
pub struct Unmounted<D> {
    /// The device.
    pub device: D,
    /// Why it failed: `Fault`, `Damaged` or `Memory`.
    pub fault: JournalFault,
}
