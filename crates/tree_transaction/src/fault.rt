//! Why a transaction failed.

ghost use Rattle.std.specs.Prelude.{◌≡◌};
ghost use Rattle.tree_transaction.specs.declared.fault.TransactionFault.TheVariants.{Device};
ghost use Rattle.tree_transaction.specs.declared.fault.TransactionFault.TheVariants.{Memory};
ghost use Rattle.tree_transaction.specs.declared.fault.SpaceFault.TheVariants as space;

use freemap::TakeFault;
use layout::sectors::ReadFault;
use std::alloc::{AllocError, AllocFailed};
use thiserror::Error;

/// Why a transaction failed. It is then dropped: nothing of it is kept.
#[derive(Clone, Copy, Debug, PartialEq, Eq, Error)]
pub enum TransactionFault {
    /// The device failed.
    #[error("device fault")]
    Device,
    /// Memory ran out.
    #[error("out of memory")]
    Memory,
    /// No sector is free.
    #[error("full")]
    Full,
}

/// Why a transaction failed in a call that reads nothing.
#[derive(Clone, Copy, Debug, PartialEq, Eq, Error)]
pub enum SpaceFault {
    /// Memory ran out.
    #[error("out of memory")]
    Memory,
    /// No sector is free.
    #[error("full")]
    Full,
}

impl From<ReadFault> for TransactionFault {
    ghost from_gives = { λ _ e. e ≡ Device };

    fn from(_e: ReadFault) -> TransactionFault {
        TransactionFault::Device
    }
}

impl From<SpaceFault> for TransactionFault {
    ghost use Rattle.tree_transaction.specs.Faults.{fault_of};

    ghost from_gives = { λ cause e. e ≡ fault_of cause };

    fn from(e: SpaceFault) -> TransactionFault {
        match e {
            SpaceFault::Memory => TransactionFault::Memory,
            SpaceFault::Full => TransactionFault::Full,
        }
    }
}

impl From<AllocError> for TransactionFault {
    ghost from_gives = { λ _ e. e ≡ Memory };

    fn from(_e: AllocError) -> TransactionFault {
        TransactionFault::Memory
    }
}

impl From<TakeFault> for SpaceFault {
    ghost use Rattle.tree_transaction.specs.Faults.{space_fault_of};

    ghost from_gives = { λ cause e. e ≡ space_fault_of cause };

    fn from(e: TakeFault) -> SpaceFault {
        match e {
            TakeFault::Memory => SpaceFault::Memory,
            TakeFault::Full => SpaceFault::Full,
        }
    }
}

impl From<AllocError> for SpaceFault {
    ghost from_gives = { λ _ e. e ≡ space.Memory };

    fn from(_e: AllocError) -> SpaceFault {
        SpaceFault::Memory
    }
}

impl<T: Drop> From<AllocFailed<T>> for SpaceFault {
    ghost from_gives = { λ _ e. e ≡ space.Memory };

    fn from(_e: AllocFailed<T>) -> SpaceFault {
        SpaceFault::Memory
    }
}
