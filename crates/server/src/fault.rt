//! Why a server does not do what it is asked.

ghost use Rattle.std.specs.Prelude.{◌≡◌};
ghost use Rattle.server.specs.Faults.{turn_fault};
ghost use Rattle.server.specs.declared.fault.ServerFault.TheVariants as faults;

use compound::Fault;
use std::alloc::{AllocError, AllocFailed};
use thiserror::Error;

/// Why a server does not do what it is asked.
#[derive(Clone, Copy, Debug, PartialEq, Eq, Error)]
pub enum ServerFault {
    /// No connection has this number.
    #[error("NoConnection")]
    NoConnection,
    /// There are 16 connections.
    #[error("Full")]
    Full,
    /// The connection was closed by a refused header or record.
    #[error("Closed")]
    Closed,
    /// The device failed, in this call or before.
    #[error("Device")]
    Device,
    /// No memory.
    #[error("Memory")]
    Memory,
}

impl From<AllocError> for ServerFault {
    ghost from_gives = { λ _ fault. fault ≡ faults.Memory };

    fn from(_: AllocError) -> ServerFault {
        ServerFault::Memory
    }
}

impl<T: Drop> From<AllocFailed<T>> for ServerFault {
    ghost from_gives = { λ _ fault. fault ≡ faults.Memory };

    fn from(_: AllocFailed<T>) -> ServerFault {
        ServerFault::Memory
    }
}

impl From<Fault> for ServerFault {
    ghost from_gives = { λ fault gives. gives ≡ turn_fault fault };

    fn from(fault: Fault) -> ServerFault {
        match fault {
            Fault::Memory => ServerFault::Memory,
            Fault::Device => ServerFault::Device,
        }
    }
}
