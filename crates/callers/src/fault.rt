//! Why a script stops.

use client::ClientFault;
use server::{MountFault, ServerFault};
use std::alloc::{AllocError, AllocFailed};
use std::fmt::{Debug, Display, Formatter, Write};
use std::{fmt, io};
use system::Refused;
use thiserror::Error;

/// Why a script stops. It prints the name.
#[derive(Clone, Copy, Debug, Error)]
pub enum ScriptFault {
    /// A line of the script has no form, or names something that is not there.
    Script,
    /// The server returned another status than OK.
    Status,
    /// The server denied a call, or did not accept it.
    Rpc,
    /// A record waits for its reply.
    Pending,
    /// The server's bytes are no reply to what was sent.
    Garbled,
    /// What any program can fail with.
    Refused(#[from] Refused),
}

impl Display for ScriptFault {
    fn fmt<W: Write>(&self, f: &mut Formatter<W>) -> fmt::Result {
        match self {
            ScriptFault::Refused(refused) => Display::fmt(refused, f),
            _ => Debug::fmt(self, f),
        }
    }
}

impl From<AllocError> for ScriptFault {
    fn from(error: AllocError) -> ScriptFault {
        ScriptFault::Refused(error.into())
    }
}

impl<T: Drop> From<AllocFailed<T>> for ScriptFault {
    fn from(failed: AllocFailed<T>) -> ScriptFault {
        ScriptFault::Refused(failed.into())
    }
}

impl From<io::Error> for ScriptFault {
    fn from(error: io::Error) -> ScriptFault {
        ScriptFault::Refused(error.into())
    }
}

impl From<MountFault> for ScriptFault {
    fn from(fault: MountFault) -> ScriptFault {
        ScriptFault::Refused(fault.into())
    }
}

impl From<ServerFault> for ScriptFault {
    fn from(fault: ServerFault) -> ScriptFault {
        ScriptFault::Refused(fault.into())
    }
}

impl From<ClientFault<'_>> for ScriptFault {
    fn from(fault: ClientFault<'_>) -> ScriptFault {
        match fault {
            ClientFault::Io => ScriptFault::Refused(Refused::Io),
            ClientFault::Rpc => ScriptFault::Rpc,
            ClientFault::Status { .. } => ScriptFault::Status,
            ClientFault::Garbled => ScriptFault::Garbled,
            ClientFault::Memory => ScriptFault::Refused(Refused::Memory),
            ClientFault::Pending => ScriptFault::Pending,
        }
    }
}
