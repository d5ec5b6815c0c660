//! What whoever starts a server chooses for a run.

ghost use Rattle.std.specs.Prelude.{◌≡◌, ◌≤◌, length};
ghost use Rattle.session.specs.declared.settings.NameFault.TheVariants.{Memory};

use model::holding::Holding;
use std::alloc::{AllocError, Global};
use thiserror::Error;

/// The name of a server that is given no other.
pub const STANDARD_NAME: &[u8] = b"nfs41srv";

/// The most bytes of a name (`NFS4_OPAQUE_LIMIT`; RFC 8881, section 3.1).
pub const MAX_NAME_BYTES: usize = 1024;

/// The choices of a run.
#[derive(Drop)]
pub struct Settings {
    /// The major id and the scope that EXCHANGE_ID returns: servers of different names are
    /// different servers.
    pub name: ServerName,
    /// Which replies are held, and so whether a new session may be persistent.
    pub holding: Holding,
    /// Whether a full table gives up what no client holds: its oldest unconfirmed client record, or
    /// the dead seat of the oldest run.
    pub yields_when_full: bool,
}

/// A server's name.
#[derive(Drop)]
pub struct ServerName {
    bytes: Vec<u8>,
    ghost short: { length bytes.items ≤ 1024 },
}

/// Why there is no name.
#[derive(Clone, Copy, Debug, PartialEq, Eq, Error)]
pub enum NameFault {
    /// It has more than `MAX_NAME_BYTES` bytes.
    #[error("a server's name has at most 1024 bytes")]
    TooLong,
    /// Memory ran out.
    #[error("out of memory")]
    Memory,
}

impl From<AllocError> for NameFault {
    ghost from_gives = { λ _ e. e ≡ Memory };

    fn from(_e: AllocError) -> NameFault {
        NameFault::Memory
    }
}

impl ServerName {
    ghost use Rattle.std.specs.Prelude.{◌≡◌, ◌≤◌, ◌<◌, ◌↔◌, length, IfOk, IsErrOf};
    ghost use Rattle.model.specs.Sessions.Session.{plain_settings};
    ghost use Rattle.session.specs.Views.{name_of};

    /// A name of these bytes.
    ///
    /// # Errors
    /// TooLong above `MAX_NAME_BYTES`; Memory.
    pub fn new(alloc: Global, bytes: &[u8]) -> Result<ServerName, NameFault>
        ensures named { IfOk result (λ name. name_of name ≡ bytes.now) }
        ensures long { IsErrOf result NameFault.TooLong ↔ (1024 < length bytes.now) }
    {
        if MAX_NAME_BYTES < bytes.len() {
            return Err(NameFault::TooLong);
        }
        Ok(ServerName {
            bytes: Vec::from_slice(alloc, bytes)?,
        })
    }

    /// The name of a server that is given no other.
    ///
    /// # Errors
    /// Only for memory.
    pub fn standard(alloc: Global) -> Result<ServerName, AllocError>
        ensures { IfOk result (λ name. name_of name ≡ plain_settings.name) }
    {
        Ok(ServerName {
            bytes: Vec::from_slice(alloc, STANDARD_NAME)?,
        })
    }

    /// Its bytes.
    pub fn as_bytes(&self) -> &[u8]
        ensures bytes { result.now ≡ name_of self.now }
        ensures short { length result.now ≤ 1024 }
    {
        self.bytes.as_slice()
    }

    /// A copy of the name.
    ///
    /// # Errors
    /// Only for memory.
    pub fn try_clone(&self, alloc: Global) -> Result<ServerName, AllocError>
        ensures { IfOk result (λ copy. name_of copy ≡ name_of self.now) }
    {
        Ok(ServerName {
            bytes: Vec::from_slice(alloc, &self.bytes)?,
        })
    }
}

impl Settings {
    ghost use Rattle.std.specs.Prelude.{◌≡◌, IfOk};
    ghost use Rattle.session.specs.Views.{settings_of};

    /// A copy of the settings.
    ///
    /// # Errors
    /// Only for memory.
    pub fn try_clone(&self, alloc: Global) -> Result<Settings, AllocError>
        ensures { IfOk result (λ copy. settings_of copy ≡ settings_of self.now) }
    {
        Ok(Settings {
            name: self.name.try_clone(alloc)?,
            holding: self.holding,
            yields_when_full: self.yields_when_full,
        })
    }
}
