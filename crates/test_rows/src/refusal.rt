//! Why a server, a loop or a mount does not do what it is asked.

use std::fmt;

/// Why something is refused. Each is shown by its name.
#[derive(Clone, Copy, Debug, PartialEq, Eq)]
pub enum Refusal {
    /// A file could not be opened or read.
    Open,
    /// Input or output failed.
    Io,
    /// No memory.
    Memory,
    /// No volume has this many sectors and nodes.
    Size,
    /// The device failed.
    Device,
    /// No volume.
    NotVolume,
    /// A volume that is not as formats and mounts leave it.
    Damaged,
    /// A volume that was mounted as often as can be counted.
    Worn,
    /// There is no room for a further connection.
    Full,
    /// There is no such connection.
    NoConnection,
    /// The connection was closed.
    Closed,
}

impl fmt::Display for Refusal {
    fn fmt<W: fmt::Write>(&self, f: &mut fmt::Formatter<W>) -> fmt::Result {
        fmt::Debug::fmt(self, f)
    }
}
