//! Which connections are accepted, and when.

use std::io;
use std::io::ErrorKind;

/// Which connections are accepted.
#[derive(Clone, Copy, PartialEq, Eq)]
pub enum Admission {
    /// All, as they come: up to 16 have places, and others wait at the door. A failure of the
    /// listening socket is tolerated.
    Together,
    /// One after the other, `left` more of them, while others wait in the system. Serving ends with
    /// the last one, and by a failure of the listening socket.
    InTurn { left: u32 },
}

impl Admission {
    /// Whether one more is accepted while this many are served or wait for a place.
    pub fn admits(self, there: usize) -> bool {
        match self {
            Admission::Together => true,
            Admission::InTurn { left } => left > 0 && there == 0,
        }
    }

    /// The same after one more was accepted.
    pub fn after_one(self) -> Admission {
        match self {
            Admission::Together => Admission::Together,
            Admission::InTurn { left } => Admission::InTurn {
                left: left.saturating_sub(1),
            },
        }
    }

    /// Whether no more are accepted.
    pub fn is_over(self) -> bool {
        self == Admission::InTurn { left: 0 }
    }

    /// Whether serving ends by this failure of the listening socket.
    pub fn ends_by(self, error: &io::Error) -> bool {
        match self {
            Admission::Together => false,
            // ConnectionAborted loses only one connection.
            Admission::InTurn { .. } => error.kind() != ErrorKind::ConnectionAborted,
        }
    }
}
