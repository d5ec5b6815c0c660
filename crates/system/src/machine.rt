//! What the program asks of the system.

use std::fs::File;
use std::net::Net;
use std::rt::Files;
use std::time::Clock;

/// Files, sockets, the clock and memory.
pub trait Machine: Files<File = File> + Net + Clock + AllocGlobal {}

impl<R: Files<File = File> + Net + Clock + AllocGlobal> Machine for R {}
