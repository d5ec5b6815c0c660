//! Lines for the operator on standard error. The loop waits for none: one that the system does not
//! take at once is left out, and so are those of a flood.

use crate::line::{Gravity, Line};
use libc::net as c;
use libc::types::pollfd;
use std::alloc::{AllocError, Global};
use std::env::Env;
use std::io::{Sink, Write};
use std::os::fd::{AsRawFd, RawFd};
use std::time::{Duration, Instant};
use std::{env, io};

/// The most lines of a second.
const MAX_LINES: u32 = 10;

/// A service manager that reads the lines has set one of these, and takes priorities (sd-daemon(3),
/// systemd.exec(5)).
const READ_BY_JOURNAL: [&str; 2] = ["JOURNAL_STREAM", "INVOCATION_ID"];

/// The file to which lines go, and how many have gone.
#[derive(Drop)]
pub struct Lines<E: Write + Drop> {
    alloc: Global,
    out: E,
    /// What is asked whether it takes a line at once; None: it always does.
    descriptor: Option<RawFd>,
    /// Whether a line says how grave it is.
    has_priorities: bool,
    /// Whether only failures are printed.
    quiet: bool,
    /// When the second began in which lines are counted, and how many it has.
    second: Option<Instant>,
    count: u32,
    /// How many were left out since the last one that went.
    left_out: u64,
}

impl Lines<Sink> {
    /// Nothing is printed.
    pub fn nowhere(alloc: Global) -> Lines<Sink> {
        Lines {
            alloc,
            out: io::sink(),
            descriptor: None,
            has_priorities: false,
            quiet: true,
            second: None,
            count: 0,
            left_out: 0,
        }
    }
}

impl<E: Write + Drop> Lines<E> {
    /// Lines go to this file of the system.
    pub fn to<R>(rt: &R, out: E, quiet: bool) -> Lines<E>
    where
        R: Env + AllocGlobal,
        E: AsRawFd,
    {
        Lines {
            alloc: rt.alloc(),
            descriptor: Some(out.as_raw_fd()),
            out,
            has_priorities: READ_BY_JOURNAL
                .iter()
                .any(|name| env::var(rt, name).is_ok()),
            quiet,
            second: None,
            count: 0,
            left_out: 0,
        }
    }

    /// Prints a line, unless it would wait or is one too many: the next one says how many were left
    /// out.
    pub fn print(&mut self, line: &Line<'_>, now: Instant) {
        let gravity = line.gravity();
        if self.quiet && gravity != Gravity::Failure {
            return;
        }
        self.count_within(now);
        let is_due = self.count < MAX_LINES || gravity == Gravity::Failure;
        if is_due && self.takes_at_once() && self.write(line).is_ok() {
            self.count = self.count.saturating_add(1);
            self.left_out = 0;
        } else {
            self.left_out = self.left_out.saturating_add(1);
        }
    }

    /// Begins a new second, if the last one is over.
    fn count_within(&mut self, now: Instant) {
        let is_over = match self.second {
            Some(began) => now.duration_since(began) >= Duration::from_secs(1),
            None => true,
        };
        if is_over {
            self.second = Some(now);
            self.count = 0;
        }
    }

    fn takes_at_once(&self) -> bool {
        match self.descriptor {
            Some(descriptor) => takes_at_once(descriptor),
            None => true,
        }
    }

    /// Writes a line in one piece, which a pipe takes whole.
    fn write(&mut self, line: &Line<'_>) -> io::Result<()> {
        let text = self.text_of(line)?;
        self.out.write_all(text.as_bytes())
    }

    fn text_of(&self, line: &Line<'_>) -> Result<String, AllocError> {
        let prefix = if self.has_priorities {
            line.gravity().prefix()
        } else {
            ""
        };
        if self.left_out == 0 {
            return format!(in self.alloc; "{prefix}{line}\n");
        }
        let left_out = self.left_out;
        let warning = if self.has_priorities {
            Gravity::Warning.prefix()
        } else {
            ""
        };
        format!(in self.alloc; "{warning}{left_out} lines left out\n{prefix}{line}\n")
    }
}

/// Whether the system takes a line at once: a pipe has room for one, and a file always takes it.
/// Nothing of the descriptor is changed, since other programs may write to it too.
fn takes_at_once(descriptor: RawFd) -> bool {
    let mut asked = [pollfd {
        fd: descriptor,
        events: c::POLLOUT,
        revents: 0,
    }];
    let found = c::poll(&mut asked, 0);
    let [answer] = asked;
    found == 1 && answer.revents & c::POLLOUT != 0
}
