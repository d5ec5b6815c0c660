//! Those who read the counts over HTTP, one after the other.

use metrics::{Page, Step, Visit};
use mio::net::{TcpListener, TcpStream};
use mio::{Interest, Poll, Token};
use std::alloc::Global;
use std::io;
use std::net::{Net, SocketAddr};
use std::time::{Duration, Instant};

/// The tokens by which the system reports a visitor that waits, and changes of the visitor's
/// stream.
pub const MONITOR: Token = Token(usize::MAX - 1);

pub const VISITOR: Token = Token(usize::MAX - 2);

/// How long a visit may take before it gives way to the next one.
const PATIENCE_SECONDS: u64 = 5;

/// The listening socket, and the visit that is served. Other visitors wait in the system.
#[derive(Drop)]
pub struct Monitor {
    alloc: Global,
    listener: TcpListener,
    /// Whether a visitor may wait in the system.
    can_accept: bool,
    visit: Option<Guest>,
}

/// A visit that is served.
#[derive(Drop)]
struct Guest {
    visit: Visit<TcpStream>,
    began: Instant,
    /// Whether its stream may be read or written.
    can_go: bool,
}

impl Monitor {
    /// Listens on this address.
    pub fn listen<R: Net + AllocGlobal>(
        rt: &R,
        address: SocketAddr,
        poll: &Poll,
    ) -> io::Result<Monitor> {
        let mut listener = TcpListener::bind(rt, address)?;
        poll.registry()
            .register(&mut listener, MONITOR, Interest::READABLE)?;
        Ok(Monitor {
            alloc: rt.alloc(),
            listener,
            can_accept: true,
            visit: None,
        })
    }

    /// The address at which it listens.
    pub fn address(&self) -> io::Result<SocketAddr> {
        self.listener.local_addr()
    }

    /// The system reports a visitor that waits.
    pub fn wake(&mut self) {
        self.can_accept = true;
    }

    /// The system reports a change of the visitor's stream.
    pub fn wake_visitor(&mut self) {
        if let Some(guest) = &mut self.visit {
            guest.can_go = true;
        }
    }

    /// Reads or writes once. At [`Step::Asks`] the visitor asks for the page, which
    /// [`Monitor::give`] takes.
    pub fn step(&mut self, poll: &Poll, now: Instant) -> Step {
        self.end_slow(now);
        if self.visit.is_none() {
            self.accept(poll, now);
        }
        let Some(guest) = &mut self.visit else {
            return Step::Waits;
        };
        if !guest.can_go {
            return Step::Waits;
        }
        let step = guest.visit.step();
        self.leave(step)
    }

    /// Replies with the page that was asked for.
    pub fn give(&mut self, page: &Page) -> Step {
        let Some(guest) = &mut self.visit else {
            return Step::Waits;
        };
        let step = guest.visit.give(page);
        self.leave(step)
    }

    fn leave(&mut self, step: Step) -> Step {
        match step {
            Step::Ended => {
                self.visit = None;
                Step::Goes
            }
            Step::Waits => {
                if let Some(guest) = &mut self.visit {
                    guest.can_go = false;
                }
                Step::Waits
            }
            Step::Goes | Step::Asks => step,
        }
    }

    /// Ends a visit that takes too long, if another visitor waits.
    fn end_slow(&mut self, now: Instant) {
        let is_slow = match &self.visit {
            Some(guest) => {
                now.duration_since(guest.began) >= Duration::from_secs(PATIENCE_SECONDS)
            }
            None => false,
        };
        if is_slow && self.can_accept {
            self.visit = None;
        }
    }

    /// Takes the next visitor. One for whom there is no memory, or whose stream the system does not
    /// watch, is turned away.
    fn accept(&mut self, poll: &Poll, now: Instant) {
        if !self.can_accept {
            return;
        }
        match self.listener.accept() {
            Ok((stream, _)) => self.visit = new_guest(self.alloc, stream, poll, now),
            Err(_) => self.can_accept = false,
        }
    }
}

fn new_guest(alloc: Global, mut stream: TcpStream, poll: &Poll, now: Instant) -> Option<Guest> {
    let interests = Interest::READABLE | Interest::WRITABLE;
    if poll
        .registry()
        .register(&mut stream, VISITOR, interests)
        .is_err()
    {
        return None;
    }
    Some(Guest {
        visit: Visit::new(alloc, stream).ok()?,
        began: now,
        can_go: true,
    })
}
