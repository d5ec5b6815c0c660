//! The listening socket, and the connections that wait for a place.

use crate::origin::Origin;
use crate::timeouts::set_timeouts;
use mio::net::{TcpListener, TcpStream};
use mio::{Interest, Poll, Token};
use os::FromRawFd;
use std::alloc::Global;
use std::env::Env;
use std::io::ErrorKind;
use std::net::{Net, SocketAddr};
use std::process::Process;
use std::{env, io, net, process};

/// The socket that a service manager hands over is this descriptor; variables say how many there
/// are, and for which process (sd_listen_fds(3)).
const HANDED_OVER: i32 = 3;

const HOW_MANY: &str = "LISTEN_FDS";

const FOR_WHOM: &str = "LISTEN_PID";

/// How many connections may wait for a place; beyond this, one is closed.
const MAX_WAITING: usize = 16;

/// The listening socket, and the connections that wait for a place.
#[derive(Drop)]
pub struct Door {
    listener: TcpListener,
    /// Whether a connection may wait in the system.
    can_accept: bool,
    /// In the order in which they came.
    waiting: Vec<Arrival>,
}

/// A connection that was accepted.
#[derive(Drop)]
pub struct Arrival {
    pub stream: TcpStream,
    pub from: SocketAddr,
}

impl Arrival {
    pub fn origin(&self) -> Origin {
        Origin::of(self.from.ip())
    }
}

impl Door {
    /// Listens on this address. Port 0 is one that the system picks.
    pub fn listen<R: Net + AllocGlobal>(rt: &R, address: SocketAddr) -> io::Result<Door> {
        Door::of(rt.alloc(), TcpListener::bind(rt, address)?)
    }

    /// Listens on the socket that a service manager has handed over to this process: systemd, by
    /// LISTEN_FDS=1 and its number as LISTEN_PID.
    ///
    /// # Errors
    /// NotFound if it handed none over.
    pub fn handed_over<R: Net + Env + AllocGlobal>(rt: &R, process: Process) -> io::Result<Door> {
        if has_number(rt, HOW_MANY, 1) && has_number(rt, FOR_WHOM, process::id(process)) {
            Door::of(rt.alloc(), adopt(rt)?)
        } else {
            Err(ErrorKind::NotFound.into())
        }
    }

    fn of(alloc: Global, listener: TcpListener) -> io::Result<Door> {
        set_timeouts(&listener);
        Ok(Door {
            listener,
            can_accept: true,
            waiting: Vec::with_capacity(alloc, MAX_WAITING.saturating_add(1))?,
        })
    }

    /// Has the system report connections by this token.
    pub fn register(&mut self, poll: &Poll, token: Token) -> io::Result<()> {
        poll.registry()
            .register(&mut self.listener, token, Interest::READABLE)
    }

    /// The address at which it listens.
    pub fn address(&self) -> io::Result<SocketAddr> {
        self.listener.local_addr()
    }

    /// The system reports a connection.
    pub fn wake(&mut self) {
        self.can_accept = true;
    }

    /// The next connection, if there is one.
    ///
    /// # Errors
    /// The system may give one later.
    pub fn accept(&mut self) -> io::Result<Option<Arrival>> {
        if !self.can_accept {
            return Ok(None);
        }
        match self.listener.accept() {
            Ok((stream, from)) => Ok(Some(Arrival { stream, from })),
            Err(error) if error.kind() == ErrorKind::WouldBlock => {
                self.can_accept = false;
                Ok(None)
            }
            Err(error) => Err(error),
        }
    }

    /// Has a connection wait for a place. If there are too many, the newest of the origin that has
    /// most of them is handed out.
    pub fn keep(&mut self, arrival: Arrival) -> Option<Arrival> {
        match self.waiting.push(arrival) {
            Ok(()) if self.waiting.len() <= MAX_WAITING => None,
            Ok(()) => self.take(self.most_numerous()),
            Err(failed) => Some(failed.value),
        }
    }

    /// The newest of the connections whose origin has most of them.
    fn most_numerous(&self) -> usize {
        let mut found = 0;
        let mut most = 0;
        for (number, arrival) in self.waiting.iter().enumerate() {
            let count = self.count_from(arrival.origin());
            if most <= count {
                found = number;
                most = count;
            }
        }
        found
    }

    fn count_from(&self, origin: Origin) -> usize {
        self.waiting
            .iter()
            .filter(|arrival| arrival.origin() == origin)
            .count()
    }

    /// The connections that wait for a place.
    pub fn waiting(&self) -> &[Arrival] {
        &self.waiting
    }

    /// The connection of this number, which is the caller's from now on.
    pub fn take(&mut self, number: usize) -> Option<Arrival> {
        if number < self.waiting.len() {
            Some(self.waiting.remove(number))
        } else {
            None
        }
    }

    /// Has a connection that was taken wait on, under the number that it had. If there is no room
    /// for it, it is handed out.
    pub fn put_back(&mut self, number: usize, arrival: Arrival) -> Option<Arrival> {
        if self.waiting.len() < number {
            return Some(arrival);
        }
        match self.waiting.insert(number, arrival) {
            Ok(()) => None,
            Err(failed) => Some(failed.value),
        }
    }
}

/// Whether the environment has this number under the name. A process inherits the variables of the
/// one that started it, but not what was at its descriptors.
fn has_number<R: Env + AllocGlobal>(rt: &R, name: &str, number: u32) -> bool {
    match env::var(rt, name) {
        Ok(word) => matches!(word.as_str().parse::<u32>(), Ok(found) if found == number),
        Err(_) => false,
    }
}

/// The socket of the descriptor that is handed over.
fn adopt<R: Net>(_rt: &R) -> io::Result<TcpListener> {
    // Nothing else in the program uses the descriptor.
    let listener = unsafe { net::TcpListener::from_raw_fd(HANDED_OVER) };
    listener.set_nonblocking(true)?;
    Ok(TcpListener::from_std(listener))
}
