//! The sockets of a server: the door, and what the system reports of it and of the peers.

ghost use Rattle.std.specs.Prelude.{None};
ghost use Rattle.event_loop.specs.Runs.{KeepsPeers, MeetsPeers};

use crate::counted::{Bytes, Socket};
use crate::glance::Glance;
use crate::line::Listening;
use crate::settings::Settings;
use daemon::{Admission, Arrival, Door, MONITOR, Monitor, Origin, VISITOR};
use disk::Device;
use mio::event::Event;
use mio::net::TcpStream;
use mio::{Events, Interest, Poll, Token};
use peer::Peers;
use server::MAX_CONNECTIONS;
use std::io;
use std::net::{Net, SocketAddr};
use std::time::{Duration, Instant};
use system::Refused;

/// The most changes that the system reports at once.
const MAX_EVENTS: usize = 64;

/// By how many places the address that has most of them has to be ahead of the one that is to get
/// one, to give one away though its connections are in use: it has no fewer then than the other.
const AHEAD: usize = 2;

const DOOR: Token = Token(usize::MAX);

#[derive(Drop)]
pub struct Sockets {
    changes: Changes,
    door: Door,
    /// Which connections are still accepted.
    admission: Admission,
    /// Where counts are asked for.
    monitor: Option<Box<Monitor>>,
    /// Those of the peers, by their keys.
    places: [Option<Place>; MAX_CONNECTIONS],
    /// The bytes of the connections that are gone.
    bytes: Bytes,
}

/// Changes that the system reports: what asks it for them, and those that it reported last.
#[derive(Drop)]
struct Changes {
    poll: Poll,
    events: Events,
}

impl Changes {
    /// Those of this door. Streams are registered later.
    fn at<R: Net + AllocGlobal>(rt: &R, door: &mut Door) -> io::Result<Changes> {
        let poll = Poll::new(rt)?;
        door.register(&poll, DOOR)?;
        let events = Events::with_capacity(rt.alloc(), MAX_EVENTS)?;
        Ok(Changes { poll, events })
    }

    /// Waits for a change.
    fn wait(&mut self, timeout: Option<Duration>) -> io::Result<()> {
        self.poll.poll(&mut self.events, timeout)
    }
}

/// What is known of a peer besides its connection.
#[derive(Clone, Copy)]
pub struct Place {
    pub from: SocketAddr,
    /// The client whose session it used last.
    pub client: Option<u64>,
    /// What was counted of its requests.
    pub glance: Glance,
}

impl Place {
    fn origin(&self) -> Origin {
        Origin::of(self.from.ip())
    }
}

/// The peer of this key gives way to a connection: the addresses of both.
#[derive(Clone, Copy)]
struct Way {
    key: usize,
    from: SocketAddr,
    to: SocketAddr,
}

/// How soon a connection gives way: later than those of addresses that have more places, and then
/// than those that were quiet for longer.
#[derive(Clone, Copy)]
struct Rank {
    places: usize,
    quiet: Duration,
}

impl Rank {
    fn is_later_than(self, other: Rank) -> bool {
        self.places < other.places || (self.places == other.places && self.quiet < other.quiet)
    }
}

impl Sockets {
    /// A door, the address at which the settings have counts served, and no peer yet.
    pub fn new<R: Net + AllocGlobal>(
        rt: &R,
        door: Door,
        settings: &Settings,
    ) -> Result<Sockets, Refused> {
        let mut door = door;
        let changes = Changes::at(rt, &mut door)?;
        let monitor = monitor_of(rt, &changes.poll, settings.metrics)?;
        Ok(Sockets {
            changes,
            door,
            admission: settings.admission,
            monitor,
            places: [None; MAX_CONNECTIONS],
            bytes: Bytes::NONE,
        })
    }

    /// The address at which the door listens.
    pub fn address(&self) -> io::Result<SocketAddr> {
        self.door.address()
    }

    /// The addresses at which the door listens, and at which counts are served, if they are.
    pub fn listening(&self) -> io::Result<Listening> {
        let metrics = match &self.monitor {
            Some(monitor) => Some(monitor.address()?),
            None => None,
        };
        Ok(Listening {
            address: self.address()?,
            metrics,
        })
    }

    /// Waits for the system, and wakes the door and the peers of which it reports changes. Returns
    /// whether it reports any.
    pub fn hear<D: Device, S: Socket>(
        &mut self,
        peers: &mut Peers<D, S>,
        timeout: Option<Duration>,
    ) -> Result<bool, Refused>
        ensures { KeepsPeers D.keeps_word None peers.old peers.new }
    {
        self.changes.wait(timeout)?;
        for event in &self.changes.events {
            if event.token().0 < MAX_CONNECTIONS {
                wake_peer(peers, event);
            } else {
                wake_listener(&mut self.door, &mut self.monitor, event.token());
            }
        }
        Ok(!self.changes.events.is_empty())
    }

    /// Serves whoever reads the counts: one read or one write.
    pub fn visit(&mut self, now: Instant) -> metrics::Step {
        match &mut self.monitor {
            Some(monitor) => monitor.step(&self.changes.poll, now),
            None => metrics::Step::Waits,
        }
    }

    /// Gives the visitor the page that was asked for.
    pub fn give(&mut self, page: &metrics::Page) {
        if let Some(monitor) = &mut self.monitor {
            monitor.give(page);
        }
    }

    /// Whether a connection waits for a place.
    pub fn has_waiting(&self) -> bool {
        !self.door.waiting().is_empty()
    }

    /// The next connection that the system has, if there is one and it is to be accepted now.
    ///
    /// # Errors
    /// The system may give one later.
    pub fn accept(&mut self) -> io::Result<Option<Arrival>> {
        if !self.admission.admits(self.count()) {
            return Ok(None);
        }
        let arrival = self.door.accept()?;
        if arrival.is_some() {
            self.admission = self.admission.after_one();
        }
        Ok(arrival)
    }

    /// How many connections are served or wait for a place.
    fn count(&self) -> usize {
        self.taken().saturating_add(self.door.waiting().len())
    }

    /// Whether all connections that were to be served have been.
    pub fn are_done(&self) -> bool {
        self.admission.is_over() && self.count() == 0
    }

    /// Whether serving ends by this failure of the listening socket.
    pub fn end_by(&self, error: &io::Error) -> bool {
        self.admission.ends_by(error)
    }

    /// Has a connection wait for a place. If too many do, one is closed, whose address is returned.
    pub fn keep(&mut self, arrival: Arrival) -> Option<SocketAddr> {
        Some(self.door.keep(arrival)?.from)
    }

    /// Which of the connections that wait has a place next: the first of the address that has the
    /// fewest places.
    pub fn next(&self) -> Option<usize> {
        let mut next = None;
        let mut fewest = usize::MAX;
        for (number, arrival) in self.door.waiting().iter().enumerate() {
            let places = self.places_of(arrival.origin());
            if places < fewest {
                next = Some(number);
                fewest = places;
            }
        }
        next
    }

    /// How many places the address has.
    fn places_of(&self, origin: Origin) -> usize {
        let mut count = 0usize;
        for place in &self.places {
            if let Some(place) = place
                && place.origin() == origin
            {
                count = count.saturating_add(1);
            }
        }
        count
    }

    /// How many places are taken.
    pub fn taken(&self) -> usize {
        self.places.iter().filter(|place| place.is_some()).count()
    }

    /// Whether there is no place for another connection.
    pub fn are_full(&self) -> bool {
        self.taken() >= MAX_CONNECTIONS
    }

    /// Ends the peer that gives way to the connection of this number, if one does: its sessions
    /// live on, and its client connects again. Returns both addresses.
    pub fn make_way<D: Device, S: Socket>(
        &mut self,
        peers: &mut Peers<D, S>,
        number: usize,
        now: Instant,
    ) -> Option<(SocketAddr, SocketAddr)>
        ensures { MeetsPeers D.keeps_word peers.old peers.new }
    {
        let way = self.way(peers, number, now)?;
        peers.dismiss(way.key);
        Some((way.from, way.to))
    }

    fn way<D: Device, S: Socket>(
        &mut self,
        peers: &Peers<D, S>,
        number: usize,
        now: Instant,
    ) -> Option<Way> {
        let to = self.door.waiting().get(number)?.from;
        let key = self.gives_way(peers, Origin::of(to.ip()), now)?;
        let from = self.place(key)?.from;
        Some(Way { key, from, to })
    }

    /// Which peer gives way to a connection of this address: one of an address that has two places
    /// more, or one that was quiet for long; of these one of the address that has most places, and
    /// there the one that was quiet longest.
    fn gives_way<D: Device, S: Socket>(
        &self,
        peers: &Peers<D, S>,
        to: Origin,
        now: Instant,
    ) -> Option<usize> {
        let enough = self.places_of(to).saturating_add(AHEAD);
        let mut found = None;
        for key in 0..MAX_CONNECTIONS {
            if let Some(rank) = self.rank(peers, key, enough, now)
                && is_first(&found, rank)
            {
                found = Some((key, rank));
            }
        }
        let (key, _) = found?;
        Some(key)
    }

    /// How soon the peer of this key gives way, if it may: its address has enough places, or it was
    /// quiet for long.
    fn rank<D: Device, S: Socket>(
        &self,
        peers: &Peers<D, S>,
        key: usize,
        enough: usize,
        now: Instant,
    ) -> Option<Rank> {
        let place = self.places.get(key)?.as_ref()?;
        let peer = peers.get(key)?;
        let places = self.places_of(place.origin());
        if places < enough && peer.quiet_for(now).is_none() {
            return None;
        }
        Some(Rank {
            places,
            quiet: peer.unheard_for(now),
        })
    }

    /// The connection of this number that waits, which is the caller's from now on. The system
    /// reports its changes by this key; if it does not, the connection is closed.
    pub fn take_waiting(&mut self, number: usize, key: usize) -> Option<Arrival> {
        let Arrival { stream, from } = self.door.take(number)?;
        let stream = registered(&self.changes.poll, stream, Token(key))?;
        Some(Arrival { stream, from })
    }

    /// Has a connection that was taken wait on. If the system reports its changes nonetheless, or
    /// there is no room for it, it is closed.
    pub fn give_back(&mut self, number: usize, arrival: Arrival) {
        let Arrival { mut stream, from } = arrival;
        let registry = self.changes.poll.registry();
        if registry.deregister(&mut stream).is_ok() {
            self.door.put_back(number, Arrival { stream, from });
        }
    }

    /// The peer of this key came from there.
    pub fn settle(&mut self, key: usize, from: SocketAddr) {
        if let Some(place) = self.places.get_mut(key) {
            *place = Some(Place {
                from,
                client: None,
                glance: Glance::FIRST,
            });
        }
    }

    /// What is known of the peer of this key.
    pub fn place(&mut self, key: usize) -> Option<&mut Place> {
        self.places.get_mut(key)?.as_mut()
    }

    /// A peer's stream is closed, and another connection may have its place. Returns its address.
    pub fn remove<S: Socket>(&mut self, key: usize, closed: Option<S>) -> Option<SocketAddr> {
        if let Some(stream) = closed {
            self.bytes = self.bytes.and(stream.bytes());
        }
        let place = self.places.get_mut(key)?.take()?;
        Some(place.from)
    }

    /// How many bytes came and went over all connections.
    pub fn bytes<D: Device, S: Socket>(&self, peers: &Peers<D, S>) -> Bytes {
        let mut bytes = self.bytes;
        for key in 0..MAX_CONNECTIONS {
            if let Some(peer) = peers.get(key) {
                bytes = bytes.and(peer.stream().bytes());
            }
        }
        bytes
    }
}

/// Serves counts at this address, if there is one.
fn monitor_of<R: Net + AllocGlobal>(
    rt: &R,
    poll: &Poll,
    address: Option<SocketAddr>,
) -> io::Result<Option<Box<Monitor>>> {
    match address {
        Some(address) => {
            let monitor = Monitor::listen(rt, address, poll)?;
            Ok(Some(Box::new(rt.alloc(), monitor)?))
        }
        None => Ok(None),
    }
}

/// Whether a peer of this rank gives way before the one that was found.
fn is_first(found: &Option<(usize, Rank)>, rank: Rank) -> bool {
    match found {
        Some((_, other)) => other.is_later_than(rank),
        None => true,
    }
}

/// The stream, whose changes the system reports by this token from now on; if it does not, the
/// connection is closed.
fn registered(poll: &Poll, mut stream: TcpStream, token: Token) -> Option<TcpStream> {
    // Without this a reply may wait in the system for the peer's acknowledgement of the one before.
    // It is sent all the same.
    let _ = stream.set_nodelay(true);
    let interests = Interest::READABLE | Interest::WRITABLE;
    match poll.registry().register(&mut stream, token, interests) {
        Ok(()) => Some(stream),
        Err(_) => None,
    }
}

/// Wakes a peer by what the system reports of its stream.
fn wake_peer<D: Device, S: Socket>(peers: &mut Peers<D, S>, event: &Event)
    ensures { KeepsPeers D.keeps_word None peers.old peers.new }
{
    let is_broken = is_broken(event);
    peers.wake(
        event.token().0,
        event.is_readable() || is_broken,
        event.is_writable() || is_broken,
    );
}

/// Wakes the door or the monitor, as the system reports by this token.
fn wake_listener(door: &mut Door, monitor: &mut Option<Box<Monitor>>, token: Token) {
    if token == DOOR {
        door.wake();
    } else if let Some(monitor) = monitor {
        wake_monitor(monitor, token);
    }
}

fn wake_monitor(monitor: &mut Monitor, token: Token) {
    if token == MONITOR {
        monitor.wake();
    } else if token == VISITOR {
        monitor.wake_visitor();
    }
}

/// Whether the stream has ended or failed, which the next read or write returns.
fn is_broken(event: &Event) -> bool {
    event.is_error() || event.is_read_closed() || event.is_write_closed()
}
