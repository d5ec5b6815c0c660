//! What an operator reads: a line for each event.

use peer::Delayed;
use server::{MAX_CONNECTIONS, Room};
use std::fmt;
use std::fmt::{Display, Formatter, Write};
use std::net::SocketAddr;
use system::Refused;

/// The most bytes of a client's owner id that a line has.
const MAX_OWNER_BYTES: usize = 64;

/// How grave a line is, in the levels of syslog(3).
#[derive(Clone, Copy, PartialEq, Eq)]
pub enum Gravity {
    /// Something failed.
    Failure,
    /// Somebody was refused something.
    Warning,
    Note,
}

/// A line.
#[derive(Clone, Copy)]
pub enum Line<'a> {
    /// Serving begins.
    Begins(Start<'a>),
    /// The addresses at which connections are accepted.
    Listens(Listening),
    /// A new run has begun.
    Run(u32),
    /// A connection has a place.
    Comes {
        from: SocketAddr,
        taken: usize,
    },
    /// A connection has none any more.
    Goes {
        from: SocketAddr,
        taken: usize,
    },
    /// A connection loses its place to one that waits.
    GivesWay {
        from: SocketAddr,
        to: SocketAddr,
    },
    /// A connection waits no longer, as too many do.
    TurnedAway(SocketAddr),
    /// A connection that is not served.
    NotAllowed(SocketAddr),
    /// An operation is to come again, as a table is full.
    ComesAgain {
        operation: Delayed,
        from: SocketAddr,
    },
    /// A client has a session.
    SessionBegins(Session<'a>),
    /// A client has ended its session.
    SessionEnds {
        owner: &'a [u8],
        from: SocketAddr,
    },
    /// A change was refused, as the volume has no room for it.
    NoSpace(Room),
    /// A seat is taken.
    Seat {
        number: usize,
        owner: &'a [u8],
        run: u32,
    },
    /// A dead session's seat was not freed, for this status.
    SeatStays {
        number: usize,
        status: u32,
    },
    /// Every seat is that of a session of this run.
    NoSeat,
    /// Serving ends.
    Fails(Refused),
}

/// What is served, in which run.
#[derive(Clone, Copy)]
pub struct Start<'a> {
    pub title: &'a str,
    pub run: u32,
    /// Whether the mount replayed the log.
    pub replayed: bool,
}

/// The addresses at which the server listens.
#[derive(Clone, Copy)]
pub struct Listening {
    pub address: SocketAddr,
    /// The address at which it serves counts, if it does.
    pub metrics: Option<SocketAddr>,
}

/// A client's session.
#[derive(Clone, Copy)]
pub struct Session<'a> {
    /// The client's owner id.
    pub owner: &'a [u8],
    pub from: SocketAddr,
    pub persistent: bool,
}

impl Line<'_> {
    pub fn gravity(&self) -> Gravity {
        match self {
            Line::Fails(_) => Gravity::Failure,
            Line::GivesWay { .. }
            | Line::TurnedAway(_)
            | Line::NotAllowed(_)
            | Line::ComesAgain { .. }
            | Line::SeatStays { .. }
            | Line::NoSpace(_)
            | Line::NoSeat => Gravity::Warning,
            Line::Begins(_)
            | Line::Listens(_)
            | Line::Run(_)
            | Line::Comes { .. }
            | Line::Goes { .. }
            | Line::SessionBegins(_)
            | Line::SessionEnds { .. }
            | Line::Seat { .. } => Gravity::Note,
        }
    }
}

impl Gravity {
    /// The prefix of a line if a service manager reads it (sd-daemon(3)).
    pub fn prefix(self) -> &'static str {
        match self {
            Gravity::Failure => "<3>",
            Gravity::Warning => "<4>",
            Gravity::Note => "<6>",
        }
    }
}

impl Display for Line<'_> {
    fn fmt<W: Write>(&self, f: &mut Formatter<W>) -> fmt::Result {
        match *self {
            Line::Begins(start) => start.fmt(f),
            Line::Listens(listening) => listening.fmt(f),
            Line::Run(run) => show_run(f, run),
            Line::Comes { from, taken } => show_place(f, from, "", taken),
            Line::Goes { from, taken } => show_place(f, from, " ended", taken),
            Line::GivesWay { from, to } => show_way(f, from, to),
            Line::TurnedAway(from) => show_refused(f, from, "too many wait"),
            Line::NotAllowed(from) => show_refused(f, from, "not allowed"),
            Line::ComesAgain { operation, from } => show_delay(f, operation, from),
            Line::SessionBegins(session) => session.fmt(f),
            Line::SessionEnds { owner, from } => show_end(f, owner, from),
            Line::NoSpace(room) => show_room(f, room),
            Line::Seat { number, owner, run } => show_seat(f, number, owner, run),
            Line::SeatStays { number, status } => show_kept(f, number, status),
            Line::NoSeat => f.write_str("no seat is free: new clients get no persistent session"),
            Line::Fails(refused) => show_failure(f, refused),
        }
    }
}

impl Display for Start<'_> {
    fn fmt<W: Write>(&self, f: &mut Formatter<W>) -> fmt::Result {
        let Start { title, run, .. } = *self;
        let replayed = if self.replayed { ", log replayed" } else { "" };
        write!(f, "{title}, run {run}{replayed}")
    }
}

impl Display for Listening {
    fn fmt<W: Write>(&self, f: &mut Formatter<W>) -> fmt::Result {
        let Listening { address, metrics } = *self;
        match metrics {
            Some(metrics) => write!(f, "listening on {address}, metrics on {metrics}"),
            None => write!(f, "listening on {address}"),
        }
    }
}

impl Display for Session<'_> {
    fn fmt<W: Write>(&self, f: &mut Formatter<W>) -> fmt::Result {
        let from = self.from;
        let persistent = if self.persistent { ", persistent" } else { "" };
        write!(f, "session of {}, {from}{persistent}", Escaped(self.owner))
    }
}

/// Shows a connection that has come, or that has ended, and how many places are taken.
fn show_place<W: Write>(
    f: &mut Formatter<W>,
    from: SocketAddr,
    ended: &str,
    taken: usize,
) -> fmt::Result {
    write!(
        f,
        "connection from {from}{ended}, {taken} of {MAX_CONNECTIONS} places taken"
    )
}

fn show_run<W: Write>(f: &mut Formatter<W>, run: u32) -> fmt::Result {
    write!(f, "run {run}")
}

fn show_way<W: Write>(f: &mut Formatter<W>, from: SocketAddr, to: SocketAddr) -> fmt::Result {
    write!(f, "connection from {from} gives way to one from {to}")
}

fn show_delay<W: Write>(f: &mut Formatter<W>, operation: Delayed, from: SocketAddr) -> fmt::Result {
    write!(f, "told to come again: {operation}, {from}")
}

fn show_end<W: Write>(f: &mut Formatter<W>, owner: &[u8], from: SocketAddr) -> fmt::Result {
    write!(f, "session of {}, {from}, ended", Escaped(owner))
}

fn show_room<W: Write>(f: &mut Formatter<W>, room: Room) -> fmt::Result {
    let Room { sectors, nodes } = room;
    write!(
        f,
        "no space for a change: {sectors} sectors, {nodes} nodes left"
    )
}

fn show_seat<W: Write>(f: &mut Formatter<W>, number: usize, owner: &[u8], run: u32) -> fmt::Result {
    write!(f, "seat {number}: {}, session of run {run}", Escaped(owner))
}

fn show_kept<W: Write>(f: &mut Formatter<W>, number: usize, status: u32) -> fmt::Result {
    write!(f, "seat {number} is not freed: status {status}")
}

fn show_failure<W: Write>(f: &mut Formatter<W>, refused: Refused) -> fmt::Result {
    write!(f, "serving ended: {refused}")
}

fn show_refused<W: Write>(f: &mut Formatter<W>, from: SocketAddr, why: &str) -> fmt::Result {
    write!(f, "refused connection from {from}: {why}")
}

/// Bytes as text: bytes other than printed ASCII are shown by their numbers.
#[derive(Clone, Copy)]
struct Escaped<'a>(&'a [u8]);

impl Display for Escaped<'_> {
    fn fmt<W: Write>(&self, f: &mut Formatter<W>) -> fmt::Result {
        let Escaped(bytes) = *self;
        for byte in bytes.iter().take(MAX_OWNER_BYTES) {
            show_byte(f, *byte)?;
        }
        if MAX_OWNER_BYTES < bytes.len() {
            f.write_str("..")?;
        }
        Ok(())
    }
}

fn show_byte<W: Write>(f: &mut Formatter<W>, byte: u8) -> fmt::Result {
    match byte {
        b' '..=b'[' | b']'..=b'~' => f.write_char(char::from(byte)),
        other => write!(f, "\\x{other:02x}"),
    }
}
