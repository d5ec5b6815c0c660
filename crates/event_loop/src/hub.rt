//! A mounted volume, its peers, and the loop over them.

ghost use Rattle.std.specs.Prelude.{◌≡◌, IfOk, None, Ok, OnOk};
ghost use Rattle.slab.specs.Slab.{get};
ghost use Rattle.event_loop.specs.Runs.{EveryLoop, GoesAny, HadRound, HadTurns, HasBegun, HasNoPeer, KeepsPeers, LoopBegins, LoopBeginsAnew, MeetsPeers, RunsOn, StepsOne};
ghost use Rattle.event_loop.specs.Settled.{settings_served};

use crate::counted::{Counted, Socket};
use crate::counts::Counts;
use crate::desk::Desk;
use crate::glance::{has_replayed, syncs_of};
use crate::line::{Line, Start};
use crate::lines::Lines;
use crate::settings::Settings;
use crate::watched::Watched;
use crate::{calls, seating};
use daemon::{Arrival, Door, report_ready};
use peer::{Keeping, Pace, Peers};
use server::{MAX_CONNECTIONS, Server};
use std::alloc::Global;
use std::env::Env;
use std::io::Write;
use std::net::{Net, SocketAddr};
use std::os::fd::AsRawFd;
use std::time::{Clock, Duration, Instant};
use system::Refused;

/// The pause after memory, or something else that the system gives, has run out.
const PAUSE_MILLIS: u64 = 10;

/// How long nothing has to arrive before the server uses the time.
const QUIET_MILLIS: u64 = 1;

/// How often the loop looks whether a peer has been quiet for long enough that another one may have
/// its place.
const GLANCE_SECONDS: u64 = 1;

/// How many steps each peer has before a flush, and so how many operations it may run.
const MAX_STEPS: u32 = 16;

/// Mounts the device's volume, prints the door's address on `out`, and serves until the device, the
/// clock or epoll fails. If no peer has been there for as long as the settings say, a new run of
/// the server begins, without clients and without their seats. What an operator wants to know is
/// printed on `err`: first the title and the run.
///
/// # Errors
/// As [`Hub::begin`] and [`Hub::run`].
pub fn serve<R, D, O, E>(
    rt: &R,
    device: D,
    door: Door,
    settings: Settings,
    title: &str,
    out: &mut O,
    err: E,
) -> Result<(), Refused>
where
    R: Net + Env + Clock + AllocGlobal,
    D: Watched,
    O: Write,
    E: Write + AsRawFd + Drop,
{
    let mut lines = Lines::to(rt, err, settings.quiet);
    let hub: Hub<D, Counted> = Hub::begin(rt, device, door, settings, title, &mut lines)?;
    if let Err(refused) = hub.print_address(out) {
        drop(hub);
        return Err(refused);
    }
    report_ready(rt);
    let outcome = serve_runs(rt, hub, &mut lines);
    if let Err(refused) = outcome {
        print_failure(rt, refused, &mut lines);
    }
    outcome
}

/// Prints why serving ended, if the clock still goes.
fn print_failure<R, E>(rt: &R, refused: Refused, lines: &mut Lines<E>)
where
    R: Clock,
    E: Write + Drop,
{
    if let Ok(now) = Instant::now(rt) {
        lines.print(&Line::Fails(refused), now);
    }
}

/// Serves one run after the other.
fn serve_runs<R, D, S, E>(rt: &R, hub: Hub<D, S>, lines: &mut Lines<E>) -> Result<(), Refused>
where
    R: Clock + AllocGlobal,
    D: Watched,
    S: Socket,
    E: Write + Drop,
{
    let mut hub = hub;
    for _ in 0..u64::MAX {
        match hub.run(rt, lines) {
            Ok(End::Alone) => hub = hub.begin_anew(rt, lines)?,
            Ok(End::Served) => break,
            Err(refused) => {
                drop(hub);
                return Err(refused);
            }
        }
    }
    drop(hub);
    Ok(())
}

/// Why a run of the loop ends.
#[derive(Clone, Copy)]
pub enum End {
    /// No peer has been there for as long as the settings say.
    Alone,
    /// All connections that were to be served have been.
    Served,
}

/// A mounted volume, and the peers that it is served to.
#[derive(Drop)]
pub struct Hub<D: Watched, S: Socket> {
    peers: Peers<D, S>,
    desk: Desk,
    /// How soon to go on.
    pace: Pace,
    /// Whether nothing has changed since the last checkpoint.
    is_rested: bool,
}

impl<D: Watched, S: Socket> Hub<D, S> {
    /// Mounts the device's volume.
    ///
    /// # Errors
    /// Those of a mount; Io if the system reports no changes; Memory.
    pub fn new<R>(rt: &R, device: D, door: Door, settings: Settings) -> Result<Hub<D, S>, Refused>
    where
        R: Net + AllocGlobal,
        ensures { D.keeps_word → IfOk result
            (λ hub. LoopBegins D.keeps_word (settings_served settings) device hub.peers) }
    {
        let desk = Desk::new(rt, door, settings)?;
        let server = mounted(rt.alloc(), device, &desk.settings);
        Hub::with(rt.alloc(), server, desk)
    }

    /// A loop over a server that is [mounted](calls::mounted) already.
    ///
    /// # Errors
    /// Io if the system reports no changes; Memory.
    pub fn of<R>(
        rt: &R,
        server: Server<D>,
        door: Door,
        settings: Settings,
    ) -> Result<Hub<D, S>, Refused>
    where
        R: Net + AllocGlobal,
        ensures { IfOk result (λ hub. HasNoPeer D.keeps_word (Ok server) hub.peers) }
    {
        match Desk::new(rt, door, settings) {
            Ok(desk) => Hub::with(rt.alloc(), Ok(server), desk),
            Err(refused) => {
                drop(server);
                Err(refused)
            }
        }
    }

    /// A loop over this server, if it was mounted.
    fn with(
        alloc: Global,
        server: Result<Server<D>, Refused>,
        desk: Desk,
    ) -> Result<Hub<D, S>, Refused>
        ensures { IfOk result (λ hub. HasNoPeer D.keeps_word server hub.peers) }
    {
        match peers_of(alloc, server, desk.settings.keeping) {
            Ok(peers) => Ok(Hub {
                peers,
                desk,
                pace: Pace::Goes,
                is_rested: true,
            }),
            Err(refused) => {
                drop(desk);
                Err(refused)
            }
        }
    }

    /// How often the volume was mounted.
    pub fn restart_count(&self) -> u32 {
        calls::restart_count(self.peers.server())
    }

    /// The address at which the door listens.
    pub fn address(&self) -> Result<SocketAddr, Refused> {
        Ok(self.desk.sockets.address()?)
    }

    fn print_address<O: Write>(&self, out: &mut O) -> Result<(), Refused> {
        writeln!(out, "serving {}", self.address()?)?;
        Ok(out.flush()?)
    }

    /// What was counted since the start.
    pub fn counts(&self) -> Counts {
        self.desk.counts(&self.peers)
    }

    /// The device, as it is now: peers are gone, and what was not kept is lost.
    pub fn into_device(self) -> D {
        let Hub { peers, desk, .. } = self;
        drop(desk);
        peers.into_server().into_device()
    }

    /// Mounts the device's volume, prints what is served, and frees the seats of earlier runs if
    /// the settings say so.
    ///
    /// # Errors
    /// As [`Hub::new`]; Device and Memory, if seats are freed; Io if the clock fails.
    pub fn begin<R, E>(
        rt: &R,
        device: D,
        door: Door,
        settings: Settings,
        title: &str,
        lines: &mut Lines<E>,
    ) -> Result<Hub<D, S>, Refused>
    where
        R: Net + Clock + AllocGlobal,
        E: Write + Drop,
        ensures { D.keeps_word → IfOk result
            (λ hub. LoopBegins D.keeps_word (settings_served settings) device hub.peers) }
    {
        let desk = Desk::new(rt, door, settings)?;
        let server = first_server(rt, device, &desk, title, lines);
        Hub::with(rt.alloc(), server, desk)
    }

    /// The same without a client, a session, a seat or an open: a new run on the same device.
    ///
    /// # Errors
    /// Those of a mount; Io if the clock fails.
    pub fn begin_anew<R, E>(self, rt: &R, lines: &mut Lines<E>) -> Result<Hub<D, S>, Refused>
    where
        R: Clock + AllocGlobal,
        E: Write + Drop,
        ensures { D.keeps_word → IfOk result (λ hub. LoopBeginsAnew D.keeps_word
            (settings_served self.desk.settings) self.peers hub.peers) }
    {
        let Hub { peers, desk, .. } = self;
        let mut desk = desk;
        let server = peers.into_server();
        desk.end_run(&server);
        let server = next_server(rt, server.into_device(), &desk, lines);
        Hub::with(rt.alloc(), server, desk)
    }

    /// What the peers were served since the loop began is of a run of the server, of which
    /// `server::every_run` and `server::every_life` speak.
    pub fn every_wire(&self)
        ensures { EveryLoop D.keeps_word self.now.peers }
    {}

    /// Serves until no peer has been there for as long as was given, or all have been served.
    ///
    /// # Errors
    /// Those of `go_on`.
    pub fn run<R, E>(&mut self, rt: &R, lines: &mut Lines<E>) -> Result<End, Refused>
    where
        R: Clock + AllocGlobal,
        E: Write + Drop,
        ensures { RunsOn D.keeps_word self.old.peers self.new.peers }
    {
        for _ in 0..u64::MAX {
            if self.desk.sockets.are_done() {
                return Ok(End::Served);
            }
            let timeout = self.timeout(Instant::now(rt)?);
            if self.is_forgotten(timeout) {
                return Ok(End::Alone);
            }
            self.go_on(rt, timeout, lines)?;
        }
        Ok(End::Alone)
    }

    /// Waits for the system, at most for this time; then connections that wait are given places,
    /// each key has a step, in order, and up to 15 more, with at most one operation each, and what
    /// waits is flushed. Returns how soon to go on.
    ///
    /// # Errors
    /// What ends the program: Device if the device fails; Io if the clock or epoll does; Io and
    /// Memory if the listening socket does and connections are served in turn.
    pub fn go_on<R, E>(
        &mut self,
        rt: &R,
        timeout: Option<Duration>,
        lines: &mut Lines<E>,
    ) -> Result<Pace, Refused>
    where
        R: Clock + AllocGlobal,
        E: Write + Drop,
        ensures calls { RunsOn D.keeps_word self.old.peers self.new.peers }
        ensures fair { OnOk result (HadRound D.keeps_word self.old.peers self.new.peers) }
    {
        let has_heard = self.desk.sockets.hear(&mut self.peers, timeout)?;
        self.rest(has_heard)?;
        let pace = self.round(rt, rt.alloc(), Instant::now(rt)?, lines)?;
        self.pace = pace;
        Ok(pace)
    }

    /// How long it may wait for the system. Unless the pace is `Goes`, this is zero only if no peer
    /// was there for so long that the clients are to be forgotten.
    fn timeout(&self, now: Instant) -> Option<Duration> {
        match self.pace {
            Pace::Goes => Some(Duration::ZERO),
            Pace::Pauses => Some(Duration::from_millis(PAUSE_MILLIS)),
            Pace::Sleeps if !self.is_rested => Some(Duration::from_millis(QUIET_MILLIS)),
            Pace::Sleeps if self.desk.sockets.has_waiting() => {
                Some(Duration::from_secs(GLANCE_SECONDS))
            }
            Pace::Sleeps => self.desk.until_forgetting(now),
        }
    }

    /// Whether a run that may wait for this time ends: no peer was there for as long as was given.
    fn is_forgotten(&self, timeout: Option<Duration>) -> bool {
        self.pace != Pace::Goes && timeout == Some(Duration::ZERO)
    }

    /// Makes a checkpoint if nothing came while it slept and something has changed since the last
    /// one.
    fn rest(&mut self, has_heard: bool) -> Result<(), Refused>
        ensures { KeepsPeers D.keeps_word None self.old.peers self.new.peers }
    {
        if self.is_rested || has_heard || self.pace != Pace::Sleeps {
            return Ok(());
        }
        let syncs = syncs_of(self.peers.server());
        self.peers.checkpoint()?;
        self.desk.counts.sync(syncs, syncs_of(self.peers.server()));
        self.is_rested = true;
        Ok(())
    }

    /// Connections that wait are given places; each key has a step, in order, and the same again
    /// until no peer goes on; then what waits is flushed, and the replies go out.
    fn round<C, E>(
        &mut self,
        clock: &C,
        alloc: Global,
        now: Instant,
        lines: &mut Lines<E>,
    ) -> Result<Pace, Refused>
    where
        C: Clock,
        E: Write + Drop,
        ensures calls { RunsOn D.keeps_word self.old.peers self.new.peers }
        ensures fair { OnOk result (HadRound D.keeps_word self.old.peers self.new.peers) }
    {
        let met = self.meet(alloc, now, lines)?;
        let stepped = self.step_on(clock, now, lines)?;
        let pace = met.or(stepped);
        if !self.flush()? {
            return Ok(pace);
        }
        let sent = self.step_all(clock, now, lines)?;
        Ok(pace.or(sent))
    }

    /// Whoever reads the counts is served, and so is whoever connects; a connection that waits is
    /// given a place.
    fn meet<E>(
        &mut self,
        alloc: Global,
        now: Instant,
        lines: &mut Lines<E>,
    ) -> Result<Pace, Refused>
    where
        E: Write + Drop,
        ensures { MeetsPeers D.keeps_word self.old.peers self.new.peers }
    {
        let shown = self.desk.show_counts(&self.peers, alloc, now);
        let received = self.desk.receive(now, lines)?;
        let welcomed = self.welcome(alloc, now, lines)?;
        Ok(shown.or(received).or(welcomed))
    }

    /// Each key has a step, in order, and the same again as long as a peer goes on, up to `MAX_STEPS`
    /// times.
    fn step_on<C, E>(
        &mut self,
        clock: &C,
        now: Instant,
        lines: &mut Lines<E>,
    ) -> Result<Pace, Refused>
    where
        C: Clock,
        E: Write + Drop,
        ensures calls { RunsOn D.keeps_word self.old.peers self.new.peers }
        ensures fair { OnOk result (HadTurns D.keeps_word self.old.peers self.new.peers) }
    {
        let mut pace = self.step_all(clock, now, lines)?;
        for _ in 1..MAX_STEPS {
            if pace != Pace::Goes {
                return Ok(pace);
            }
            pace = self.step_all(clock, now, lines)?;
        }
        Ok(pace)
    }

    /// Each key has a step, in order.
    fn step_all<C, E>(
        &mut self,
        clock: &C,
        now: Instant,
        lines: &mut Lines<E>,
    ) -> Result<Pace, Refused>
    where
        C: Clock,
        E: Write + Drop,
        ensures calls { RunsOn D.keeps_word self.old.peers self.new.peers }
        ensures fair { OnOk result (HadTurns D.keeps_word self.old.peers self.new.peers) }
    {
        let mut pace = Pace::Sleeps;
        for key in 0..MAX_CONNECTIONS {
            pace = pace.or(self.step(key, clock, now, lines)?);
        }
        self.is_rested = self.is_rested && pace != Pace::Goes;
        Ok(pace)
    }

    /// Keeps what waits, all of it with one flush. Returns whether something waited.
    fn flush(&mut self) -> Result<bool, Refused>
        ensures { RunsOn D.keeps_word self.old.peers self.new.peers }
    {
        let syncs = syncs_of(self.peers.server());
        let waited = self.peers.flush()?;
        self.desk.counts.sync(syncs, syncs_of(self.peers.server()));
        Ok(waited)
    }

    /// Gives a connection that waits a place, if there is one, or makes room for it.
    fn welcome<E>(
        &mut self,
        alloc: Global,
        now: Instant,
        lines: &mut Lines<E>,
    ) -> Result<Pace, Refused>
    where
        E: Write + Drop,
        ensures { MeetsPeers D.keeps_word self.old.peers self.new.peers }
    {
        let Some(number) = self.desk.sockets.next() else {
            return Ok(Pace::Sleeps);
        };
        if !self.desk.sockets.are_full() {
            return self.admit(alloc, number, now, lines);
        }
        match self.desk.sockets.make_way(&mut self.peers, number, now) {
            Some((from, to)) => {
                lines.print(&Line::GivesWay { from, to }, now);
                Ok(Pace::Goes)
            }
            None => Ok(Pace::Sleeps),
        }
    }

    /// Has the connection of this number that waits served. If there is no memory for it, it waits
    /// on.
    fn admit<E>(
        &mut self,
        alloc: Global,
        number: usize,
        now: Instant,
        lines: &mut Lines<E>,
    ) -> Result<Pace, Refused>
    where
        E: Write + Drop,
        ensures { MeetsPeers D.keeps_word self.old.peers self.new.peers }
    {
        let Ok(inbox) = self.peers.make_room(alloc) else {
            return Ok(Pace::Pauses);
        };
        let key = self.peers.next_key();
        let Some(Arrival { stream, from }) = self.desk.sockets.take_waiting(number, key) else {
            return Ok(Pace::Goes);
        };
        match self.peers.admit(inbox, S::over(stream), now) {
            Ok(key) => {
                self.desk.settle(key, from, now, lines);
                Ok(Pace::Goes)
            }
            Err(refused) => self.desk.give_back(number, from, refused),
        }
    }

    /// The peer of this key has a step, if there is one.
    fn step<C, E>(
        &mut self,
        key: usize,
        clock: &C,
        now: Instant,
        lines: &mut Lines<E>,
    ) -> Result<Pace, Refused>
    where
        C: Clock,
        E: Write + Drop,
        ensures calls { RunsOn D.keeps_word self.old.peers self.new.peers }
        ensures fair { IfOk result (StepsOne D.keeps_word key self.old.peers self.new.peers) }
    {
        let Some(conn) = self.connection(key) else {
            return Ok(Pace::Sleeps);
        };
        let syncs = syncs_of(self.peers.server());
        let Some(stepped) = self.peers.step(key, clock, now)? else {
            return Ok(Pace::Sleeps);
        };
        self.desk.counts.sync(syncs, syncs_of(self.peers.server()));
        Ok(
            self.desk
                .note_step(&self.peers, key, conn, stepped, now, lines),
        )
    }

    /// The number of a peer's connection.
    fn connection(&self, key: usize) -> Option<usize>
        ensures { result ≡ None → get self.now.peers.peers key ≡ None }
    {
        Some(self.peers.get(key)?.connection())
    }
}

/// A server and its peers, of which there are none yet.
fn peers_of<D: Watched, S: Socket>(
    alloc: Global,
    server: Result<Server<D>, Refused>,
    keeping: Keeping,
) -> Result<Peers<D, S>, Refused>
    ensures { IfOk result (HasNoPeer D.keeps_word server) }
{
    let server = server?;
    Ok(Peers::new(alloc, server, keeping)?)
}

/// Mounts the device's volume as the settings say.
fn mounted<D: Watched>(alloc: Global, device: D, settings: &Settings) -> Result<Server<D>, Refused>
    ensures { D.keeps_word
        → IfOk result (HasBegun D.keeps_word (settings_served settings.now) device) }
{
    calls::mounted(alloc, device, settings.of_server(alloc)?)
}

/// Mounts the device's volume, and begins the first run of a loop.
fn first_server<R, D, E>(
    rt: &R,
    device: D,
    desk: &Desk,
    title: &str,
    lines: &mut Lines<E>,
) -> Result<Server<D>, Refused>
where
    R: Clock + AllocGlobal,
    D: Watched,
    E: Write + Drop,
    ensures { D.keeps_word
        → IfOk result (HasBegun D.keeps_word (settings_served desk.now.settings) device) }
{
    let mut server = mounted(rt.alloc(), device, &desk.settings)?;
    match begin_first_run(rt, &mut server, desk, title, lines) {
        Ok(()) => Ok(server),
        Err(refused) => {
            drop(server);
            Err(refused)
        }
    }
}

/// The same for a later run.
fn next_server<R, D, E>(
    rt: &R,
    device: D,
    desk: &Desk,
    lines: &mut Lines<E>,
) -> Result<Server<D>, Refused>
where
    R: Clock + AllocGlobal,
    D: Watched,
    E: Write + Drop,
    ensures { D.keeps_word
        → IfOk result (HasBegun D.keeps_word (settings_served desk.now.settings) device) }
{
    let mut server = mounted(rt.alloc(), device, &desk.settings)?;
    match begin_next_run(rt, &mut server, lines) {
        Ok(()) => Ok(server),
        Err(refused) => {
            drop(server);
            Err(refused)
        }
    }
}

/// Prints what is served, frees the seats of earlier runs if the settings say so, and prints whose
/// seats are taken, and the door's address.
fn begin_first_run<R, D, E>(
    rt: &R,
    server: &mut Server<D>,
    desk: &Desk,
    title: &str,
    lines: &mut Lines<E>,
) -> Result<(), Refused>
where
    R: Clock + AllocGlobal,
    D: Watched,
    E: Write + Drop,
    ensures { GoesAny D.keeps_word server.old server.new }
{
    let now = Instant::now(rt)?;
    print_start(server, title, lines, now);
    if desk.settings.free_seats {
        seating::free_dead_seats(rt, server, lines, now)?;
        return print_places(server, desk, lines, now);
    }
    print_places(server, desk, lines, now)
}

/// Prints what is served, in which run.
fn print_start<D, E>(server: &Server<D>, title: &str, lines: &mut Lines<E>, now: Instant)
where
    D: Watched,
    E: Write + Drop,
{
    let start = Start {
        title,
        run: calls::restart_count(server),
        replayed: has_replayed(server),
    };
    lines.print(&Line::Begins(start), now);
}

/// Prints whose seats are taken, and the door's address.
fn print_places<D, E>(
    server: &Server<D>,
    desk: &Desk,
    lines: &mut Lines<E>,
    now: Instant,
) -> Result<(), Refused>
where
    D: Watched,
    E: Write + Drop,
{
    seating::print_seats(server, lines, now);
    lines.print(&Line::Listens(desk.sockets.listening()?), now);
    Ok(())
}

/// Prints the run, frees the seats of earlier ones, and prints which stay taken.
fn begin_next_run<R, D, E>(
    rt: &R,
    server: &mut Server<D>,
    lines: &mut Lines<E>,
) -> Result<(), Refused>
where
    R: Clock + AllocGlobal,
    D: Watched,
    E: Write + Drop,
    ensures { GoesAny D.keeps_word server.old server.new }
{
    let now = Instant::now(rt)?;
    lines.print(&Line::Run(calls::restart_count(server)), now);
    seating::free_dead_seats(rt, server, lines, now)?;
    seating::print_seats(server, lines, now);
    Ok(())
}
