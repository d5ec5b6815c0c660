//! What the loop has besides the server and its peers: their sockets, what was counted, and what
//! was printed for the operator.

ghost use Rattle.std.specs.Prelude.{◌≡◌, IfOk};
ghost use Rattle.event_loop.specs.Runs.{pace_after};

use crate::counted::Socket;
use crate::counts::Counts;
use crate::line::{Line, Session};
use crate::lines::Lines;
use crate::page::{State, page_of};
use crate::reminders::Reminders;
use crate::seating;
use crate::settings::Settings;
use crate::sockets::Sockets;
use crate::watched::Watched;
use daemon::{Arrival, Door};
use model_tree::status::Status;
use peer::{Answered, NotAdmitted, Pace, Peers, SessionNews, Step, Stepped};
use server::{Server, ServerFault};
use std::alloc::Global;
use std::io::Write;
use std::net::{Net, SocketAddr};
use std::time::{Duration, Instant};
use system::Refused;

/// How many connections are accepted before the peers have a step.
const MAX_ARRIVALS: u32 = 16;

/// What the loop has besides the server and its peers. Nothing here changes these.
#[derive(Drop)]
pub struct Desk {
    pub sockets: Sockets,
    pub settings: Settings,
    pub counts: Counts,
    reminders: Reminders,
    /// Whether a client could have a persistent session, as far as the operator knows.
    has_seat: bool,
    /// Since when no peer has been there, if there was one in this run.
    alone_since: Option<Instant>,
}

impl Desk {
    /// A door, the address at which the settings have counts served, and no peer yet.
    pub fn new<R: Net + AllocGlobal>(
        rt: &R,
        door: Door,
        settings: Settings,
    ) -> Result<Desk, Refused>
        ensures { IfOk result (λ desk. desk.settings ≡ settings) }
    {
        Ok(Desk {
            sockets: Sockets::new(rt, door, &settings)?,
            settings,
            counts: Counts::new(),
            reminders: Reminders::new(),
            has_seat: true,
            alone_since: None,
        })
    }

    /// A run of this server has ended.
    pub fn end_run<D: Watched>(&mut self, server: &Server<D>)
        ensures { self.new.settings ≡ self.old.settings }
    {
        self.counts.change(server.change_count());
        self.has_seat = true;
        self.alone_since = None;
    }

    /// How long to wait until the clients are forgotten.
    pub fn until_forgetting(&self, now: Instant) -> Option<Duration> {
        let alone_for = now.duration_since(self.alone_since?);
        Some(self.settings.forget_after?.saturating_sub(alone_for))
    }

    /// What was counted since the start.
    pub fn counts<D: Watched, S: Socket>(&self, peers: &Peers<D, S>) -> Counts {
        let mut counts = self.counts;
        counts.bytes = self.sockets.bytes(peers);
        counts.change(peers.server().change_count());
        counts
    }

    /// Serves whoever reads the counts: one read or one write. If there is no memory for the page,
    /// the visitor has to ask again.
    pub fn show_counts<D: Watched, S: Socket>(
        &mut self,
        peers: &Peers<D, S>,
        alloc: Global,
        now: Instant,
    ) -> Pace {
        match self.sockets.visit(now) {
            metrics::Step::Waits => Pace::Sleeps,
            metrics::Step::Goes | metrics::Step::Ended => Pace::Goes,
            metrics::Step::Asks => self.give_counts(peers, alloc, now),
        }
    }

    fn give_counts<D: Watched, S: Socket>(
        &mut self,
        peers: &Peers<D, S>,
        alloc: Global,
        now: Instant,
    ) -> Pace {
        match page_of(alloc, &State::of(peers.server()), &self.counts(peers), now) {
            Ok(page) => {
                self.sockets.give(&page);
                Pace::Goes
            }
            Err(_) => Pace::Pauses,
        }
    }

    /// Accepts the connections that the system has. Those that are served wait for a place.
    pub fn receive<E>(&mut self, now: Instant, lines: &mut Lines<E>) -> Result<Pace, Refused>
    where
        E: Write + Drop,
    {
        for _ in 0..MAX_ARRIVALS {
            match self.sockets.accept() {
                Ok(Some(arrival)) => self.meet(arrival, now, lines),
                Ok(None) => return Ok(Pace::Sleeps),
                Err(error) if self.sockets.end_by(&error) => return Err(error.into()),
                Err(_) => return Ok(Pace::Pauses),
            }
        }
        Ok(Pace::Goes)
    }

    /// Has a connection wait for a place, if it is served.
    fn meet<E>(&mut self, arrival: Arrival, now: Instant, lines: &mut Lines<E>)
    where
        E: Write + Drop,
    {
        let from = arrival.from;
        if !self.settings.guests.admit(from) {
            self.counts.refuse();
            if self.reminders.not_allowed.is_due(now) {
                lines.print(&Line::NotAllowed(from), now);
            }
            return;
        }
        if let Some(from) = self.sockets.keep(arrival) {
            self.counts.refuse();
            if self.reminders.turned_away.is_due(now) {
                lines.print(&Line::TurnedAway(from), now);
            }
        }
    }

    /// The peer of this key came from there: counts and prints that.
    pub fn settle<E>(&mut self, key: usize, from: SocketAddr, now: Instant, lines: &mut Lines<E>)
    where
        E: Write + Drop,
    {
        self.sockets.settle(key, from);
        self.alone_since = None;
        self.counts.accept();
        let taken = self.sockets.taken();
        lines.print(&Line::Comes { from, taken }, now);
    }

    /// Has a connection that was not admitted because memory ran out wait on, under the number that
    /// it had.
    ///
    /// # Errors
    /// The server has refused it for another reason.
    pub fn give_back<S: Socket>(
        &mut self,
        number: usize,
        from: SocketAddr,
        refused: NotAdmitted<S>,
    ) -> Result<Pace, Refused> {
        let NotAdmitted { fault, stream } = refused;
        if fault != ServerFault::Memory {
            return Err(fault.into());
        }
        let stream = stream.into_connection();
        self.sockets.give_back(number, Arrival { stream, from });
        Ok(Pace::Pauses)
    }

    /// Counts and prints what a step of a peer did, by its connection. Returns how soon to go on.
    pub fn note_step<D, S, E>(
        &mut self,
        peers: &Peers<D, S>,
        key: usize,
        conn: usize,
        stepped: Stepped<S>,
        now: Instant,
        lines: &mut Lines<E>,
    ) -> Pace
    where
        D: Watched,
        S: Socket,
        E: Write + Drop,
        ensures { result ≡ pace_after stepped.step }
    {
        let Stepped {
            step,
            answered,
            closed,
        } = stepped;
        if !awaits_flush(peers, key) {
            self.count_operation(peers.server(), key, conn, answered);
        }
        if let Some(answered) = answered {
            self.note_reply(peers.server(), key, answered, now, lines);
        }
        match step {
            Step::Stays(pace) => pace,
            Step::Ended => {
                self.remove(key, closed, now, lines);
                Pace::Goes
            }
        }
    }

    /// Counts the operation that ran, if one did.
    fn count_operation<D: Watched>(
        &mut self,
        server: &Server<D>,
        key: usize,
        conn: usize,
        answered: Option<Answered>,
    ) {
        if let Some(place) = self.sockets.place(key) {
            place.glance.count(server, conn, answered, &mut self.counts);
        }
    }

    /// Counts a reply to the peer of this key, and prints what it reports.
    fn note_reply<D, E>(
        &mut self,
        server: &Server<D>,
        key: usize,
        answered: Answered,
        now: Instant,
        lines: &mut Lines<E>,
    )
    where
        D: Watched,
        E: Write + Drop,
    {
        let Some(place) = self.sockets.place(key) else {
            return;
        };
        let from = place.from;
        self.note(server, answered, from, now, lines);
        if let Some(news) = answered.news {
            self.note_session(server, key, news, now, lines);
        }
    }

    /// Counts a reply, and warns the operator of tables that are full.
    fn note<D, E>(
        &mut self,
        server: &Server<D>,
        answered: Answered,
        from: SocketAddr,
        now: Instant,
        lines: &mut Lines<E>,
    )
    where
        D: Watched,
        E: Write + Drop,
    {
        self.counts.answer(answered, now);
        if let Some(operation) = answered.delayed
            && self.reminders.comes_again(operation).is_due(now)
        {
            lines.print(&Line::ComesAgain { operation, from }, now);
        }
        if answered.status == Some(Status::NoSpc.code()) && self.reminders.no_space.is_due(now) {
            lines.print(&Line::NoSpace(server.room()), now);
        }
        self.note_seats(server, now, lines);
    }

    /// Prints that a session began or ended, and remembers whose the connection is.
    fn note_session<D, E>(
        &mut self,
        server: &Server<D>,
        key: usize,
        news: SessionNews,
        now: Instant,
        lines: &mut Lines<E>,
    )
    where
        D: Watched,
        E: Write + Drop,
    {
        let Some(place) = self.sockets.place(key) else {
            return;
        };
        let from = place.from;
        match news {
            SessionNews::Used { client } => place.client = Some(client),
            SessionNews::Created { client, persistent } => {
                place.client = Some(client);
                let owner = owner_of(server, Some(client));
                let session = Session {
                    owner,
                    from,
                    persistent,
                };
                lines.print(&Line::SessionBegins(session), now);
            }
            SessionNews::Ended => {
                let owner = owner_of(server, place.client);
                lines.print(&Line::SessionEnds { owner, from }, now);
            }
        }
    }

    /// Warns the operator once the last seat is taken.
    fn note_seats<D, E>(&mut self, server: &Server<D>, now: Instant, lines: &mut Lines<E>)
    where
        D: Watched,
        E: Write + Drop,
    {
        let had_seat = self.has_seat;
        self.has_seat = !seating::are_in_use(server);
        let is_new = had_seat && !self.has_seat && self.settings.holding.may_persist();
        if is_new && self.reminders.no_seat.is_due(now) {
            lines.print(&Line::NoSeat, now);
        }
    }

    /// Its stream is closed with it, and another connection may have its place.
    fn remove<S, E>(&mut self, key: usize, closed: Option<S>, now: Instant, lines: &mut Lines<E>)
    where
        S: Socket,
        E: Write + Drop,
    {
        if let Some(from) = self.sockets.remove(key, closed) {
            self.counts.close();
            let taken = self.sockets.taken();
            lines.print(&Line::Goes { from, taken }, now);
            if taken == 0 {
                self.alone_since = Some(now);
            }
        }
    }
}

/// Whether a peer's reply waits for a flush.
fn awaits_flush<D: Watched, S: Socket>(peers: &Peers<D, S>, key: usize) -> bool {
    match peers.get(key) {
        Some(peer) => peer.awaits_flush(),
        None => false,
    }
}

/// The owner id of this client; none if it has no record.
fn owner_of<D: Watched>(server: &Server<D>, client: Option<u64>) -> &[u8] {
    match client {
        Some(client) => server.owner(client).unwrap_or(&[]),
        None => &[],
    }
}
