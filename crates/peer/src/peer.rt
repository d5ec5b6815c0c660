//! A peer, step by step: its bytes go to the server piece by piece, its request has one operation
//! run at a step, and its reply goes out as it is taken, once what it reports is kept.

ghost use Rattle.std.specs.Prelude.{◌≡◌, true, false, Some, IfOk, IfErr, if◌then◌else◌};
ghost use Rattle.std.specs.IoError.{error_kind};
ghost use Rattle.std.specs.declared.io.ErrorKind.TheVariants.{WouldBlock, Interrupted};
ghost use Rattle.peer.specs.Partings.{parting_of};
ghost use Rattle.peer.specs.Streams.{IsOver};

use crate::calls;
use crate::delayed::Answered;
use crate::inbox::Inbox;
use crate::keeping::Keeping;
use crate::pace::Pace;
use crate::reply::Reply;
use crate::stream::Stream;
use disk::Device;
use server::{Server, ServerFault, Turn};
use std::io;
use std::io::ErrorKind;
use std::time::{Duration, Instant};
use system::{Refused, WallClock, moment};

/// For how many seconds a peer may be quiet while another one waits for its place, and for how many
/// if it has sent a part of a record.
const PATIENCE_SECONDS: u64 = 60;

const HALF_PATIENCE_SECONDS: u64 = 600;

/// A connection of the server, and the stream over which its bytes come and go.
#[derive(Drop)]
pub struct Peer<S: Stream + Drop> {
    conn: usize,
    stream: S,
    inbox: Inbox,
    keeping: Keeping,
    stage: Stage,
    /// Whether a read may give something, and a write take something.
    can_read: bool,
    can_write: bool,
    /// Whether the server has a prefix of a record.
    has_half: bool,
    /// When something last came from it, or it took something, or was first given a reply.
    heard: Instant,
    /// Its last reply, as long as nobody has asked for it.
    answered: Option<Answered>,
    // A read or a write that is not tried has last reported that it would wait.
    ghost dry: { can_read ≡ false → S.read_told stream (Some WouldBlock) ≡ true },
    ghost full: { can_write ≡ false → S.write_told stream (Some WouldBlock) ≡ true },
}

/// What is to be done next.
#[derive(Drop)]
enum Stage {
    /// Bytes are needed.
    Gathers,
    /// The server has bytes: perhaps a whole request, which is given turns.
    Runs,
    /// The server has a reply, which it hands out once nothing waits for a flush.
    Made,
    /// A reply goes out. Until it is gone no byte is read.
    Replies(Reply),
    /// The connection is to be hung up.
    Ends,
}

/// What a step leaves.
#[derive(Clone, Copy, PartialEq, Eq)]
pub enum Step {
    /// The peer stays.
    Stays(Pace),
    /// The peer has ended, and its connection is hung up.
    Ended,
}

/// Why a peer is not served on.
#[derive(Clone, Copy)]
enum Parting {
    /// The peer's bytes or its stream: it ends.
    Peer,
    /// No memory: nothing has changed.
    Memory,
    /// The device failed, which ends the program.
    Device,
    /// The clock failed, which ends the program.
    Clock,
}

impl From<ServerFault> for Parting {
    ghost from_gives = { λ fault parting. parting ≡ parting_of fault };

    fn from(fault: ServerFault) -> Parting {
        match fault {
            ServerFault::Device => Parting::Device,
            ServerFault::Memory => Parting::Memory,
            ServerFault::NoConnection | ServerFault::Closed | ServerFault::Full => Parting::Peer,
        }
    }
}

impl<S: Stream + Drop> Peer<S> {
    ghost use Rattle.std.specs.Prelude.{◌≢◌, ◌≡◌, ◌||◌, ◌⊎◌, ◌↔◌, [], Ok, None, IfOk, IfErr, IsErrOf, IsTrue, MatchOption};
    ghost use Rattle.std.specs.Duration.{as_nanos};
    ghost use Rattle.server.specs.Refused.{connection_at, view};
    ghost use Rattle.system.specs.Moments.{IsMoment};
    ghost use Rattle.peer.specs.Calls.{Goes};
    ghost use Rattle.peer.specs.Peers.{PeerBegins, IsSame, IsSpare, WaitsFor, quiet_nanos};
    ghost use Rattle.peer.specs.Steps.{Advances, Reads, Runs, GivesNoTurn, Sends, IsReplying, IsStuck, WaitsToWrite, ServesOn, StaysServed, EndsPeer, EndsAgain, IsEndBy, FailsBy};

    /// A peer over this connection of the server, of whose turns changes are kept then.
    pub fn new(conn: usize, stream: S, inbox: Inbox, keeping: Keeping, now: Instant) -> Peer<S>
        ensures given { (result.conn ≡ conn) × (result.stream ≡ stream) × (result.inbox ≡ inbox)
            × (result.keeping ≡ keeping) × (result.heard ≡ now) }
        ensures begins { PeerBegins result }
    {
        Peer {
            conn,
            stream,
            inbox,
            keeping,
            stage: Stage::Gathers,
            can_read: true,
            can_write: true,
            has_half: false,
            heard: now,
            answered: None,
        }
    }

    /// The number of its connection.
    pub fn connection(&self) -> usize
        ensures { result ≡ self.now.conn }
    {
        self.conn
    }

    /// What its bytes come and go over.
    pub fn stream(&self) -> &S
        ensures { result.now ≡ self.now.stream }
    {
        &self.stream
    }

    /// The stream, once it is no longer that of a peer.
    pub fn into_stream(self) -> S
        ensures { result ≡ self.stream }
    {
        let Peer { stream, .. } = self;
        stream
    }

    /// Takes what the system reported of the stream.
    pub fn wake(&mut self, can_read: bool, can_write: bool)
        ensures read { self.new.can_read ≡ (self.old.can_read || can_read) }
        ensures write { self.new.can_write ≡ (self.old.can_write || can_write) }
        ensures same { IsSame self.old self.new × (self.new.stage ≡ self.old.stage)
            × (self.new.answered ≡ self.old.answered) }
    {
        self.can_read |= can_read;
        self.can_write |= can_write;
    }

    /// For how long it has been quiet, if that is long enough for another one to have its place: a
    /// minute between two requests or within a reply that it does not take, and ten within the
    /// bytes of a request.
    pub fn quiet_for(&self, now: Instant) -> Option<Duration>
        ensures { MatchOption result (¬ IsSpare self.now now) (λ quiet. IsSpare self.now now
            × (as_nanos quiet ≡ quiet_nanos self.now now)) }
    {
        let patience = if self.has_half {
            HALF_PATIENCE_SECONDS
        } else {
            PATIENCE_SECONDS
        };
        let quiet = self.unheard_for(now);
        if self.waits() && quiet.as_secs() >= patience {
            Some(quiet)
        } else {
            None
        }
    }

    /// For how long it has been quiet.
    pub fn unheard_for(&self, now: Instant) -> Duration
        ensures { as_nanos result ≡ quiet_nanos self.now now }
    {
        now.duration_since(self.heard)
    }

    /// Whether it waits for bytes, or for its stream to take those of a reply.
    fn waits(&self) -> bool
        ensures { IsTrue result ↔ WaitsFor self.now.stage self.now.inbox }
    {
        match self.stage {
            Stage::Gathers => self.inbox.is_empty(),
            Stage::Replies(_) => true,
            Stage::Runs | Stage::Made | Stage::Ends => false,
        }
    }

    /// Whether its reply waits for a flush.
    pub fn awaits_flush(&self) -> bool
        ensures { IsTrue result ↔ (self.now.stage ≡ Stage.Made) }
    {
        matches!(self.stage, Stage::Made)
    }

    /// Ends it with its next step.
    pub fn dismiss(&mut self)
        ensures stage { self.new.stage ≡ Stage.Ends }
        ensures same { IsSame self.old self.new × (self.new.answered ≡ self.old.answered)
            × (self.new.can_read ≡ self.old.can_read)
            × (self.new.can_write ≡ self.old.can_write) }
    {
        self.stage = Stage::Ends;
    }

    /// Its reply, if one was made since it was last asked.
    pub fn take_answered(&mut self) -> Option<Answered>
        ensures told { result ≡ self.old.answered }
        ensures taken { self.new.answered ≡ None }
        ensures same { IsSame self.old self.new × (self.new.stage ≡ self.old.stage)
            × (self.new.can_read ≡ self.old.can_read)
            × (self.new.can_write ≡ self.old.can_write) }
    {
        self.answered.take()
    }

    /// Does what can be done without waiting, with one operation of a request at most. A step that
    /// ends the peer also runs the rest of its request.
    ///
    /// # Errors
    /// What ends the program: a failure of the device or the clock.
    pub fn step<D, C>(
        &mut self,
        server: &mut Server<D>,
        clock: &C,
        now: Instant,
    ) -> Result<Step, Refused>
    where
        D: Device,
        C: WallClock,
        ensures asleep { IfOk result (λ step. step ≡ Step.Stays Pace.Sleeps
            → IsStuck server.new self.new) }
        // It stays, or ends
        ensures stays { (self.new.stage ≢ Stage.Ends)
            → ServesOn D.keeps_word (IsMoment (C.shows clock.now)) server.old server.new
            self.old self.new result }
        ensures ends { self.new.stage ≡ Stage.Ends
            → EndsPeer D.keeps_word (IsMoment (C.shows clock.now)) server.old server.new
            self.old self.new result }
        ensures over { self.old.stage ≡ Stage.Ends
            → EndsAgain D.keeps_word (IsMoment (C.shows clock.now)) server.old server.new
            self.old self.new result }
        ensures on { IfOk result (StaysServed self.new) }
        ensures ended { IfOk result (λ step. step ≡ Step.Ended
            → (self.new.stage ≡ Stage.Ends)
            × (connection_at (view server.new) self.new.conn ≡ None)) }
        ensures failed { IfErr result (FailsBy server.new) }
    {
        match self.advance(server, clock, now) {
            Ok(pace) => Ok(Step::Stays(pace)),
            Err(Parting::Memory) => Ok(Step::Stays(Pace::Pauses)),
            Err(Parting::Device) => Err(Refused::Device),
            Err(Parting::Clock) => Err(Refused::Io),
            Err(Parting::Peer) => self.end(server, clock),
        }
    }

    fn advance<D, C>(
        &mut self,
        server: &mut Server<D>,
        clock: &C,
        now: Instant,
    ) -> Result<Pace, Parting>
    where
        D: Device,
        C: WallClock,
        ensures asleep { IfOk result (λ pace. pace ≡ Pace.Sleeps → IsStuck server.new self.new) }
        ensures does { Reads D.keeps_word (IsMoment (C.shows clock.now)) server.old server.new
            self.old self.new result }
        ensures ends { self.new.stage ≡ Stage.Ends → IsErrOf result Parting.Peer }
        ensures over { self.old.stage ≡ Stage.Ends → IsErrOf result Parting.Peer
            × (self.new ≡ self.old) × (server.new ≡ server.old) }
    {
        match self.stage {
            Stage::Gathers => self.gather(server, clock, now),
            Stage::Runs => self.run(server, clock, now),
            Stage::Made => self.take_reply(server, now),
            Stage::Replies(_) => self.reply(now),
            Stage::Ends => Err(Parting::Peer),
        }
    }

    /// Hands the server the bytes that wait for it, or those that come.
    fn gather<D, C>(
        &mut self,
        server: &mut Server<D>,
        clock: &C,
        now: Instant,
    ) -> Result<Pace, Parting>
    where
        D: Device,
        C: WallClock,
        requires { self.old.stage ≡ Stage.Gathers }
        ensures asleep { IfOk result (λ pace. pace ≡ Pace.Sleeps → IsStuck server.new self.new) }
        ensures does { Reads D.keeps_word (IsMoment (C.shows clock.now)) server.old server.new
            self.old self.new result }
    {
        if self.inbox.is_empty() {
            return self.receive(server, clock, now);
        }
        self.hand_over(server, clock, now)
    }

    /// Reads what has come, and hands it all to the server.
    fn receive<D, C>(
        &mut self,
        server: &mut Server<D>,
        clock: &C,
        now: Instant,
    ) -> Result<Pace, Parting>
    where
        D: Device,
        C: WallClock,
        requires empty { self.old.inbox ≡ [] }
        requires gathers { self.old.stage ≡ Stage.Gathers }
        ensures asleep { IfOk result (λ pace. pace ≡ Pace.Sleeps → IsStuck server.new self.new) }
        ensures does { Reads D.keeps_word (IsMoment (C.shows clock.now)) server.old server.new
            self.old self.new result }
    {
        if !self.can_read {
            return Ok(Pace::Sleeps);
        }
        match self.inbox.fill(&mut self.stream) {
            Ok(0) => Err(Parting::Peer),
            Ok(_) => {
                self.heard = now;
                self.hand_over(server, clock, now)
            }
            Err(error) => {
                self.can_read = !would_wait(&error)?;
                Ok(pace_of(self.can_read))
            }
        }
    }

    /// Shows the server all bytes that wait, and keeps those that it does not take.
    fn hand_over<D, C>(
        &mut self,
        server: &mut Server<D>,
        clock: &C,
        now: Instant,
    ) -> Result<Pace, Parting>
    where
        D: Device,
        C: WallClock,
        requires { self.old.stage ≡ Stage.Gathers }
        ensures asleep { IfOk result (λ pace. pace ≡ Pace.Sleeps → IsStuck server.new self.new) }
        ensures does { Advances D.keeps_word (IsMoment (C.shows clock.now)) server.old server.new
            self.old self.new result }
    {
        let taken = calls::feed(server, self.conn, self.inbox.bytes())?;
        self.inbox.consume(taken);
        self.has_half = true;
        self.stage = Stage::Runs;
        self.run(server, clock, now)
    }

    /// Gives the request a turn, if a whole one waits.
    fn run<D, C>(
        &mut self,
        server: &mut Server<D>,
        clock: &C,
        now: Instant,
    ) -> Result<Pace, Parting>
    where
        D: Device,
        C: WallClock,
        requires { self.old.stage ≡ Stage.Runs }
        ensures asleep { IfOk result (λ pace. pace ≡ Pace.Sleeps → IsStuck server.new self.new) }
        ensures does { Runs D.keeps_word (IsMoment (C.shows clock.now)) server.old server.new
            self.old self.new result }
    {
        let Ok(at) = moment(clock) else {
            return Err(Parting::Clock);
        };
        match calls::turn(server, self.conn, at, self.keeping)? {
            Turn::Idle => {
                self.stage = Stage::Gathers;
                Ok(Pace::Goes)
            }
            Turn::Ran => Ok(Pace::Goes),
            Turn::Answered => {
                self.has_half = false;
                self.stage = Stage::Made;
                self.take_reply(server, now)
            }
        }
    }

    /// Takes the reply that a turn has made, if nothing waits for a flush, and begins to send it.
    fn take_reply<D: Device>(
        &mut self,
        server: &mut Server<D>,
        now: Instant,
    ) -> Result<Pace, Parting>
        requires { self.old.stage ≡ Stage.Made }
        ensures asleep { IfOk result (λ pace. pace ≡ Pace.Sleeps → IsStuck server.new self.new) }
        ensures does { GivesNoTurn D.keeps_word server.old server.new self.old self.new result }
    {
        let waits = server.waits();
        if waits {
            return Ok(Pace::Sleeps);
        }
        self.stage = Stage::Gathers;
        // The peer has its patience from here on to take it.
        self.heard = now;
        match calls::take_output(server, self.conn)? {
            Some(bytes) => {
                self.answered = Some(Answered::in_record(&bytes));
                self.stage = Stage::Replies(Reply::new(bytes));
                self.reply(now)
            }
            None => Ok(Pace::Goes),
        }
    }

    /// Sends what the peer takes of its reply.
    fn reply(&mut self, now: Instant) -> Result<Pace, Parting>
        requires { IsReplying self.old.stage }
        ensures asleep { IfOk result (λ pace. pace ≡ Pace.Sleeps → WaitsToWrite self.new) }
        ensures does { Sends self.old self.new result }
    {
        let Stage::Replies(reply) = &mut self.stage else {
            unreachable!();
        };
        if !self.can_write {
            return Ok(Pace::Sleeps);
        }
        match reply.send(&mut self.stream) {
            Ok(0) => Err(Parting::Peer),
            Ok(_) => {
                self.heard = now;
                if reply.is_sent() {
                    self.stage = Stage::Gathers;
                }
                Ok(Pace::Goes)
            }
            Err(error) => {
                self.can_write = !would_wait(&error)?;
                Ok(pace_of(self.can_write))
            }
        }
    }

    /// Hangs the connection up. If memory runs out, that is tried again.
    fn end<D, C>(&mut self, server: &mut Server<D>, clock: &C) -> Result<Step, Refused>
    where
        D: Device,
        C: WallClock,
        ensures awake { IfOk result (λ step.
            (step ≡ Step.Ended) ⊎ (step ≡ Step.Stays Pace.Pauses)) }
        ensures stage { self.new.stage ≡ Stage.Ends }
        ensures same { (self.new.stream ≡ self.old.stream) × (self.new.inbox ≡ self.old.inbox)
            × (self.new.conn ≡ self.old.conn) }
        ensures hung { Goes D.keeps_word server.old server.new
            (IsEndBy (IsMoment (C.shows clock.now)) result self.old.conn) }
        ensures ended { IfOk result (λ step. step ≡ Step.Ended
            → connection_at (view server.new) self.old.conn ≡ None) }
        ensures failed { IfErr result (FailsBy server.new) }
    {
        self.stage = Stage::Ends;
        let Ok(at) = moment(clock) else {
            return Err(Refused::Io);
        };
        match calls::hangup(server, self.conn, at) {
            Ok(()) => Ok(Step::Ended),
            Err(ServerFault::Memory) => Ok(Step::Stays(Pace::Pauses)),
            Err(ServerFault::Device) => Err(Refused::Device),
            Err(ServerFault::NoConnection | ServerFault::Closed | ServerFault::Full) => {
                Ok(Step::Ended)
            }
        }
    }
}

/// Whether a read or a write that failed would have waited. Otherwise a signal came, and it may be
/// made again.
fn would_wait(error: &io::Error) -> Result<bool, Parting>
    ensures ok { IfOk result (λ waits.
        error_kind error.now ≡ (if waits then WouldBlock else Interrupted)) }
    ensures err { IfErr result (λ parting.
        (parting ≡ Parting.Peer) × IsOver (Some (error_kind error.now))) }
{
    match error.kind() {
        ErrorKind::WouldBlock => Ok(true),
        ErrorKind::Interrupted => Ok(false),
        _ => Err(Parting::Peer),
    }
}

/// What is to be done once a read or a write failed that may be made again at once, or not.
fn pace_of(at_once: bool) -> Pace
    ensures { result ≡ (if at_once then Pace.Goes else Pace.Sleeps) }
{
    if at_once { Pace::Goes } else { Pace::Sleeps }
}
