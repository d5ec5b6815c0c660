//! Rows over real sockets: the loop over a server's peers, and the peers, in one thread.

use crate::answer::{Answer, expect};
use crate::difference::{Difference, expect_reply};
use crate::peers::{expect_none, has_ended, peer_of, write};
use crate::player::{Arrival, CONNECTIONS, Stage};
use crate::refusal::Refusal;
use crate::rows::{Call, Choices, Step, in_order};
use crate::trials::TrialDevice;
use slab::Slab;
use std::alloc::Global;
use std::net::{SocketAddr, TcpStream};
use std::time::Duration;

/// How long the loop waits for the system, if it has nothing to do.
const WAIT_MILLIS: u64 = 50;

/// More rounds of the loop than a record takes.
const MAX_ROUNDS: u32 = 256;

const CLOSED: Answer = Answer::Refused(Refusal::Closed);

/// A loop over a server's peers, which come over real sockets.
pub trait Loop: Sized + Drop {
    /// A loop over a device's volume, on a free port of this machine.
    fn begin(rt: &HostRuntime, device: TrialDevice, choices: Choices) -> Result<Self, Difference>;

    /// Its device, as it is now.
    fn into_device(self) -> TrialDevice;

    /// The address to which peers connect.
    fn address(&self) -> SocketAddr;

    /// Goes one round, which waits at most for `timeout` if there is nothing to do. Returns whether
    /// there is more to do at once.
    fn go_on(&mut self, timeout: Duration) -> Result<bool, Refusal>;
}

/// A loop over a server's peers, and the peers by their numbers.
#[derive(Drop)]
pub struct Sockets<L: Loop> {
    alloc: Global,
    hub: L,
    /// Whether the loop is to go on at once.
    goes_on: bool,
    peers: Slab<TcpStream>,
    arrival: Arrival,
}

impl<L: Loop> Stage for Sockets<L> {
    fn begin(
        rt: &HostRuntime,
        device: TrialDevice,
        arrival: Arrival,
    ) -> Result<Sockets<L>, Difference> {
        Sockets::over(rt, device, Choices::FIRST, arrival)
    }

    fn take(self, rt: &HostRuntime, step: &Step) -> Result<Sockets<L>, Difference> {
        match step {
            Step::Restarts(choices) => self.restart(rt, *choices),
            _ => self.took(rt, step),
        }
    }

    /// The loop makes calls again by itself.
    fn end(mut self) -> Result<u32, Difference> {
        if self.goes_on {
            self.settle()?;
        }
        for (_, peer) in self.peers.iter() {
            expect_none(self.alloc, peer)?;
        }
        Ok(0)
    }
}

impl<L: Loop> Sockets<L> {
    /// A loop over a device's volume, and the connections that a row begins with.
    fn over(
        rt: &HostRuntime,
        device: TrialDevice,
        choices: Choices,
        arrival: Arrival,
    ) -> Result<Sockets<L>, Difference> {
        let choices = Choices {
            shared: arrival.shared,
            ..choices
        };
        let mut sockets = Sockets {
            alloc: rt.alloc(),
            hub: L::begin(rt, device, choices)?,
            goes_on: true,
            peers: Slab::new(rt.alloc()),
            arrival,
        };
        sockets.connect_first(rt)?;
        Ok(sockets)
    }

    fn connect_first(&mut self, rt: &HostRuntime) -> Result<(), Difference> {
        for connection in 0..CONNECTIONS {
            self.connect(rt, connection)?;
        }
        Ok(())
    }

    fn restart(self, rt: &HostRuntime, choices: Choices) -> Result<Sockets<L>, Difference> {
        let Sockets { hub, arrival, .. } = self;
        Sockets::over(rt, hub.into_device(), choices, arrival)
    }

    fn took(mut self, rt: &HostRuntime, step: &Step) -> Result<Sockets<L>, Difference> {
        match step {
            Step::Connects { connection } => self.connect(rt, *connection)?,
            _ => self.act(step)?,
        }
        Ok(self)
    }

    fn act(&mut self, step: &Step) -> Result<(), Difference> {
        match step {
            Step::Feeds { connection, record } => self.feed(*connection, record),
            Step::Drips { connection, record } => self.drip(*connection, record),
            Step::Sends { connection, record } => self.send(*connection, record),
            Step::Waits { connection, record } => self.wait(*connection, record),
            Step::Closes { connection, record } => self.close(*connection, record),
            Step::HangsUp { connection } => self.hang_up(*connection),
            Step::Ends {
                connection,
                reply,
                ..
            } => self.end_with(*connection, reply),
            Step::Asks(call) | Step::Leaves(call) => self.ask(call),
            Step::Meets(calls) => self.meet(calls),
            // These are taken above, or the server itself is asked for them.
            Step::Connects { .. }
            | Step::Restarts(_)
            | Step::Runs { .. }
            | Step::IsFull
            | Step::Lacks { .. }
            | Step::Defers { .. }
            | Step::Flushes
            | Step::Takes { .. }
            | Step::Marks(_) => Ok(()),
        }
    }

    fn connect(&mut self, rt: &HostRuntime, connection: usize) -> Result<(), Difference> {
        let number = self.peers.insert(peer_of(rt, self.hub.address())?)?;
        expect(Answer::Connected(connection), Answer::Connected(number))?;
        self.settle()
    }

    fn hang_up(&mut self, connection: usize) -> Result<(), Difference> {
        self.peers
            .try_remove(connection)
            .ok_or(Refusal::NoConnection)?;
        self.settle()
    }

    fn peer(&self, connection: usize) -> Result<&TcpStream, Difference> {
        Ok(self.peers.get(connection).ok_or(Refusal::NoConnection)?)
    }

    /// A round of the loop, which waits for the system if there is nothing else to do.
    fn go_on(&mut self) -> Result<(), Difference> {
        let timeout = if self.goes_on {
            Duration::ZERO
        } else {
            Duration::from_millis(WAIT_MILLIS)
        };
        self.goes_on = self.hub.go_on(timeout)?;
        Ok(())
    }

    /// The loop goes on until it has nothing to do.
    fn settle(&mut self) -> Result<(), Difference> {
        for _ in 0..MAX_ROUNDS {
            self.go_on()?;
            if !self.goes_on {
                break;
            }
        }
        Ok(())
    }

    fn write(&mut self, connection: usize, bytes: &[u8]) -> Result<(), Difference> {
        Ok(write(self.peer(connection)?, bytes)?)
    }

    fn ask(&mut self, call: &Call) -> Result<(), Difference> {
        self.write(call.connection, &call.record)?;
        self.end_with(call.connection, &call.reply)
    }

    fn feed(&mut self, connection: usize, bytes: &[u8]) -> Result<(), Difference> {
        self.write(connection, bytes)?;
        self.settle()
    }

    fn drip(&mut self, connection: usize, record: &[u8]) -> Result<(), Difference> {
        for byte in record {
            self.feed(connection, &[*byte])?;
        }
        Ok(())
    }

    /// The loop goes on until `count` bytes came, or the connection ended. Returns what came, and
    /// whether it ended.
    fn receive(&mut self, connection: usize, count: usize) -> Result<(Vec<u8>, bool), Difference> {
        let mut bytes = Vec::new(self.alloc);
        for _ in 0..MAX_ROUNDS {
            if has_ended(self.peer(connection)?, &mut bytes)? {
                return Ok((bytes, true));
            }
            if bytes.len() >= count {
                break;
            }
            self.go_on()?;
        }
        Ok((bytes, false))
    }

    fn end_with(&mut self, connection: usize, reply: &[u8]) -> Result<(), Difference> {
        let (bytes, _) = self.receive(connection, reply.len())?;
        expect_reply(self.alloc, reply, bytes)
    }

    /// A record gets a reply, or closes the connection.
    fn send(&mut self, connection: usize, record: &[u8]) -> Result<(), Difference> {
        self.write(connection, record)?;
        let (bytes, ended) = self.receive(connection, 1)?;
        if ended || !bytes.is_empty() {
            return Ok(());
        }
        expect(Answer::Reply, Answer::NoReply)
    }

    /// A record closes the connection, with no reply.
    fn close(&mut self, connection: usize, record: &[u8]) -> Result<(), Difference> {
        self.write(connection, record)?;
        let (bytes, ended) = self.receive(connection, usize::MAX)?;
        expect_reply(self.alloc, &[], bytes)?;
        expect(CLOSED, if ended { CLOSED } else { Answer::NoReply })
    }

    /// A record gets no reply yet.
    fn wait(&mut self, connection: usize, record: &[u8]) -> Result<(), Difference> {
        self.feed(connection, record)?;
        expect_none(self.alloc, self.peer(connection)?)
    }

    /// Records come piece by piece, and get their replies.
    fn meet(&mut self, calls: &[Call]) -> Result<(), Difference> {
        let calls = in_order(self.alloc, calls, self.arrival.order)?;
        let longest = calls.iter().map(|call| call.record.len()).max();
        for number in 0..longest.unwrap_or(0) {
            self.bring(&calls, number.saturating_mul(self.arrival.piece))?;
        }
        for call in calls.iter() {
            self.end_with(call.connection, &call.reply)?;
        }
        Ok(())
    }

    /// A piece of each record comes, from this byte on, and each time the loop goes on.
    fn bring(&mut self, calls: &[&Call], start: usize) -> Result<(), Difference> {
        for call in calls {
            let rest = call.record.get(start..).unwrap_or_default();
            let piece = rest.get(..self.arrival.piece).unwrap_or(rest);
            if !piece.is_empty() {
                self.write(call.connection, piece)?;
                self.go_on()?;
            }
        }
        Ok(())
    }
}
