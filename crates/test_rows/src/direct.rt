//! Rows on the server itself, which is given each turn.

use crate::answer::{Answer, Turn, expect};
use crate::difference::{Difference, expect_reply};
use crate::host::Host;
use crate::player::{Arrival, CONNECTIONS, Stage};
use crate::refusal::Refusal;
use crate::rows::{Call, Choices, Step, in_order};
use crate::served::Served;
use crate::trials::TrialDevice;
use std::alloc::Global;
use std::cmp::Ordering;

/// More turns than a record takes.
const MAX_TURNS: u32 = 32;

/// A server of a volume in memory, with the connections that a row begins with.
#[derive(Drop)]
pub struct Direct<H: Host> {
    served: Served<H>,
    arrival: Arrival,
}

impl<H: Host> Stage for Direct<H> {
    fn begin(
        rt: &HostRuntime,
        device: TrialDevice,
        arrival: Arrival,
    ) -> Result<Direct<H>, Difference> {
        let mut served = Served::mount(rt.alloc(), device, Choices::FIRST, arrival.patience)?;
        connect(&mut served)?;
        Ok(Direct { served, arrival })
    }

    fn take(self, rt: &HostRuntime, step: &Step) -> Result<Direct<H>, Difference> {
        match step {
            Step::Restarts(choices) => self.restart(rt.alloc(), *choices),
            _ => self.go_on(rt.alloc(), step),
        }
    }

    /// Each step looks at what is left over of it.
    fn end(self) -> Result<u32, Difference> {
        Ok(self.served.again())
    }
}

impl<H: Host> Direct<H> {
    fn restart(self, alloc: Global, choices: Choices) -> Result<Direct<H>, Difference> {
        let Direct { served, arrival } = self;
        let mut served = served.mount_anew(alloc, choices)?;
        connect(&mut served)?;
        Ok(Direct { served, arrival })
    }

    fn go_on(mut self, alloc: Global, step: &Step) -> Result<Direct<H>, Difference> {
        take(alloc, &mut self.served, step, self.arrival.order)?;
        Ok(self)
    }
}

/// Makes the connections.
pub fn connect<H: Host>(served: &mut Served<H>) -> Result<(), Difference> {
    for connection in 0..CONNECTIONS {
        expect(Answer::Connected(connection), served.connected())?;
    }
    Ok(())
}

/// Takes a step; calls that meet come in the order of this number.
pub fn take<H: Host>(
    alloc: Global,
    served: &mut Served<H>,
    step: &Step,
    order: usize,
) -> Result<(), Difference> {
    match step {
        Step::Meets(calls) => meet(alloc, served, &in_order(alloc, calls, order)?),
        _ => act(alloc, served, step),
    }
}

/// Takes a step of the server itself.
fn act<H: Host>(alloc: Global, served: &mut Served<H>, step: &Step) -> Result<(), Difference> {
    match step {
        Step::Feeds { connection, record } => feed(served, *connection, record),
        Step::Drips { connection, record } => drip(served, *connection, record),
        Step::Sends { connection, record } => send(served, *connection, record),
        Step::Runs { connection } => turn(served, *connection, Turn::Ran),
        Step::Ends {
            connection,
            turns,
            reply,
        } => end(alloc, served, *connection, *turns, reply),
        Step::Asks(call) | Step::Leaves(call) => { ask(alloc, served, call) }
        Step::Closes { connection, record } => close(served, *connection, record),
        Step::Connects { connection } => {
            expect(Answer::Connected(*connection), served.connected())
        }
        Step::IsFull => expect(Answer::Refused(Refusal::Full), served.connected()),
        Step::HangsUp { connection } => expect(Answer::HungUp, served.hung_up(*connection)),
        Step::Lacks { connection } => lack(served, *connection),
        Step::Defers {
            connection,
            record,
            turns,
        } => defer(served, *connection, record, *turns),
        Step::Flushes => expect(Answer::Flushed, served.flushed()),
        Step::Takes { connection, reply } => take_reply(alloc, served, *connection, reply),
        // These are taken above, or are no steps of the server itself.
        Step::Meets(_) | Step::Restarts(_) | Step::Waits { .. } | Step::Marks(_) => Ok(()),
    }
}

/// Hands in a record, and takes its reply.
fn ask<H: Host>(alloc: Global, served: &mut Served<H>, call: &Call) -> Result<(), Difference> {
    feed(served, call.connection, &call.record)?;
    end(alloc, served, call.connection, call.turns, &call.reply)
}

/// Hands in a record, which is taken whole.
pub fn feed<H: Host>(
    served: &mut Served<H>,
    connection: usize,
    record: &[u8],
) -> Result<(), Difference> {
    expect(Answer::Took(record.len()), served.fed(connection, record))
}

/// Hands in a record byte by byte, each after a turn that is idle.
fn drip<H: Host>(
    served: &mut Served<H>,
    connection: usize,
    record: &[u8],
) -> Result<(), Difference> {
    for byte in record {
        turn(served, connection, Turn::Idle)?;
        feed(served, connection, &[*byte])?;
    }
    Ok(())
}

/// Hands in a record, which gets a reply or closes the connection.
fn send<H: Host>(
    served: &mut Served<H>,
    connection: usize,
    record: &[u8],
) -> Result<(), Difference> {
    match served.fed(connection, record) {
        Answer::Refused(Refusal::Closed) => Ok(()),
        got => {
            expect(Answer::Took(record.len()), got)?;
            answer(served, connection)
        }
    }
}

/// Runs the request up to its reply, and takes that.
fn answer<H: Host>(served: &mut Served<H>, connection: usize) -> Result<(), Difference> {
    run_to_reply(served, connection)?;
    expect(Answer::Reply, served.replied(connection))
}

/// Runs the request up to its reply.
pub fn run_to_reply<H: Host>(served: &mut Served<H>, connection: usize) -> Result<(), Difference> {
    let mut got = served.turned(connection);
    for _ in 1..MAX_TURNS {
        if got != Answer::Turned(Turn::Ran) {
            break;
        }
        got = served.turned(connection);
    }
    expect(Answer::Turned(Turn::Answered), got)
}

/// Gives a turn, which does what is expected.
fn turn<H: Host>(
    served: &mut Served<H>,
    connection: usize,
    wanted: Turn,
) -> Result<(), Difference> {
    expect(Answer::Turned(wanted), served.turned(connection))
}

/// Runs a number of operations, of which the last one gives a reply.
pub fn run_all<H: Host>(
    served: &mut Served<H>,
    connection: usize,
    turns: u32,
) -> Result<(), Difference> {
    for _ in 1..turns {
        turn(served, connection, Turn::Ran)?;
    }
    turn(served, connection, Turn::Answered)
}

/// Runs a number of operations, of which the last one gives this reply.
fn end<H: Host>(
    alloc: Global,
    served: &mut Served<H>,
    connection: usize,
    turns: u32,
    reply: &[u8],
) -> Result<(), Difference> {
    run_all(served, connection, turns)?;
    take_reply(alloc, served, connection, reply)?;
    expect(Answer::NoReply, served.replied(connection))
}

/// Hands in a record and runs a number of operations, unflushed, of which the last one gives a reply
/// that is not handed out yet.
fn defer<H: Host>(
    served: &mut Served<H>,
    connection: usize,
    record: &[u8],
    turns: u32,
) -> Result<(), Difference> {
    feed(served, connection, record)?;
    for _ in 1..turns {
        expect(
            Answer::Turned(Turn::Ran),
            served.turned_unflushed(connection),
        )?;
    }
    expect(
        Answer::Turned(Turn::Answered),
        served.turned_unflushed(connection),
    )?;
    expect(Answer::NoReply, served.replied(connection))
}

/// Takes a reply, which is this one.
pub fn take_reply<H: Host>(
    alloc: Global,
    served: &mut Served<H>,
    connection: usize,
    reply: &[u8],
) -> Result<(), Difference> {
    match served.reply(connection) {
        Ok(Some(got)) => expect_reply(alloc, reply, got),
        Ok(None) => expect(Answer::Reply, Answer::NoReply),
        Err(fault) => expect(Answer::Reply, Answer::Refused(fault)),
    }
}

/// Hands in records one after the other, and then has the turns of their connections alternate.
pub fn meet<H: Host>(
    alloc: Global,
    served: &mut Served<H>,
    calls: &[&Call],
) -> Result<(), Difference> {
    let mut most = 0;
    for call in calls {
        feed(served, call.connection, &call.record)?;
        most = call.turns.max(most);
    }
    for number in 0..most {
        go_round(alloc, served, calls, number.saturating_add(1))?;
    }
    Ok(())
}

/// The turn of this number of each connection.
fn go_round<H: Host>(
    alloc: Global,
    served: &mut Served<H>,
    calls: &[&Call],
    number: u32,
) -> Result<(), Difference> {
    for call in calls {
        match call.turns.cmp(&number) {
            Ordering::Greater => turn(served, call.connection, Turn::Ran)?,
            Ordering::Equal => end(alloc, served, call.connection, 1, &call.reply)?,
            Ordering::Less => {}
        }
    }
    Ok(())
}

/// Hands in bytes that close the connection, which stays closed.
fn close<H: Host>(
    served: &mut Served<H>,
    connection: usize,
    record: &[u8],
) -> Result<(), Difference> {
    let closed = Answer::Refused(Refusal::Closed);
    expect(closed, served.fed(connection, record))?;
    expect(closed, served.fed(connection, &[]))?;
    expect(closed, served.fed(connection, &[1]))?;
    expect(closed, served.turned(connection))?;
    expect(Answer::NoReply, served.replied(connection))
}

/// Each call of a connection that is not there is refused.
fn lack<H: Host>(served: &mut Served<H>, connection: usize) -> Result<(), Difference> {
    let none = Answer::Refused(Refusal::NoConnection);
    expect(none, served.fed(connection, &[]))?;
    expect(none, served.turned(connection))?;
    expect(none, served.replied(connection))?;
    expect(none, served.hung_up(connection))
}
