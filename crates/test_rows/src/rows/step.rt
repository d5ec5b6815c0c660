//! The steps of a row.

use super::aftermath::{Mark, add_look, add_sequel, add_state};
use super::call::Call;
use super::choices::Choices;
use super::cuts::add_cuts;
use super::records::{Filling, Records, read_words};
use super::row::{Layout, Row};
use crate::fault::Fault;
use crate::number::{decimal, hexadecimal};
use crate::player::Place;
use std::alloc::Global;

/// What a row does on the connection of this number.
#[derive(Drop)]
pub enum Step {
    /// Hands in a record, which is taken whole.
    Feeds {
        connection: usize,
        record: Vec<u8>,
    },
    /// Hands in a record byte by byte, each after a turn that is idle.
    Drips {
        connection: usize,
        record: Vec<u8>,
    },
    /// Hands in a record, which gets some reply or closes the connection.
    Sends {
        connection: usize,
        record: Vec<u8>,
    },
    /// Runs one operation, after which more remain.
    Runs {
        connection: usize,
    },
    /// Runs a number of operations, of which the last one gives the reply; then takes this reply.
    Ends {
        connection: usize,
        turns: u32,
        reply: Vec<u8>,
    },
    /// Hands in a record, runs a number of operations, of which the last one gives the reply, and takes
    /// this reply.
    Asks(Call),
    /// The same of records that arrive together.
    Meets(Vec<Call>),
    /// Hands in a record, which gets no reply yet.
    Waits {
        connection: usize,
        record: Vec<u8>,
    },
    /// Hands in bytes that close the connection, which stays closed: each later piece and turn is
    /// refused with Closed.
    Closes {
        connection: usize,
        record: Vec<u8>,
    },
    /// Connects, and gets this number.
    Connects {
        connection: usize,
    },
    /// There is no further connection.
    IsFull,
    /// Hangs up.
    HangsUp {
        connection: usize,
    },
    /// There is no such connection.
    Lacks {
        connection: usize,
    },
    /// Mounts the volume again, and connects again.
    Restarts(Choices),
    /// As `Asks`; if the device crashes or fails, the reply is taken only then.
    Leaves(Call),
    /// Hands in a record, and runs a number of operations, whose changes may wait for a flush. The last
    /// one gives a reply, which is not handed out yet.
    Defers {
        connection: usize,
        record: Vec<u8>,
        turns: u32,
    },
    /// Flushes what waits.
    Flushes,
    /// Takes this reply.
    Takes {
        connection: usize,
        reply: Vec<u8>,
    },
    /// Says what a crash may leave from here on.
    Marks(Mark),
}

impl Step {
    /// Whether it can be taken there: no connection waits for the server itself, and over sockets
    /// turns are the loop's.
    pub fn is_of(&self, place: Place) -> bool {
        match place {
            Place::Server => !matches!(self, Step::Waits { .. }),
            Place::Sockets | Place::Shared => !matches!(
                self,
                Step::Runs { .. }
                    | Step::Lacks { .. }
                    | Step::IsFull
                    | Step::Defers { .. }
                    | Step::Flushes
                    | Step::Takes { .. }
            ),
        }
    }
}

/// Puts what the words of a line say after the steps of a row.
pub fn add_steps(
    alloc: Global,
    records: &Records<'_>,
    line: u32,
    words: &[&str],
    row: &mut Row<'_>,
) -> Result<(), Fault> {
    let [verb, words @ ..] = words else {
        return Err(Fault::Step);
    };
    match *verb {
        "tries" => add_try(alloc, records, line, words, row),
        "repeats" => add_repeats(alloc, records, line, words, row),
        "cuts" => add_cuts(alloc, records, line, words, row),
        "meets" => row.meet(alloc, line, call_of(alloc, records, words, None)?),
        "looks" => add_look(alloc, records, words, &mut row.aftermath),
        "goes" => add_sequel(alloc, records, words, &mut row.aftermath),
        "large" => {
            row.layout = Layout::Large;
            Ok(())
        }
        "unshared" => {
            row.unshared = true;
            Ok(())
        }
        "stands" => {
            add_state(alloc, records, words, &mut row.aftermath)?;
            row.add(line, Step::Marks(Mark::Stands))
        }
        "crashes" | "fails" => {
            row.aftermath.trials.read(*verb, words)?;
            row.add(line, Step::Marks(Mark::Begins))
        }
        _ => row.add(line, read_step(alloc, records, *verb, words)?),
    }
}

fn read_step(
    alloc: Global,
    records: &Records<'_>,
    verb: &str,
    words: &[&str],
) -> Result<Step, Fault> {
    match verb {
        "feeds" => feeds(alloc, records, words),
        "drips" => drips(alloc, records, words),
        "ends" => ends(alloc, records, words),
        "asks" => Ok(Step::Asks(call_of(alloc, records, words, None)?)),
        "leaves" => Ok(Step::Leaves(call_of(alloc, records, words, None)?)),
        "closes" => closes(alloc, records, words),
        "waits" => waits(alloc, records, words),
        "defers" => defers(alloc, records, words),
        "takes" => takes(alloc, records, words),
        _ => read_plain(verb, words),
    }
}

/// Reads a step without records.
fn read_plain(verb: &str, words: &[&str]) -> Result<Step, Fault> {
    match (verb, words) {
        ("runs", [word]) => Ok(Step::Runs {
            connection: connection_of(*word)?,
        }),
        ("connects", [word]) if *word == "none" => Ok(Step::IsFull),
        ("connects", [word]) => Ok(Step::Connects {
            connection: connection_of(*word)?,
        }),
        ("lacks", [word]) => Ok(Step::Lacks {
            connection: connection_of(*word)?,
        }),
        ("hangs", [up, word]) if *up == "up" => Ok(Step::HangsUp {
            connection: connection_of(*word)?,
        }),
        ("flushes", []) => Ok(Step::Flushes),
        ("restarts", words) => Ok(Step::Restarts(Choices::read(words)?)),
        ("lasts", []) => Ok(Step::Marks(Mark::Lasts { but: 0 })),
        ("lasts", [but, word]) if *but == "but" => Ok(Step::Marks(Mark::Lasts {
            but: connection_of(*word)?,
        })),
        _ => Err(Fault::Step),
    }
}

fn feeds(alloc: Global, records: &Records<'_>, words: &[&str]) -> Result<Step, Fault> {
    let (connection, record) = record_of(alloc, records, words)?;
    Ok(Step::Feeds { connection, record })
}

fn drips(alloc: Global, records: &Records<'_>, words: &[&str]) -> Result<Step, Fault> {
    let (connection, record) = record_of(alloc, records, words)?;
    Ok(Step::Drips { connection, record })
}

fn closes(alloc: Global, records: &Records<'_>, words: &[&str]) -> Result<Step, Fault> {
    let (connection, record) = record_of(alloc, records, words)?;
    Ok(Step::Closes { connection, record })
}

fn waits(alloc: Global, records: &Records<'_>, words: &[&str]) -> Result<Step, Fault> {
    let (connection, record) = record_of(alloc, records, words)?;
    Ok(Step::Waits { connection, record })
}

fn takes(alloc: Global, records: &Records<'_>, words: &[&str]) -> Result<Step, Fault> {
    let (connection, reply) = record_of(alloc, records, words)?;
    Ok(Step::Takes { connection, reply })
}

fn defers(alloc: Global, records: &Records<'_>, words: &[&str]) -> Result<Step, Fault> {
    let [connection, record, turns] = words else {
        return Err(Fault::Step);
    };
    Ok(Step::Defers {
        connection: connection_of(*connection)?,
        turns: count_of(*turns)?,
        record: records.spell(alloc, *record, None)?,
    })
}

/// Reads `CONNECTION RECORD`.
fn record_of(
    alloc: Global,
    records: &Records<'_>,
    words: &[&str],
) -> Result<(usize, Vec<u8>), Fault> {
    let [connection, record] = words else {
        return Err(Fault::Step);
    };
    Ok((
        connection_of(*connection)?,
        records.spell(alloc, *record, None)?,
    ))
}

fn ends(alloc: Global, records: &Records<'_>, words: &[&str]) -> Result<Step, Fault> {
    let [connection, turns, reply] = words else {
        return Err(Fault::Step);
    };
    Ok(Step::Ends {
        connection: connection_of(*connection)?,
        turns: count_of(*turns)?,
        reply: records.spell(alloc, *reply, None)?,
    })
}

/// Reads `CONNECTION RECORD TURNS REPLY`, whose gaps are filled.
fn call_of(
    alloc: Global,
    records: &Records<'_>,
    words: &[&str],
    filling: Option<Filling<'_>>,
) -> Result<Call, Fault> {
    let [connection, record, turns, reply] = words else {
        return Err(Fault::Step);
    };
    Ok(Call {
        connection: connection_of(*connection)?,
        record: records.spell(alloc, *record, filling)?,
        turns: count_of(*turns)?,
        reply: records.spell(alloc, *reply, filling)?,
    })
}

/// Adds what `tries` says a number of times.
fn add_repeats(
    alloc: Global,
    records: &Records<'_>,
    line: u32,
    words: &[&str],
    row: &mut Row<'_>,
) -> Result<(), Fault> {
    let [times, words @ ..] = words else {
        return Err(Fault::Step);
    };
    for _ in 0..count_of(*times)? {
        add_try(alloc, records, line, words, row)?;
    }
    Ok(())
}

/// Adds `asks` of records with gaps, which are filled.
fn add_try(
    alloc: Global,
    records: &Records<'_>,
    line: u32,
    words: &[&str],
    row: &mut Row<'_>,
) -> Result<(), Fault> {
    row.tried = row.tried.saturating_add(1);
    let step = tries(alloc, records, row.tried, words)?;
    row.add(line, step)
}

fn tries(alloc: Global, records: &Records<'_>, number: u32, words: &[&str]) -> Result<Step, Fault> {
    let [connection, record, turns, reply, status, words @ ..] = words else {
        return Err(Fault::Step);
    };
    let words = read_words(alloc, words)?;
    let filling = Filling {
        number,
        status: hexadecimal(*status).ok_or(Fault::Step)?,
        words: words.as_slice(),
    };
    let call = [*connection, *record, *turns, *reply];
    Ok(Step::Asks(call_of(alloc, records, &call, Some(filling))?))
}

pub fn connection_of(word: &str) -> Result<usize, Fault> {
    match decimal(word) {
        Some(number) => Ok(number as usize),
        None => Err(Fault::Step),
    }
}

/// How many: one at least.
fn count_of(word: &str) -> Result<u32, Fault> {
    match decimal(word) {
        Some(0) | None => Err(Fault::Step),
        Some(count) => Ok(count),
    }
}
