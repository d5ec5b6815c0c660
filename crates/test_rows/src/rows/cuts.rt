//! Records that end too soon.

use super::call::Call;
use super::records::{Filling, HEADER, Records, set_header};
use super::row::Row;
use super::step::{Step, connection_of};
use crate::fault::Fault;
use crate::number::decimal;
use std::alloc::Global;

/// What is asked on another connection after each prefix of a record.
#[derive(Drop)]
struct Question {
    connection: usize,
    record: Vec<u8>,
    reply: Vec<u8>,
}

/// The prefixes of a record, and what is asked after each.
#[derive(Drop)]
struct Cuts<'a> {
    alloc: Global,
    line: u32,
    connection: usize,
    record: &'a str,
    question: Question,
}

/// Adds what `CONNECTION RECORD FIRST LAST OTHER ASKED REPLY` says.
pub fn add_cuts(
    alloc: Global,
    records: &Records<'_>,
    line: u32,
    words: &[&str],
    row: &mut Row<'_>,
) -> Result<(), Fault> {
    let [connection, record, first, last, question @ ..] = words else {
        return Err(Fault::Step);
    };
    let cuts = Cuts {
        alloc,
        line,
        connection: connection_of(*connection)?,
        record: *record,
        question: question_of(alloc, records, question)?,
    };
    let mut number = 0_u32;
    for length in length_of(*first)?..=length_of(*last)? {
        number = number.saturating_add(1);
        cuts.add(records, number, length, row)?;
    }
    Ok(())
}

/// Reads `OTHER ASKED REPLY`.
fn question_of(alloc: Global, records: &Records<'_>, words: &[&str]) -> Result<Question, Fault> {
    let [other, asked, reply] = words else {
        return Err(Fault::Step);
    };
    Ok(Question {
        connection: connection_of(*other)?,
        record: records.spell(alloc, *asked, None)?,
        reply: records.spell(alloc, *reply, None)?,
    })
}

impl Cuts<'_> {
    /// Adds the prefix of this length, once with a header of its own and once as it is, and the
    /// question.
    fn add(
        &self,
        records: &Records<'_>,
        number: u32,
        length: usize,
        row: &mut Row<'_>,
    ) -> Result<(), Fault> {
        let filling = Filling {
            number,
            status: 0,
            words: &[],
        };
        let record = records.spell(self.alloc, self.record, Some(filling))?;
        let end = HEADER.saturating_add(length);
        let prefix = record.get(..end).ok_or(Fault::Short)?;
        self.add_prefix(prefix, row)?;
        row.add(self.line, self.question.ask()?)
    }

    fn add_prefix(&self, prefix: &[u8], row: &mut Row<'_>) -> Result<(), Fault> {
        let connection = self.connection;
        let mut record = Vec::from_slice(self.alloc, prefix)?;
        set_header(&mut record);
        self.add_last(Step::Sends { connection, record }, row)?;
        let record = Vec::from_slice(self.alloc, prefix)?;
        self.add_last(Step::Feeds { connection, record }, row)
    }

    /// Adds a step; after it the connection is dropped, and a new one is made.
    fn add_last(&self, step: Step, row: &mut Row<'_>) -> Result<(), Fault> {
        let connection = self.connection;
        row.add(self.line, step)?;
        row.add(self.line, Step::HangsUp { connection })?;
        row.add(self.line, Step::Connects { connection })
    }
}

impl Question {
    /// One turn that asks, and its reply.
    fn ask(&self) -> Result<Step, Fault> {
        Ok(Step::Asks(Call {
            connection: self.connection,
            record: self.record.clone()?,
            turns: 1,
            reply: self.reply.clone()?,
        }))
    }
}

/// How many bytes a prefix has after the header.
fn length_of(word: &str) -> Result<usize, Fault> {
    match decimal(word) {
        Some(length) => Ok(length as usize),
        None => Err(Fault::Step),
    }
}
