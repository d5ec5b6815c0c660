//! Files of records and rows.

use super::line::{Line, read_line};
use super::records::Records;
use super::row::Row;
use super::step::add_steps;
use crate::fault::{Fault, Misread};
use std::alloc::Global;

/// The rows of a file, and the records that they may name.
#[derive(Drop)]
pub struct Sheet<'a> {
    records: Records<'a>,
    rows: Vec<Row<'a>>,
    begun: Begun,
}

/// What an indented line goes on with.
#[derive(Clone, Copy)]
enum Begun {
    Nothing,
    Record,
    Row,
}

impl<'a> Sheet<'a> {
    /// No rows, and no records.
    pub fn new(alloc: Global) -> Sheet<'a> {
        Sheet {
            records: Records::new(alloc),
            rows: Vec::new(alloc),
            begun: Begun::Nothing,
        }
    }

    /// The rows so far.
    pub fn rows(&self) -> &[Row<'a>] {
        self.rows.as_slice()
    }

    /// Takes in the records and the rows of a file.
    pub fn read(&mut self, alloc: Global, text: &'a str) -> Result<(), Misread> {
        self.begun = Begun::Nothing;
        let mut line = 0_u32;
        for text in text.lines() {
            line = line.saturating_add(1);
            if let Err(fault) = self.take(alloc, line, text) {
                return Err(Misread { line, fault });
            }
        }
        Ok(())
    }

    fn take(&mut self, alloc: Global, line: u32, text: &'a str) -> Result<(), Fault> {
        match (read_line(text).ok_or(Fault::Place)?, self.begun) {
            (Line::Nothing, _) => Ok(()),
            (Line::Record { name, words }, _) => {
                self.begun = Begun::Record;
                self.records.begin(alloc, name)?;
                self.records.extend(words)
            }
            (Line::Row(name), _) => {
                self.begun = Begun::Row;
                self.begin_row(alloc, name)
            }
            (Line::More(words), Begun::Record) => self.records.extend(words),
            (Line::More(words), Begun::Row) => self.go_on(alloc, line, words),
            (Line::More(_), Begun::Nothing) => Err(Fault::Place),
        }
    }

    fn begin_row(&mut self, alloc: Global, name: &'a str) -> Result<(), Fault> {
        if self.rows.iter().any(|row| row.name == name) {
            return Err(Fault::Name);
        }
        Ok(self.rows.push(Row::new(alloc, name))?)
    }

    /// The last row goes on with what the words say.
    fn go_on(&mut self, alloc: Global, line: u32, words: &str) -> Result<(), Fault> {
        let Some(row) = self.rows.last_mut() else {
            return Err(Fault::Place);
        };
        let words: Vec<&str> = words.split_whitespace().collect(alloc)?;
        add_steps(alloc, &self.records, line, &words, row)
    }
}
