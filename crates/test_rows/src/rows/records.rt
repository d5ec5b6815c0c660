//! Records by name, and what is in them.

use crate::fault::Fault;
use crate::number::{decimal, hexadecimal};
use std::alloc::{AllocError, Global};

/// The bytes of a record's header, and the bit of a last fragment in it.
pub const HEADER: usize = 4;

const LAST_FRAGMENT: u32 = 0x8000_0000;

/// A part of a record as a file has it.
#[derive(Clone, Copy)]
pub enum Part {
    /// A number of four bytes, a number of times.
    Word { number: u32, times: u16 },
    /// `<length>`: the header of a last fragment, of all that follows it.
    Length,
    /// `<number>`: the number of the step.
    Number,
    /// `<status>`: the status of the step.
    Status,
    /// `<words>`: the words of the step.
    Words,
}

/// What a step puts into the gaps of its records.
#[derive(Clone, Copy)]
pub struct Filling<'a> {
    pub number: u32,
    pub status: u32,
    pub words: &'a [Part],
}

/// Records, by their names.
#[derive(Drop)]
pub struct Records<'a> {
    records: Vec<Record<'a>>,
}

#[derive(Drop)]
struct Record<'a> {
    name: &'a str,
    parts: Vec<Part>,
}

impl<'a> Records<'a> {
    /// No records.
    pub fn new(alloc: Global) -> Records<'a> {
        Records {
            records: Vec::new(alloc),
        }
    }

    fn find(&self, name: &str) -> Option<&Record<'a>> {
        self.records.iter().find(|record| record.name == name)
    }

    /// Begins a record, which has no words yet.
    pub fn begin(&mut self, alloc: Global, name: &'a str) -> Result<(), Fault> {
        if self.find(name).is_some() {
            return Err(Fault::Name);
        }
        self.records.push(Record {
            name,
            parts: Vec::new(alloc),
        })?;
        Ok(())
    }

    /// Puts words after those of the last record.
    pub fn extend(&mut self, words: &str) -> Result<(), Fault> {
        let Some(record) = self.records.last_mut() else {
            return Err(Fault::Place);
        };
        for word in words.split_whitespace() {
            let part = read_part(word)?;
            // A header is in front of what it counts.
            if matches!(part, Part::Length) && !record.parts.is_empty() {
                return Err(Fault::Word);
            }
            record.parts.push(part)?;
        }
        Ok(())
    }

    /// The record of this name, whose gaps are filled later.
    pub fn pattern(&self, alloc: Global, name: &str) -> Result<Pattern, Fault> {
        match self.find(name) {
            Some(record) => Ok(Pattern {
                parts: Vec::from_slice(alloc, &record.parts)?,
            }),
            None => Err(Fault::Unknown),
        }
    }

    /// The bytes of the record of this name, with its gaps filled.
    pub fn spell(
        &self,
        alloc: Global,
        name: &str,
        filling: Option<Filling<'_>>,
    ) -> Result<Vec<u8>, Fault> {
        match self.find(name) {
            Some(record) => spell_parts(alloc, &record.parts, filling),
            None => Err(Fault::Unknown),
        }
    }
}

/// A record whose gaps are filled when it is sent or compared.
#[derive(Drop)]
pub struct Pattern {
    parts: Vec<Part>,
}

impl Pattern {
    /// Its bytes, with this number in its gaps.
    pub fn spell(&self, alloc: Global, number: u32) -> Result<Vec<u8>, Fault> {
        let filling = Filling {
            number,
            status: 0,
            words: &[],
        };
        spell_parts(alloc, &self.parts, Some(filling))
    }
}

/// Reads words that have no gaps.
pub fn read_words(alloc: Global, words: &[&str]) -> Result<Vec<Part>, Fault> {
    let mut parts = Vec::new(alloc);
    for word in words {
        parts.push(read_word(*word)?)?;
    }
    Ok(parts)
}

fn read_part(word: &str) -> Result<Part, Fault> {
    match word {
        "<length>" => Ok(Part::Length),
        "<number>" => Ok(Part::Number),
        "<status>" => Ok(Part::Status),
        "<words>" => Ok(Part::Words),
        _ => read_word(word),
    }
}

/// Reads `W` or `W*N`.
fn read_word(word: &str) -> Result<Part, Fault> {
    let (digits, times) = match word.split_once("*") {
        Some((digits, times)) => (digits, decimal(times).ok_or(Fault::Word)?),
        None => (word, 1),
    };
    let Ok(times) = u16::try_from(times) else {
        return Err(Fault::Word);
    };
    Ok(Part::Word {
        number: hexadecimal(digits).ok_or(Fault::Word)?,
        times,
    })
}

fn spell_parts(
    alloc: Global,
    parts: &[Part],
    filling: Option<Filling<'_>>,
) -> Result<Vec<u8>, Fault> {
    let mut bytes = Vec::new(alloc);
    for part in parts {
        spell_part(&mut bytes, *part, filling)?;
    }
    if let [Part::Length, ..] = parts {
        set_header(&mut bytes);
    }
    Ok(bytes)
}

/// Appends a part, a header as a word of zeros.
fn spell_part(bytes: &mut Vec<u8>, part: Part, filling: Option<Filling<'_>>) -> Result<(), Fault> {
    match (part, filling) {
        (Part::Word { number, times }, _) => repeat(bytes, number, times)?,
        (Part::Length, _) => repeat(bytes, 0, 1)?,
        (_, None) => return Err(Fault::Gap),
        (Part::Number, Some(filling)) => repeat(bytes, filling.number, 1)?,
        (Part::Status, Some(filling)) => repeat(bytes, filling.status, 1)?,
        (Part::Words, Some(filling)) => append_words(bytes, filling.words)?,
    }
    Ok(())
}

fn append_words(bytes: &mut Vec<u8>, words: &[Part]) -> Result<(), AllocError> {
    for part in words {
        if let Part::Word { number, times } = *part {
            repeat(bytes, number, times)?;
        }
    }
    Ok(())
}

/// Appends a number of four bytes a number of times.
fn repeat(bytes: &mut Vec<u8>, number: u32, times: u16) -> Result<(), AllocError> {
    for _ in 0..times {
        bytes.extend_from_slice(&number.to_be_bytes())?;
    }
    Ok(())
}

/// Makes the first four bytes the header of a last fragment, of all that follows them.
pub fn set_header(record: &mut [u8]) {
    let length = u32::try_from(record.len().saturating_sub(HEADER)).unwrap_or(u32::MAX);
    let header = (LAST_FRAGMENT | length).to_be_bytes();
    for (byte, digit) in record.iter_mut().zip(header) {
        *byte = digit;
    }
}
