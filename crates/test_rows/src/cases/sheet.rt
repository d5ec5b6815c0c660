//! Files of cases.

use super::case::{Case, Placed};
use super::line::{Line, read_line};
use super::step::{Step, read_step};
use super::text::{Texts, add_line, extend_line};
use crate::fault::{Fault, Misread};
use crate::shown::Stream;
use std::alloc::Global;

/// The cases of a file, and the stream of the line of text that was read last.
#[derive(Drop)]
struct Sheet<'a> {
    cases: Vec<Case<'a>>,
    last: Option<Stream>,
}

/// Reads the cases of a file.
pub fn read_sheet(alloc: Global, text: &str) -> Result<Vec<Case<'_>>, Misread> {
    let mut sheet = Sheet {
        cases: Vec::new(alloc),
        last: None,
    };
    let mut line = 0_u32;
    for text in text.lines() {
        line = line.saturating_add(1);
        if let Err(fault) = sheet.take(alloc, line, text) {
            return Err(Misread { line, fault });
        }
    }
    Ok(sheet.cases)
}

impl<'a> Sheet<'a> {
    fn take(&mut self, alloc: Global, line: u32, text: &'a str) -> Result<(), Fault> {
        match (read_line(text), self.last) {
            (Line::Nothing, _) => Ok(()),
            (Line::Case(name), _) => {
                self.last = None;
                self.begin_case(alloc, name)
            }
            (Line::Text { stream, text }, _) => {
                self.last = Some(stream);
                add_line(self.text(stream)?, text)
            }
            (Line::More(text), Some(stream)) => extend_line(self.text(stream)?, text),
            (Line::More(_), None) => Err(Fault::Place),
            (Line::Peer { verb, words }, _) => {
                self.last = None;
                self.step()?.go_on(alloc, verb, words)
            }
            (Line::Step { verb, words }, _) => {
                self.last = None;
                self.add_step(alloc, line, verb, words)
            }
        }
    }

    fn begin_case(&mut self, alloc: Global, name: &'a str) -> Result<(), Fault> {
        if name.is_empty() || self.cases.iter().any(|case| case.name == name) {
            return Err(Fault::Name);
        }
        self.cases.push(Case {
            name,
            prefix: Texts::new(alloc),
            steps: Vec::new(alloc),
        })?;
        Ok(())
    }

    /// What goes by this stream at the last step, or at each command of the case that has just
    /// begun.
    fn text(&mut self, stream: Stream) -> Result<&mut Vec<u8>, Fault> {
        let Some(case) = self.cases.last_mut() else {
            return Err(Fault::Place);
        };
        match case.steps.last_mut() {
            Some(placed) => placed.step.text(stream).ok_or(Fault::Place),
            None => Ok(case.prefix.by(stream)),
        }
    }

    /// The last step.
    fn step(&mut self) -> Result<&mut Step<'a>, Fault> {
        let Some(case) = self.cases.last_mut() else {
            return Err(Fault::Place);
        };
        match case.steps.last_mut() {
            Some(placed) => Ok(&mut placed.step),
            None => Err(Fault::Place),
        }
    }

    /// Puts a step after those of the last case.
    fn add_step(
        &mut self,
        alloc: Global,
        line: u32,
        verb: &str,
        words: &'a str,
    ) -> Result<(), Fault> {
        let Some(case) = self.cases.last_mut() else {
            return Err(Fault::Place);
        };
        let step = read_step(alloc, &case.prefix, verb, words)?;
        case.steps.push(Placed { line, step })?;
        Ok(())
    }
}
