//! Why a file is not read.

use std::alloc::{AllocError, AllocFailed};
use std::fmt;

/// What is wrong with a line.
#[derive(Clone, Copy)]
pub enum Fault {
    /// No memory.
    Memory(AllocError),
    /// It begins nothing, and goes on with nothing.
    Place,
    /// The record, the row or the case that it begins has no name, or that of an earlier one.
    Name,
    /// A word of a record is no number of four bytes in hex, and no gap.
    Word,
    /// A step has no form.
    Step,
    /// A step names a record that is not above it.
    Unknown,
    /// A record has a gap that its step does not fill.
    Gap,
    /// A record does not have that number of bytes.
    Short,
    /// After `\` there are not two hexadecimal digits.
    Escape,
}

impl Fault {
    fn words(self) -> &'static str {
        match self {
            Fault::Memory(_) => "no memory",
            Fault::Place => "it goes on with nothing",
            Fault::Name => "not a new name",
            Fault::Word => "a word that is not of four bytes in hex",
            Fault::Step => "not a step",
            Fault::Unknown => "no record above has this name",
            Fault::Gap => "a gap that this step does not fill",
            Fault::Short => "a record of fewer bytes",
            Fault::Escape => "no two hexadecimal digits",
        }
    }
}

impl fmt::Display for Fault {
    fn fmt<W: fmt::Write>(&self, f: &mut fmt::Formatter<W>) -> fmt::Result {
        f.write_str(self.words())
    }
}

impl From<AllocError> for Fault {
    fn from(error: AllocError) -> Fault {
        Fault::Memory(error)
    }
}

impl<T: Drop> From<AllocFailed<T>> for Fault {
    fn from(_: AllocFailed<T>) -> Fault {
        Fault::Memory(AllocError)
    }
}

/// The line of a file that is not read, and why.
#[derive(Clone, Copy)]
pub struct Misread {
    pub line: u32,
    pub fault: Fault,
}

impl fmt::Display for Misread {
    fn fmt<W: fmt::Write>(&self, f: &mut fmt::Formatter<W>) -> fmt::Result {
        let Misread { line, fault } = *self;
        write!(f, "{line}: {fault}")
    }
}
