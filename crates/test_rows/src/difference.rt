//! How a server or the program does otherwise than a row or a case has it.

use crate::answer::Answer;
use crate::fault::Fault;
use crate::host::Unmounted;
use crate::refusal::Refusal;
use crate::shown::{Answers, Stream, Text, Words};
use disk::DiskFault;
use std::alloc::{AllocError, AllocFailed, Global};
use std::fmt::Display;
use std::{fmt, io};

/// The first difference of a row or a case, and the line of its step.
#[derive(Drop)]
pub struct Differs {
    pub line: u32,
    pub difference: Difference,
}

/// What goes otherwise than a step has it.
#[derive(Drop)]
pub enum Difference {
    /// Another reply is given.
    Reply {
        wanted: Words,
        got: Words,
    },
    /// A call of a server returns something else.
    Answer {
        wanted: Answer,
        got: Answer,
    },
    /// A command ends with another status.
    Status {
        wanted: u8,
        got: u8,
    },
    /// A command writes another text: the number of its first line that differs.
    Text {
        stream: Stream,
        line: u32,
        wanted: Text,
        got: Text,
    },
    /// A command writes no port.
    Port,
    /// A text or a file has another length.
    Length {
        wanted: usize,
        got: usize,
    },
    /// A file differs from another one.
    Bytes,
    /// There is a file that was to be absent.
    Present,
    /// A file has fewer bytes than are to be changed.
    Short,
    /// The device did not crash when it was to.
    NoCrash,
    /// A call of the device failed, and no call of the server failed with it.
    Unreturned,
    /// A mount finds a state that a crash may not leave: its replies to the looks.
    State(Answers),
    /// A mount after a mount that crashed finds another state.
    OtherState,
    /// A record has a gap that is not filled.
    Record(Fault),
    /// There is no device to play the row on.
    Device(DiskFault),
    /// The device is made no volume.
    Format(Refusal),
    /// The volume is not mounted.
    Mount(Refusal),
    /// The loop over the server's peers ends.
    Loop(Refusal),
    /// A file or a socket fails.
    Io(io::Error),
    /// There is no memory.
    Memory(AllocError),
}

impl fmt::Display for Differs {
    fn fmt<W: fmt::Write>(&self, f: &mut fmt::Formatter<W>) -> fmt::Result {
        write!(f, "line {}, {}", self.line, self.difference)
    }
}

impl fmt::Display for Difference {
    fn fmt<W: fmt::Write>(&self, f: &mut fmt::Formatter<W>) -> fmt::Result {
        match self {
            Difference::Reply { wanted, got } => {
                write!(f, "reply\n  wanted{wanted}\n  got   {got}")
            }
            Difference::Answer { wanted, got } => {
                write!(f, "call\n  wanted {wanted:?}\n  got    {got:?}")
            }
            Difference::Status { wanted, got } => {
                write!(f, "status\n  wanted {wanted}\n  got    {got}")
            }
            Difference::Text {
                stream,
                line,
                wanted,
                got,
            } => write!(f, "{stream} {line}\n  wanted {wanted}\n  got    {got}"),
            Difference::Length { wanted, got } => {
                write!(f, "length\n  wanted {wanted}\n  got    {got}")
            }
            _ => {
                f.write_str(self.words())?;
                self.show_cause(f)
            }
        }
    }
}

impl Difference {
    /// What it is called; nothing if its cause says it all, or the two values that differ.
    fn words(&self) -> &'static str {
        match self {
            Difference::Port => "no port is written",
            Difference::Bytes => "other bytes",
            Difference::Present => "it is there",
            Difference::Short => "a short file",
            Difference::NoCrash => "no crash",
            Difference::Unreturned => "a failure that no call returned",
            Difference::State(_) => "a state that may not be left",
            Difference::OtherState => "another state than the mount before it",
            Difference::Device(_) => "no device: ",
            Difference::Format(_) => "not formatted: ",
            Difference::Mount(_) => "not mounted: ",
            Difference::Loop(_) => "the loop ends: ",
            Difference::Memory(_) => "no memory",
            _ => "",
        }
    }

    fn show_cause<W: fmt::Write>(&self, f: &mut fmt::Formatter<W>) -> fmt::Result {
        match self {
            Difference::State(answers) => answers.fmt(f),
            Difference::Record(fault) => fault.fmt(f),
            Difference::Device(fault) => fault.fmt(f),
            Difference::Format(refusal) => refusal.fmt(f),
            Difference::Mount(refusal) => refusal.fmt(f),
            Difference::Loop(refusal) => refusal.fmt(f),
            Difference::Io(error) => error.fmt(f),
            _ => Ok(()),
        }
    }
}

impl From<Fault> for Difference {
    fn from(fault: Fault) -> Difference {
        Difference::Record(fault)
    }
}

impl From<DiskFault> for Difference {
    fn from(fault: DiskFault) -> Difference {
        Difference::Device(fault)
    }
}

impl From<Refusal> for Difference {
    fn from(refusal: Refusal) -> Difference {
        Difference::Loop(refusal)
    }
}

impl From<io::Error> for Difference {
    fn from(error: io::Error) -> Difference {
        Difference::Io(error)
    }
}

impl From<AllocError> for Difference {
    fn from(error: AllocError) -> Difference {
        Difference::Memory(error)
    }
}

impl<T: Drop> From<AllocFailed<T>> for Difference {
    fn from(_: AllocFailed<T>) -> Difference {
        Difference::Memory(AllocError)
    }
}

impl From<Unmounted> for Difference {
    fn from(unmounted: Unmounted) -> Difference {
        Difference::Mount(unmounted.fault)
    }
}

/// What a step on this line brings.
pub fn placed<T: Drop>(line: u32, outcome: Result<T, Difference>) -> Result<T, Differs> {
    match outcome {
        Ok(value) => Ok(value),
        Err(difference) => Err(Differs { line, difference }),
    }
}

/// The reply is the expected one.
pub fn expect_reply(alloc: Global, wanted: &[u8], got: Vec<u8>) -> Result<(), Difference> {
    if got.as_slice() == wanted {
        return Ok(());
    }
    Err(Difference::Reply {
        wanted: Words(Vec::from_slice(alloc, wanted)?),
        got: Words(got),
    })
}

/// A text or a file has the expected length.
pub fn expect_length(wanted: usize, got: usize) -> Result<(), Difference> {
    if wanted == got {
        Ok(())
    } else {
        Err(Difference::Length { wanted, got })
    }
}
