//! What a program begins with: its standard streams, and the words of its command line.

use crate::refused::Refused;
use crate::volume_file::open_refusal;
use std::alloc::AllocError;
use std::env::Env;
use std::fs::{File, OpenOptions};
use std::io::ErrorKind;
use std::rt::Files;
use std::{env, io};

/// The file that is opened in place of a standard stream that is closed.
const NOTHING: &str = "/dev/null";

/// What a program begins with.
#[derive(Drop)]
pub struct Begun {
    /// As many files as there are standard streams: those that were closed are among them.
    _streams: [File; 3],
    /// The words after the program's name.
    pub words: Vec<String>,
}

/// Why a program does not begin.
#[derive(Clone, Copy)]
pub enum Unbegun {
    /// A word is not UTF-8.
    Word,
    Refused(Refused),
}

impl From<Refused> for Unbegun {
    fn from(refused: Refused) -> Unbegun {
        Unbegun::Refused(refused)
    }
}

impl From<io::Error> for Unbegun {
    fn from(error: io::Error) -> Unbegun {
        Unbegun::Refused(error.into())
    }
}

impl From<AllocError> for Unbegun {
    fn from(error: AllocError) -> Unbegun {
        Unbegun::Refused(error.into())
    }
}

/// Reads the words of the command line. As long as the result exists, no file that is opened takes
/// the place of a standard stream that is closed.
pub fn begin<R>(rt: &R) -> Result<Begun, Unbegun>
where
    R: Files<File = File> + Env + AllocGlobal,
{
    Ok(Begun {
        // Before any other file is opened.
        _streams: [nothing(rt)?, nothing(rt)?, nothing(rt)?],
        words: words(rt)?,
    })
}

/// An open file, which takes the lowest place that is free.
fn nothing<R: Files<File = File>>(rt: &R) -> Result<File, Refused> {
    match OpenOptions::new().read(true).write(true).open(rt, NOTHING) {
        Ok(file) => Ok(file),
        Err(error) => Err(open_refusal(error.kind())),
    }
}

fn words<R: Env + AllocGlobal>(rt: &R) -> Result<Vec<String>, Unbegun> {
    match env::args(rt) {
        Ok(words) => Ok(words.skip(1).collect(rt.alloc())?),
        Err(error) if error.kind() == ErrorKind::InvalidData => Err(Unbegun::Word),
        Err(error) => Err(error.into()),
    }
}
