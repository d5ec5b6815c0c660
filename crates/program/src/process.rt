//! A run of the program in a process: its standard streams, and the words of its command line.

use crate::run::{USAGE, command};
use std::env::Env;
use std::io::{BufReader, Read, Write};
use system::{Machine, Refused, Unbegun, begin, tell_outcome, tell_usage};

/// Does what the words of the command line ask for, and returns the exit status, as [`command`]
/// does. No file that it opens takes the place of a standard stream that is closed.
pub fn run_process<R, I, O, E>(rt: &R, input: I, out: &mut O, err: &mut E) -> u8
where
    R: Machine + Env,
    I: Read + Drop,
    O: Write,
    E: Write,
{
    match begin(rt) {
        Ok(begun) => run_words(rt, &begun.words, input, out, err),
        Err(Unbegun::Word) => tell_usage(err, USAGE),
        Err(Unbegun::Refused(refused)) => tell_outcome(err, Err(refused)),
    }
}

fn run_words<R, I, O, E>(rt: &R, words: &[String], input: I, out: &mut O, err: &mut E) -> u8
where
    R: Machine,
    I: Read + Drop,
    O: Write,
    E: Write,
{
    match BufReader::new(rt.alloc(), input) {
        Ok(mut input) => command(rt, words, &mut input, out, err),
        Err(error) => tell_outcome(err, Err(Refused::from(error))),
    }
}
