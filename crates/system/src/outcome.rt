//! How a program reports its outcome: its exit status, and a line on its standard error.

use std::fmt::Display;
use std::io::Write;

/// The exit statuses.
const DONE: u8 = 0;

const REFUSED: u8 = 1;

const USAGE: u8 = 2;

/// Prints why the program failed, if it did. Returns the exit status.
pub fn tell_outcome<E, F>(err: &mut E, outcome: Result<(), F>) -> u8
where
    E: Write,
    F: Display + Drop,
{
    match outcome {
        Ok(()) => DONE,
        Err(refused) => {
            let _ = writeln!(err, "refused: {refused}");
            REFUSED
        }
    }
}

/// Prints which words there may be. Returns the exit status.
pub fn tell_usage<E: Write>(err: &mut E, usage: &str) -> u8 {
    let _ = writeln!(err, "usage: {usage}");
    USAGE
}
