//! The lines of a script.

use crate::operation::{Operation, read_operations};
use std::alloc::{AllocError, Global};
use system::decimal;

/// What a line asks for.
#[derive(Drop)]
pub enum Line<'a> {
    /// Nothing: the line is empty or a comment.
    Nothing,
    /// Drop the server and its connections, and mount again.
    Restart,
    /// A client does something.
    Client { name: &'a str, action: Action<'a> },
}

/// What a client does.
#[derive(Drop)]
pub enum Action<'a> {
    /// A new client of this name connects and makes itself known.
    Hello { uid: u32, gid: u32 },
    /// It asks for a session, or for a persistent one.
    Session { persistent: bool },
    /// It sends these operations after a SEQUENCE.
    Call(Vec<Operation<'a>>),
    /// Its connection is given a turn.
    Turn,
    /// Turns are run up to its reply, which it takes.
    Take,
    /// It sends its last record again, over a new connection.
    Retry,
}

/// Reads a line without its end; None if it has no form. Words are separated by one blank.
pub fn read_line(alloc: Global, text: &str) -> Result<Option<Line<'_>>, AllocError> {
    if text.is_empty() || text.starts_with('#') {
        return Ok(Some(Line::Nothing));
    }
    let words: Vec<&str> = text.split(' ').collect(alloc)?;
    read_words(alloc, &words)
}

fn read_words<'a>(alloc: Global, words: &[&'a str]) -> Result<Option<Line<'a>>, AllocError> {
    if words.iter().any(|word| word.is_empty()) {
        return Ok(None);
    }
    match words {
        [word] if *word == "restart" => Ok(Some(Line::Restart)),
        [name, rest @ ..] => match read_action(alloc, rest)? {
            Some(action) => Ok(Some(Line::Client {
                name: *name,
                action,
            })),
            None => Ok(None),
        },
        [] => Ok(None),
    }
}

fn read_action<'a>(alloc: Global, words: &[&'a str]) -> Result<Option<Action<'a>>, AllocError> {
    match words {
        [verb, operations @ ..] if *verb == "call" => {
            Ok(read_operations(alloc, operations)?.map(Action::Call))
        }
        [verb, uid, gid] if *verb == "hello" => Ok(hello_of(*uid, *gid)),
        [verb, kind] if *verb == "session" && *kind == "persist" => {
            Ok(Some(Action::Session { persistent: true }))
        }
        [verb] => Ok(plain_action(*verb)),
        _ => Ok(None),
    }
}

fn hello_of<'a>(uid: &str, gid: &str) -> Option<Action<'a>> {
    Some(Action::Hello {
        uid: decimal(uid)?,
        gid: decimal(gid)?,
    })
}

fn plain_action<'a>(verb: &str) -> Option<Action<'a>> {
    match verb {
        "session" => Some(Action::Session { persistent: false }),
        "turn" => Some(Action::Turn),
        "take" => Some(Action::Take),
        "retry" => Some(Action::Retry),
        _ => None,
    }
}

/// A number below 2^64, of decimal digits only.
pub fn long_decimal(text: &str) -> Option<u64> {
    if !text.bytes().all(|byte| byte.is_ascii_digit()) {
        return None;
    }
    text.parse::<u64>().ok()
}
