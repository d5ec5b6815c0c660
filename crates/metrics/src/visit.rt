//! One visit: the head of a request is read, one reply is written, and the visit ends.

use crate::page::Page;
use crate::request::{Asked, read_head};
use std::alloc::{AllocError, Global};
use std::fmt::Write as _;
use std::io;
use std::io::{ErrorKind, Read, Write};

/// The most bytes of a request's head.
const MAX_HEAD_BYTES: usize = 4096;

/// A visitor, and how far its visit has come.
#[derive(Drop)]
pub struct Visit<S: Drop> {
    alloc: Global,
    stream: S,
    stage: Stage,
}

#[derive(Drop)]
enum Stage {
    /// These bytes of the request's head have come.
    Reads { head: Vec<u8>, count: usize },
    /// The page of metrics is asked for.
    Asks,
    /// `written` bytes of the reply are written.
    Writes { reply: String, written: usize },
    Ended,
}

/// What a step leaves.
#[derive(Clone, Copy, PartialEq, Eq)]
pub enum Step {
    /// Nothing can be done before the system reports a change of the stream.
    Waits,
    /// There is more to do.
    Goes,
    /// The page is asked for: [`Visit::give`] takes it.
    Asks,
    /// The visit has ended, and the stream can be closed.
    Ended,
}

impl<S: Read + Write + Drop> Visit<S> {
    /// A visit over this stream, of which no call waits.
    ///
    /// # Errors
    /// Memory for the head of the request.
    pub fn new(alloc: Global, stream: S) -> Result<Visit<S>, AllocError> {
        Ok(Visit {
            alloc,
            stream,
            stage: Stage::Reads {
                head: vec![in alloc; 0u8; MAX_HEAD_BYTES]?,
                count: 0,
            },
        })
    }

    /// Reads or writes once, if the stream lets it. A stream that fails ends the visit, and so does
    /// a reply for which there is no memory.
    pub fn step(&mut self) -> Step {
        match &mut self.stage {
            Stage::Reads { head, count } => match receive(&mut self.stream, head, count) {
                Ok(Some(asked)) => self.answer(asked),
                Ok(None) => Step::Goes,
                Err(error) => self.fail(&error),
            },
            Stage::Asks => Step::Asks,
            Stage::Writes { reply, written } => match send(&mut self.stream, reply, written) {
                Ok(true) => self.end(),
                Ok(false) => Step::Goes,
                Err(error) => self.fail(&error),
            },
            Stage::Ended => Step::Ended,
        }
    }

    /// Replies with the page that was asked for.
    pub fn give(&mut self, page: &Page) -> Step {
        self.reply("200 OK", page.as_str())
    }

    fn answer(&mut self, asked: Asked) -> Step {
        match asked {
            Asked::Page => {
                self.stage = Stage::Asks;
                Step::Asks
            }
            Asked::OtherPath => self.reply("404 Not Found", "the metrics are at /metrics\n"),
            Asked::OtherMethod => self.reply("405 Method Not Allowed", "only GET is served\n"),
            Asked::Malformed => self.reply("400 Bad Request", "not an HTTP request\n"),
            Asked::TooLong => self.reply("431 Request Header Fields Too Large", "too long\n"),
        }
    }

    fn reply(&mut self, status: &str, body: &str) -> Step {
        match reply_of(self.alloc, status, body) {
            Ok(reply) => {
                self.stage = Stage::Writes { reply, written: 0 };
                Step::Goes
            }
            Err(_) => self.end(),
        }
    }

    fn fail(&mut self, error: &io::Error) -> Step {
        match error.kind() {
            ErrorKind::WouldBlock => Step::Waits,
            ErrorKind::Interrupted => Step::Goes,
            _ => self.end(),
        }
    }

    fn end(&mut self) -> Step {
        self.stage = Stage::Ended;
        Step::Ended
    }
}

/// Reads once behind the bytes that came, and returns what the head asks for once it is whole.
fn receive<S: Read>(
    stream: &mut S,
    head: &mut [u8],
    count: &mut usize,
) -> io::Result<Option<Asked>> {
    let Some(room) = head.get_mut(*count..) else {
        return Ok(Some(Asked::TooLong));
    };
    if room.is_empty() {
        return Ok(Some(Asked::TooLong));
    }
    let came = stream.read(room)?;
    if came == 0 {
        return Err(ErrorKind::UnexpectedEof.into());
    }
    *count = count.saturating_add(came);
    Ok(read_head(head.get(..*count).unwrap_or_default()))
}

/// Writes once what is left of the reply. Returns whether all of it is written.
fn send<S: Write>(stream: &mut S, reply: &str, written: &mut usize) -> io::Result<bool> {
    let rest = reply.as_bytes().get(*written..).unwrap_or_default();
    if rest.is_empty() {
        return Ok(true);
    }
    let sent = stream.write(rest)?;
    *written = written.saturating_add(sent);
    Ok(sent >= rest.len())
}

/// A reply with this body, after which the connection is closed (RFC 9112, section 9.6).
fn reply_of(alloc: Global, status: &str, body: &str) -> Result<String, AllocError> {
    let length = body.len();
    format!(in alloc;
        "HTTP/1.1 {status}\r\nContent-Type: text/plain; version=0.0.4; charset=utf-8\r\n\
         Content-Length: {length}\r\nConnection: close\r\n\r\n{body}"
    )
}
