//! A client over readers and writers: in one piece, in pieces of one byte, in fragments, cut short
//! and garbled.

use super::asking::{
    Ask, EXCHANGE_ID, EXCHANGED, Told, bytes_of, exchange, kept, new_client, request, resend,
};
use client::Client;
use std::alloc::Global;
use std::io;
use std::io::{Error, ErrorKind, Read, Write};
use std::test::*;

/// The reply to EXCHANGE_ID in fragments of 4, 0, 32 and 64 bytes.
const IN_FRAGMENTS: &str = "4 2 0 20 1 0 0 0 0 0 0 1 80000040
    2a 0 1 1 1 10000 0 0 0 8 6e667334 31737276 8 6e667334 31737276 0";

/// Records that are no reply to it: another xid, a call, and more than 16,384 bytes at once and in
/// the second fragment.
const GARBLED: [&str; 4] = [
    "80000018 3 1 0 0 0 1",
    "80000028 2 0 2 186a3 4 0 0 0 0 0",
    "80004001",
    "4 2 80003ffd",
];

/// A stream that gives a byte at each other call, takes one at each other call, and is interrupted
/// between. It fails after the bytes that it gives, and after those that it has room for.
#[derive(Drop)]
struct Slow<'a> {
    gives: &'a [u8],
    takes: Vec<u8>,
    room: usize,
    is_flushed: bool,
    is_interrupted: bool,
}

impl Slow<'_> {
    /// Whether this call is interrupted.
    fn pauses(&mut self) -> bool {
        self.is_interrupted = !self.is_interrupted;
        self.is_interrupted
    }
}

impl Read for Slow<'_> {
    fn read(&mut self, buf: &mut [u8]) -> io::Result<usize> {
        if self.pauses() {
            return Err(Error::from(ErrorKind::Interrupted));
        }
        if buf.is_empty() || self.gives.is_empty() {
            return Err(Error::from(ErrorKind::ConnectionReset));
        }
        buf[0] = self.gives[0];
        self.gives = &self.gives[1..];
        Ok(1)
    }
}

impl Write for Slow<'_> {
    fn write(&mut self, buf: &[u8]) -> io::Result<usize> {
        if self.pauses() {
            return Err(Error::from(ErrorKind::Interrupted));
        }
        if buf.is_empty() || self.takes.len() >= self.room {
            return Err(Error::from(ErrorKind::BrokenPipe));
        }
        self.takes.push(buf[0])?;
        Ok(1)
    }

    fn flush(&mut self) -> io::Result<()> {
        self.is_flushed = true;
        Ok(())
    }
}

/// A stream that gives these bytes and has room for `room` bytes.
fn slow_stream(alloc: Global, gives: &[u8], room: usize) -> Slow<'_> {
    Slow {
        gives,
        takes: Vec::new(alloc),
        room,
        is_flushed: false,
        is_interrupted: false,
    }
}

/// What is sent: a new record, or the one that is kept.
#[derive(Clone, Copy)]
enum Sends {
    New,
    Kept,
}

/// What is sent over which streams, and the outcome.
#[derive(Clone, Copy)]
struct Turn<'a> {
    sends: Sends,
    gives: &'a [u8],
    told: Told,
    /// What is left of what the reader gives.
    left: &'a [u8],
    written: &'a [u8],
}

impl<'a> Turn<'a> {
    /// A whole reply comes, of which nothing is left.
    fn answered(sends: Sends, gives: &'a [u8], written: &'a [u8]) -> Turn<'a> {
        Turn {
            sends,
            gives,
            told: Told::Results(1),
            left: &[],
            written,
        }
    }

    /// All that comes is no reply.
    fn unanswered(sends: Sends, gives: &'a [u8], told: Told, written: &'a [u8]) -> Turn<'a> {
        Turn {
            told,
            ..Turn::answered(sends, gives, written)
        }
    }

    /// Nothing is read, and no result is reported.
    fn unread(sends: Sends, gives: &'a [u8], told: Told, written: &'a [u8]) -> Turn<'a> {
        Turn {
            left: gives,
            ..Turn::unanswered(sends, gives, told, written)
        }
    }
}

fn send<R: Read, W: Write>(
    alloc: Global,
    client: &mut Client,
    sends: Sends,
    reader: &mut R,
    writer: &mut W,
) -> Told {
    match sends {
        Sends::New => exchange(alloc, client, reader, writer),
        Sends::Kept => resend(alloc, client, reader, writer),
    }
}

/// Whether this is the outcome if the streams take and give all at once.
fn comes(alloc: Global, client: &mut Client, turn: &Turn<'_>) -> bool {
    let mut reader = turn.gives;
    let mut writer = Vec::new(alloc);
    let told = send(alloc, client, turn.sends, &mut reader, &mut writer);
    told == turn.told && reader == turn.left && writer.as_slice() == turn.written
}

/// Whether this is the outcome if they are slow, and the writer fails after `room` bytes. Nothing
/// is read before a flush.
fn comes_slowly(alloc: Global, client: &mut Client, turn: &Turn<'_>, room: usize) -> bool {
    let mut reader = slow_stream(alloc, turn.gives, 0);
    let mut writer = slow_stream(alloc, &[], room);
    let told = send(alloc, client, turn.sends, &mut reader, &mut writer);
    told == turn.told
        && reader.gives == turn.left
        && writer.takes.as_slice() == turn.written
        && (writer.is_flushed || reader.gives.len() == turn.gives.len())
}

/// The record of EXCHANGE_ID, and a reply.
#[derive(Drop)]
struct Dialogue {
    record: Vec<u8>,
    answer: Vec<u8>,
}

fn worked(alloc: Global, answer: &str) -> Result<Dialogue, Fail> {
    let record = bytes_of(alloc, EXCHANGE_ID)?;
    let answer = bytes_of(alloc, answer)?;
    Ok(Dialogue { record, answer })
}

impl Dialogue {
    /// The reply comes to the record, which is sent again.
    fn whole(&self) -> Turn<'_> {
        Turn::answered(Sends::Kept, &self.answer, &self.record)
    }
}

fn is_exchanged_at_once(alloc: Global, turn: &Turn<'_>) -> Result<bool, Fail> {
    let mut client = new_client(alloc)?;
    Ok(comes(alloc, &mut client, turn))
}

fn is_exchanged_slowly(alloc: Global, turn: &Turn<'_>) -> Result<bool, Fail> {
    let mut client = new_client(alloc)?;
    Ok(comes_slowly(alloc, &mut client, turn, turn.written.len()))
}

fn is_exchanged(alloc: Global, words: &str) -> Result<bool, Fail> {
    let mut worked = worked(alloc, words)?;
    // what follows the reply is not read
    worked.answer.extend_from_slice(b"next")?;
    let turn = Turn {
        left: b"next",
        ..Turn::answered(Sends::New, &worked.answer, &worked.record)
    };
    Ok(is_exchanged_at_once(alloc, &turn)? && is_exchanged_slowly(alloc, &turn)?)
}

#[test]
fn a_request_is_exchanged(rt: HostRuntime) -> Result<(), Fail> {
    for words in [EXCHANGED, IN_FRAGMENTS] {
        let is_so = is_exchanged(rt.alloc(), words)?;
        assert!(rt; is_so, "{words}");
    }
    Ok(())
}

/// Whether a record is kept if the reader ends after this prefix of the reply, and if it then fails
/// there.
fn outlasts_readers(alloc: Global, prefix: &[u8], worked: &Dialogue) -> Result<bool, Fail> {
    let record = worked.record.as_slice();
    let ends = Turn::unanswered(Sends::New, prefix, Told::Io, record);
    let fails = Turn::unanswered(Sends::Kept, prefix, Told::Io, record);
    let mut client = new_client(alloc)?;
    Ok(
        comes(alloc, &mut client, &ends)
            && request(alloc, &mut client, Ask::ExchangeId) == Told::Pending
            && comes_slowly(alloc, &mut client, &fails, record.len())
            && comes(alloc, &mut client, &worked.whole()),
    )
}

#[test]
fn a_reader_that_ends_or_fails_is_io(rt: HostRuntime) -> Result<(), Fail> {
    let worked = worked(rt.alloc(), IN_FRAGMENTS)?;
    for len in 0..worked.answer.len() {
        let is_so = outlasts_readers(rt.alloc(), &worked.answer[..len], &worked)?;
        assert!(rt; is_so, "{len} bytes");
    }
    Ok(())
}

/// Whether a record is kept if the writer fails after this prefix of it, before anything is read.
fn outlasts_writer(alloc: Global, prefix: &[u8], worked: &Dialogue) -> Result<bool, Fail> {
    let fails = Turn::unread(Sends::New, &worked.answer, Told::Io, prefix);
    let mut client = new_client(alloc)?;
    Ok(
        comes_slowly(alloc, &mut client, &fails, prefix.len())
            && comes(alloc, &mut client, &worked.whole()),
    )
}

#[test]
fn a_writer_that_fails_is_io(rt: HostRuntime) -> Result<(), Fail> {
    let worked = worked(rt.alloc(), EXCHANGED)?;
    for room in 0..worked.record.len() {
        let is_so = outlasts_writer(rt.alloc(), &worked.record[..room], &worked)?;
        assert!(rt; is_so, "room for {room} bytes");
    }
    Ok(())
}

/// Whether a record is kept if these bytes come in the place of its reply.
fn outlasts_others(alloc: Global, bytes: &[u8], worked: &Dialogue) -> Result<bool, Fail> {
    let others = Turn::unanswered(Sends::New, bytes, Told::Garbled, &worked.record);
    let mut client = new_client(alloc)?;
    Ok(comes(alloc, &mut client, &others) && comes(alloc, &mut client, &worked.whole()))
}

fn is_garbled(alloc: Global, words: &str) -> Result<bool, Fail> {
    let bytes = bytes_of(alloc, words)?;
    let worked = worked(alloc, EXCHANGED)?;
    outlasts_others(alloc, &bytes, &worked)
}

#[test]
fn other_records_are_garbled(rt: HostRuntime) -> Result<(), Fail> {
    for words in GARBLED {
        let is_so = is_garbled(rt.alloc(), words)?;
        assert!(rt; is_so, "{words}");
    }
    Ok(())
}

/// A reply after `empty` empty fragments.
fn behind_empty(alloc: Global, empty: u8) -> Result<Vec<u8>, Fail> {
    let mut bytes = Vec::new(alloc);
    bytes.resize(4 * usize::from(empty), 0)?;
    bytes.extend_from_slice(&bytes_of(alloc, EXCHANGED)?)?;
    Ok(bytes)
}

/// What the client reports of it.
fn told_after(alloc: Global, empty: u8) -> Result<Told, Fail> {
    let mut client = new_client(alloc)?;
    let bytes = behind_empty(alloc, empty)?;
    let mut reader = bytes.as_slice();
    let mut writer = Vec::new(alloc);
    Ok(exchange(alloc, &mut client, &mut reader, &mut writer))
}

#[test]
fn a_reply_has_sixty_four_fragments(rt: HostRuntime) -> Result<(), Fail> {
    let is_so = told_after(rt.alloc(), 63)? == Told::Results(1)
        && told_after(rt.alloc(), 64)? == Told::Garbled;
    assert!(rt; is_so);
    Ok(())
}

fn waits(alloc: Global, client: &mut Client, worked: &Dialogue) -> bool {
    let before = Turn::unread(Sends::Kept, &worked.answer, Told::Pending, &[]);
    let after = Turn::unread(Sends::New, &worked.answer, Told::Pending, &[]);
    comes(alloc, client, &before)
        && request(alloc, client, Ask::ExchangeId) == Told::Made
        && comes(alloc, client, &after)
        && comes(alloc, client, &worked.whole())
        && kept(client) == Some(worked.record.as_slice())
}

#[test]
fn nothing_is_written_while_it_waits(rt: HostRuntime) -> Result<(), Fail> {
    let worked = worked(rt.alloc(), EXCHANGED)?;
    let mut client = new_client(rt.alloc())?;
    assert!(rt; waits(rt.alloc(), &mut client, &worked));
    Ok(())
}
