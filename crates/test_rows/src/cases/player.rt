//! Playing a case.

use super::case::Case;
use super::files::{copy, expect_absent, expect_same, expect_size, locked, protect, put, zeros};
use super::output::{Output, port_of};
use super::port::{fill, take_port};
use super::step::{Peer, Step, Way};
use super::text::Texts;
use crate::difference::{Difference, Differs, expect_length, expect_reply};
use crate::shown::{Stream, Text};
use std::alloc::Global;
use std::fs;
use std::fs::File;
use std::io::Read;
use std::net::TcpStream;

/// The program of the cases.
pub trait Program {
    /// Does what the words ask for, and returns the exit status.
    fn command(
        rt: &HostRuntime,
        words: &[String],
        input: &mut &[u8],
        output: &mut Output<'_>,
        errors: &mut Vec<u8>,
    ) -> u8;
}

/// Does the steps of a case, up to the first that differs.
pub fn play<P: Program>(rt: &HostRuntime, case: &Case<'_>) -> Result<(), Differs> {
    let mut lock = None;
    for placed in case.steps.iter() {
        if let Err(difference) = take::<P>(rt, &placed.step, &mut lock) {
            return Err(Differs {
                line: placed.line,
                difference,
            });
        }
    }
    Ok(())
}

fn take<P: Program>(
    rt: &HostRuntime,
    step: &Step<'_>,
    lock: &mut Option<File>,
) -> Result<(), Difference> {
    match step {
        Step::Runs {
            status,
            words,
            texts,
            way,
        } => run::<P>(rt, *status, words, texts, way),
        Step::Writes { file, text } => Ok(fs::write(rt, *file, text.as_slice())?),
        Step::Zeros { file, length } => zeros(rt, *file, *length),
        Step::Puts { file, place, bytes } => put(rt, *file, *place, bytes),
        Step::Copies { file, copy: to } => copy(rt, *file, *to),
        Step::Same { file, other } => expect_same(rt, *file, *other),
        Step::Length { file, length } => expect_size(rt, *file, *length),
        Step::Absent { file } => expect_absent(rt, *file),
        Step::Removes { file } => Ok(fs::remove_file(rt, *file)?),
        Step::Protects { file } => protect(rt, *file),
        Step::Locks { file, hold } => {
            *lock = None;
            *lock = Some(locked(rt, *file, *hold)?);
            Ok(())
        }
    }
}

/// Runs a command, and compares what it leaves.
fn run<'a, P: Program>(
    rt: &'a HostRuntime,
    status: u8,
    words: &[&str],
    texts: &'a Texts,
    way: &'a Way,
) -> Result<(), Difference> {
    let port = take_port(rt, words)?;
    let words = fill(rt, words, &port)?;
    let mut input = texts.input.as_slice();
    let mut output = Output::new(rt, way);
    let mut errors = Vec::new(rt.alloc());
    let got = P::command(rt, &words, &mut input, &mut output, &mut errors);
    compare_streams(rt.alloc(), texts, way, &output, &errors)?;
    expect_status(status, got)
}

/// What a command wrote is as its case has it.
fn compare_streams(
    alloc: Global,
    texts: &Texts,
    way: &Way,
    output: &Output<'_>,
    errors: &[u8],
) -> Result<(), Difference> {
    compare(alloc, Stream::Errors, &texts.errors, errors)?;
    match way {
        Way::Serves(peers) => compare_peers(alloc, peers, output),
        _ => compare(alloc, Stream::Output, &texts.output, &output.text),
    }
}

fn expect_status(wanted: u8, got: u8) -> Result<(), Difference> {
    if got == wanted {
        Ok(())
    } else {
        Err(Difference::Status { wanted, got })
    }
}

/// Reports the first line in which texts differ.
fn compare(alloc: Global, stream: Stream, wanted: &[u8], got: &[u8]) -> Result<(), Difference> {
    if wanted == got {
        return Ok(());
    }
    let lines = wanted
        .split(|byte| *byte == b'\n')
        .zip(got.split(|byte| *byte == b'\n'));
    let mut line = 0_u32;
    for (wanted, got) in lines {
        line = line.saturating_add(1);
        if wanted != got {
            return Err(Difference::Text {
                stream,
                line,
                wanted: Text(Vec::from_slice(alloc, wanted)?),
                got: Text(Vec::from_slice(alloc, got)?),
            });
        }
    }
    expect_length(wanted.len(), got.len())
}

/// The port was written, and each peer got its reply.
fn compare_peers(alloc: Global, peers: &[Peer], output: &Output<'_>) -> Result<(), Difference> {
    if port_of(&output.text).is_none() {
        return Err(Difference::Port);
    }
    for (peer, stream) in peers.iter().zip(output.streams.iter()) {
        compare_reply(alloc, &peer.gets, stream)?;
    }
    expect_length(peers.len(), output.streams.len())
}

/// A peer was sent these bytes, up to the end of its connection.
fn compare_reply(alloc: Global, wanted: &[u8], peer: &TcpStream) -> Result<(), Difference> {
    let mut stream = peer;
    let mut got = Vec::new(alloc);
    stream.read_to_end(&mut got)?;
    expect_reply(alloc, wanted, got)
}
