//! How to embed the server: a volume in memory, one connection, records in and replies out.
//!
//! A program has a `FileDevice` in place of the `MemDevice`, a clock in place of `now`, and a
//! socket from which the bytes come. [`mount`] and [`exchange`] make the calls that it needs.
#![tactic(auto)]

use disk::{Device, DiskFault, MemDevice};
use server::{FormatFault, Holding, MountFault, Server, ServerFault, ServerName, Settings, Turn};
use std::alloc::Global;
use thiserror::Error;

/// The sectors of the volume, of 4,096 bytes each.
const SECTORS: u32 = 256;

/// How many files and directories it may have, its root included.
const NODES: u32 = 16;

/// The most turns from a request to its reply: one for each of at most 16 operations, and one in
/// which a seat of the volume holds the reply.
const MAX_TURNS: u32 = 17;

/// Why there is no server. In memory each of these means that memory ran out.
#[derive(Clone, Copy, Debug, Error)]
pub enum Unserved {
    #[error("no device: {0}")]
    Disk(#[from] DiskFault),
    #[error("no new volume: {0}")]
    Format(#[from] FormatFault),
    #[error("no mounted volume: {0}")]
    Mount(#[from] MountFault),
}

/// A server of a new, empty volume in memory.
///
/// # Errors
/// Only for memory.
pub fn mount(alloc: Global) -> Result<Server<MemDevice>, Unserved> {
    let mut device = MemDevice::new(alloc, SECTORS)?;
    Server::format(alloc, &mut device, NODES)?;
    let Ok(name) = ServerName::standard(alloc) else {
        return Err(Unserved::Mount(MountFault::Memory));
    };
    let settings = Settings {
        name,
        holding: Holding::Nothing,
        yields_when_full: false,
    };
    match Server::mount(alloc, device, settings) {
        Ok(server) => Ok(server),
        Err(unmounted) => Err(unmounted.fault.into()),
    }
}

/// Hands the bytes of records to a new connection, and returns the reply to each whole one. The
/// time of its turns is in nanoseconds since 1970.
///
/// # Errors
/// Those of the calls of [`Server`], as Closed if a record is no call.
pub fn exchange<D: Device>(
    server: &mut Server<D>,
    alloc: Global,
    records: &[u8],
    now: u64,
) -> Result<Vec<Vec<u8>>, ServerFault> {
    let conn = server.connect()?;
    let replies = replies_to(server, conn, alloc, records, now);
    server.hangup(conn, now)?;
    replies
}

/// The reply to each whole record. The bytes after the last one stay with the connection.
fn replies_to<D: Device>(
    server: &mut Server<D>,
    conn: usize,
    alloc: Global,
    records: &[u8],
    now: u64,
) -> Result<Vec<Vec<u8>>, ServerFault> {
    let mut replies = Vec::new(alloc);
    let mut rest = records;
    // each round but the last takes a whole record, and a record has bytes
    for _ in 0..records.len() {
        let taken = server.feed(conn, rest)?;
        rest = rest.get(taken..).unwrap_or_default();
        match next_reply(server, conn, now)? {
            Some(reply) => replies.push(reply)?,
            None => break,
        }
    }
    Ok(replies)
}

/// Gives the connection turns until its reply is made, one for each operation, and takes that.
/// `None` if no whole record is there.
fn next_reply<D: Device>(
    server: &mut Server<D>,
    conn: usize,
    now: u64,
) -> Result<Option<Vec<u8>>, ServerFault> {
    for _ in 0..MAX_TURNS {
        match server.turn(conn, now)? {
            Turn::Ran => {}
            Turn::Answered => return server.take_output(conn),
            Turn::Idle => return Ok(None),
        }
    }
    Ok(None)
}
