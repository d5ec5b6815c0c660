//! The seats that earlier runs have left: who has them, and how they are freed. The server has no
//! call for that, so the loop asks it as a client does (RFC 8881, section 18.37): one
//! DESTROY_SESSION for each seat, over a connection without a socket.

ghost use Rattle.event_loop.specs.Runs.{GoesAny};

use crate::calls;
use crate::line::Line;
use crate::lines::Lines;
use disk::Device;
use model_tree::seats::Seat;
use model_tree::status::Status;
use peer::compound_status;
use rpc::{
    AUTH_NONE, AUTH_SYS, CALL, COMPOUND, HEADER_BYTES, LAST_FRAGMENT, MINOR_VERSION, NFS_VERSION,
    PROGRAM, RPC_VERSION,
};
use server::{Server, Turn};
use std::alloc::Global;
use std::io::Write;
use std::time::{Clock, Instant};
use system::{Refused, moment};
use wire::Operation;
use xdr::{Refusal, Writer};

/// The bytes of a call's record, without its header.
const CALL_BYTES: u32 = 92;

/// The bytes of its credential, which has user and group 0 (RFC 5531, appendix A).
const CREDENTIAL_BYTES: u32 = 20;

/// The number of each call: its connection has one at a time.
const XID: u32 = 1;

/// How many seats the volume has.
fn places<D: Device>(server: &Server<D>) -> usize {
    server.seats().places.len()
}

/// The seat of this number, if it is taken.
fn seat<D: Device>(server: &Server<D>, number: usize) -> Option<&Seat> {
    server.seats().places.get(number)?.as_ref()
}

/// Prints, for each seat that is taken, whose it is.
pub fn print_seats<D, E>(server: &Server<D>, lines: &mut Lines<E>, now: Instant)
where
    D: Device,
    E: Write + Drop,
{
    for number in 0..places(server) {
        if let Some(seat) = seat(server, number) {
            let line = Line::Seat {
                number: number.saturating_add(1),
                owner: &seat.owner,
                run: run_of(&seat.session),
            };
            lines.print(&line, now);
        }
    }
}

/// How many seats are taken.
pub fn count<D: Device>(server: &Server<D>) -> usize {
    (0..places(server))
        .filter(|number| seat(server, *number).is_some())
        .count()
}

/// Whether each seat is that of a session of this run.
pub fn are_in_use<D: Device>(server: &Server<D>) -> bool {
    (0..places(server)).all(|number| match seat(server, number) {
        Some(seat) => server.has_session(&seat.session),
        None => false,
    })
}

/// Frees the seats whose sessions are not of this run. If the server refuses that, the operator is
/// warned.
///
/// # Errors
/// Device and Memory, as the server returns them; Io if the clock fails.
pub fn free_dead_seats<R, D, E>(
    rt: &R,
    server: &mut Server<D>,
    lines: &mut Lines<E>,
    now: Instant,
) -> Result<(), Refused>
where
    R: Clock + AllocGlobal,
    D: Device,
    E: Write + Drop,
    ensures { GoesAny D.keeps_word server.old server.new }
{
    let moment = moment(rt)?;
    let conn = calls::connect(server)?;
    for number in 0..places(server) {
        let status = free_dead_seat(rt.alloc(), server, conn, number, moment)?;
        if status != Status::Ok.code() {
            let line = Line::SeatStays {
                number: number.saturating_add(1),
                status,
            };
            lines.print(&line, now);
        }
    }
    calls::hangup(server, conn, moment)
}

/// Frees the seat of this number if its session is not of this run. Returns the status of the
/// reply, or OK.
fn free_dead_seat<D: Device>(
    alloc: Global,
    server: &mut Server<D>,
    conn: usize,
    number: usize,
    moment: u64,
) -> Result<u32, Refused>
    ensures { GoesAny D.keeps_word server.old server.new }
{
    match dead_session(server, number) {
        Some(session) => destroy(alloc, server, conn, &session, moment),
        None => Ok(Status::Ok.code()),
    }
}

/// The session whose seat this is, if it is not of this run.
fn dead_session<D: Device>(server: &Server<D>, number: usize) -> Option<[u8; 16]> {
    let seat = seat(server, number)?;
    if server.has_session(&seat.session) {
        None
    } else {
        Some(seat.session)
    }
}

/// Destroys a session over this connection. Returns the status of the reply.
fn destroy<D: Device>(
    alloc: Global,
    server: &mut Server<D>,
    conn: usize,
    session: &[u8; 16],
    moment: u64,
) -> Result<u32, Refused>
    ensures { GoesAny D.keeps_word server.old server.new }
{
    ask(alloc, server, conn, session)?;
    run(server, conn, moment)?;
    match calls::take_output(server, conn)? {
        Some(reply) => Ok(status_of(&reply)),
        None => Ok(Status::ServerFault.code()),
    }
}

/// Has the server take a call that destroys a session.
fn ask<D: Device>(
    alloc: Global,
    server: &mut Server<D>,
    conn: usize,
    session: &[u8; 16],
) -> Result<(), Refused>
    ensures { GoesAny D.keeps_word server.old server.new }
{
    let Ok(call) = destroy_session_call(alloc, session) else {
        return Err(Refused::Memory);
    };
    calls::feed(server, conn, &call)?;
    Ok(())
}

/// Gives the connection turns until nothing is left to run.
fn run<D: Device>(server: &mut Server<D>, conn: usize, moment: u64) -> Result<(), Refused>
    ensures { GoesAny D.keeps_word server.old server.new }
{
    for _ in 0..u64::MAX {
        if calls::turn(server, conn, moment)? != Turn::Ran {
            return Ok(());
        }
    }
    Ok(())
}

fn status_of(reply: &[u8]) -> u32 {
    compound_status(reply).unwrap_or(Status::ServerFault.code())
}

/// The record of a COMPOUND of one DESTROY_SESSION.
fn destroy_session_call(alloc: Global, session: &[u8; 16]) -> Result<Vec<u8>, Refusal> {
    let capacity = (CALL_BYTES as usize).saturating_add(HEADER_BYTES);
    let mut call = Writer::with_capacity(alloc, capacity)?;
    call.write_u32(LAST_FRAGMENT | CALL_BYTES)?;
    write_header(&mut call)?;
    // No tag, and one operation.
    write_words(&mut call, &[0, MINOR_VERSION, 1])?;
    call.write_u32(Operation::DestroySession.number())?;
    call.write_fixed(session)?;
    Ok(call.into_vec())
}

/// A call up to its arguments (RFC 5531, section 9), of user and group 0 without a machine's name.
fn write_header(call: &mut Writer) -> Result<(), Refusal> {
    write_words(
        call,
        &[XID, CALL, RPC_VERSION, PROGRAM, NFS_VERSION, COMPOUND],
    )?;
    write_words(call, &[AUTH_SYS, CREDENTIAL_BYTES, 0, 0, 0, 0, 0])?;
    write_words(call, &[AUTH_NONE, 0])
}

fn write_words(call: &mut Writer, words: &[u32]) -> Result<(), Refusal> {
    for word in words {
        call.write_u32(*word)?;
    }
    Ok(())
}

/// The run whose session has this id: the number in its first four bytes.
fn run_of(session: &[u8; 16]) -> u32 {
    let [a, b, c, d, ..] = *session;
    u32::from_be_bytes([a, b, c, d])
}
