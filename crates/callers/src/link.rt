//! The calls of the server and of a client's records that scripts make: each is here once, so that
//! what is above need not see all that they promise.

ghost use Rattle.std.specs.Prelude.{All};
ghost use Rattle.wire_client.specs.ArgumentFits.{ArgumentFits};

use crate::fault::ScriptFault;
use client::Client;
use disk::Device;
use server::{Holding, Server, Turn};
use std::alloc::Global;
use system::standard_settings;
use wire::Argument;

/// Mounts the device's volume. These replies are held.
pub fn mount<D: Device>(
    alloc: Global,
    device: D,
    holding: Holding,
) -> Result<Server<D>, ScriptFault> {
    match Server::mount(alloc, device, standard_settings(alloc, holding)?) {
        Ok(server) => Ok(server),
        Err(unmounted) => Err(unmounted.fault.into()),
    }
}

/// How often the volume was mounted.
pub fn restart_count<D: Device>(server: &Server<D>) -> u32 {
    server.restart_count()
}

/// The number of a new connection.
pub(crate) fn connect<D: Device>(server: &mut Server<D>) -> Result<usize, ScriptFault> {
    Ok(server.connect()?)
}

/// How many of the bytes the server took.
pub(crate) fn feed<D: Device>(
    server: &mut Server<D>,
    conn: usize,
    bytes: &[u8],
) -> Result<usize, ScriptFault> {
    Ok(server.feed(conn, bytes)?)
}

/// What the connection's turn at this moment did, in nanoseconds since 1970.
pub(crate) fn turn<D: Device>(
    server: &mut Server<D>,
    conn: usize,
    now: u64,
) -> Result<Turn, ScriptFault> {
    Ok(server.turn(conn, now)?)
}

/// The connection's reply, if there is one.
pub(crate) fn take_output<D: Device>(
    server: &mut Server<D>,
    conn: usize,
) -> Result<Option<Vec<u8>>, ScriptFault> {
    Ok(server.take_output(conn)?)
}

/// Ends the connection at this moment, in nanoseconds since 1970.
pub(crate) fn hangup<D: Device>(
    server: &mut Server<D>,
    conn: usize,
    now: u64,
) -> Result<(), ScriptFault> {
    Ok(server.hangup(conn, now)?)
}

/// Makes the record of these arguments, which the client keeps.
pub(crate) fn request(client: &mut Client, arguments: &[Argument<'_>]) -> Result<(), ScriptFault>
    requires { All ArgumentFits arguments.now }
{
    Ok(client.request(arguments)?)
}

/// The record that the client keeps.
pub(crate) fn last_record(client: &Client) -> Result<&[u8], ScriptFault> {
    Ok(client.retry()?)
}
