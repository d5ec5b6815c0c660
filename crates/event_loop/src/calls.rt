//! The calls of the server that the loop itself makes, each once, so that what is above need not
//! see all that they promise.

ghost use Rattle.std.specs.Prelude.{IfOk};
ghost use Rattle.session.specs.Views.{settings_of};
ghost use Rattle.event_loop.specs.Runs.{GoesAny, HasBegun};

use disk::Device;
use server::{Server, Turn};
use std::alloc::Global;
use std::num::NonZeroUsize;
use system::Refused;

/// How many of the device's sectors are kept in memory, 16 MB: sixteen peers work on more than a
/// journal keeps by default.
const CACHED_SECTORS: usize = 4096;

/// Mounts the device's volume.
pub fn mounted<D: Device>(
    alloc: Global,
    device: D,
    settings: server::Settings,
) -> Result<Server<D>, Refused>
    ensures { D.keeps_word → IfOk result (HasBegun D.keeps_word (settings_of settings) device) }
{
    let cached = NonZeroUsize::new(CACHED_SECTORS).unwrap_or(NonZeroUsize::MIN);
    match Server::mount_cached(alloc, device, cached, settings) {
        Ok(server) => Ok(server),
        Err(unmounted) => Err(unmounted.fault.into()),
    }
}

/// How often the volume was mounted.
pub fn restart_count<D: Device>(server: &Server<D>) -> u32 {
    server.restart_count()
}

/// The number of a new connection.
pub fn connect<D: Device>(server: &mut Server<D>) -> Result<usize, Refused>
    ensures { GoesAny D.keeps_word server.old server.new }
{
    Ok(server.connect()?)
}

/// How many of the bytes the server took.
pub fn feed<D: Device>(server: &mut Server<D>, conn: usize, bytes: &[u8]) -> Result<usize, Refused>
    ensures { GoesAny D.keeps_word server.old server.new }
{
    Ok(server.feed(conn, bytes)?)
}

/// What the connection's turn at this moment did, in nanoseconds since 1970.
pub fn turn<D: Device>(server: &mut Server<D>, conn: usize, now: u64) -> Result<Turn, Refused>
    ensures { GoesAny D.keeps_word server.old server.new }
{
    Ok(server.turn(conn, now)?)
}

/// The connection's reply, if there is one.
pub fn take_output<D: Device>(
    server: &mut Server<D>,
    conn: usize,
) -> Result<Option<Vec<u8>>, Refused>
    ensures { GoesAny D.keeps_word server.old server.new }
{
    Ok(server.take_output(conn)?)
}

/// Ends the connection at this moment, in nanoseconds since 1970.
pub fn hangup<D: Device>(server: &mut Server<D>, conn: usize, now: u64) -> Result<(), Refused>
    ensures { GoesAny D.keeps_word server.old server.new }
{
    Ok(server.hangup(conn, now)?)
}
