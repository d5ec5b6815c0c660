//! Serving a volume over TCP.

use event_loop::{Admission, Counted, Door, Hub, Lines, Settings, Watched, mounted};
use std::io::Write;
use std::net::{Ipv4Addr, SocketAddr};
use system::{Machine, Refused};

/// Mounts the device's volume, listens on this port of 127.0.0.1, or on one that the system picks
/// for 0, prints the port, and serves `count` connections, one after the other.
///
/// # Errors
/// Those of a mount; Io if the port is taken, or the output, the listening socket or the clock
/// fails; Device; Memory.
pub fn serve<R, D, O>(rt: &R, device: D, port: u16, count: u32, out: &mut O) -> Result<(), Refused>
where
    R: Machine,
    D: Watched,
    O: Write,
{
    let alloc = rt.alloc();
    let mut settings = Settings::standard(alloc);
    settings.admission = Admission::InTurn { left: count };
    let server = mounted(alloc, device, settings.of_server(alloc)?)?;
    let door = Door::listen(rt, SocketAddr::from((Ipv4Addr::LOCALHOST, port)))?;
    let mut hub: Hub<D, Counted> = Hub::of(rt, server, door, settings)?;
    run(rt, &mut hub, out)
}

/// Prints the port, and serves.
fn run<R, D, O>(rt: &R, hub: &mut Hub<D, Counted>, out: &mut O) -> Result<(), Refused>
where
    R: Machine,
    D: Watched,
    O: Write,
{
    writeln!(out, "serving {}", hub.address()?.port())?;
    out.flush()?;
    hub.run(rt, &mut Lines::nowhere(rt.alloc()))?;
    Ok(())
}
