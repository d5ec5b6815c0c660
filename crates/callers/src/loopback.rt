//! Connections between callers and the server, over the loopback interface and in one thread: what
//! one end writes, the other reads before anything else is done.

use crate::fault::ScriptFault;
use crate::link;
use disk::Device;
use server::Server;
use std::alloc::{AllocError, Global};
use std::io::{Read, Write};
use std::net::{Ipv4Addr, Net, OpenListener, OpenStream, TcpListener, TcpStream};
use system::Refused;

/// The most bytes that an end writes before the other reads. A socket holds more.
const PIECE_BYTES: usize = 4096;

/// A connection of a caller to the server: both of its ends.
#[derive(Drop)]
pub struct Connection<S> {
    alloc: Global,
    /// Its number at the server.
    pub(crate) number: usize,
    callers: S,
    servers: S,
    /// How many bytes of the caller's record were written.
    written: usize,
    /// What came to the server's end, and the server did not take yet.
    arrived: Vec<u8>,
    /// Whether a reply is to come.
    pub(crate) awaits_reply: bool,
}

/// Connects a caller to the server.
///
/// # Errors
/// Io if a socket fails; Full, Device and Memory as the server returns them.
pub fn connect<R, D>(rt: &R, server: &mut Server<D>) -> Result<Connection<R::Stream>, ScriptFault>
where
    R: Net + AllocGlobal,
    D: Device,
{
    let (callers, servers) = ends(rt)?;
    Ok(Connection {
        alloc: rt.alloc(),
        number: link::connect(server)?,
        callers,
        servers,
        written: 0,
        arrived: Vec::new(rt.alloc()),
        awaits_reply: false,
    })
}

/// A caller's end, and the server's.
fn ends<R: Net>(rt: &R) -> Result<(R::Stream, R::Stream), ScriptFault> {
    let listener = TcpListener::bind(rt, (Ipv4Addr::LOCALHOST, 0))?;
    let callers = TcpStream::connect(rt, listener.local_addr()?)?;
    let (servers, _) = listener.accept()?;
    // Without this a piece waits in the system until the other end acknowledges the one before. It
    // is sent all the same.
    let _ = callers.set_nodelay(true);
    let _ = servers.set_nodelay(true);
    Ok((callers, servers))
}

impl<S: Read + Write + Drop> Connection<S> {
    /// A record is to be sent from its beginning.
    pub(crate) fn begin(&mut self) {
        self.written = 0;
        self.awaits_reply = true;
    }

    /// Sends what is left of the record whose reply is to come, up to what the server does not take
    /// yet: that is offered to it again the next time.
    pub(crate) fn send<D: Device>(
        &mut self,
        server: &mut Server<D>,
        record: &[u8],
    ) -> Result<(), ScriptFault> {
        if !self.awaits_reply {
            return Ok(());
        }
        let rest = record.get(self.written..).unwrap_or_default();
        for piece in rest.chunks(PIECE_BYTES) {
            if !self.offer(server)? {
                return Ok(());
            }
            self.write(piece)?;
        }
        self.offer(server)?;
        Ok(())
    }

    /// Has a piece of the record come to the server's end.
    fn write(&mut self, piece: &[u8]) -> Result<(), ScriptFault> {
        carry(
            &mut self.callers,
            &mut self.servers,
            piece,
            &mut self.arrived,
        )?;
        self.written = self.written.saturating_add(piece.len());
        Ok(())
    }

    /// Hands the server what came to its end. Returns whether it took all.
    fn offer<D: Device>(&mut self, server: &mut Server<D>) -> Result<bool, ScriptFault> {
        if !self.arrived.is_empty() {
            let taken = link::feed(server, self.number, &self.arrived)?;
            self.arrived = rest_of(self.alloc, &self.arrived, taken)?;
        }
        Ok(self.arrived.is_empty())
    }

    /// The reply, if the server has made it, as it comes to the caller's end.
    pub(crate) fn receive<D: Device>(
        &mut self,
        server: &mut Server<D>,
    ) -> Result<Option<Vec<u8>>, ScriptFault> {
        match link::take_output(server, self.number)? {
            Some(reply) => Ok(Some(self.read(&reply)?)),
            None => Ok(None),
        }
    }

    /// Has a reply come to the caller's end.
    fn read(&mut self, reply: &[u8]) -> Result<Vec<u8>, ScriptFault> {
        self.awaits_reply = false;
        carry_all(self.alloc, &mut self.servers, &mut self.callers, reply)
    }
}

/// The bytes after the first `taken` ones.
fn rest_of(alloc: Global, bytes: &[u8], taken: usize) -> Result<Vec<u8>, AllocError> {
    Vec::from_slice(alloc, bytes.get(taken..).unwrap_or_default())
}

/// Writes bytes to one end of a connection, and reads them from the other, piece by piece.
fn carry_all<S: Read + Write>(
    alloc: Global,
    from: &mut S,
    to: &mut S,
    bytes: &[u8],
) -> Result<Vec<u8>, ScriptFault> {
    let mut received = Vec::new(alloc);
    for piece in bytes.chunks(PIECE_BYTES) {
        carry(from, to, piece, &mut received)?;
    }
    Ok(received)
}

/// Writes a piece to one end of a connection, and reads it from the other.
fn carry<S: Read + Write>(
    from: &mut S,
    to: &mut S,
    piece: &[u8],
    received: &mut Vec<u8>,
) -> Result<(), ScriptFault> {
    from.write_all(piece)?;
    let mut bytes = [0; PIECE_BYTES];
    let Some(room) = bytes.get_mut(..piece.len()) else {
        return Err(Refused::Io.into());
    };
    to.read_exact(room)?;
    Ok(received.extend_from_slice(room)?)
}
