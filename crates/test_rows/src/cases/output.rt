//! The standard output of a command.

use super::step::{Peer, Way};
use std::io;
use std::io::{ErrorKind, Write};
use std::net::{Ipv4Addr, Shutdown, TcpStream};

/// What a command writes to its standard output, and the peers that it serves by then.
#[derive(Drop)]
pub struct Output<'a> {
    rt: &'a HostRuntime,
    way: &'a Way,
    pub(crate) text: Vec<u8>,
    pub(crate) streams: Vec<TcpStream>,
}

impl<'a> Output<'a> {
    /// Nothing is written, and nobody has connected.
    pub(crate) fn new(rt: &'a HostRuntime, way: &'a Way) -> Output<'a> {
        Output {
            rt,
            way,
            text: Vec::new(rt.alloc()),
            streams: Vec::new(rt.alloc()),
        }
    }
}

impl Write for Output<'_> {
    fn write(&mut self, bytes: &[u8]) -> io::Result<usize> {
        if let Way::Fails = self.way {
            return Err(io::Error::from(ErrorKind::BrokenPipe));
        }
        self.text.extend_from_slice(bytes)?;
        Ok(bytes.len())
    }

    fn flush(&mut self) -> io::Result<()> {
        match (self.way, self.streams.is_empty()) {
            (Way::Serves(peers), true) => {
                let port = port_of(&self.text).ok_or(ErrorKind::InvalidData)?;
                connect(self.rt, port, peers, &mut self.streams)
            }
            _ => Ok(()),
        }
    }
}

/// The port in the line that the program writes.
pub fn port_of(line: &[u8]) -> Option<u16> {
    let digits = line.strip_prefix(b"serving ")?.strip_suffix(b"\n")?;
    str::from_utf8(digits).ok()?.parse::<u16>().ok()
}

/// Each peer connects, sends its bytes, and then only reads.
fn connect(
    rt: &HostRuntime,
    port: u16,
    peers: &[Peer],
    streams: &mut Vec<TcpStream>,
) -> io::Result<()> {
    for peer in peers {
        let mut stream = TcpStream::connect(rt, (Ipv4Addr::LOCALHOST, port))?;
        stream.write_all(&peer.sends)?;
        stream.shutdown(Shutdown::Write)?;
        streams.push(stream)?;
    }
    Ok(())
}
