//! The peers of a server: sockets of this process.

use crate::difference::{Difference, expect_reply};
use std::alloc::Global;
use std::io;
use std::io::{ErrorKind, Read, Write};
use std::net::{SocketAddr, TcpStream};

/// A peer, which never waits for what comes.
pub fn peer_of(rt: &HostRuntime, address: SocketAddr) -> io::Result<TcpStream> {
    let peer = TcpStream::connect(rt, address)?;
    peer.set_nodelay(true)?;
    peer.set_nonblocking(true)?;
    Ok(peer)
}

/// A peer sends bytes.
pub fn write(peer: &TcpStream, bytes: &[u8]) -> io::Result<()> {
    let mut peer = peer;
    peer.write_all(bytes)
}

/// Takes what came to a peer. Returns whether its connection has ended.
pub fn has_ended(peer: &TcpStream, bytes: &mut Vec<u8>) -> io::Result<bool> {
    let mut peer = peer;
    match peer.read_to_end(bytes) {
        Ok(_) => Ok(true),
        Err(error) => match error.kind() {
            ErrorKind::WouldBlock => Ok(false),
            ErrorKind::ConnectionReset => Ok(true),
            _ => Err(error),
        },
    }
}

/// Nothing came to a peer.
pub fn expect_none(alloc: Global, peer: &TcpStream) -> Result<(), Difference> {
    let mut bytes = Vec::new(alloc);
    has_ended(peer, &mut bytes)?;
    expect_reply(alloc, &[], bytes)
}
