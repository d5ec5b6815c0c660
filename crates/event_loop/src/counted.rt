//! What a connection is served over: a stream, of which bytes are counted.

use mio::net::TcpStream;
use peer::Stream;
use std::io;
use std::io::{Read, Write};

/// How many bytes came and went.
#[derive(Clone, Copy)]
pub struct Bytes {
    pub came: u64,
    pub went: u64,
}

impl Bytes {
    pub const NONE: Bytes = Bytes { came: 0, went: 0 };

    /// Both numbers of both.
    pub fn and(self, other: Bytes) -> Bytes {
        Bytes {
            came: self.came.saturating_add(other.came),
            went: self.went.saturating_add(other.went),
        }
    }
}

/// A stream over a connection that the system accepted. What the loop promises of a peer's bytes it
/// promises of each such stream whose reads and writes say which bytes they moved.
pub trait Socket: Stream + Drop {
    /// No byte came yet.
    fn over(connection: TcpStream) -> Self;

    /// The connection, over which no byte came or went.
    fn into_connection(self) -> TcpStream;

    /// How many bytes came and went.
    fn bytes(&self) -> Bytes;
}

/// A TCP socket. Its reads and writes say how many bytes they moved, and not which.
#[derive(Drop)]
pub struct Counted {
    stream: TcpStream,
    bytes: Bytes,
}

impl Socket for Counted {
    fn over(connection: TcpStream) -> Counted {
        Counted {
            stream: connection,
            bytes: Bytes::NONE,
        }
    }

    fn into_connection(self) -> TcpStream {
        let Counted { stream, .. } = self;
        stream
    }

    fn bytes(&self) -> Bytes {
        self.bytes
    }
}

impl Stream for Counted {
    fn receive(&mut self, room: &mut [u8]) -> io::Result<usize> {
        let count = self.stream.read(room)?;
        self.bytes.came = self.bytes.came.saturating_add(count as u64);
        Ok(count)
    }

    fn send(&mut self, bytes: &[u8]) -> io::Result<usize> {
        let count = self.stream.write(bytes)?;
        self.bytes.went = self.bytes.went.saturating_add(count as u64);
        Ok(count)
    }
}
