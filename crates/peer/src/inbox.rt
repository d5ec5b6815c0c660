//! The bytes of a peer that wait for the server.

use crate::stream::Stream;
use std::alloc::{AllocError, Global};
use std::io;
use std::marker::Model;

/// The most bytes that wait. The longest record of a request fits, with the headers of all its
/// fragments.
const INBOX_BYTES: usize = 32_768;

/// The bytes of a peer that wait for the server, as which it is seen.
#[derive(Drop)]
pub struct Inbox {
    bytes: Vec<u8>,
    start: usize,
    end: usize,
}

impl Model for Inbox {
    ghost use Rattle.std.specs.Prelude.{◌≤◌, ℕ, List, slice_range, vec_len};

    ghost Value = { List ℕ };

    ghost view = { λ inbox. slice_range inbox.bytes.items inbox.start inbox.end };

    ghost invariant = { λ inbox.
        (inbox.start ≤ inbox.end) × (inbox.end ≤ vec_len inbox.bytes) };
}

impl Inbox {
    ghost use Rattle.std.specs.Prelude.{◌≡◌, ◌==◌, [], length, drop, IfOk, OnErr};
    ghost use Rattle.std.specs.Io.KnownBytes.{Consumes, Keeps};
    ghost use Rattle.peer.specs.Streams.{Tells};

    /// Nothing has come.
    pub fn new(alloc: Global) -> Result<Inbox, AllocError>
        ensures { IfOk result (λ inbox. inbox ≡ []) }
    {
        Ok(Inbox {
            bytes: vec![in alloc; 0u8; INBOX_BYTES]?,
            start: 0,
            end: 0,
        })
    }

    pub fn is_empty(&self) -> bool
        ensures { result ≡ (length self.now == 0) }
    {
        self.start == self.end
    }

    pub fn bytes(&self) -> &[u8]
        ensures { result.now ≡ self.now }
    {
        &self.bytes[self.start..self.end]
    }

    /// Reads once from the stream, and returns how many bytes came.
    pub fn fill<S: Stream>(&mut self, stream: &mut S) -> io::Result<usize>
        requires { self.old ≡ [] }
        ensures ok { IfOk result (λ count. (length self.new ≡ count)
            × Consumes (S.coming stream.old) (S.coming stream.new) self.new) }
        ensures err { OnErr result ((self.new ≡ [])
            × Keeps (S.coming stream.old) (S.coming stream.new)) }
        ensures told { Tells (S.read_told stream.new) result }
        ensures kept { (S.gone stream.new ≡ S.gone stream.old)
            × (S.write_told stream.new ≡ S.write_told stream.old) }
    {
        self.start = 0;
        self.end = 0;
        self.end = stream.receive(&mut self.bytes)?;
        Ok(self.end)
    }

    /// The server took `count` bytes.
    pub fn consume(&mut self, count: usize)
        ensures { self.new ≡ drop count self.old }
    {
        let left = self.end - self.start;
        self.start += left.min(count);
    }
}
