//! A reply that goes out as its peer takes it.

use crate::stream::Stream;
use std::io;
use std::marker::Model;

/// A reply, of which a prefix may have been sent already. It is seen as the bytes that are left.
#[derive(Drop)]
pub struct Reply {
    bytes: Vec<u8>,
    sent: usize,
}

impl Model for Reply {
    ghost use Rattle.std.specs.Prelude.{◌≤◌, ℕ, List, drop, vec_len};

    ghost Value = { List ℕ };

    ghost view = { λ reply. drop reply.sent reply.bytes.items };

    ghost invariant = { λ reply. reply.sent ≤ vec_len reply.bytes };
}

impl Reply {
    ghost use Rattle.std.specs.Prelude.{◌≡◌, ◌≤◌, ◌==◌, length, take, drop, IfOk, OnErr};
    ghost use Rattle.std.specs.Io.KnownBytes.{Appends, Keeps};
    ghost use Rattle.peer.specs.Streams.{Tells};

    /// Nothing of it is sent.
    pub fn new(bytes: Vec<u8>) -> Reply
        ensures { result ≡ bytes.items }
    {
        Reply { bytes, sent: 0 }
    }

    /// Whether all is sent.
    pub fn is_sent(&self) -> bool
        ensures { result ≡ (length self.now == 0) }
    {
        self.sent == self.bytes.len()
    }

    /// Writes once, and returns how many bytes: the stream has that prefix of what was left, and
    /// the rest is left.
    pub fn send<S: Stream>(&mut self, stream: &mut S) -> io::Result<usize>
        ensures sent { IfOk result (λ count. Appends (S.gone stream.old) (S.gone stream.new)
            (take count self.old)) }
        ensures left { IfOk result (λ count. self.new ≡ drop count self.old) }
        ensures bound { IfOk result (λ count. count ≤ length self.old) }
        ensures err { OnErr result ((self.new ≡ self.old)
            × Keeps (S.gone stream.old) (S.gone stream.new)) }
        ensures told { Tells (S.write_told stream.new) result }
        ensures kept { (S.coming stream.new ≡ S.coming stream.old)
            × (S.read_told stream.new ≡ S.read_told stream.old) }
    {
        let count = stream.send(&self.bytes[self.sent..])?;
        self.sent += count;
        Ok(count)
    }
}
