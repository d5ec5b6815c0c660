//! What a peer's bytes come and go over.

use mio::net::TcpStream;
use std::io;
use std::io::{Read, Write};

/// A stream of bytes in both directions, none of whose calls waits.
pub trait Stream {
    ghost use Rattle.std.specs.Prelude.{◌≡◌, ℕ, List, Bool, true, Option, None};
    ghost use Rattle.std.specs.Io.{ReadsAtMost, WritesAtMost};
    ghost use Rattle.std.specs.Io.KnownBytes.{ReadConsumes, WriteAppends};
    ghost use Rattle.std.specs.declared.io.ErrorKind.{ErrorKind};
    ghost use Rattle.peer.specs.Streams.{Tells};

    // The bytes that will come, and those that were sent, if they are known.
    ghost coming: { Self → Option (List ℕ) } = { λ _. None };

    ghost gone: { Self → Option (List ℕ) } = { λ _. None };

    // Whether the last read may have reported this, and whether the last write may have.
    ghost read_told: { Self → Option ErrorKind → Bool } = { λ _ _. true };

    ghost write_told: { Self → Option ErrorKind → Bool } = { λ _ _. true };

    /// Takes what has come, as far as there is room: 0 at the end of the stream.
    ///
    /// # Errors
    /// WouldBlock if nothing has come.
    fn receive(&mut self, room: &mut [u8]) -> io::Result<usize>
        ensures bound { ReadsAtMost result room.new }
        ensures bytes { ReadConsumes (coming self.old) (coming self.new) result room.new }
        ensures told { Tells (read_told self.new) result }
        ensures kept { (gone self.new ≡ gone self.old)
            × (write_told self.new ≡ write_told self.old) };

    /// Sends a prefix of the bytes, and returns its length.
    ///
    /// # Errors
    /// WouldBlock if none can be sent now.
    fn send(&mut self, bytes: &[u8]) -> io::Result<usize>
        ensures bound { WritesAtMost result bytes.now }
        ensures bytes { WriteAppends (gone self.old) (gone self.new) result bytes.now }
        ensures told { Tells (write_told self.new) result }
        ensures kept { (coming self.new ≡ coming self.old)
            × (read_told self.new ≡ read_told self.old) };
}

impl Stream for TcpStream {
    fn receive(&mut self, room: &mut [u8]) -> io::Result<usize> {
        self.read(room)
    }

    fn send(&mut self, bytes: &[u8]) -> io::Result<usize> {
        self.write(bytes)
    }
}
