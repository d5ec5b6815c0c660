//! Bytes that are written to a stream, and bytes that are read from one.

ghost use Rattle.std.specs.Prelude.{◌≡◌, ◌≤◌, length, take};
ghost use Rattle.std.specs.Io.KnownBytes.{Consumes};
ghost use Rattle.client.specs.Streams.{Sends};

use std::io::{ErrorKind, Read, Write};

/// Writes the bytes and flushes the writer. If it returns true, the writer took them all; otherwise
/// it took a prefix of them, perhaps all.
pub(crate) fn send<W: Write>(writer: &mut W, bytes: &[u8]) -> bool
    ensures { Sends (W.contents writer.old) (W.contents writer.new) bytes.now result }
{
    if !write_bytes(writer, bytes) {
        return false;
    }
    writer.flush().is_ok()
}

fn write_bytes<W: Write>(writer: &mut W, bytes: &[u8]) -> bool
    ensures { Sends (W.contents writer.old) (W.contents writer.new) bytes.now result }
{
    let mut rest = bytes;
    for _ in 0..u64::MAX {
        if rest.is_empty() {
            return true;
        }
        match writer.write(rest) {
            Ok(0) => return false,
            Ok(n) => rest = &rest[n..],
            Err(error) => {
                if error.kind() != ErrorKind::Interrupted {
                    return false;
                }
            }
        }
    }
    false
}

/// Fills the buffer, and returns how many bytes the reader gave: fewer if it failed or ended
/// before.
pub(crate) fn fill<R: Read>(reader: &mut R, buf: &mut [u8]) -> usize
    ensures bound { result ≤ length buf.new }
    ensures long { length buf.new ≡ length buf.old }
    ensures bytes { Consumes (R.remaining reader.old) (R.remaining reader.new)
        (take result buf.new) }
{
    let mut at = 0;
    for _ in 0..u64::MAX {
        if at >= buf.len() {
            return at;
        }
        match reader.read(&mut buf[at..]) {
            Ok(0) => return at,
            Ok(n) => at += n,
            Err(error) => {
                if error.kind() != ErrorKind::Interrupted {
                    return at;
                }
            }
        }
    }
    at
}
