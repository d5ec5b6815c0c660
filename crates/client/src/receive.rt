//! A reply's record, read from a stream fragment by fragment (RFC 5531, section 11).

ghost use Rattle.std.specs.Prelude.{◌≡◌, ◌≤◌, ◌+◌, ◌^◌, ◌++◌, length, drop};
ghost use Rattle.std.specs.Int.{w32, to_be_bytes};
ghost use Rattle.client.specs.Streams.{ReadsHeader, Fetches, Receives, Converses, stream};

use crate::fault::ClientFault;
use crate::stream::{fill, send};
use rpc::{HEADER_BYTES, LAST_FRAGMENT, MAX_FRAGMENTS, MAX_RECORD_BYTES};
use std::io::{Read, Write};

/// Room for a record with the header of one fragment.
const ROOM: usize = HEADER_BYTES + MAX_RECORD_BYTES;

/// What came of a fragment.
#[derive(Clone, Copy)]
pub enum Fetched {
    /// The reader failed or ended before it was whole.
    Ended,
    /// Its header is refused: the record has too many bytes or fragments.
    Refused,
    /// It holds `more` bytes.
    Brings { more: usize, is_last: bool },
}

/// What came of a record.
#[derive(Clone, Copy)]
pub enum Received {
    /// The reader failed or ended before it was whole.
    Ended,
    /// It has too many bytes or fragments.
    Refused,
    /// It has this number of bytes.
    Whole(usize),
}

/// Writes a record as it is, and reads the record of its reply, returned after the header of one
/// fragment.
///
/// `Memory` if there is none for the reply: then nothing is written. `Io` if the writer failed, or
/// the reader failed or ended before the record was whole; `Garbled` if it has more than 16,384
/// bytes or 64 fragments.
pub(crate) fn converse<R: Read, W: Write>(
    reader: &mut R,
    writer: &mut W,
    bytes: &[u8],
    received: &mut Vec<u8>,
) -> Result<(), ClientFault<'static>>
    ensures { Converses bytes.now
        (stream (W.contents writer.old) (R.remaining reader.old))
        (stream (W.contents writer.new) (R.remaining reader.new)) received.new.items result }
{
    received.clear();
    if received.resize(ROOM, 0).is_err() {
        return Err(ClientFault::Memory);
    }
    if !send(writer, bytes) {
        return Err(ClientFault::Io);
    }
    match receive(reader, received) {
        Received::Ended => Err(ClientFault::Io),
        Received::Refused => Err(ClientFault::Garbled),
        Received::Whole(size) => {
            put_header(received, size);
            received.truncate(HEADER_BYTES + size);
            Ok(())
        }
    }
}

/// Puts the header of a record of one fragment before its `size` bytes.
fn put_header(room: &mut [u8], size: usize)
    requires small { size ≤ MAX_RECORD_BYTES }
    requires long { length room.old ≡ ROOM }
    ensures { room.new ≡ to_be_bytes w32 (2 ^ 31 + size) ++ drop 4 room.old }
{
    let header = LAST_FRAGMENT + size as u32;
    room[..HEADER_BYTES].copy_from_slice(&header.to_be_bytes());
}

/// Reads a record into the room, after the place of its header.
fn receive<R: Read>(reader: &mut R, room: &mut [u8]) -> Received
    requires { length room.old ≡ ROOM }
    ensures { Receives (R.remaining reader.old) (R.remaining reader.new) room.new result }
{
    let mut size = 0;
    let mut fragments = 0;
    loop {
        match fetch(reader, room, size, fragments) {
            Fetched::Ended => return Received::Ended,
            Fetched::Refused => return Received::Refused,
            Fetched::Brings { more, is_last } => {
                size += more;
                fragments += 1;
                if is_last {
                    return Received::Whole(size);
                }
            }
        }
    }
}

/// Reads a fragment into the room, after the `size` bytes of the fragments before.
fn fetch<R: Read>(reader: &mut R, room: &mut [u8], size: usize, fragments: usize) -> Fetched
    requires room { length room.old ≡ ROOM }
    requires small { size ≤ MAX_RECORD_BYTES }
    ensures { Fetches (R.remaining reader.old) (R.remaining reader.new) size fragments
        room.old room.new result }
{
    let Some(header) = read_header(reader) else {
        return Fetched::Ended;
    };
    let more = (header % LAST_FRAGMENT) as usize;
    if size + more > MAX_RECORD_BYTES {
        return Fetched::Refused;
    }
    if fragments >= MAX_FRAGMENTS {
        return Fetched::Refused;
    }
    let start = HEADER_BYTES + size;
    if fill(reader, &mut room[start..start + more]) < more {
        return Fetched::Ended;
    }
    Fetched::Brings {
        more,
        is_last: header >= LAST_FRAGMENT,
    }
}

fn read_header<R: Read>(reader: &mut R) -> Option<u32>
    ensures { ReadsHeader (R.remaining reader.old) (R.remaining reader.new) result }
{
    let mut header = [0; HEADER_BYTES];
    if fill(reader, &mut header) < HEADER_BYTES {
        return None;
    }
    Some(u32::from_be_bytes(header))
}
