//! How a piece changes the bytes before it.

ghost use Rattle.std.specs.Prelude.{◌≡◌, ◌≤◌, ◌+◌, length};
ghost use Rattle.model.specs.Wire.Record.{Partial, prefix};
ghost use Rattle.rpc.specs.Assembly.{record_limits, max_received, Receives};

use crate::call::read_call;
use crate::fault::RecordFault;
use crate::join::drop_headers;
use crate::scan::{Scan, scan_record};
use bytes::BytesMut;

/// How a piece changed the bytes before it.
#[derive(Clone, Copy)]
pub enum Progress {
    /// The whole piece was taken, and the record is not whole.
    More,
    /// `taken` bytes were taken, and from `start` on there is a whole record that holds a call.
    Whole { taken: usize, start: usize },
    /// A header or the record is refused.
    Refused(RecordFault),
}

/// Appends a prefix of the piece, up to the end of the record, in memory that is there. Of a whole
/// record only what its fragments hold is left.
pub fn receive_piece(bytes: &mut BytesMut, piece: &[u8]) -> Progress
    requires partial { prefix record_limits bytes.old.items ≡ Partial }
    requires room { max_received ≤ length bytes.old.items + bytes.old.spare }
    ensures received { Receives bytes.old.items piece.now result bytes.new.items }
    ensures kept { length bytes.new.items + bytes.new.spare
        ≡ length bytes.old.items + bytes.old.spare }
{
    match scan_record(bytes, piece) {
        Scan::Partial => {
            bytes.extend_reserved(piece);
            Progress::More
        }
        Scan::Refused(fault) => Progress::Refused(fault),
        Scan::Whole(end) => {
            let taken = end - bytes.len();
            bytes.extend_reserved(&piece[..taken]);
            let start = drop_headers(bytes);
            match read_call(&bytes[start..]) {
                Ok(_) => Progress::Whole { taken, start },
                Err(_) => Progress::Refused(RecordFault::NotACall),
            }
        }
    }
}
