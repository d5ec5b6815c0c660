//! The end of a record.

ghost use Rattle.std.specs.Prelude.{◌≡◌, ◌++◌};
ghost use Rattle.xdr.specs.Laws.{IsBytes};
ghost use Rattle.model.specs.Wire.Record.{prefix};
ghost use Rattle.rpc.specs.Assembly.{record_limits, scan_of};

use crate::fault::RecordFault;
use crate::fragment::{Fragment, HEADER_BYTES, Place, fragment_at};

/// What the bytes begin with.
#[derive(Clone, Copy)]
pub enum Scan {
    /// No whole record.
    Partial,
    /// A header that is refused.
    Refused(RecordFault),
    /// A record, up to this place.
    Whole(usize),
}

/// Looks for the end of the record in the bytes of `old` and `piece`, one after the other. It goes
/// from header to header, of which there are at most 65.
pub fn scan_record(old: &[u8], piece: &[u8]) -> Scan
    ensures end { result ≡ scan_of (old.now ++ piece.now)
        (prefix record_limits (old.now ++ piece.now)) }
    ensures old_bytes { IsBytes old.now }
    ensures piece_bytes { IsBytes piece.now }
{
    let mut place = Place::START;
    loop {
        match fragment_at(old, piece, place) {
            Fragment::Waits => return Scan::Partial,
            Fragment::TooBig => return Scan::Refused(RecordFault::RecordTooBig),
            Fragment::TooMany => return Scan::Refused(RecordFault::TooManyFragments),
            Fragment::Brings { size, is_last } => {
                if is_last {
                    return Scan::Whole(place.at + HEADER_BYTES + size);
                }
                place = place.behind(size);
            }
        }
    }
}
