//! Joining the fragments of a record in place.

ghost use Rattle.std.specs.Prelude.{◌≡◌, ◌≤◌, ◌+◌, [], length, take, drop};
ghost use Rattle.model.specs.Wire.Record.{Whole, prefix};
ghost use Rattle.rpc.specs.Assembly.{record_limits, IsWhole};

use crate::fragment::{Fragment, HEADER_BYTES, Place, fragment_at};
use bytes::BytesMut;

/// Joins what the fragments of a whole record hold, and returns the place at which it begins; it
/// ends with the bytes. If there is one fragment, no byte is moved.
pub fn drop_headers(bytes: &mut BytesMut) -> usize
    requires { IsWhole bytes.old.items }
    ensures request { prefix record_limits bytes.old.items ≡ Whole (drop result bytes.new.items) [] }
    ensures within { result ≤ length bytes.new.items }
    ensures room { length bytes.new.items + bytes.new.spare
        ≡ length bytes.old.items + bytes.old.spare }
{
    match fragment_at(bytes, &[], Place::START) {
        Fragment::Brings { is_last: true, .. } => HEADER_BYTES,
        _ => {
            let size = join_fragments(bytes);
            bytes.truncate(size);
            0
        }
    }
}

/// Moves what the fragments of a whole record hold to its front, and returns the number of these
/// bytes.
fn join_fragments(bytes: &mut [u8]) -> usize
    requires { IsWhole bytes.old }
    ensures { prefix record_limits bytes.old ≡ Whole (take result bytes.new) [] }
{
    let mut place = Place::START;
    loop {
        match fragment_at(bytes, &[], place) {
            Fragment::Brings { size, is_last } => {
                let start = place.at + HEADER_BYTES;
                bytes.copy_within(start..start + size, place.size);
                place = place.behind(size);
                if is_last {
                    return place.size;
                }
            }
            _ => unreachable!(),
        }
    }
}
