//! Fragments of a record (RFC 5531, section 11): a header, whose top bit says that it is the last
//! one and whose other bits are its size, and that many bytes.

ghost use Rattle.std.specs.Prelude.{◌≡◌, ◌+◌, ◌<◌, ◌≤◌, ◌^◌, ◌++◌, length, take, drop, slice_index};
ghost use Rattle.std.specs.Int.{w32, from_be_bytes};
ghost use Rattle.model.specs.Wire.Record.{Gathered};
ghost use Rattle.rpc.specs.Assembly.{Finds};

use crate::numbers::LAST_FRAGMENT;

/// Bytes of a header.
pub const HEADER_BYTES: usize = 4;
/// The most bytes of a record.
pub const MAX_RECORD_BYTES: usize = 16384;
/// The most fragments of a record.
pub const MAX_FRAGMENTS: usize = 64;
/// The most bytes of a stream that are kept of one record: the record's, a header for each
/// fragment, and one that is not whole.
pub const MAX_RECEIVED: usize = MAX_RECORD_BYTES + (MAX_FRAGMENTS + 1) * HEADER_BYTES;

/// A place in a record, between two fragments.
#[derive(Clone, Copy)]
pub struct Place {
    /// The place at which the next header begins.
    pub at: usize,
    /// The bytes of the fragments before, and their number.
    pub size: usize,
    pub fragments: usize,
}

impl Place {
    /// The beginning of a record.
    pub const START: Place = Place {
        at: 0,
        size: 0,
        fragments: 0,
    };

    /// The place after a fragment of `size` bytes.
    pub fn behind(self, size: usize) -> Place
        // A record has room for it
        requires end { self.at + HEADER_BYTES + size < 2 ^ 64 }
        requires bytes { self.size + size ≤ MAX_RECORD_BYTES }
        requires fragments { self.fragments < MAX_FRAGMENTS }
        // The place of its end
        ensures at { result.at ≡ self.at + HEADER_BYTES + size }
        ensures size { result.size ≡ self.size + size }
        ensures fragments { result.fragments ≡ self.fragments + 1 }
    {
        Place {
            at: self.at + HEADER_BYTES + size,
            size: self.size + size,
            fragments: self.fragments + 1,
        }
    }
}

/// What is at a place.
#[derive(Clone, Copy)]
pub enum Fragment {
    /// No whole fragment.
    Waits,
    /// A header that brings the record above its limit.
    TooBig,
    /// A header after the maximal number of fragments.
    TooMany,
    /// A whole fragment.
    Brings { size: usize, is_last: bool },
}

/// What is at a place in the bytes of `old` and `piece`, one after the other. A header is refused
/// as soon as it is there.
pub fn fragment_at(old: &[u8], piece: &[u8], place: Place) -> Fragment
    requires within { place.at ≤ length old.now + length piece.now }
    requires small { place.size ≤ MAX_RECORD_BYTES }
    ensures { (gathered : Gathered) → length gathered.bytes ≡ place.size
        → gathered.fragments ≡ place.fragments
        → Finds gathered (drop place.at (old.now ++ piece.now)) result }
{
    let left = old.len() + piece.len() - place.at;
    if left < HEADER_BYTES {
        return Fragment::Waits;
    }
    let header = header_at(old, piece, place.at);
    let size = (header % LAST_FRAGMENT) as usize;
    if place.size + size > MAX_RECORD_BYTES {
        return Fragment::TooBig;
    }
    if place.fragments >= MAX_FRAGMENTS {
        return Fragment::TooMany;
    }
    if left - HEADER_BYTES < size {
        return Fragment::Waits;
    }
    Fragment::Brings {
        size,
        is_last: header >= LAST_FRAGMENT,
    }
}

/// The number in the four bytes from `at` on.
fn header_at(old: &[u8], piece: &[u8], at: usize) -> u32
    requires { at + 4 ≤ length old.now + length piece.now }
    ensures { result ≡ from_be_bytes w32 (take 4 (drop at (old.now ++ piece.now))) }
{
    u32::from_be_bytes([
        byte_at(old, piece, at),
        byte_at(old, piece, at + 1),
        byte_at(old, piece, at + 2),
        byte_at(old, piece, at + 3),
    ])
}

fn byte_at(old: &[u8], piece: &[u8], i: usize) -> u8
    requires { i < length old.now + length piece.now }
    ensures { result ≡ slice_index (old.now ++ piece.now) i }
{
    if i < old.len() {
        old[i]
    } else {
        piece[i - old.len()]
    }
}
