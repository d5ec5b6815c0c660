//! Bits of the bitmap sectors, end to end.

ghost use Rattle.std.specs.Prelude.{◌≡◌, ◌<◌, ◌≤◌, ◌↔◌, ◌*◌, ◌^◌, IsTrue, IfSome, IfNone, length};
ghost use Rattle.freemap.specs.Places.{bit_from, bit_of, places_in};
ghost use Rattle.freemap.specs.Kept.{free_places, IsSetBelow, HaveSameBits, BitBecomes};

use byteorder::{BigEndian, ByteOrder};
use sector::SIZE;

/// The places that a sector encodes, one for each bit.
pub const SECTOR_PLACES: u32 = 32768;

/// The most bytes of all sectors: 2^32 places.
pub(crate) const MAX_BYTES: usize = 536_870_912;

/// The bytes of a word, and its places.
const WORD_BYTES: usize = 8;

const WORD_PLACES: usize = 64;

/// Whether the bit of a place is set.
pub(crate) fn is_set(bits: &[u8], place: usize) -> bool
    requires few { length bits.now ≤ MAX_BYTES }
    requires within { place < 8 * length bits.now }
    ensures { bit_from result ≡ bit_of bits.now place }
{
    (bits[place / 8] >> (7 - place % 8)) % 2 == 1
}

/// Sets the bit of a place.
pub(crate) fn set_bit(bits: &mut [u8], place: usize)
    requires few { length bits.old ≤ MAX_BYTES }
    requires within { place < 8 * length bits.old }
    ensures { BitBecomes bits.old bits.new place 1 }
{
    bits[place / 8] |= 1 << (7 - place % 8);
}

/// Clears the bit of a place.
pub(crate) fn clear_bit(bits: &mut [u8], place: usize)
    requires few { length bits.old ≤ MAX_BYTES }
    requires within { place < 8 * length bits.old }
    ensures { BitBecomes bits.old bits.new place 0 }
{
    bits[place / 8] &= !(1 << (7 - place % 8));
}

/// Whether two sectors have the same bits.
pub(crate) fn have_same_bits(a: &[u8], b: &[u8]) -> bool
    requires a_len { length a.now ≡ SIZE }
    requires b_len { length b.now ≡ SIZE }
    ensures { IsTrue result ↔ HaveSameBits a.now b.now }
{
    *a == *b
}

/// How many of the first places are free.
pub(crate) fn count_free(bits: &[u8], count: usize) -> u32
    requires few { length bits.now ≤ MAX_BYTES }
    requires within { count ≤ 8 * length bits.now }
    requires fits { count < 2 ^ 32 }
    ensures { result ≡ free_places (places_in bits.now count) }
{
    let mut free = 0;
    for place in 0..count {
        if !is_set(bits, place) {
            free += 1;
        }
    }
    free
}

/// A place from `from` on below which all bits are set: no word between the two has a clear one.
fn skip_words(bits: &[u8], from: usize) -> usize
    requires few { length bits.now ≤ MAX_BYTES }
    requires below { IsSetBelow bits.now from }
    requires within { from ≤ 8 * length bits.now }
    ensures within { result ≤ 8 * length bits.now }
    ensures below { IsSetBelow bits.now result }
{
    let words = bits.len() / WORD_BYTES;
    let mut word = from / WORD_PLACES;
    while word < words && is_full(&bits[WORD_BYTES * word..]) {
        word += 1;
    }
    from.max(WORD_PLACES * word)
}

/// Whether each bit of the first word is set.
fn is_full(bytes: &[u8]) -> bool
    requires { WORD_BYTES ≤ length bytes.now }
    ensures { IsTrue result → IsSetBelow bytes.now WORD_PLACES }
{
    BigEndian::read_u64(bytes) == u64::MAX
}

/// The same as `skip_words`, byte by byte.
fn skip_bytes(bits: &[u8], from: usize) -> usize
    requires few { length bits.now ≤ MAX_BYTES }
    requires below { IsSetBelow bits.now from }
    requires within { from ≤ 8 * length bits.now }
    ensures within { result ≤ 8 * length bits.now }
    ensures below { IsSetBelow bits.now result }
{
    let bytes = bits.len();
    let mut byte = from / 8;
    while byte < bytes && bits[byte] == 0xff {
        byte += 1;
    }
    from.max(8 * byte)
}

/// The first clear bit below the one of place `count`, if none below `from` is clear.
pub(crate) fn first_clear(bits: &[u8], from: usize, count: usize) -> Option<usize>
    requires few { length bits.now ≤ MAX_BYTES }
    requires within { count ≤ 8 * length bits.now }
    requires begins { from ≤ 8 * length bits.now }
    requires below { IsSetBelow bits.now from }
    // What it finds
    ensures found { IfSome result (λ place. (place < count) × (bit_of bits.now place ≡ 0)) }
    ensures first { IfSome result (IsSetBelow bits.now) }
    ensures none { IfNone result (IsSetBelow bits.now count) }
{
    let from = skip_bytes(bits, skip_words(bits, from));
    for place in from..count {
        if !is_set(bits, place) {
            return Some(place);
        }
    }
    None
}
