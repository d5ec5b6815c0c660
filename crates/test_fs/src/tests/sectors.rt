//! The sectors of a volume, and bytes that are put into them.

use disk::SECTOR;
use std::alloc::{AllocError, Global};

pub(super) type Image = Vec<[u8; SECTOR]>;

/// A volume: how many sectors it has, and what is in those that are not zero, in the form of
/// `put_all`. Payload sectors are left out, since the gate is closed.
pub(super) type Volume = (usize, &'static str);

/// The sector of a mark, and the first one of the node table.
pub(super) const MARK: usize = 147;

pub(super) const NODES: usize = 148;

/// Its sectors.
pub(super) fn volume_image(alloc: Global, volume: Volume) -> Result<Image, AllocError> {
    let (sectors, text) = volume;
    let mut image = Vec::from_elem(alloc, [0; SECTOR], sectors)?;
    put_all(&mut image, text);
    Ok(image)
}

/// The same sectors once more.
pub(super) fn copy_image(alloc: Global, image: &[[u8; SECTOR]]) -> Result<Image, AllocError> {
    let mut copy = Vec::with_capacity(alloc, image.len())?;
    copy.extend_from_slice(image)?;
    Ok(copy)
}

/// A byte of a sector, 0 if there is none.
pub(super) fn byte_at(image: &[[u8; SECTOR]], sector: usize, place: usize) -> u8 {
    let found = image.get(sector).and_then(|bytes| bytes.get(place));
    found.copied().unwrap_or(0)
}

fn put_byte(image: &mut [[u8; SECTOR]], sector: usize, place: usize, byte: u8) {
    if let Some(to) = image.get_mut(sector).and_then(|bytes| bytes.get_mut(place)) {
        *to = byte;
    }
}

/// The number of decimal digits, 0 if there is none.
fn number(digits: &str) -> usize {
    usize::from_str_radix(digits, 10).unwrap_or(0)
}

/// The byte of the two hexadecimal digits at this place of a word.
fn hex_byte(digits: &str, place: usize) -> u8 {
    let first = place.saturating_mul(2);
    let pair = digits.get(first..first.saturating_add(2)).unwrap_or("");
    u8::from_str_radix(pair, 16).unwrap_or(0)
}

/// Puts bytes into a sector. Returns the place after them.
fn put_hex(image: &mut [[u8; SECTOR]], sector: usize, place: usize, digits: &str) -> usize {
    let mut at = place;
    for i in 0..digits.len() / 2 {
        put_byte(image, sector, at, hex_byte(digits, i));
        at = at.saturating_add(1);
    }
    at
}

/// Puts what a text says: `@N` begins sector N, `0*N` leaves N bytes as they are, and any other
/// word is bytes in hexadecimal digits.
pub(super) fn put_all(image: &mut [[u8; SECTOR]], text: &str) {
    let mut sector = 0usize;
    let mut place = 0usize;
    for word in text.split_whitespace() {
        if let Some(digits) = word.strip_prefix('@') {
            sector = number(digits);
            place = 0;
        } else if let Some(digits) = word.strip_prefix("0*") {
            place = place.saturating_add(number(digits));
        } else {
            place = put_hex(image, sector, place, word);
        }
    }
}
