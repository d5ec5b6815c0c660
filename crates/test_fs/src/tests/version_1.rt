//! Volumes of version 1: what a program of that version left, and what a migration leaves on its
//! way.

mod filled;
mod wide;

use super::sectors::{Image, MARK, NODES, Volume};
use disk::SECTOR;

/// What programs of version 1 left.
pub(super) const FILLED: Volume = (320, filled::TEXT);

pub(super) const WIDE: Volume = (256, wide::TEXT);

/// The sector of a node of form two as it was in form one.
fn take_node_back(bytes: &mut [u8; SECTOR]) {
    if bytes.starts_with(b"NOD2") {
        bytes[3] = b'E';
        bytes[5] = bytes[85];
        bytes[85] = 0;
    }
}

/// Makes a volume of version 2, whose gate is closed, one of version 1 of which a migration has
/// moved `moved` places of the table.
pub(super) fn take_back(image: &mut Image, nodes: u8, moved: u8) {
    let first = NODES.saturating_add(usize::from(moved));
    let end = NODES.saturating_add(usize::from(nodes));
    for (number, bytes) in image.iter_mut().enumerate() {
        if number == 0 {
            bytes[11] = 1;
        }
        if number == MARK && moved > 0 {
            put_mark(bytes, moved);
        }
        if first <= number && number < end {
            take_node_back(bytes);
        }
    }
}

/// The mark of a migration that has moved `moved` places.
fn put_mark(bytes: &mut [u8; SECTOR], moved: u8) {
    bytes[0] = b'M';
    bytes[1] = b'I';
    bytes[2] = b'G';
    bytes[3] = b'R';
    bytes[7] = moved;
}
