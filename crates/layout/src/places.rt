//! The sectors at which the parts of a volume begin.

/// The first of the two sectors of the bitmap.
pub const BITMAP: u32 = 98;

/// The first of the spare sectors: the seats of persistent sessions, then zeros, then the mark.
pub const SPARE: u32 = 100;

/// How many seats versions 1 and 2 have room for.
pub const SEATS: u32 = 5;

/// How many slots each of them has room for.
pub const SEAT_SLOTS: u32 = 2;

/// The first sector after the seats; those from it up to the mark are zero.
pub const BEHIND_SEATS: u32 = 145;

/// The sector of a migration's mark, the last of the spare ones.
pub const MARK: u32 = 147;

/// The first sector of the node table.
pub const NODES: u32 = 148;
