//! How many clients, sessions, slots and operations a server has, by the version of its volume.

ghost use Rattle.std.specs.Prelude.{◌≡◌, ◌≤◌};
ghost use Rattle.layout.specs.Versions.{IsServed};
ghost use Rattle.session.specs.Limits.{limits_of};
ghost use Rattle.compound.specs.Profile.{served_by, served_with};

use layout::places::SEAT_SLOTS;
use layout::versions::VersionNumber;
use session::{Limits, MAX_RECORD_BYTES, MAX_SLOTS};

/// The limits of a server whose volume has this version.
pub(crate) fn limits_by(version: VersionNumber) -> Limits
    requires { IsServed version }
    ensures { limits_of result ≡ served_by version }
{
    match version {
        VersionNumber::One | VersionNumber::Two => limits_with(SEAT_SLOTS),
        VersionNumber::Three(superblock) => limits_with(superblock.geometry.slots as u32),
    }
}

fn limits_with(seat_slots: u32) -> Limits
    requires { 1 ≤ seat_slots }
    ensures { limits_of result ≡ served_with seat_slots }
{
    Limits {
        clients: 64,
        sessions: 32,
        slots: MAX_SLOTS,
        seat_slots,
        operations: 16,
        record_bytes: MAX_RECORD_BYTES,
    }
}
