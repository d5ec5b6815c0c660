//! How many there may be.

ghost use Rattle.std.specs.Prelude.{◌≤◌};
ghost use Rattle.session.specs.declared.limits.TheConstants.{MAX_SLOTS};

/// Slots of a session, at most.
pub const MAX_SLOTS: u32 = 8;

/// Bytes of a reply that a slot keeps, at most.
pub const MAX_RECORD_BYTES: u32 = 16_384;

/// The limits of a server. They are arguments, because a seat has as many slots as the volume has
/// room for.
#[derive(Clone, Copy, PartialEq, Eq)]
pub struct Limits {
    /// Client records.
    pub clients: u32,
    /// Sessions.
    pub sessions: u32,
    /// Slots of a session, 1 to `MAX_SLOTS`.
    pub slots: u32,
    /// Slots of a session that has a seat, at least 1. It gets no more than `slots`.
    pub seat_slots: u32,
    /// Operations of a COMPOUND.
    pub operations: u32,
    /// Bytes of a request's or a reply's record.
    pub record_bytes: u32,
    ghost some: { 1 ≤ slots },
    ghost few: { slots ≤ MAX_SLOTS },
    ghost some_seated: { 1 ≤ seat_slots },
}
