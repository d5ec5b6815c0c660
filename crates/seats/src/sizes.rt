//! How many places a volume has for seats, and the slots of each.

ghost use Rattle.std.specs.Prelude.{◌≡◌};
ghost use Rattle.seats.specs.Sizes.{AreSizes, all_sectors, place_sectors};

/// How many sectors a slot has.
pub const SLOT_SECTORS: u32 = 4;

/// How many places a volume has for seats, 1 to 64, and how many slots each has room for, 1 to 8.
#[derive(Clone, Copy)]
pub struct SeatSizes {
    pub places: u32,
    pub slots: u32,
}

impl SeatSizes {
    /// How many sectors a place has: one says whose the seat is, and each slot has four.
    pub fn place_sectors(self) -> u32
        requires { AreSizes self }
        ensures { result ≡ place_sectors self }
    {
        1 + SLOT_SECTORS * self.slots
    }

    /// How many sectors all places have.
    pub fn all_sectors(self) -> u32
        requires { AreSizes self }
        ensures { result ≡ all_sectors self }
    {
        self.places * self.place_sectors()
    }
}
