//! Where the parts of a volume are.

ghost use Rattle.std.specs.Prelude.{◌≡◌, ◌<◌, ◌↔◌, IsTrue};
ghost use Rattle.journal.specs.Layout.{IsArea, area_end};
ghost use Rattle.geometry.specs.Places.{Fits, IsWithinLimits, fits, data_end, data_sectors, data_start};
ghost use Rattle.geometry.specs.Places.{log_area, log_start, seat_start, seats_sectors, seats_start, sectors_per_seat};

use journal::LogArea;

/// The fewest nodes of a volume.
pub const MIN_NODES: u32 = 2;

/// The most nodes of a volume.
pub const MAX_NODES: u32 = 4_194_304;

/// The fewest sectors of a log.
pub const MIN_LOG: u32 = 288;

/// The most sectors of a log: a commit record has room for this many targets.
pub const MAX_LOG: u32 = 1_022;

/// The most seats of a volume.
pub const MAX_SEATS: u16 = 64;

/// The most slots of a seat.
pub const MAX_SLOTS: u16 = 8;

/// The most names of a directory.
pub const MAX_NAMES: u32 = 1_024;

/// The most bytes of a file.
pub const MAX_FILE_BYTES: u64 = 1 << 24;

/// The first sector of the node table.
const NODES: u32 = 148;

/// The fewest sectors of the data region.
const MIN_DATA: u32 = 16;

/// The number of sectors of a slot.
const SLOT_SECTORS: u32 = 4;

/// The numbers that determine where the parts of a volume are, and its limits.
#[derive(Clone, Copy)]
pub struct Geometry {
    /// The number of sectors of the volume.
    pub sectors: u32,
    /// The number of nodes.
    pub nodes: u32,
    /// The number of sectors of the log.
    pub log: u32,
    /// The number of seats.
    pub seats: u16,
    /// The number of slots of each seat.
    pub slots: u16,
    /// The most names of a directory.
    pub names: u32,
    /// The most bytes of a file.
    pub file_bytes: u64,
}

impl Geometry {
    /// Returns whether a volume may have this geometry: each number is in its range, and the data
    /// region has at least 16 sectors.
    pub fn fits(&self) -> bool
        ensures value { result ≡ fits self.now }
        ensures is { IsTrue result ↔ Fits self.now }
    {
        self.is_within_limits()
            && NODES + MIN_DATA + self.nodes + self.seats_sectors() + self.log <= self.sectors
    }

    /// Returns whether each number but that of the sectors is in its range.
    fn is_within_limits(&self) -> bool
        ensures { IsTrue result ↔ IsWithinLimits self.now }
    {
        MIN_NODES <= self.nodes
            && self.nodes <= MAX_NODES
            && MIN_LOG <= self.log
            && self.log <= MAX_LOG
            && 1 <= self.seats
            && self.seats <= MAX_SEATS
            && 1 <= self.slots
            && self.slots <= MAX_SLOTS
            && 1 <= self.names
            && self.names <= MAX_NAMES
            && 1 <= self.file_bytes
            && self.file_bytes <= MAX_FILE_BYTES
    }

    /// Returns the number of sectors of a seat: one says whose it is, and each slot has four.
    pub fn sectors_per_seat(&self) -> u32
        requires { IsWithinLimits self.now }
        ensures { result ≡ sectors_per_seat self.now }
    {
        1 + SLOT_SECTORS * self.slots as u32
    }

    /// Returns the number of sectors of all seats.
    pub fn seats_sectors(&self) -> u32
        requires { IsWithinLimits self.now }
        ensures { result ≡ seats_sectors self.now }
    {
        self.seats as u32 * self.sectors_per_seat()
    }

    /// Returns the first sector of the data region.
    pub fn data_start(&self) -> u32
        requires { Fits self.now }
        ensures { result ≡ data_start self.now }
    {
        NODES + self.nodes
    }

    /// Returns the end of the data region, the sector after its last one.
    pub fn data_end(&self) -> u32
        requires { Fits self.now }
        ensures { result ≡ data_end self.now }
    {
        self.log_start() - self.seats_sectors()
    }

    /// Returns the number of sectors of the data region.
    pub fn data_sectors(&self) -> u32
        requires { Fits self.now }
        ensures { result ≡ data_sectors self.now }
    {
        self.data_end() - self.data_start()
    }

    /// Returns the first sector of the seats.
    pub fn seats_start(&self) -> u32
        requires { Fits self.now }
        ensures { result ≡ seats_start self.now }
    {
        self.data_end()
    }

    /// Returns the first sector of seat `k`, counted from 0.
    pub fn seat_start(&self, k: u16) -> u32
        requires fits { Fits self.now }
        requires seat { k < self.now.seats }
        ensures { result ≡ seat_start self.now k }
    {
        self.seats_start() + k as u32 * self.sectors_per_seat()
    }

    /// Returns the first sector of the log.
    pub fn log_start(&self) -> u32
        requires { Fits self.now }
        ensures { result ≡ log_start self.now }
    {
        self.sectors - self.log
    }

    /// Returns the log's place for the journal. Transactions write the sectors before it, those of
    /// the seats too, and a commit record may name a target more than once.
    pub fn log_area(&self) -> LogArea
        requires { Fits self.now }
        ensures value { result ≡ log_area self.now }
        ensures area { IsArea result }
        ensures whole { area_end result ≡ self.now.sectors }
    {
        LogArea {
            first: self.log_start(),
            sectors: self.log,
            end: self.log_start(),
            once: false,
        }
    }
}
