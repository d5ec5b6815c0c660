//! The versions of the layout, and the mark of a migration from the first one to the second.

ghost use Rattle.std.specs.Prelude.{◌≡◌, ◌≤◌, ◌+◌, ◌↔◌, IsTrue, length, take};
ghost use Rattle.layout.specs.Versions as marks;
ghost use Rattle.layout.specs.Versions.{IsMark, mark_fields, mark_held, version_by};
ghost use Rattle.model_tree.specs.Seats.Seats.{no_seats};

use crate::places::{NODES, SEAT_SLOTS, SEATS, SPARE};
use disk::SECTOR;
use geometry::Superblock;
use inode::Form;
use journal::LogArea;
use model_tree::limits::Limits;
use seats::SeatSizes;
use sector::{put_bytes, put_u32, put_zeros};

/// The bytes that a mark begins with.
const MARK_MAGIC: [u8; 4] = *b"MIGR";

/// The version of a volume's layout, as its first sector has it.
#[derive(Clone, Copy)]
pub enum VersionNumber {
    /// Nodes have form one, except those that a migration has moved.
    One,
    /// Nodes have form two.
    Two,
    /// A volume that has no bitmap, and whose seats and log are at its end, as its superblock says.
    Three(Superblock),
}

/// What marks the used sectors of the data region.
#[derive(Clone, Copy, Debug, PartialEq, Eq)]
pub enum Marking {
    /// Sectors 98 and 99 hold a bitmap of the used sectors of the data region.
    InSectors,
    /// Nothing on the disk marks them but the nodes that name them.
    AsNamed,
}

impl VersionNumber {
    ghost use Rattle.std.specs.Prelude.{◌≡◌, ◌≤◌, ◌+◌};
    ghost use Rattle.layout.specs.Versions.{IsNumber, data_end_by, limits_by, log_by, marking_by};
    ghost use Rattle.layout.specs.Versions.{frees_whole, number_of_version, seats_from, served, sizes_by};
    ghost use Rattle.seats.specs.Sizes.{AreSizes};

    /// The version in which `nfs41` makes volumes.
    pub const CURRENT: VersionNumber = VersionNumber::Two;

    /// The number in the first sector.
    pub fn number(self) -> u32
        ensures { result ≡ number_of_version self }
    {
        match self {
            VersionNumber::One => 1,
            VersionNumber::Two => 2,
            VersionNumber::Three(_) => 3,
        }
    }

    /// The version in which a volume of this one is served, once it is mounted.
    pub fn served(self) -> VersionNumber
        ensures { result ≡ served self }
    {
        match self {
            VersionNumber::One | VersionNumber::Two => VersionNumber::Two,
            VersionNumber::Three(superblock) => VersionNumber::Three(superblock),
        }
    }

    /// What marks the used sectors.
    pub fn marking(self) -> Marking
        ensures { result ≡ marking_by self }
    {
        match self {
            VersionNumber::One | VersionNumber::Two => Marking::InSectors,
            VersionNumber::Three(_) => Marking::AsNamed,
        }
    }

    /// The sector at which the data region of a volume of this many sectors ends.
    pub fn data_end(self, sectors: u32) -> u32
        requires { IsNumber self }
        ensures { result ≡ data_end_by self sectors }
    {
        match self {
            VersionNumber::One | VersionNumber::Two => sectors,
            VersionNumber::Three(superblock) => superblock.geometry.data_end(),
        }
    }

    /// The first sector of the seats.
    pub fn seats_from(self) -> u32
        requires { IsNumber self }
        ensures { result ≡ seats_from self }
    {
        match self {
            VersionNumber::One | VersionNumber::Two => SPARE,
            VersionNumber::Three(superblock) => superblock.geometry.seats_start(),
        }
    }

    /// How many places there are for seats, and the slots of each.
    pub fn seat_sizes(self) -> SeatSizes
        requires { IsNumber self }
        ensures value { result ≡ sizes_by self }
        ensures sizes { AreSizes result }
    {
        match self {
            VersionNumber::One | VersionNumber::Two => SeatSizes {
                places: SEATS,
                slots: SEAT_SLOTS,
            },
            VersionNumber::Three(superblock) => SeatSizes {
                places: superblock.geometry.seats as u32,
                slots: superblock.geometry.slots as u32,
            },
        }
    }

    /// Whether each sector of a free seat is zero, not only the first.
    pub fn frees_whole(self) -> bool
        ensures { result ≡ frees_whole self }
    {
        !matches!(self, VersionNumber::Three(_))
    }

    /// The log of a volume of this many sectors.
    pub fn log_area(self, sectors: u32) -> LogArea
        requires { IsNumber self }
        ensures { result ≡ log_by self sectors }
    {
        match self {
            VersionNumber::One | VersionNumber::Two => LogArea::log_at_start(sectors),
            VersionNumber::Three(superblock) => superblock.geometry.log_area(),
        }
    }

    /// The limits of a volume of this many sectors and nodes.
    pub fn limits(self, sectors: u32, nodes: u32) -> Limits
        requires number { IsNumber self }
        requires within { 148 + nodes ≤ sectors }
        requires region { 148 + nodes ≤ data_end_by self sectors }
        ensures { result ≡ limits_by self sectors nodes }
    {
        let mut limits = Limits::of_volume(sectors as usize, nodes as usize);
        if let VersionNumber::Three(superblock) = self {
            let geometry = &superblock.geometry;
            limits.data_sectors = (geometry.data_end() - (NODES + nodes)) as usize;
            limits.names = geometry.names as usize;
            limits.file_bytes = geometry.file_bytes as usize;
        }
        limits
    }
}

/// The form of the node at a place of a volume with this mark.
pub fn form_at(number: VersionNumber, mark: Option<u32>, place: u32) -> Form
    ensures { result ≡ (version_by number mark no_seats).form place }
{
    match number {
        VersionNumber::One if mark.unwrap_or(0) <= place => Form::One,
        _ => Form::Two,
    }
}

/// Whether a volume of this version with `nodes` nodes may have the mark.
pub fn is_mark(number: VersionNumber, nodes: u32, mark: Option<u32>) -> bool
    ensures { IsTrue result ↔ IsMark number nodes mark }
{
    match (number, mark) {
        (_, None) => true,
        (VersionNumber::One, Some(moved)) => 0 < moved && moved <= nodes,
        (VersionNumber::Two, Some(moved)) => moved == nodes,
        (VersionNumber::Three(_), Some(_)) => false,
    }
}

/// What [`crate::places::MARK`] holds with this mark, or with none.
pub fn mark_sector(mark: Option<u32>) -> [u8; SECTOR]
    ensures { result ≡ mark_held mark }
{
    match mark {
        None => [0; SECTOR],
        Some(moved) => sector_of_mark(moved),
    }
}

/// Writes the fields of a mark.
fn put_mark(sector: &mut [u8; SECTOR], moved: u32)
    ensures prefix { take 8 sector.new ≡ mark_fields moved }
    ensures len { length sector.new ≡ SECTOR }
{
    put_bytes(sector, 0, &MARK_MAGIC);
    put_u32(sector, 4, moved);
}

/// The sector of a mark.
fn sector_of_mark(moved: u32) -> [u8; SECTOR]
    ensures { result ≡ marks.mark_sector moved }
{
    let mut sector = [0; SECTOR];
    put_mark(&mut sector, moved);
    put_zeros(&mut sector, 8, SECTOR - 8);
    sector
}
