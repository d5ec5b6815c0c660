//! A whole volume.

ghost use Rattle.std.specs.Prelude.{◌≡◌, ◌≤◌, ◌<◌, ◌+◌, ◌*◌, ℕ, List, Option, IfOk, OnOk, IsErrOf, IsTrue};
ghost use Rattle.freemap.specs.Places.{ShowsPlaces};
ghost use Rattle.layout.specs.CachedNodes as layout;
ghost use Rattle.layout.specs.Health.{FailsOrStays};
ghost use Rattle.layout.specs.Stands.{AreKept, IsLaid, IsMark, IsNumber, MayHaveSeats};
ghost use Rattle.layout.specs.Stands.{data_end_by, marking_by, size_by, sizes_by, version_by};
ghost use Rattle.model_tree.specs.Seats.Seats as model;
ghost use Rattle.model_tree.specs.Seats.SeatViews.{seats_view};
ghost use Rattle.volume_load.specs.Sectors.{AreBits, AreSpare, HaveBits, ShowMarks, zeros_from};
ghost use Rattle.volume_load.specs.Volumes.{IsRead, AreFew};

use crate::fault::ScanFault;
use crate::migration::read_mark;
use crate::seating::{may_keep, read_seats};
use crate::sectors::{are_same, fetch, is_zero_from};
use crate::table::{are_numbered, read_table};
use disk::SECTOR;
use freemap::{Bitmap, SECTOR_PLACES};
use layout::places::{BEHIND_SEATS, BITMAP, MARK, NODES};
use layout::sectors::Sectors;
use layout::versions::{Marking, VersionNumber};
use model_tree::seats::Seats;
use node_table::BoxedNode;
use std::alloc::Global;

/// What a volume holds: the cached nodes of its nodes by their places, and which places of its data
/// region they use.
#[derive(Drop)]
pub struct Contents {
    pub cached_nodes: Vec<Option<BoxedNode>>,
    pub places: Bitmap,
    /// How far a migration has come, as its mark says.
    pub mark: Option<u32>,
    /// The seats of persistent sessions.
    pub seats: Seats,
}

/// Checks that sector `part` of the bitmap shows these places and nothing else.
fn check_marks<S: Sectors>(sectors: &mut S, places: &Bitmap, part: u32) -> Result<(), ScanFault>
    requires part { part < 2 }
    requires within { BITMAP + part < S.size (S.kept sectors.old) }
    ensures found { OnOk result (S.keeps_word
        → ShowsPlaces (S.image (S.kept sectors.old) (BITMAP + part)) places.now
        (SECTOR_PLACES * part)) }
    // If it fails
    ensures damaged { S.keeps_word → IsErrOf result ScanFault.Damaged
        → ¬ AreBits (S.image (S.kept sectors.old) (BITMAP + part)) places.now
        (SECTOR_PLACES * part) }
    // It only reads
    ensures kept { S.kept sectors.new ≡ S.kept sectors.old }
    ensures health { FailsOrStays (S.health sectors.old) (S.health sectors.new)
        (IsErrOf result ScanFault.Device) }
{
    let content = fetch(sectors, BITMAP + part)?;
    let mut shown = [0; SECTOR];
    places.write_sector(part, &mut shown);
    if !are_same(&content, &shown) {
        return Err(ScanFault::Damaged);
    }
    Ok(())
}

/// Checks that the bitmap, if there is one, shows these places and nothing else.
fn check_bitmap<S: Sectors>(
    sectors: &mut S,
    marking: Marking,
    places: &Bitmap,
) -> Result<(), ScanFault>
    requires within { BITMAP + 2 ≤ S.size (S.kept sectors.old) }
    ensures found { OnOk result (S.keeps_word
        → ShowMarks marking (S.image (S.kept sectors.old)) places.now) }
    // If it fails
    ensures damaged { S.keeps_word → IsErrOf result ScanFault.Damaged
        → ¬ HaveBits marking (S.image (S.kept sectors.old)) places.now }
    // It only reads
    ensures kept { S.kept sectors.new ≡ S.kept sectors.old }
    ensures health { FailsOrStays (S.health sectors.old) (S.health sectors.new)
        (IsErrOf result ScanFault.Device) }
{
    match marking {
        Marking::InSectors => {
            check_marks(sectors, places, 0)?;
            check_marks(sectors, places, 1)?;
        }
        Marking::AsNamed => {}
    }
    Ok(())
}

/// The first of the zero sectors before the mark: behind the seats or, in version 3, where the
/// bitmap would be.
fn zeros_from(number: VersionNumber) -> u32
    ensures { result ≡ zeros_from number }
{
    match number {
        VersionNumber::One | VersionNumber::Two => BEHIND_SEATS,
        VersionNumber::Three(_) => BITMAP,
    }
}

/// Checks that the sectors from this one up to the mark are zero.
fn check_spare<S: Sectors>(sectors: &mut S, first: u32) -> Result<(), ScanFault>
    requires within { MARK ≤ S.size (S.kept sectors.old) }
    ensures found { OnOk result (S.keeps_word → AreSpare first (S.image (S.kept sectors.old))) }
    // If it fails
    ensures damaged { S.keeps_word → IsErrOf result ScanFault.Damaged
        → ¬ AreSpare first (S.image (S.kept sectors.old)) }
    // It only reads
    ensures kept { S.kept sectors.new ≡ S.kept sectors.old }
    ensures health { FailsOrStays (S.health sectors.old) (S.health sectors.new)
        (IsErrOf result ScanFault.Device) }
{
    for n in first..MARK {
        let content = fetch(sectors, n)?;
        if !is_zero_from(&content, 0) {
            return Err(ScanFault::Damaged);
        }
    }
    Ok(())
}

/// How many sectors the data region has.
fn data_sectors(number: VersionNumber, size: u32, nodes: u32) -> u32
    requires number { IsNumber number }
    requires sized { IsTrue (size_by number size nodes) }
    ensures count { data_end_by number size ≡ NODES + nodes + result }
    ensures within { NODES + nodes + result ≤ size }
    ensures few { marking_by number ≡ Marking.InSectors → result ≤ 2 * SECTOR_PLACES }
{
    number.data_end(size) - (NODES + nodes)
}

/// Reads a volume of `size` sectors and `nodes` nodes, of this version and mounted `run` times, as
/// its superblock says: the mark of its migration, the seats that it keeps, the cached nodes that
/// its sectors hold, each in the form of its place, and the places of the data region that these
/// use.
///
/// # Errors
///
/// [`ScanFault::Damaged`] exactly if the sectors do not hold a mark, seats that a volume with the
/// mark may keep, and cached nodes with at most 4,096 blocks each; [`ScanFault::Device`] if the
/// device failed, and [`ScanFault::Memory`].
pub fn read_volume<S: Sectors>(
    alloc: Global,
    sectors: &mut S,
    size: u32,
    nodes: u32,
    number: VersionNumber,
    run: u32,
) -> Result<Contents, ScanFault>
    requires number { IsNumber number }
    requires size { size ≡ S.size (S.kept sectors.old) }
    requires sized { IsTrue (size_by number size nodes) }
    ensures found { IfOk result (λ contents. IsRead S.keeps_word size nodes number run contents.mark
        (seats_view contents.seats) (S.image (S.kept sectors.old)) contents.cached_nodes.items
        contents.places) }
    // If it fails
    ensures damaged { S.keeps_word → IsErrOf result ScanFault.Damaged
        → (mark : Option ℕ) (seats : model.Seats) (cached_nodes : List (Option layout.CachedNode))
        → IsMark number nodes mark → MayHaveSeats number mark seats
        → AreKept (sizes_by number) run seats
        → IsLaid (version_by number mark seats) size nodes (S.image (S.kept sectors.old))
        cached_nodes
        → ¬ AreFew cached_nodes }
    // It only reads
    ensures kept { S.kept sectors.new ≡ S.kept sectors.old }
    ensures health { FailsOrStays (S.health sectors.old) (S.health sectors.new)
        (IsErrOf result ScanFault.Device) }
{
    let mark = read_mark(sectors, number, nodes)?;
    let count = data_sectors(number, size, nodes);
    let mut places = Bitmap::new(alloc, count)?;
    let cached_nodes = read_table(alloc, sectors, &mut places, nodes, number, mark)?;
    if !are_numbered(alloc, &cached_nodes)? {
        return Err(ScanFault::Damaged);
    }
    check_bitmap(sectors, number.marking(), &places)?;
    check_spare(sectors, zeros_from(number))?;
    let seats = read_seats(alloc, sectors, number, run, may_keep(number, mark))?;
    Ok(Contents {
        cached_nodes,
        places,
        mark,
        seats,
    })
}
