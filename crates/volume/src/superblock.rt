//! The first sector of a volume, which says that it is one and counts its mounts.

ghost use Rattle.std.specs.Prelude.{◌≡◌, ◌⊎◌, ◌==◌, ◌||◌, IfNone, IfSome, false, length, take};
ghost use Rattle.layout.specs.Superblock as layout;
ghost use Rattle.layout.specs.Superblock.{is_size, fields, no_rest};
ghost use Rattle.layout.specs.Versions.{number_of_version};
ghost use Rattle.volume.specs.Superblock.{FindsVersion, HasSizes, is_early, is_volume};
ghost use Rattle.volume.specs.Superblock.{mount_verdict, superblock, version_in, word};

use disk::SECTOR;
use geometry::Superblock;
pub use journal::MIN_SECTORS;
use layout::places::NODES;
use layout::versions::VersionNumber;
use sector::{put_bytes, put_u32, put_zeros, u32_at};

/// The most sectors of a volume of version 1 or 2.
pub const MAX_SECTORS: u32 = 65_536;

/// The fewest nodes of a volume of version 1 or 2.
pub const MIN_NODES: u32 = 2;

/// The most nodes of a volume of version 1 or 2.
pub const MAX_NODES: u32 = 16_384;

/// The fewest sectors behind those of the nodes.
const MIN_DATA: u32 = 16;

/// What the first sector of a volume of any version begins with.
pub const MAGIC: [u8; 8] = *b"NFS41VOL";

/// What a mount makes of sector 0, the first that holds.
#[derive(Clone, Copy, Debug, PartialEq, Eq)]
pub enum Verdict {
    /// No volume of version 1, 2 or 3 and of the device's size.
    NotVolume,
    /// The restart count is full.
    Worn,
    /// After the fields there is a byte that is not zero.
    Damaged,
    /// A volume that can be mounted.
    Sound,
}

/// Whether a volume of version 1 or 2 may have this many sectors and nodes.
pub fn is_volume_size(sectors: u32, nodes: u32) -> bool
    ensures { result ≡ is_size sectors nodes }
{
    MIN_SECTORS <= sectors
        && sectors <= MAX_SECTORS
        && MIN_NODES <= nodes
        && nodes <= MAX_NODES
        && NODES + MIN_DATA + nodes <= sectors
}

/// Writes the fields of the first sector.
fn put_fields(sector: &mut [u8; SECTOR], version: VersionNumber, sectors: u32, nodes: u32, run: u32)
    ensures prefix { take 24 sector.new ≡ fields (number_of_version version) sectors nodes run }
    ensures len { length sector.new ≡ SECTOR }
{
    put_bytes(sector, 0, &MAGIC);
    put_u32(sector, 8, version.number());
    put_u32(sector, 12, sectors);
    put_u32(sector, 16, nodes);
    put_u32(sector, 20, run);
}

/// The first sector of a volume of version 1 or 2.
#[tactic(auto, unfolding(layout::specs::Superblock::superblock))]
fn early_superblock(version: VersionNumber, sectors: u32, nodes: u32, run: u32) -> [u8; SECTOR]
    ensures { result ≡ layout.superblock (number_of_version version) sectors nodes run no_rest }
{
    let mut sector = [0; SECTOR];
    put_fields(&mut sector, version, sectors, nodes, run);
    put_zeros(&mut sector, 24, SECTOR - 24);
    sector
}

/// The first sector of a volume.
pub(crate) fn superblock_of(
    version: VersionNumber,
    sectors: u32,
    nodes: u32,
    run: u32,
) -> [u8; SECTOR]
    requires { HasSizes version sectors nodes }
    ensures { result ≡ superblock version sectors nodes run }
{
    match version {
        VersionNumber::One | VersionNumber::Two => early_superblock(version, sectors, nodes, run),
        VersionNumber::Three(superblock) => superblock.encode(run),
    }
}

/// What a mount makes of sector 0 of a device of this many sectors.
#[tactic(auto, unfolding(crate::specs::Superblock::mount_verdict))]
pub fn judge(sectors: u32, sector: &[u8; SECTOR]) -> Verdict
    ensures { result ≡ mount_verdict sectors sector.now }
{
    let Some(version) = version_at(sectors, sector) else {
        return Verdict::NotVolume;
    };
    let run = run_of(sector);
    if run == u32::MAX {
        Verdict::Worn
    } else if *sector == superblock_of(version, sectors, nodes_of(sector), run) {
        Verdict::Sound
    } else {
        Verdict::Damaged
    }
}

/// The version of the volume that a first sector describes, on a device of this many sectors; none
/// if it describes no volume.
pub fn version_at(sectors: u32, sector: &[u8; SECTOR]) -> Option<VersionNumber>
    ensures some { IfSome result (λ version. FindsVersion sectors sector.now version) }
    ensures none { IfNone result (is_volume sectors sector.now ≡ false) }
{
    if is_early(sectors, sector) {
        return Some(early_version(sector));
    }
    let superblock = Superblock::find(sector, sectors)?;
    Some(VersionNumber::Three(superblock))
}

/// Whether a sector is the first of a volume of version 1 or 2.
#[tactic(auto, unfolding(crate::specs::Superblock::is_early, crate::specs::Superblock::word))]
fn is_early(sectors: u32, sector: &[u8; SECTOR]) -> bool
    ensures { result ≡ is_early sectors sector.now }
{
    sector.starts_with(&MAGIC)
        && has_version(sector)
        && u32_at(sector, 12) == sectors
        && is_volume_size(sectors, nodes_of(sector))
}

/// Whether a sector gives version 1 or 2.
#[tactic(auto, unfolding(crate::specs::Superblock::word))]
fn has_version(sector: &[u8; SECTOR]) -> bool
    ensures { result ≡ (word 8 sector.now == 1 || word 8 sector.now == 2) }
{
    let number = u32_at(sector, 8);
    number == VersionNumber::One.number() || number == VersionNumber::Two.number()
}

/// The version in the first sector of such a volume.
fn early_version(sector: &[u8; SECTOR]) -> VersionNumber
    requires { word 8 sector.now ≡ 1 ⊎ word 8 sector.now ≡ 2 }
    ensures { result ≡ version_in sector.now }
{
    if u32_at(sector, 8) == VersionNumber::One.number() {
        VersionNumber::One
    } else {
        VersionNumber::Two
    }
}

/// The number of nodes in the first sector of a volume.
#[tactic(auto, unfolding(crate::specs::Superblock::word))]
pub(crate) fn nodes_of(sector: &[u8; SECTOR]) -> u32
    ensures { result ≡ word 16 sector.now }
{
    u32_at(sector, 16)
}

/// The restart count in the first sector of a volume.
#[tactic(auto, unfolding(crate::specs::Superblock::word))]
pub fn run_of(sector: &[u8; SECTOR]) -> u32
    ensures { result ≡ word 20 sector.now }
{
    u32_at(sector, 20)
}
