//! The first sector of a volume.

ghost use Rattle.std.specs.Prelude.{◌≡◌, IfSome, length, take};
ghost use Rattle.geometry.specs.Encoding.{IsSuperblock, header, superblock};
ghost use Rattle.geometry.specs.Reading.{found_in, geometry_in, identity_in, is_volume};

use crate::geometry::Geometry;
use sector::{SIZE, put_bytes, put_u16, put_u32, put_u64, put_zeros, u16_at, u32_at, u64_at};

/// What the first sector of a volume of any version begins with.
const MAGIC: [u8; 8] = *b"NFS41VOL";

/// The version of the layout.
const VERSION: u32 = 3;

/// The offset of the first byte after the fields.
const REST: usize = 64;

/// What never changes of a volume of layout version 3, as its first sector describes it. The sector
/// also counts the mounts of the volume: that is its restart count.
#[derive(Clone, Copy)]
pub struct Superblock {
    /// Where the parts of the volume are, and its limits.
    pub geometry: Geometry,
    /// The identity of the volume: random, and given when it is formatted.
    pub identity: [u8; 16],
}

impl Superblock {
    /// Returns the sector that encodes the superblock with this restart count.
    pub fn encode(&self, restarts: u32) -> [u8; SIZE]
        ensures { result ≡ superblock self.now restarts }
    {
        let mut sector = [0; SIZE];
        put_header(&mut sector, restarts, &self.geometry);
        put_zeros(&mut sector, 36, 4);
        put_u64(&mut sector, 40, self.geometry.file_bytes);
        put_bytes(&mut sector, 48, &self.identity);
        put_zeros(&mut sector, REST, SIZE - REST);
        sector
    }

    /// Reads sector 0 of a device of `device_sectors` sectors: none if it describes no volume of
    /// version 3 that has the device's size and a geometry that fits. The restart count may be full,
    /// and the bytes outside the fields are not looked at: the sector is sound exactly if it is what
    /// [`Superblock::encode`] returns.
    pub fn find(sector: &[u8; SIZE], device_sectors: u32) -> Option<Superblock>
        ensures found { result ≡ found_in device_sectors sector.now }
        ensures encodes { IfSome result IsSuperblock }
    {
        let geometry = geometry_of(sector);
        if !is_volume(sector, &geometry, device_sectors) {
            return None;
        }
        Some(Superblock {
            geometry,
            identity: identity_of(sector),
        })
    }
}

/// Writes the fields from the first up to the most names of a directory.
fn put_header(sector: &mut [u8; SIZE], restarts: u32, geometry: &Geometry)
    ensures prefix { take 36 sector.new ≡ header restarts geometry.now }
    ensures len { length sector.new ≡ SIZE }
{
    put_bytes(sector, 0, &MAGIC);
    put_u32(sector, 8, VERSION);
    put_u32(sector, 12, geometry.sectors);
    put_u32(sector, 16, geometry.nodes);
    put_u32(sector, 20, restarts);
    put_u32(sector, 24, geometry.log);
    put_u16(sector, 28, geometry.seats);
    put_u16(sector, 30, geometry.slots);
    put_u32(sector, 32, geometry.names);
}

/// Returns whether a sector with this geometry is the first of a volume of version 3.
#[tactic(auto, unfolding(crate::specs::Reading::is_volume))]
fn is_volume(sector: &[u8; SIZE], geometry: &Geometry, device_sectors: u32) -> bool
    requires { geometry.now ≡ geometry_in sector.now }
    ensures { result ≡ is_volume device_sectors sector.now }
{
    &sector[..8] == &MAGIC[..]
        && u32_at(sector, 8) == VERSION
        && geometry.sectors == device_sectors
        && geometry.fits()
}

/// Reads the geometry, whatever it is.
#[tactic(auto, unfolding(crate::specs::Reading::geometry_in))]
fn geometry_of(sector: &[u8; SIZE]) -> Geometry
    ensures { result ≡ geometry_in sector.now }
{
    Geometry {
        sectors: u32_at(sector, 12),
        nodes: u32_at(sector, 16),
        log: u32_at(sector, 24),
        seats: u16_at(sector, 28),
        slots: u16_at(sector, 30),
        names: u32_at(sector, 32),
        file_bytes: u64_at(sector, 40),
    }
}

/// Reads the identity.
fn identity_of(sector: &[u8; SIZE]) -> [u8; 16]
    ensures { result ≡ identity_in sector.now }
{
    let mut identity = [0; 16];
    identity.copy_from_slice(&sector[48..REST]);
    identity
}
