//! Volumes of version 3: their size, as a command line gives it, and making one.

ghost use Rattle.std.specs.Prelude.{◌≡◌, ◌<◌, ◌-◌, ◌/◌, ◌^◌, None, Some};

use crate::number::decimal;
use crate::refused::Refused;
use crate::volume_file::open_refusal;
use disk::{Device, FileDevice, SECTOR};
use geometry::{Geometry, MAX_FILE_BYTES, MAX_LOG, MAX_NAMES, Superblock};
use std::alloc::Global;
use std::fs::File;
use std::io::{Read, Write};
use std::rt::Files;
use volume::format_large;

/// What the identity of a volume is read from.
const RANDOM: &str = "/dev/urandom";

/// By default a volume has a node for each 64 KiB, but not more than this, nor fewer than that.
const SECTORS_PER_NODE: u32 = 16;

const MOST_BY_DEFAULT: u32 = 1_048_576;

const FEWEST_BY_DEFAULT: u32 = 16;

/// By default a volume has this many seats.
const SEATS: u16 = 5;

/// The slots of each seat.
const SLOTS: u16 = 8;

/// What a node with its name takes in memory while a mount reads it, if its access control list is
/// short: 1,125 bytes were measured.
const BYTES_PER_NODE: u64 = 1_200;

/// What each sector of a file or a directory takes.
const BYTES_PER_BLOCK: u64 = 8;

/// A mount has two bits for each sector.
const SECTORS_PER_BYTE: u64 = 4;

/// One sector more than a volume can have: those of 16 TiB.
const ONE_MORE: u64 = 1 << 32;

/// What the units of a size are.
const UNITS: [(&str, u64); 4] = [
    ("K", 1 << 10),
    ("M", 1 << 20),
    ("G", 1 << 30),
    ("T", 1 << 40),
];

/// How large a volume of version 3 is to be.
#[derive(Clone, Copy)]
pub struct LargeSize {
    pub sectors: u32,
    pub nodes: u32,
    /// The sectors of the log.
    pub log: u32,
    /// The seats, and the slots of each.
    pub seats: u16,
    pub slots: u16,
}

impl LargeSize {
    /// A volume of this many sectors with nodes, a log and seats as they are by default.
    pub fn of_sectors(sectors: u32) -> LargeSize {
        let nodes = (sectors / SECTORS_PER_NODE).clamp(FEWEST_BY_DEFAULT, MOST_BY_DEFAULT);
        LargeSize {
            sectors,
            nodes,
            log: MAX_LOG,
            seats: SEATS,
            slots: SLOTS,
        }
    }

    fn geometry(self) -> Geometry {
        Geometry {
            sectors: self.sectors,
            nodes: self.nodes,
            log: self.log,
            seats: self.seats,
            slots: self.slots,
            names: MAX_NAMES,
            file_bytes: MAX_FILE_BYTES,
        }
    }

    /// How many MiB a server takes for a volume, if it has all its nodes: while it is empty of data,
    /// and once it is full.
    fn memory(self) -> (u64, u64) {
        let sectors = u64::from(self.sectors);
        let nodes = u64::from(self.nodes) * BYTES_PER_NODE + sectors / SECTORS_PER_BYTE;
        let full = nodes + sectors * BYTES_PER_BLOCK;
        (nodes.div_ceil(1 << 20), full.div_ceil(1 << 20))
    }
}

/// The sectors of a volume of this size in bytes, as `64G`: a number and K, M, G or T, each 1024
/// times the one before it. A volume of `16T` has one sector less than that. None if it has no such
/// form, or is larger.
pub fn sectors_in(size: &str) -> Option<u32> {
    for (suffix, unit) in UNITS {
        if let Some(number) = size.strip_suffix(suffix) {
            let bytes = u64::from(decimal(number)?).checked_mul(unit)?;
            return sectors_of(bytes);
        }
    }
    None
}

/// The whole sectors of this many bytes; one less if they are 2^32, since a volume has at most
/// 2^32 - 1. None if they are more.
fn sectors_of(bytes: u64) -> Option<u32>
    ensures most { bytes / 4096 < 2 ^ 32 → result ≡ Some (bytes / 4096) }
    ensures one_more { bytes / 4096 ≡ 2 ^ 32 → result ≡ Some (2 ^ 32 - 1) }
    ensures beyond { 2 ^ 32 < bytes / 4096 → result ≡ None }
{
    match bytes / SECTOR as u64 {
        ONE_MORE => Some(u32::MAX),
        sectors => u32::try_from(sectors).ok(),
    }
}

/// Makes a file, or a block device of this size, a new volume of version 3, and prints what it has.
///
/// # Errors
/// Size if no volume has this size, before the file is touched; Open; Device; Memory; Io.
pub fn format_large_file<R, O>(
    rt: &R,
    file: &str,
    size: LargeSize,
    out: &mut O,
) -> Result<(), Refused>
where
    R: Files<File = File> + AllocGlobal,
    O: Write,
{
    if !size.geometry().fits() {
        return Err(Refused::Size);
    }
    let identity = identity(rt)?;
    let mut device = FileDevice::create(rt, rt.alloc(), file, size.sectors)?;
    format_large_device(rt.alloc(), &mut device, size, identity)?;
    let (nodes, full) = size.memory();
    Ok(writeln!(
        out,
        "formatted: layout 3, {} sectors, {} nodes, a log of {} sectors; {nodes} MiB of memory for all \
         nodes, {full} MiB once it is full",
        size.sectors, size.nodes, size.log,
    )?)
}

/// Makes a device a new volume of version 3 of this size and identity.
///
/// # Errors
/// Size if no volume on the device has this size; Device; Memory.
pub fn format_large_device<D: Device>(
    alloc: Global,
    device: &mut D,
    size: LargeSize,
    identity: [u8; 16],
) -> Result<(), Refused> {
    let geometry = size.geometry();
    Ok(format_large(alloc, device, &Superblock { geometry, identity })?)
}

/// Random bytes.
fn identity<R: Files<File = File>>(rt: &R) -> Result<[u8; 16], Refused> {
    let mut identity = [0; 16];
    let mut random = File::open(rt, RANDOM).map_err(|error| open_refusal(error.kind()))?;
    random.read_exact(&mut identity)?;
    Ok(identity)
}
