//! The volume in a file, or on a block device.

use crate::identity::identity_of;
use crate::refused::Refused;
use crate::size::VolumeSize;
use disk::{Device, FileDevice, SECTOR};
use fs::Fs;
use layout::versions::VersionNumber;
use server::{Server, is_volume_size};
use std::fs::{File, metadata};
use std::io::{ErrorKind, Write};
use std::os::unix::fs::{FileExt, FileTypeExt};
use std::rt::Files;
use volume::superblock::{MAGIC, version_at};

/// Makes a file a new volume, and prints that it has.
///
/// # Errors
/// Size if no volume has this size, before the file is touched; Open; Device; Memory; Io.
pub fn format_file<R, O>(rt: &R, file: &str, size: VolumeSize, out: &mut O) -> Result<(), Refused>
where
    R: Files<File = File> + AllocGlobal,
    O: Write,
{
    make_volume(rt, file, size)?;
    Ok(writeln!(out, "formatted")?)
}

fn make_volume<R>(rt: &R, file: &str, size: VolumeSize) -> Result<(), Refused>
where
    R: Files<File = File> + AllocGlobal,
{
    let VolumeSize { sectors, nodes } = size;
    if !is_volume_size(sectors, nodes) {
        return Err(Refused::Size);
    }
    let mut device = FileDevice::create(rt, rt.alloc(), file, sectors)?;
    Ok(Server::format(rt.alloc(), &mut device, nodes)?)
}

/// Prints what a mount would find, and writes nothing to the file.
///
/// # Errors
/// Those of [`open_volume_to_read`], and those of the mount; Io.
pub fn check_file<R, O>(rt: &R, file: &str, out: &mut O) -> Result<(), Refused>
where
    R: Files<File = File> + AllocGlobal,
    O: Write,
{
    let mut device = open_volume_to_read(rt, file)?;
    let found = Fs::check(rt.alloc(), &mut device)?;
    write!(
        out,
        "volume {} {} run {}",
        found.sectors, found.nodes, found.count
    )?;
    if let Some(identity) = identity_of(rt.alloc(), served_version(&mut device)?)? {
        write!(out, " layout {} identity {identity}", found.version)?;
    }
    Ok(writeln!(out)?)
}

/// The version in which the volume on a device is served, as far as its first sector says.
///
/// # Errors
/// Device: sector 0 could not be read.
pub fn served_version(device: &mut FileDevice) -> Result<VersionNumber, Refused> {
    let sectors = device.sectors();
    let mut first = [0; SECTOR];
    if sectors > 0 {
        device.read(0, &mut first)?;
    }
    let version = version_at(sectors, &first).unwrap_or(VersionNumber::CURRENT);
    Ok(version.served())
}

/// Whether a file begins as a volume does, of whatever version and size, sound or damaged.
///
/// # Errors
/// Open if the file cannot be opened to be read; Io.
pub fn begins_as_volume<R>(rt: &R, file: &str) -> Result<bool, Refused>
where
    R: Files<File = File>,
{
    // Opening a pipe for reading waits for its writer.
    if !has_sectors(rt, file)? {
        return Ok(false);
    }
    let opened = match File::open(rt, file) {
        Ok(opened) => opened,
        Err(error) => return Err(open_refusal(error.kind())),
    };
    let mut prefix = [0; MAGIC.len()];
    match opened.read_exact_at(&mut prefix, 0) {
        Ok(()) => Ok(prefix == MAGIC),
        Err(error) if error.kind() == ErrorKind::UnexpectedEof => Ok(false),
        Err(error) => Err(error.into()),
    }
}

/// The volume in a file, which nobody else uses meanwhile.
///
/// # Errors
/// Open if the file is not there, may not be written, is neither a file nor a block device, or is
/// locked; NotVolume if its size is not a whole number of sectors; Memory.
pub fn open_volume<R>(rt: &R, file: &str) -> Result<FileDevice, Refused>
where
    R: Files<File = File> + AllocGlobal,
{
    whole(FileDevice::open(rt, rt.alloc(), file)?)
}

/// The volume in a file, only to be read.
///
/// # Errors
/// As [`open_volume`]; the file may be one that may not be written.
pub fn open_volume_to_read<R>(rt: &R, file: &str) -> Result<FileDevice, Refused>
where
    R: Files<File = File> + AllocGlobal,
{
    // Opening a pipe for reading waits for its writer.
    if !has_sectors(rt, file)? {
        return Err(Refused::Open);
    }
    whole(FileDevice::open_to_read(rt, rt.alloc(), file)?)
}

/// Whether it is a file or a block device.
fn has_sectors<R: Files>(rt: &R, file: &str) -> Result<bool, Refused> {
    match metadata(rt, file) {
        Ok(found) => Ok(found.is_file() || found.file_type().is_block_device()),
        Err(error) => Err(open_refusal(error.kind())),
    }
}

/// The device, if the size of its file is a whole number of sectors.
fn whole(device: FileDevice) -> Result<FileDevice, Refused> {
    if device.is_whole() {
        Ok(device)
    } else {
        Err(Refused::NotVolume)
    }
}

/// Why a file is not opened.
pub fn open_refusal(kind: ErrorKind) -> Refused {
    match kind {
        ErrorKind::OutOfMemory => Refused::Memory,
        _ => Refused::Open,
    }
}
