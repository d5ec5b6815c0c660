//! A volume that nobody serves: what is in it, and out of it and into it.

use crate::fault::Fault;
use archive::{View, fill, list, write_file, write_tree};
use std::fs::File;
use std::io::{BufWriter, Write};
use std::rt::Files;
use system::{open_refusal, open_volume, open_volume_to_read};

/// The word for the standard input in place of a file, and its path.
const STANDARD: &str = "-";

const STANDARD_INPUT: &str = "/dev/stdin";

/// Lists a path of the volume in a file.
pub fn list_path<R, O>(rt: &R, file: &str, path: &str, out: O) -> Result<(), Fault>
where
    R: Files<File = File> + AllocGlobal,
    O: Write + Drop,
{
    let view = view_of(rt, file)?;
    let mut out = BufWriter::new(rt.alloc(), out)?;
    list(&view, path, &mut out)?;
    Ok(out.flush()?)
}

/// Writes the bytes of a file of the volume in a file.
pub fn get_file<R, O>(rt: &R, file: &str, path: &str, out: &mut O) -> Result<(), Fault>
where
    R: Files<File = File> + AllocGlobal,
    O: Write,
{
    let mut view = view_of(rt, file)?;
    Ok(write_file(&mut view, path, out)?)
}

/// Writes all of the volume in a file as an archive.
pub fn write_archive<R, O>(rt: &R, file: &str, out: &mut O) -> Result<(), Fault>
where
    R: Files<File = File> + AllocGlobal,
    O: Write,
{
    let mut view = view_of(rt, file)?;
    Ok(write_tree(&mut view, out)?)
}

/// Puts what an archive has into the empty volume in a file.
pub fn put_archive<R>(rt: &R, file: &str, archive: &str) -> Result<(), Fault>
where
    R: Files<File = File> + AllocGlobal,
{
    let path = if archive == STANDARD {
        STANDARD_INPUT
    } else {
        archive
    };
    let source = File::open(rt, path).map_err(|error| open_refusal(error.kind()))?;
    let device = open_volume(rt, file)?;
    Ok(fill(rt.alloc(), device, source)?)
}

fn view_of<R>(rt: &R, file: &str) -> Result<View, Fault>
where
    R: Files<File = File> + AllocGlobal,
{
    let device = open_volume_to_read(rt, file)?;
    Ok(View::new(rt.alloc(), device)?)
}
