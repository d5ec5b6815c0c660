//! Making volumes.

use crate::fault::Fault;
use crate::request::Size;
use std::fs::File;
use std::io::Write;
use std::rt::Files;
use system::{Refused, begins_as_volume, format_file, format_large_file};

/// Makes a file a new volume; one that is a volume already only by force.
///
/// # Errors
/// Volume; those of [`format_file`] and [`format_large_file`].
pub fn format_volume<R, O>(
    rt: &R,
    file: &str,
    size: Size,
    force: bool,
    out: &mut O,
) -> Result<(), Fault>
where
    R: Files<File = File> + AllocGlobal,
    O: Write,
{
    if !force && is_volume(rt, file)? {
        return Err(Fault::Volume);
    }
    match size {
        Size::Small(size) => format_file(rt, file, size, out)?,
        Size::Large(size) => format_large_file(rt, file, size, out)?,
    }
    Ok(())
}

/// Whether a file is a volume, be it damaged or of a later version.
fn is_volume<R>(rt: &R, file: &str) -> Result<bool, Refused>
where
    R: Files<File = File>,
{
    match begins_as_volume(rt, file) {
        // What cannot be opened to be read is absent, or cannot be opened to be formatted either.
        Err(Refused::Open) => Ok(false),
        found => found,
    }
}
