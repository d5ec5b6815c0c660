//! The name that distinguishes a server from others.

use crate::fault::{Fault, Usage};
use libc::gethostname;
use server::MAX_NAME_BYTES;
use std::alloc::Global;
use std::fs::canonicalize;
use std::rt::Files;
use system::{Refused, open_refusal};

/// The most bytes of a host's name, with a zero byte after it.
const HOST_BYTES: usize = 65;

/// Whether a server may have this name.
pub fn is_name(name: &[u8]) -> bool {
    (1..=MAX_NAME_BYTES).contains(&name.len())
}

/// The name by default of the server of a volume without an identity: that of the host, a colon,
/// and the volume's path from the root, without links.
///
/// # Errors
/// Usage if it is too long; Open if there is no such file; Io; Memory.
pub fn default_name<R>(rt: &R, file: &str) -> Result<Vec<u8>, Fault>
where
    R: Files + AllocGlobal,
{
    let mut name = host_name(rt.alloc())?;
    name.push(b':')?;
    match canonicalize(rt, file) {
        Ok(path) => name.extend_from_slice(path.as_str().as_bytes())?,
        Err(error) => return Err(open_refusal(error.kind()).into()),
    }
    if is_name(&name) {
        Ok(name)
    } else {
        Err(Fault::Usage(Usage::Nameless))
    }
}

fn host_name(alloc: Global) -> Result<Vec<u8>, Fault> {
    let mut room = [0; HOST_BYTES];
    if gethostname(&mut room) != 0 {
        return Err(Refused::Io.into());
    }
    let name = room.split(|byte| *byte == 0).next().unwrap_or_default();
    Ok(Vec::from_slice(alloc, name)?)
}
