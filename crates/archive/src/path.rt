//! Paths within a volume.

use crate::fault::{ArchiveFault, Reason};
use std::alloc::{AllocError, Global};

/// The path with one `/` between its names, and none before or after them: the root's is empty.
pub(crate) fn key_of(alloc: Global, path: &[u8]) -> Result<Vec<u8>, AllocError> {
    let mut key = Vec::new(alloc);
    for name in path.split(|byte| *byte == b'/') {
        if name.is_empty() || name == b".".as_slice() {
            continue;
        }
        if !key.is_empty() {
            key.push(b'/')?;
        }
        key.extend_from_slice(name)?;
    }
    Ok(key)
}

/// The directory of a key, and the last name.
pub(crate) fn split_last(key: &[u8]) -> (&[u8], &[u8]) {
    match key.iter().rposition(|byte| *byte == b'/') {
        Some(at) => (&key[..at], key.get(at + 1..).unwrap_or_default()),
        None => (&[], key),
    }
}

/// The error of a path.
pub(crate) fn refuse(alloc: Global, reason: Reason, path: &[u8]) -> ArchiveFault {
    match String::from_utf8_lossy(alloc, path) {
        Ok(path) => ArchiveFault::Path { reason, path },
        Err(_) => ArchiveFault::Memory,
    }
}
