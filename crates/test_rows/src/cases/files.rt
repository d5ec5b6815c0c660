//! The files of a case: what it makes of them, and what it finds there.

use super::step::Hold;
use crate::difference::{Difference, expect_length};
use std::fs::File;
use std::{fs, io};

pub fn zeros(rt: &HostRuntime, file: &str, length: usize) -> Result<(), Difference> {
    let bytes = Vec::from_elem(rt.alloc(), 0_u8, length)?;
    Ok(fs::write(rt, file, bytes.as_slice())?)
}

pub fn put(rt: &HostRuntime, file: &str, place: usize, bytes: &[u8]) -> Result<(), Difference> {
    let mut all = fs::read(rt, file)?;
    if all.len().saturating_sub(place) < bytes.len() {
        return Err(Difference::Short);
    }
    for (old, new) in all.iter_mut().skip(place).zip(bytes) {
        *old = *new;
    }
    Ok(fs::write(rt, file, all.as_slice())?)
}

pub fn copy(rt: &HostRuntime, file: &str, copy: &str) -> Result<(), Difference> {
    let bytes = fs::read(rt, file)?;
    Ok(fs::write(rt, copy, bytes.as_slice())?)
}

pub fn protect(rt: &HostRuntime, file: &str) -> Result<(), Difference> {
    let mut rights = fs::metadata(rt, file)?.permissions();
    rights.set_readonly(true);
    Ok(fs::set_permissions(rt, file, rights)?)
}

/// The file, locked as by a program that has it.
pub fn locked(rt: &HostRuntime, file: &str, hold: Hold) -> io::Result<File> {
    let file = File::open(rt, file)?;
    match hold {
        Hold::Writes => file.try_lock()?,
        Hold::Reads => file.try_lock_shared()?,
    }
    Ok(file)
}

pub fn expect_same(rt: &HostRuntime, file: &str, other: &str) -> Result<(), Difference> {
    if fs::read(rt, file)?.as_slice() == fs::read(rt, other)?.as_slice() {
        Ok(())
    } else {
        Err(Difference::Bytes)
    }
}

pub fn expect_size(rt: &HostRuntime, file: &str, length: usize) -> Result<(), Difference> {
    expect_length(length, fs::read(rt, file)?.len())
}

pub fn expect_absent(rt: &HostRuntime, file: &str) -> Result<(), Difference> {
    match fs::read(rt, file) {
        Ok(_) => Err(Difference::Present),
        Err(_) => Ok(()),
    }
}
