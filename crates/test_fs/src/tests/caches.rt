//! Files enough for more sectors than a journal keeps: one that keeps one sector and one that keeps
//! 64 return the same, and leave the same sectors.

ghost use Rattle.std.specs.Prelude.{◌≤◌, length};
ghost use Rattle.fs.specs.Opening.{type_of};
ghost use Rattle.model.specs.Operations.Open.{given_by};

use super::drivers::{Disk, formatted, image_of};
use super::sectors::Image;
use acl_eval::{Cred, Gids};
use fs::{Fs, FsFault, How, OpenRoom, Opening, Share, Writing};
use std::alloc::Global;
use std::num::NonZeroUsize;
use std::test::Fail;
use wire_attributes::GivenAttributes;

const FILES: u32 = 200;

/// The number of the root.
const ROOT: u64 = 1;

/// When everything is done, in nanoseconds since 1970.
const NOW: u64 = 5;

/// The attribute mode, and 644 as its value.
const MODE: [u32; 2] = [0, 2];

const MODE_644: [u8; 4] = [0, 0, 1, 0xA4];

pub(super) fn caller() -> Cred {
    Cred {
        uid: 7,
        gid: 7,
        gids: Gids::new(),
    }
}

fn attributes<'a>(bitmap: &'a [u32; 2], values: &'a [u8]) -> GivenAttributes<'a>
    ensures { length result.bitmap.now ≤ 8 }
{
    GivenAttributes { bitmap, values }
}

/// A file of mode 644, which is not there yet.
fn new_file<'a>() -> How<'a>
    ensures { length (given_by (type_of result)).bitmap ≤ 8 }
{
    How::Guarded(attributes(&MODE, &MODE_644))
}

/// The number of a file that is made.
pub(super) fn make(fs: &mut Fs<&mut Disk>, name: &[u8]) -> Result<u64, FsFault> {
    let asked = Opening {
        directory: ROOT,
        name,
        share: Share { access: 3, deny: 0 },
        how: new_file(),
    };
    let room = OpenRoom {
        nothing: true,
        cut: true,
        made: true,
    };
    let opened = fs.open_file(&caller(), NOW, asked, false, room)?;
    Ok(opened.number)
}

pub(super) fn write(
    fs: &mut Fs<&mut Disk>,
    number: u64,
    offset: u64,
    bytes: &[u8],
    is_stable: bool,
) -> Result<(), FsFault> {
    let asked = Writing {
        offset,
        bytes,
        is_stable,
    };
    fs.write(&caller(), NOW, number, Ok(()), asked, true)?;
    Ok(())
}

/// Appends the bytes of a file, and whether they were all.
fn read(fs: &mut Fs<&mut Disk>, number: u64, out: &mut Vec<u8>) -> Result<(), Fail> {
    let is_end = fs.read(&caller(), number, Ok(()), 0, 100, out)?;
    out.push(u8::from(is_end))?;
    Ok(())
}

/// The change value of the root after a file is removed.
pub(super) fn remove(fs: &mut Fs<&mut Disk>, name: &[u8]) -> Result<u64, FsFault> {
    let removed = fs.remove(&caller(), NOW, ROOT, name, true)?;
    Ok(removed.after)
}

/// What a file system returns.
#[derive(Drop)]
struct Told {
    numbers: Vec<u64>,
    changes: Vec<u64>,
    bytes: Vec<u8>,
}

/// Each file is made, and four bytes of it are written.
fn make_all(alloc: Global, fs: &mut Fs<&mut Disk>, told: &mut Told) -> Result<(), Fail> {
    for place in 0..FILES {
        let name = format!(in alloc; "f{place}")?;
        let number = make(fs, name.as_bytes())?;
        write(fs, number, 0, &place.to_be_bytes(), true)?;
        told.numbers.push(number)?;
    }
    Ok(())
}

/// Each is read, and written over its end; that is read while it waits for a flush, and after it.
fn use_all(fs: &mut Fs<&mut Disk>, told: &mut Told) -> Result<(), Fail> {
    for number in told.numbers.iter() {
        read(fs, *number, &mut told.bytes)?;
        write(fs, *number, 2, b"more", false)?;
        read(fs, *number, &mut told.bytes)?;
        fs.commit(&caller(), *number, true)?;
        read(fs, *number, &mut told.bytes)?;
    }
    Ok(())
}

fn remove_all(alloc: Global, fs: &mut Fs<&mut Disk>, told: &mut Told) -> Result<(), Fail> {
    for place in 0..FILES {
        let name = format!(in alloc; "f{place}")?;
        told.changes.push(remove(fs, name.as_bytes())?)?;
    }
    Ok(())
}

/// What a file system returns whose journal keeps `cached` sectors.
fn work(alloc: Global, disk: &mut Disk, cached: NonZeroUsize) -> Result<Told, Fail> {
    let mut fs = match Fs::mount_cached(alloc, disk, cached) {
        Ok(fs) => fs,
        Err(refused) => return Err(refused.fault.into()),
    };
    let mut told = Told {
        numbers: Vec::new(alloc),
        changes: Vec::new(alloc),
        bytes: Vec::new(alloc),
    };
    make_all(alloc, &mut fs, &mut told)?;
    use_all(&mut fs, &mut told)?;
    remove_all(alloc, &mut fs, &mut told)?;
    Ok(told)
}

/// What the calls return, and the sectors in the end.
fn worked(alloc: Global, cached: usize) -> Result<(Told, Image), Fail> {
    let mut disk = formatted(alloc, 1_024, 300)?;
    let cached = NonZeroUsize::new(cached).unwrap_or(NonZeroUsize::MIN);
    let told = work(alloc, &mut disk, cached)?;
    Ok((told, image_of(alloc, &mut disk)?))
}

#[test]
fn a_cache_changes_nothing_of_200_files(rt: HostRuntime) -> Result<(), Fail> {
    let (one, sectors) = worked(rt.alloc(), 1)?;
    let (many, others) = worked(rt.alloc(), 64)?;
    // Four bytes, and twice six of them, each time with a byte that says whether the file ends
    // there.
    assert!(rt;
        one.bytes.len() == 19 * FILES as usize,
        "other bytes than were written"
    );
    assert!(rt;
        one.bytes.as_slice() == many.bytes.as_slice(),
        "another byte"
    );
    assert!(rt;
        one.numbers.as_slice() == many.numbers.as_slice(),
        "another file"
    );
    assert!(rt;
        one.changes.as_slice() == many.changes.as_slice(),
        "another change value"
    );
    assert!(rt; sectors.as_slice() == others.as_slice(), "another sector");
    Ok(())
}
