//! A volume that is measured, and what is on it.

ghost use Rattle.std.specs.Prelude.{◌≤◌, length};

use crate::rows::Rows;
use acl_eval::{Cred, Gids};
use fs::{Fs, FsFault, How, NewDirectory, OpenRoom, Opening, Share, Writing};
use std::alloc::Global;
use wire_attributes::GivenAttributes;

/// The bytes of a WRITE and of a READ.
pub const TRANSFER_BYTES: usize = 8_192;
/// The files of the directory with few of them.
const FEW_FILES: u32 = 4;

/// The time of every change.
pub const NOW: u64 = 5;
/// The attribute mode, and its value 755.
const MODE: [u32; 2] = [0, 2];

const MODE_755: [u8; 4] = [0, 0, 1, 0xED];
/// The root.
const ROOT: u64 = 1;

/// A volume, and what is on it beside the directory with few files.
#[derive(Clone, Copy)]
pub struct Shape {
    pub sectors: u32,
    pub nodes: u32,
    /// Directories, and the files of each, of 8,192 bytes.
    pub directories: u32,
    pub files: u32,
    /// The bytes of one long file, in transfers; 0 is no such file.
    pub long_transfers: u32,
}

/// A volume with nothing else on it.
pub const SMALL: Shape = Shape {
    sectors: 256,
    nodes: 16,
    directories: 0,
    files: 0,
    long_transfers: 0,
};

/// The largest volume, with full directories, which have room for what is made in them, and a file
/// as long as any may be.
pub const LARGE: Shape = Shape {
    sectors: 65_536,
    nodes: 16_000,
    directories: 14,
    files: 1_020,
    long_transfers: 2_048,
};

/// A volume that has all that the large one has, with a directory that files are made in until it
/// is full.
pub const SAMPLE: Shape = Shape {
    sectors: 4_800,
    nodes: 1_100,
    directories: 1,
    files: 1_020,
    long_transfers: 2,
};

/// A directory, with files that are named by the numbers from 0 on.
#[derive(Clone, Copy)]
pub struct Directory {
    pub number: u64,
    pub files: u32,
    pub last_file: u64,
}

/// A file, and how many bytes it has.
#[derive(Clone, Copy)]
pub struct SizedFile {
    pub number: u64,
    pub bytes: u64,
}

/// The name of this number: four letters.
pub fn name_of(number: u32) -> [u8; 4] {
    [
        b'n',
        letter(number / 256),
        letter(number / 16),
        letter(number),
    ]
}

/// One of sixteen letters.
fn letter(number: u32) -> u8 {
    b'a' + (number % 16) as u8
}

/// The one user, who owns all that is made.
pub fn caller() -> Cred {
    Cred {
        uid: 7,
        gid: 7,
        gids: Gids::new(),
    }
}

fn attributes() -> GivenAttributes<'static>
    ensures { length result.bitmap.now ≤ 8 }
{
    GivenAttributes {
        bitmap: &MODE,
        values: &MODE_755,
    }
}

fn make_directory(fs: &mut Fs<Rows>, parent: u64, name: &[u8]) -> Result<u64, FsFault> {
    let asked = NewDirectory {
        parent,
        name,
        attributes: attributes(),
    };
    Ok(fs.make_dir(&caller(), NOW, asked, true)?.number)
}

/// Makes a file of no bytes, kept before the call returns.
pub fn make_file(fs: &mut Fs<Rows>, directory: u64, name: &[u8]) -> Result<u64, FsFault> {
    let asked = Opening {
        directory,
        name,
        share: Share { access: 3, deny: 0 },
        how: How::Guarded(attributes()),
    };
    let room = OpenRoom {
        nothing: true,
        cut: true,
        made: true,
    };
    Ok(fs.open_file(&caller(), NOW, asked, false, room)?.number)
}

/// Writes these bytes, kept before the call returns or not.
pub fn write(
    fs: &mut Fs<Rows>,
    number: u64,
    offset: u64,
    bytes: &[u8],
    is_stable: bool,
) -> Result<(), FsFault> {
    let asked = Writing {
        offset,
        bytes,
        is_stable,
    };
    fs.write(&caller(), NOW, number, Ok(()), asked, true)?;
    Ok(())
}

/// Makes a directory of the root with `files` files.
fn fill(fs: &mut Fs<Rows>, name: u32, files: u32, bytes: &[u8]) -> Result<Directory, FsFault> {
    let number = make_directory(fs, ROOT, &name_of(name))?;
    let mut last_file = number;
    for i in 0..files {
        last_file = make_file(fs, number, &name_of(i))?;
        write(fs, last_file, 0, bytes, false)?;
    }
    Ok(Directory {
        number,
        files,
        last_file,
    })
}

/// Makes the directories of a shape, and returns the last.
fn fill_many(fs: &mut Fs<Rows>, shape: Shape, bytes: &[u8]) -> Result<Option<Directory>, FsFault> {
    let mut last = None;
    for i in 0..shape.directories {
        let name = i.saturating_add(1);
        last = Some(fill(fs, name, shape.files, bytes)?);
    }
    Ok(last)
}

/// Makes a file of the root of `transfers` transfers, if it is to have any.
fn fill_long(
    fs: &mut Fs<Rows>,
    transfers: u32,
    bytes: &[u8],
) -> Result<Option<SizedFile>, FsFault> {
    if transfers == 0 {
        return Ok(None);
    }
    let number = make_file(fs, ROOT, b"long")?;
    let mut end = 0u64;
    for _ in 0..transfers {
        write(fs, number, end, bytes, false)?;
        end = end.saturating_add(bytes.len() as u64);
    }
    Ok(Some(SizedFile { number, bytes: end }))
}

pub fn mount(alloc: Global, device: Rows) -> anyhow::Result<Fs<Rows>> {
    match Fs::mount(alloc, device) {
        Ok(fs) => Ok(fs),
        Err(refused) => anyhow::bail!("not mounted: {}", refused.fault),
    }
}

/// A mounted volume, and what is measured on it.
#[derive(Drop)]
pub struct Tree {
    pub fs: Fs<Rows>,
    pub few: Directory,
    /// A full directory.
    pub many: Option<Directory>,
    pub short: SizedFile,
    pub long: Option<SizedFile>,
    /// What is written.
    pub bytes: Vec<u8>,
}

impl Tree {
    /// A new volume of this shape on the device, mounted and filled.
    pub fn new(alloc: Global, device: Rows, shape: Shape) -> anyhow::Result<Tree> {
        let mut device = device;
        Fs::format(alloc, &mut device, shape.nodes)?;
        let mut fs = mount(alloc, device)?;
        let bytes = Vec::from_elem(alloc, 7, TRANSFER_BYTES)?;
        let few = fill(&mut fs, 0, FEW_FILES, &bytes)?;
        let many = fill_many(&mut fs, shape, &bytes)?;
        let long = fill_long(&mut fs, shape.long_transfers, &bytes)?;
        let short = SizedFile {
            number: few.last_file,
            bytes: TRANSFER_BYTES as u64,
        };
        Ok(Tree {
            fs,
            few,
            many,
            short,
            long,
            bytes,
        })
    }
}
