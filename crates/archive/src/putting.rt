//! Putting files and directories into an empty volume, by the calls of a client.
//!
//! A call sets the time of what it changes to its own moment, so each is made at the moment that
//! the node is to show: what is made in a directory at the directory's, a file's bytes and size at
//! the file's. A directory gets a name and loses it at its moment before anything is made in it.

ghost use Rattle.std.specs.Prelude.{◌≤◌, length};
ghost use Rattle.fs.specs.Opening.{type_of};
ghost use Rattle.model.specs.Operations.Open.{given_by};

use crate::attributes::{Encoded, Wanted};
use crate::fault::{ArchiveFault, Reason, StepFault};
use crate::filling::fault_at;
use crate::path::split_last;
use crate::shelf::Shelf;
use acl_eval::{Cred, Gids};
use disk::FileDevice;
use fs::{Fs, How, Listing, NewDirectory, OpenRoom, Opening, Setting, Share, Unmounted, Writing};
use model_tree::node::ROOT;
use std::alloc::Global;
use std::collections::BTreeMap;
use std::io::Read;
use tar::Stream;
use wire_attributes::GivenAttributes;

/// The most bytes of one write.
const TRANSFER: usize = 8_192;

/// The name that a directory gets and loses.
const TOUCH: &[u8] = b".nfs41d put";

/// What a directory gets that an archive has no header of.
const IMPLICIT: Wanted = Wanted {
    owner: 0,
    group: 0,
    mode: 0o755,
    acl: None,
    time: 0,
};

/// The room of the reply to a listing of one name, in bytes.
const LISTING_BYTES: u32 = 4_096;

/// The reply to an OPEN, of whatever kind, has room.
const ROOM: OpenRoom = OpenRoom {
    nothing: true,
    cut: true,
    made: true,
};

/// A volume that is filled.
#[derive(Drop)]
pub(crate) struct Putting {
    alloc: Global,
    fs: Fs<Shelf>,
    /// By path.
    directories: BTreeMap<Vec<u8>, Directory>,
}

/// A directory that was put.
#[derive(Drop)]
struct Directory {
    number: u64,
    /// None if the archive has no header of it so far.
    wanted: Option<Wanted>,
}

impl Directory {
    /// The moment of what is made in it.
    fn moment(&self, default: u64) -> u64 {
        match &self.wanted {
            Some(wanted) => wanted.time,
            None => default,
        }
    }
}

/// The user by whose rights everything is put.
fn caller() -> Cred {
    Cred {
        uid: 0,
        gid: 0,
        gids: Gids::new(),
    }
}

impl Putting {
    /// Mounts the volume.
    ///
    /// # Errors
    /// Mount; NotEmpty; Path: Access.
    pub(crate) fn new(alloc: Global, file: FileDevice) -> Result<Putting, ArchiveFault> {
        let fs = match Fs::mount(alloc, Shelf::to_fill(file)) {
            Ok(fs) => fs,
            Err(Unmounted { fault, device: _ }) => return Err(fault.into()),
        };
        if !is_empty(&fs).map_err(|fault| fault_at(alloc, fault, b"/"))? {
            return Err(ArchiveFault::NotEmpty);
        }
        let mut directories = BTreeMap::new(alloc);
        let root = Directory {
            number: ROOT,
            wanted: None,
        };
        directories.insert(Vec::new(alloc), root)?;
        Ok(Putting {
            alloc,
            fs,
            directories,
        })
    }

    /// Puts a directory; of one that is there, sets what it is to have.
    pub(crate) fn put_directory(&mut self, key: &[u8], wanted: Wanted) -> Result<(), StepFault> {
        self.make_directories(key, wanted.time)?;
        let Some(directory) = self.directories.get_mut(key) else {
            return Err(StepFault::Reason(Reason::NoEntry));
        };
        touch(&mut self.fs, self.alloc, directory.number, wanted.time)?;
        directory.wanted = Some(wanted);
        Ok(())
    }

    /// Makes the directories of a path that are not there.
    fn make_directories(&mut self, key: &[u8], time: u64) -> Result<(), StepFault> {
        for (end, byte) in key.iter().enumerate() {
            if *byte == b'/' {
                self.make_directory(&key[..end], time)?;
            }
        }
        self.make_directory(key, time)
    }

    /// Makes a directory if it is not there; the one that is to hold it is.
    fn make_directory(&mut self, key: &[u8], time: u64) -> Result<(), StepFault> {
        if self.directories.contains_key(key) {
            return Ok(());
        }
        let (parent_key, name) = split_last(key);
        let Some(parent) = self.directories.get(parent_key) else {
            return Err(StepFault::Reason(Reason::NoEntry));
        };
        let moment = parent.moment(time);
        let encoded = Encoded::owner_only(self.alloc)?;
        let asked = new_directory(parent.number, name, encoded.bitmap(), encoded.values());
        let number = self.fs.make_dir(&caller(), moment, asked, true)?.number;
        let made = Directory {
            number,
            wanted: None,
        };
        self.directories
            .insert(Vec::from_slice(self.alloc, key)?, made)?;
        Ok(())
    }

    /// Whether a file may have this size.
    pub(crate) fn may_have(&self, size: u64) -> bool {
        size <= self.fs.limits().file_bytes as u64
    }

    /// Puts a file, whose bytes come from the stream.
    pub(crate) fn put_file<R: Read + Drop>(
        &mut self,
        key: &[u8],
        wanted: Wanted,
        stream: &mut Stream<R>,
    ) -> Result<(), StepFault> {
        let (parent_key, name) = split_last(key);
        self.make_directories(parent_key, wanted.time)?;
        let Some(parent) = self.directories.get(parent_key) else {
            return Err(StepFault::Reason(Reason::NoEntry));
        };
        let moment = parent.moment(wanted.time);
        let number = make_file(&mut self.fs, self.alloc, parent.number, name, moment)?;
        let size = write_bytes(&mut self.fs, number, wanted.time, stream)?;
        settle(&mut self.fs, self.alloc, number, Some(size), &wanted)
    }

    /// Gives the directories what they are to have, and syncs the file.
    pub(crate) fn finish(self) -> Result<(), ArchiveFault> {
        let Putting {
            alloc,
            mut fs,
            directories,
        } = self;
        for (key, directory) in directories {
            let outcome = finish_directory(&mut fs, alloc, directory);
            outcome.map_err(|fault| fault_at(alloc, fault, &key))?;
        }
        if fs.checkpoint().is_err() || !fs.into_device().finish() {
            return Err(ArchiveFault::Device);
        }
        Ok(())
    }
}

/// Whether the root has no name.
fn is_empty(fs: &Fs<Shelf>) -> Result<bool, StepFault> {
    let listing = Listing {
        directory: ROOT,
        cookie: 0,
        verifier: [0; 8],
        max_count: LISTING_BYTES,
        asked: &[],
    };
    Ok(fs.read_dir(&caller(), listing)?.entries.is_empty())
}

/// The request to make a directory.
fn new_directory<'a>(
    parent: u64,
    name: &'a [u8],
    bitmap: &'a [u32],
    values: &'a [u8],
) -> NewDirectory<'a>
    requires { length bitmap.now ≤ 8 }
    ensures { length result.attributes.bitmap.now ≤ 8 }
{
    let attributes = GivenAttributes { bitmap, values };
    NewDirectory {
        parent,
        name,
        attributes,
    }
}

/// The request to make a file and open it for writing.
fn new_file<'a>(directory: u64, name: &'a [u8], bitmap: &'a [u32], values: &'a [u8]) -> Opening<'a>
    requires { length bitmap.now ≤ 8 }
    ensures { length (given_by (type_of result.how)).bitmap ≤ 8 }
{
    let attributes = GivenAttributes { bitmap, values };
    let how = How::Guarded(attributes);
    Opening {
        directory,
        name,
        share: Share { access: 2, deny: 0 },
        how,
    }
}

fn make_file(
    fs: &mut Fs<Shelf>,
    alloc: Global,
    directory: u64,
    name: &[u8],
    moment: u64,
) -> Result<u64, StepFault> {
    let encoded = Encoded::owner_only(alloc)?;
    let asked = new_file(directory, name, encoded.bitmap(), encoded.values());
    Ok(fs.open_file(&caller(), moment, asked, false, ROOM)?.number)
}

/// Writes the bytes of a stream's file. Returns how many there are.
fn write_bytes<R: Read + Drop>(
    fs: &mut Fs<Shelf>,
    number: u64,
    moment: u64,
    stream: &mut Stream<R>,
) -> Result<u64, StepFault> {
    let mut room = [0; TRANSFER];
    let mut offset = 0u64;
    for _ in 0..u64::MAX {
        let count = stream.read(&mut room)?;
        if count == 0 {
            break;
        }
        let asked = Writing {
            offset,
            bytes: &room[..count.min(TRANSFER)],
            is_stable: false,
        };
        fs.write(&caller(), moment, number, Ok(()), asked, true)?;
        offset = offset.saturating_add(count as u64);
    }
    Ok(offset)
}

/// Gives a node what it is to have, except the time of a directory. A file gets its size too, which
/// sets its time.
fn settle(
    fs: &mut Fs<Shelf>,
    alloc: Global,
    number: u64,
    size: Option<u64>,
    wanted: &Wanted,
) -> Result<(), StepFault> {
    let encoded = Encoded::of(alloc, size, wanted)?;
    let asked = Setting {
        number,
        verdict: Ok(()),
        attributes: GivenAttributes {
            bitmap: encoded.bitmap(),
            values: encoded.values(),
        },
    };
    Ok(fs.set_attributes(&caller(), wanted.time, asked, true)?)
}

fn finish_directory(
    fs: &mut Fs<Shelf>,
    alloc: Global,
    directory: Directory,
) -> Result<(), StepFault> {
    let Directory { number, wanted } = directory;
    match wanted {
        Some(wanted) => settle(fs, alloc, number, None, &wanted),
        // The root keeps what it had.
        None if number == ROOT => Ok(()),
        None => settle(fs, alloc, number, None, &IMPLICIT),
    }
}

/// Sets the time of a directory.
fn touch(fs: &mut Fs<Shelf>, alloc: Global, number: u64, moment: u64) -> Result<(), StepFault> {
    make_file(fs, alloc, number, TOUCH, moment)?;
    fs.remove(&caller(), moment, number, TOUCH, true)?;
    Ok(())
}
