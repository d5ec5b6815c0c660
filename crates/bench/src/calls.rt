//! Calls of a file system, made again and again.

use crate::rows::Rows;
use crate::volumes::{
    Directory, NOW, SizedFile, TRANSFER_BYTES, Tree, caller, make_file, mount, name_of, write,
};
use crate::work::{FailedStep, Work};
use fs::{FsFault, Listing, Renaming};
use std::alloc::Global;
use std::fmt;

/// How often a call is made in a turn: even, so that the last rename gives a file its own name.
const CALLS: u64 = 64;
/// How many files are made in a directory and removed.
const MADE: u32 = 4;
/// The bytes of a page that has room for each name of the directory with few files.
const PAGE_BYTES: u32 = 512;

/// A call that is measured.
#[derive(Clone, Copy)]
pub enum Call {
    /// WRITE over the last 8,192 bytes of a file, kept before the call returns or not.
    Write { file: SizedFile, is_stable: bool },
    /// READ of the last 8,192 bytes of a file.
    Read(SizedFile),
    /// LOOKUP of the last file of a directory.
    LookUp(Directory),
    /// RENAME of the last file of a directory within it, and back.
    Rename(Directory),
    /// READDIR of all names of the directory with few files.
    ReadDir,
}

impl fmt::Display for Call {
    fn fmt<W: fmt::Write>(&self, f: &mut fmt::Formatter<W>) -> fmt::Result {
        match self {
            Call::Write { file, is_stable } => {
                let kept = if *is_stable { " and kept" } else { "" };
                let size = file.bytes;
                write!(f, "8192 bytes written{kept} in a file of {size} bytes")
            }
            Call::Read(file) => {
                let size = file.bytes;
                write!(f, "8192 bytes read of a file of {size} bytes")
            }
            Call::LookUp(directory) => {
                let names = directory.files;
                write!(f, "file looked up among {names} names")
            }
            Call::Rename(directory) => {
                let names = directory.files;
                write!(f, "file renamed among {names} names")
            }
            Call::ReadDir => f.write_str("page of 4 names listed"),
        }
    }
}

/// A call on a volume.
#[derive(Drop)]
pub struct Calls {
    pub tree: Tree,
    pub call: Call,
    /// What is read.
    read: Vec<u8>,
}

impl Calls {
    pub fn new(alloc: Global, tree: Tree) -> anyhow::Result<Calls> {
        Ok(Calls {
            tree,
            call: Call::ReadDir,
            read: Vec::with_capacity(alloc, TRANSFER_BYTES)?,
        })
    }

    fn write(&mut self, file: SizedFile, is_stable: bool) -> Result<(), FsFault> {
        let offset = last_offset(file);
        write(
            &mut self.tree.fs,
            file.number,
            offset,
            &self.tree.bytes,
            is_stable,
        )
    }

    fn read(&mut self, file: SizedFile) -> Result<(), FsFault> {
        self.read.clear();
        let offset = last_offset(file);
        let count = TRANSFER_BYTES as u32;
        self.tree.fs.read(
            &caller(),
            file.number,
            Ok(()),
            offset,
            count,
            &mut self.read,
        )?;
        Ok(())
    }

    fn look_up(&self, directory: Directory) -> Result<(), FsFault> {
        let name = name_of(directory.files.saturating_sub(1));
        self.tree.fs.lookup(&caller(), directory.number, &name)?;
        Ok(())
    }

    fn rename(&mut self, directory: Directory, is_back: bool) -> Result<(), FsFault> {
        let own = name_of(directory.files.saturating_sub(1));
        let other = name_of(directory.files);
        let (old_name, new_name) = if is_back { (other, own) } else { (own, other) };
        let asked = Renaming {
            from: directory.number,
            old_name: &old_name,
            to: directory.number,
            new_name: &new_name,
        };
        self.tree.fs.rename(&caller(), NOW, asked, true)?;
        Ok(())
    }

    fn read_dir(&self) -> anyhow::Result<()> {
        let Directory { number, files, .. } = self.tree.few;
        let listing = Listing {
            directory: number,
            cookie: 0,
            verifier: [0; 8],
            max_count: PAGE_BYTES,
            asked: &[],
        };
        let page = self.tree.fs.read_dir(&caller(), listing)?;
        anyhow::ensure!(page.entries.len() == files as usize, "another page");
        Ok(())
    }

    fn call_once(&mut self, i: u64) -> anyhow::Result<()> {
        match self.call {
            Call::Write { file, is_stable } => self.write(file, is_stable)?,
            Call::Read(file) => self.read(file)?,
            Call::LookUp(directory) => self.look_up(directory)?,
            Call::Rename(directory) => self.rename(directory, i % 2 == 1)?,
            Call::ReadDir => self.read_dir()?,
        }
        Ok(())
    }
}

/// The offset of the last 8,192 bytes of a file.
fn last_offset(file: SizedFile) -> u64 {
    file.bytes.saturating_sub(TRANSFER_BYTES as u64)
}

impl Work for Calls {
    fn turn(&mut self) -> anyhow::Result<u64> {
        for i in 0..CALLS {
            self.call_once(i)?;
        }
        Ok(CALLS)
    }
}

/// Makes files of no bytes in a directory; undone, they are removed.
#[derive(Drop)]
pub struct Makes {
    pub tree: Tree,
    pub directory: Directory,
}

impl Work for Makes {
    fn turn(&mut self) -> anyhow::Result<u64> {
        let Directory { number, files, .. } = self.directory;
        for i in 0..MADE {
            make_file(&mut self.tree.fs, number, &name_of(files.saturating_add(i)))?;
        }
        Ok(u64::from(MADE))
    }
}

impl FailedStep for Makes {
    fn undo(&mut self) -> anyhow::Result<u64> {
        let Directory { number, files, .. } = self.directory;
        for i in 0..MADE {
            let name = name_of(files.saturating_add(i));
            self.tree.fs.remove(&caller(), NOW, number, &name, true)?;
        }
        Ok(u64::from(MADE))
    }
}

/// Mounts a volume again and again.
#[derive(Drop)]
pub struct Mounts {
    alloc: Global,
    device: Option<Rows>,
}

impl Mounts {
    pub fn new(alloc: Global, tree: Tree) -> Mounts {
        Mounts {
            alloc,
            device: Some(tree.fs.into_device()),
        }
    }
}

impl Work for Mounts {
    fn turn(&mut self) -> anyhow::Result<u64> {
        let Some(device) = self.device.take() else {
            anyhow::bail!("no device");
        };
        let fs = mount(self.alloc, device)?;
        self.device = Some(fs.into_device());
        Ok(1)
    }
}
