//! The operations of a script's `call`.

ghost use Rattle.std.specs.Prelude.{All, IfOk};
ghost use Rattle.wire_client.specs.ArgumentFits.{ArgumentFits};

use crate::arguments::{
    Mode, Size, closing, committing, handle_bytes, name_bytes, new_directory, opening, reading,
    renaming, setting_mode, setting_size, writing,
};
use crate::line::long_decimal;
use callers::ScriptFault;
use hex::{FromHexError, decode};
use std::alloc::{AllocError, Global};
use system::decimal;
use wire::{Argument, StableHow};

/// An operation of a script.
#[derive(Drop)]
pub enum Operation<'a> {
    /// PUTROOTFH.
    Root,
    /// PUTFH of these bytes.
    PutHandle(Vec<u8>),
    /// LOOKUP of a name.
    Lookup(&'a str),
    /// LOOKUPP.
    Up,
    /// CREATE of a directory of this name and mode.
    MakeDir {
        name: &'a str,
        mode: Mode,
    },
    /// REMOVE of a name.
    Remove(&'a str),
    /// SAVEFH.
    Save,
    /// RESTOREFH.
    Restore,
    /// RENAME of a name in the saved directory, to one in the current directory.
    Rename {
        old_name: &'a str,
        new_name: &'a str,
    },
    /// ACCESS of these bits.
    Access(u32),
    /// GETFH.
    GetHandle,
    /// SETATTR of a mode, and of a size.
    SetMode(Mode),
    SetSize(Size),
    /// OPEN by a name, to read and to write: of a file that may be made, with this mode, or has to
    /// be there.
    CreateFile {
        name: &'a str,
        mode: Mode,
    },
    OpenFile(&'a str),
    /// CLOSE of the current stateid.
    Close,
    /// READ of `count` bytes from an offset on.
    Read {
        offset: u64,
        count: u32,
    },
    /// WRITE of bytes at an offset.
    Write {
        offset: u64,
        stable: StableHow,
        bytes: Vec<u8>,
    },
    /// COMMIT of the whole file.
    Commit,
}

impl Operation<'_> {
    /// Its word, as scripts have it.
    pub fn word(&self) -> &'static str {
        match self {
            Operation::Root => "root",
            Operation::PutHandle(_) => "fh",
            Operation::Lookup(_) => "lookup",
            Operation::Up => "up",
            Operation::MakeDir { .. } => "mkdir",
            Operation::Remove(_) => "remove",
            Operation::Save => "save",
            Operation::Restore => "restore",
            Operation::Rename { .. } => "rename",
            Operation::Access(_) => "access",
            Operation::GetHandle => "getfh",
            Operation::SetMode(_) => "mode",
            Operation::SetSize(_) => "size",
            Operation::CreateFile { .. } => "create",
            Operation::OpenFile(_) => "open",
            Operation::Close => "close",
            Operation::Read { .. } => "read",
            Operation::Write { .. } => "write",
            Operation::Commit => "commit",
        }
    }

    /// Its arguments. Whoever opens a file has this name.
    pub fn argument<'b>(&'b self, owner: &'b str) -> Result<Argument<'b>, ScriptFault>
        ensures { IfOk result ArgumentFits }
    {
        match self {
            Operation::Root => Ok(Argument::PutRootFh),
            Operation::Up => Ok(Argument::LookupParent),
            Operation::Save => Ok(Argument::SaveFh),
            Operation::Restore => Ok(Argument::RestoreFh),
            Operation::GetHandle => Ok(Argument::GetFh),
            Operation::Access(bits) => Ok(Argument::Access(*bits)),
            Operation::Close => Ok(Argument::Close(closing())),
            Operation::Read { offset, count } => Ok(Argument::Read(reading(*offset, *count))),
            Operation::Commit => Ok(Argument::Commit(committing())),
            Operation::SetMode(mode) => Ok(Argument::SetAttr(setting_mode(mode))),
            Operation::SetSize(size) => Ok(Argument::SetAttr(setting_size(size))),
            Operation::CreateFile { .. } | Operation::OpenFile(_) | Operation::Write { .. } => {
                self.file_argument(owner)
            }
            _ => self.named_argument(),
        }
    }

    /// The argument of an operation that has a name or a filehandle.
    fn named_argument(&self) -> Result<Argument<'_>, ScriptFault>
        ensures { IfOk result ArgumentFits }
    {
        match self {
            Operation::PutHandle(handle) => Ok(Argument::PutFh(handle_bytes(handle)?)),
            Operation::Lookup(name) => Ok(Argument::Lookup(name_bytes(name)?)),
            Operation::MakeDir { name, mode } => Ok(Argument::Create(new_directory(name, mode)?)),
            Operation::Remove(name) => Ok(Argument::Remove(name_bytes(name)?)),
            Operation::Rename { old_name, new_name } => {
                Ok(Argument::Rename(renaming(old_name, new_name)?))
            }
            _ => Err(ScriptFault::Script),
        }
    }

    /// The argument of an operation that opens or writes a file.
    fn file_argument<'b>(&'b self, owner: &'b str) -> Result<Argument<'b>, ScriptFault>
        ensures { IfOk result ArgumentFits }
    {
        match self {
            Operation::CreateFile { name, mode } => {
                Ok(Argument::Open(opening(owner, name, Some(mode))?))
            }
            Operation::OpenFile(name) => Ok(Argument::Open(opening(owner, name, None)?)),
            Operation::Write {
                offset,
                stable,
                bytes,
            } => Ok(Argument::Write(writing(*offset, *stable, bytes)?)),
            _ => Err(ScriptFault::Script),
        }
    }
}

/// The arguments of the operations.
pub fn arguments_of<'a>(
    alloc: Global,
    operations: &'a [Operation<'_>],
    owner: &'a str,
) -> Result<Vec<Argument<'a>>, ScriptFault>
    ensures { IfOk result (λ arguments. All ArgumentFits arguments.items) }
{
    let mut arguments = Vec::new(alloc);
    for operation in operations {
        arguments.push(operation.argument(owner)?)?;
    }
    Ok(arguments)
}

/// Reads operations that are separated by `;`; None if one has no form.
pub fn read_operations<'a>(
    alloc: Global,
    words: &[&'a str],
) -> Result<Option<Vec<Operation<'a>>>, AllocError> {
    let mut operations = Vec::new(alloc);
    for operation in words.split(|word| *word == ";") {
        match operation_of(alloc, operation)? {
            Some(operation) => operations.push(operation)?,
            None => return Ok(None),
        }
    }
    Ok(Some(operations))
}

fn operation_of<'a>(alloc: Global, words: &[&'a str]) -> Result<Option<Operation<'a>>, AllocError> {
    match words {
        [verb] => Ok(plain_operation(*verb)),
        [verb, digits] if *verb == "fh" => put_handle(alloc, *digits),
        [verb, name] => Ok(operation_on(*verb, *name)),
        [verb, name, word] => Ok(operation_with(*verb, *name, *word)),
        [verb, offset, how, digits] if *verb == "write" => {
            write_bytes(alloc, *offset, *how, *digits)
        }
        _ => Ok(None),
    }
}

/// The operation of a single word.
fn plain_operation<'a>(verb: &str) -> Option<Operation<'a>> {
    match verb {
        "root" => Some(Operation::Root),
        "up" => Some(Operation::Up),
        "save" => Some(Operation::Save),
        "restore" => Some(Operation::Restore),
        "getfh" => Some(Operation::GetHandle),
        "close" => Some(Operation::Close),
        "commit" => Some(Operation::Commit),
        _ => None,
    }
}

/// The operation of a word and one more word.
fn operation_on<'a>(verb: &str, name: &'a str) -> Option<Operation<'a>> {
    match verb {
        "lookup" => Some(Operation::Lookup(name)),
        "remove" => Some(Operation::Remove(name)),
        "access" => Some(Operation::Access(decimal(name)?)),
        "mode" => Some(Operation::SetMode(Mode::new(octal(name)?))),
        "size" => Some(Operation::SetSize(Size::new(long_decimal(name)?))),
        "open" => Some(Operation::OpenFile(name)),
        _ => None,
    }
}

/// The operation of a word, a name and one more word.
fn operation_with<'a>(verb: &str, name: &'a str, word: &'a str) -> Option<Operation<'a>> {
    match verb {
        "mkdir" => Some(Operation::MakeDir {
            name,
            mode: Mode::new(octal(word)?),
        }),
        "rename" => Some(Operation::Rename {
            old_name: name,
            new_name: word,
        }),
        "create" => Some(Operation::CreateFile {
            name,
            mode: Mode::new(octal(word)?),
        }),
        "read" => Some(Operation::Read {
            offset: long_decimal(name)?,
            count: decimal(word)?,
        }),
        _ => None,
    }
}

/// PUTFH of the bytes that hexadecimal digits encode, two digits each.
fn put_handle<'a>(alloc: Global, digits: &str) -> Result<Option<Operation<'a>>, AllocError> {
    if digits.is_empty() {
        return Ok(None);
    }
    match decode(alloc, digits) {
        Ok(handle) => Ok(Some(Operation::PutHandle(handle))),
        Err(FromHexError::OutOfMemory) => Err(AllocError),
        Err(_) => Ok(None),
    }
}

/// WRITE of the bytes that hexadecimal digits encode, at least one.
fn write_bytes<'a>(
    alloc: Global,
    offset: &str,
    how: &str,
    digits: &str,
) -> Result<Option<Operation<'a>>, AllocError> {
    let (Some(offset), Some(stable)) = (long_decimal(offset), stable_of(how)) else {
        return Ok(None);
    };
    if digits.is_empty() {
        return Ok(None);
    }
    match decode(alloc, digits) {
        Ok(bytes) => Ok(Some(Operation::Write {
            offset,
            stable,
            bytes,
        })),
        Err(FromHexError::OutOfMemory) => Err(AllocError),
        Err(_) => Ok(None),
    }
}

/// `UNSTABLE4` 0, `DATA_SYNC4` 1 or `FILE_SYNC4` 2.
fn stable_of(how: &str) -> Option<StableHow> {
    match decimal(how)? {
        0 => Some(StableHow::Unstable),
        1 => Some(StableHow::DataSync),
        2 => Some(StableHow::FileSync),
        _ => None,
    }
}

/// A number of octal digits only.
fn octal(text: &str) -> Option<u32> {
    if !text.bytes().all(|byte| (b'0'..=b'7').contains(&byte)) {
        return None;
    }
    u32::from_str_radix(text, 8).ok()
}
