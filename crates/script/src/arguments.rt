//! The arguments of a script's operations that set attributes, or are on a file.

ghost use Rattle.std.specs.Prelude.{◌≤◌, length, IfOk};
ghost use Rattle.wire_client.specs.ArgumentFits.{AttributesFit, CreateFits, OpenTypeFits, OpenFits, WriteFits, RenameFits};

use callers::ScriptFault;
use wire::{
    Attributes, Bitmap, Claim, CloseArguments, CommitArguments, CreateArguments, OpenArguments,
    OpenType, Opening, ReadArguments, RenameArguments, SetAttrArguments, StableHow, StateId,
    WriteArguments,
};

/// The stateid of no open (RFC 8881, section 8.2.3).
const ANONYMOUS: StateId = StateId {
    seqid: 0,
    other: [0; 12],
};

/// That of the last OPEN in the same COMPOUND (section 16.2.3.1.2).
const CURRENT: StateId = StateId {
    seqid: 1,
    other: [0; 12],
};

/// `OPEN4_SHARE_ACCESS_BOTH`: to read and to write.
const BOTH: u32 = 3;

/// The most bytes of an owner id, of a client or of an open.
pub(crate) const MAX_OWNER_BYTES: usize = 1024;

/// The most bytes of a name, or that a script writes at once: more than a record has room for.
const MAX_BYTES: usize = 65_536;

/// The most bytes of a filehandle.
const MAX_HANDLE_BYTES: usize = 128;

/// A mode, encoded: the value of attribute 33.
#[derive(Clone, Copy)]
pub struct Mode {
    value: [u8; 4],
}

impl Mode {
    /// The value of this mode.
    pub fn new(mode: u32) -> Mode {
        Mode {
            value: mode.to_be_bytes(),
        }
    }

    /// Only this attribute.
    fn attributes(&self) -> Attributes<'_>
        ensures { AttributesFit result }
    {
        let mut bitmap = Bitmap::new();
        bitmap.push(0);
        bitmap.push(1 << 1);
        Attributes {
            bitmap,
            values: &self.value,
        }
    }
}

/// A size in bytes, encoded: the value of attribute 4.
#[derive(Clone, Copy)]
pub struct Size {
    value: [u8; 8],
}

impl Size {
    /// The value of this size.
    pub fn new(size: u64) -> Size {
        Size {
            value: size.to_be_bytes(),
        }
    }

    /// Only this attribute.
    fn attributes(&self) -> Attributes<'_>
        ensures { AttributesFit result }
    {
        let mut bitmap = Bitmap::new();
        bitmap.push(1 << 4);
        Attributes {
            bitmap,
            values: &self.value,
        }
    }
}

/// SETATTR of a mode.
pub fn setting_mode(mode: &Mode) -> SetAttrArguments<'_>
    ensures { AttributesFit result.attributes }
{
    SetAttrArguments {
        state: ANONYMOUS,
        attributes: mode.attributes(),
    }
}

/// SETATTR of a size, by the anonymous stateid.
pub fn setting_size(size: &Size) -> SetAttrArguments<'_>
    ensures { AttributesFit result.attributes }
{
    SetAttrArguments {
        state: ANONYMOUS,
        attributes: size.attributes(),
    }
}

/// CREATE of a directory (section 18.4).
pub fn new_directory<'a>(name: &'a str, mode: &'a Mode) -> Result<CreateArguments<'a>, ScriptFault>
    ensures { IfOk result CreateFits }
{
    Ok(CreateArguments::NewDirectory {
        name: name_bytes(name)?,
        attributes: mode.attributes(),
    })
}

/// RENAME of a name in the saved directory, to one in the current directory.
pub fn renaming<'a>(
    old_name: &'a str,
    new_name: &'a str,
) -> Result<RenameArguments<'a>, ScriptFault>
    ensures { IfOk result RenameFits }
{
    Ok(RenameArguments {
        old_name: name_bytes(old_name)?,
        new_name: name_bytes(new_name)?,
    })
}

/// OPEN by a name, to read and to write. With a mode the file may be made (`UNCHECKED4`).
pub fn opening<'a>(
    owner: &'a str,
    name: &'a str,
    mode: Option<&'a Mode>,
) -> Result<OpenArguments<'a>, ScriptFault>
    ensures { IfOk result OpenFits }
{
    let owner = owner.as_bytes();
    if owner.len() > MAX_OWNER_BYTES {
        return Err(ScriptFault::Script);
    }
    Ok(OpenArguments {
        seqid: 0,
        access: BOTH,
        deny: 0,
        client: 0,
        owner,
        opening: Opening::Opens {
            how: open_type(mode),
            claim: Claim::ByName(name_bytes(name)?),
        },
    })
}

fn open_type(mode: Option<&Mode>) -> OpenType<'_>
    ensures { OpenTypeFits result }
{
    match mode {
        Some(mode) => OpenType::Unchecked(mode.attributes()),
        None => OpenType::NoCreate,
    }
}

/// CLOSE of the current stateid.
pub fn closing() -> CloseArguments {
    CloseArguments {
        seqid: 0,
        state: CURRENT,
    }
}

/// READ by the anonymous stateid.
pub fn reading(offset: u64, count: u32) -> ReadArguments {
    ReadArguments {
        state: ANONYMOUS,
        offset,
        count,
    }
}

/// WRITE by the anonymous stateid.
pub fn writing(
    offset: u64,
    stable: StableHow,
    data: &[u8],
) -> Result<WriteArguments<'_>, ScriptFault>
    ensures { IfOk result WriteFits }
{
    if data.len() > MAX_BYTES {
        return Err(ScriptFault::Script);
    }
    Ok(WriteArguments {
        state: ANONYMOUS,
        offset,
        stable,
        data,
    })
}

/// COMMIT of the whole file.
pub fn committing() -> CommitArguments {
    CommitArguments {
        offset: 0,
        count: 0,
    }
}

/// The bytes of a name.
pub fn name_bytes(name: &str) -> Result<&[u8], ScriptFault>
    ensures { IfOk result (λ bytes. length bytes.now ≤ MAX_BYTES) }
{
    let bytes = name.as_bytes();
    if bytes.len() > MAX_BYTES {
        return Err(ScriptFault::Script);
    }
    Ok(bytes)
}

/// The bytes of a filehandle.
pub fn handle_bytes(handle: &[u8]) -> Result<&[u8], ScriptFault>
    ensures { IfOk result (λ bytes. length bytes.now ≤ MAX_HANDLE_BYTES) }
{
    if handle.len() > MAX_HANDLE_BYTES {
        return Err(ScriptFault::Script);
    }
    Ok(handle)
}
