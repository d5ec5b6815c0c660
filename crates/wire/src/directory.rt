//! Arguments of the operations on directories (RFC 8881, section 18).

ghost use Rattle.xdr.specs.Clauses.{Scans};
ghost use Rattle.model.specs.Wire.WireArguments.{read_dir_arguments, rename_arguments, create_arguments};
ghost use Rattle.wire.specs.ArgumentViews.{read_dir_view, rename_view, create_view};

use crate::small::{ANY_LENGTH, Attributes, Bitmap};
use xdr::{Reader, Refusal, Words};

/// `READDIR4args`.
#[derive(Drop)]
pub struct ReadDirArguments {
    pub cookie: u64,
    pub verifier: [u8; 8],
    pub dir_count: u32,
    pub max_count: u32,
    pub bitmap: Bitmap,
}

impl ReadDirArguments {
    /// Reads them.
    pub fn read(r: &mut Reader<'_>) -> Result<ReadDirArguments, Refusal>
        ensures { Scans read_dir_view (read_dir_arguments.read) r.old r.new result }
    {
        let mut at = r.fork();
        let cookie = at.read_u64()?;
        let verifier = at.read_array()?;
        let dir_count = at.read_u32()?;
        let max_count = at.read_u32()?;
        let bitmap = Words::read(&mut at)?;
        *r = at;
        Ok(ReadDirArguments {
            cookie,
            verifier,
            dir_count,
            max_count,
            bitmap,
        })
    }
}

/// `RENAME4args`.
#[derive(Drop)]
pub struct RenameArguments<'a> {
    pub old_name: &'a [u8],
    pub new_name: &'a [u8],
}

impl<'a> RenameArguments<'a> {
    /// Reads them.
    pub fn read(r: &mut Reader<'a>) -> Result<RenameArguments<'a>, Refusal>
        ensures { Scans rename_view (rename_arguments.read) r.old r.new result }
    {
        let mut at = r.fork();
        let old_name = at.read_opaque(ANY_LENGTH)?;
        let new_name = at.read_opaque(ANY_LENGTH)?;
        *r = at;
        Ok(RenameArguments { old_name, new_name })
    }
}

/// The number of NF4DIR among the types of `nfs_ftype4`.
const DIRECTORY: u32 = 2;

/// `CREATE4args`: of a type other than NF4DIR nothing that follows is read.
#[derive(Drop)]
pub enum CreateArguments<'a> {
    NewDirectory {
        name: &'a [u8],
        attributes: Attributes<'a>,
    },
    OtherType(u32),
}

impl<'a> CreateArguments<'a> {
    /// Reads them.
    pub fn read(r: &mut Reader<'a>) -> Result<CreateArguments<'a>, Refusal>
        ensures { Scans create_view (create_arguments.read) r.old r.new result }
    {
        let mut at = r.fork();
        let number = at.read_u32()?;
        if number != DIRECTORY {
            *r = at;
            return Ok(CreateArguments::OtherType(number));
        }
        let name = at.read_opaque(ANY_LENGTH)?;
        let attributes = Attributes::read(&mut at)?;
        *r = at;
        Ok(CreateArguments::NewDirectory { name, attributes })
    }
}
