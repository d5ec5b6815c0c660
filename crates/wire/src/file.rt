//! Arguments of the operations on files and their attributes (RFC 8881, section 18).

ghost use Rattle.std.specs.Prelude.{◌≡◌};
ghost use Rattle.xdr.specs.Clauses.{Scans, Wrote};
ghost use Rattle.xdr.specs.Forms.{below};
ghost use Rattle.model.specs.Wire.WireArguments.{close_arguments, commit_arguments, read_arguments, write_arguments, set_attr_arguments};
ghost use Rattle.wire.specs.ArgumentViews.{close_view, commit_view, read_view, stable_number, write_view, set_attr_view};

use crate::small::{ANY_LENGTH, Attributes, StateId};
use xdr::{Reader, Refusal, Writer};

/// `CLOSE4args`: the seqid is ignored.
#[derive(Clone, Copy, PartialEq, Eq)]
pub struct CloseArguments {
    pub seqid: u32,
    pub state: StateId,
}

impl CloseArguments {
    /// Reads them.
    pub fn read(r: &mut Reader<'_>) -> Result<CloseArguments, Refusal>
        ensures { Scans close_view (close_arguments.read) r.old r.new result }
    {
        let mut at = r.fork();
        let seqid = at.read_u32()?;
        let state = StateId::read(&mut at)?;
        *r = at;
        Ok(CloseArguments { seqid, state })
    }
}

/// `COMMIT4args`.
#[derive(Clone, Copy, PartialEq, Eq)]
pub struct CommitArguments {
    pub offset: u64,
    pub count: u32,
}

impl CommitArguments {
    /// Reads them.
    pub fn read(r: &mut Reader<'_>) -> Result<CommitArguments, Refusal>
        ensures { Scans commit_view (commit_arguments.read) r.old r.new result }
    {
        let mut at = r.fork();
        let offset = at.read_u64()?;
        let count = at.read_u32()?;
        *r = at;
        Ok(CommitArguments { offset, count })
    }
}

/// `READ4args`.
#[derive(Clone, Copy, PartialEq, Eq)]
pub struct ReadArguments {
    pub state: StateId,
    pub offset: u64,
    pub count: u32,
}

impl ReadArguments {
    /// Reads them.
    pub fn read(r: &mut Reader<'_>) -> Result<ReadArguments, Refusal>
        ensures { Scans read_view (read_arguments.read) r.old r.new result }
    {
        let mut at = r.fork();
        let state = StateId::read(&mut at)?;
        let offset = at.read_u64()?;
        let count = at.read_u32()?;
        *r = at;
        Ok(ReadArguments {
            state,
            offset,
            count,
        })
    }
}

/// `stable_how4`: what of a WRITE must be on the device before its reply.
#[derive(Clone, Copy, PartialEq, Eq)]
pub enum StableHow {
    /// UNSTABLE4: nothing; the bytes may be lost until the next COMMIT.
    Unstable,
    /// DATA_SYNC4: the bytes, and what of the attributes it takes to find them again.
    DataSync,
    /// FILE_SYNC4: the bytes and all of the file's attributes.
    FileSync,
}

impl StableHow {
    /// Reads it.
    pub fn read(r: &mut Reader<'_>) -> Result<StableHow, Refusal>
        ensures { Scans stable_number ((below 3).read) r.old r.new result }
    {
        let mut at = r.fork();
        let how = match at.read_below(3)? {
            0 => StableHow::Unstable,
            1 => StableHow::DataSync,
            _ => StableHow::FileSync,
        };
        *r = at;
        Ok(how)
    }

    /// Writes it. On an error a prefix of it may have been written.
    pub fn write(self, w: &mut Writer) -> Result<(), Refusal>
        ensures { Wrote w.old w.new result ((below 3).encoding (stable_number self)) }
    {
        w.write_u32(self.number())
    }

    /// Its number on the wire.
    pub fn number(self) -> u32
        ensures { result ≡ stable_number self }
    {
        match self {
            StableHow::Unstable => 0,
            StableHow::DataSync => 1,
            StableHow::FileSync => 2,
        }
    }
}

/// `WRITE4args`.
#[derive(Drop)]
pub struct WriteArguments<'a> {
    pub state: StateId,
    pub offset: u64,
    pub stable: StableHow,
    pub data: &'a [u8],
}

impl<'a> WriteArguments<'a> {
    /// Reads them.
    pub fn read(r: &mut Reader<'a>) -> Result<WriteArguments<'a>, Refusal>
        ensures { Scans write_view (write_arguments.read) r.old r.new result }
    {
        let mut at = r.fork();
        let state = StateId::read(&mut at)?;
        let offset = at.read_u64()?;
        let stable = StableHow::read(&mut at)?;
        let data = at.read_opaque(ANY_LENGTH)?;
        *r = at;
        Ok(WriteArguments {
            state,
            offset,
            stable,
            data,
        })
    }
}

/// `SETATTR4args`.
#[derive(Drop)]
pub struct SetAttrArguments<'a> {
    pub state: StateId,
    pub attributes: Attributes<'a>,
}

impl<'a> SetAttrArguments<'a> {
    /// Reads them.
    pub fn read(r: &mut Reader<'a>) -> Result<SetAttrArguments<'a>, Refusal>
        ensures { Scans set_attr_view (set_attr_arguments.read) r.old r.new result }
    {
        let mut at = r.fork();
        let state = StateId::read(&mut at)?;
        let attributes = Attributes::read(&mut at)?;
        *r = at;
        Ok(SetAttrArguments { state, attributes })
    }
}
