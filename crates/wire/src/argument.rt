//! The operations by their numbers (RFC 8881, section 18).

ghost use Rattle.std.specs.Prelude.{◌≡◌, ◌≢◌, ℕ, List, Err, IfSome, IfNone, is_some};
ghost use Rattle.xdr.specs.Clauses.{Accepts, ReadsBy};
ghost use Rattle.xdr.specs.Laws.{IsBytes};
ghost use Rattle.xdr.specs.declared.refusal.Refusal.TheVariants.{Value};
ghost use Rattle.model.specs.Operations.Operation.{operation_of};
ghost use Rattle.model.specs.Server.Served.{is_served};
ghost use Rattle.model.specs.Wire.WireArguments.{argument, encoded_argument, arguments_at};
ghost use Rattle.wire.specs.Numbers.{number_of};
ghost use Rattle.wire.specs.ArgumentView.{argument_view};

use crate::directory::{CreateArguments, ReadDirArguments, RenameArguments};
use crate::exchange::ExchangeIdArguments;
use crate::file::{
    CloseArguments, CommitArguments, ReadArguments, SetAttrArguments, WriteArguments,
};
use crate::open::OpenArguments;
use crate::session::{CreateSessionArguments, SequenceArguments};
use crate::small::{ANY_LENGTH, Bitmap};
use std::alloc::Global;
use xdr::{Reader, Refusal, Words};

/// The most bytes of a filehandle (NFS4_FHSIZE, RFC 8881, section 3.1).
pub const MAX_HANDLE_BYTES: u32 = 128;

/// The operations that have arguments and results on the wire, with their numbers (`nfs_opnum4`).
#[derive(Clone, Copy, PartialEq, Eq)]
pub enum Operation {
    Access = 3,
    Close = 4,
    Commit = 5,
    Create = 6,
    GetAttr = 9,
    GetFh = 10,
    Lookup = 15,
    LookupParent = 16,
    Open = 18,
    PutFh = 22,
    PutRootFh = 24,
    Read = 25,
    ReadDir = 26,
    Remove = 28,
    Rename = 29,
    RestoreFh = 31,
    SaveFh = 32,
    SetAttr = 34,
    Write = 38,
    ExchangeId = 42,
    CreateSession = 43,
    DestroySession = 44,
    Sequence = 53,
    DestroyClientId = 57,
    ReclaimComplete = 58,
}

impl Operation {
    /// All of them.
    pub const ALL: [Operation; 25] = [
        Operation::Access,
        Operation::Close,
        Operation::Commit,
        Operation::Create,
        Operation::GetAttr,
        Operation::GetFh,
        Operation::Lookup,
        Operation::LookupParent,
        Operation::Open,
        Operation::PutFh,
        Operation::PutRootFh,
        Operation::Read,
        Operation::ReadDir,
        Operation::Remove,
        Operation::Rename,
        Operation::RestoreFh,
        Operation::SaveFh,
        Operation::SetAttr,
        Operation::Write,
        Operation::ExchangeId,
        Operation::CreateSession,
        Operation::DestroySession,
        Operation::Sequence,
        Operation::DestroyClientId,
        Operation::ReclaimComplete,
    ];

    /// The number on the wire.
    pub fn number(self) -> u32
        ensures { result ≡ number_of self }
    {
        self as u32
    }

    /// The operation of this number, if it is one of these.
    #[tactic(auto, unfolding(model::specs::Wire::WireArguments::arguments_at))]
    pub fn from_number(number: u32) -> Option<Operation>
        ensures some { IfSome result (λ operation. number_of operation ≡ number) }
        ensures none { IfNone result ((bytes : List ℕ) → arguments_at number bytes ≡ Err Value) }
        ensures other { IfNone result ((operation : Operation) → number_of operation ≢ number) }
        ensures served { is_some result ≡ is_served number }
    {
        Some(match number {
            3 => Operation::Access,
            4 => Operation::Close,
            5 => Operation::Commit,
            6 => Operation::Create,
            9 => Operation::GetAttr,
            10 => Operation::GetFh,
            15 => Operation::Lookup,
            16 => Operation::LookupParent,
            18 => Operation::Open,
            22 => Operation::PutFh,
            24 => Operation::PutRootFh,
            25 => Operation::Read,
            26 => Operation::ReadDir,
            28 => Operation::Remove,
            29 => Operation::Rename,
            31 => Operation::RestoreFh,
            32 => Operation::SaveFh,
            34 => Operation::SetAttr,
            38 => Operation::Write,
            42 => Operation::ExchangeId,
            43 => Operation::CreateSession,
            44 => Operation::DestroySession,
            53 => Operation::Sequence,
            57 => Operation::DestroyClientId,
            58 => Operation::ReclaimComplete,
            _ => return None,
        })
    }
}

/// An operation with its arguments (`nfs_argop4`).
#[derive(Drop)]
pub enum Argument<'a> {
    Access(u32),
    Close(CloseArguments),
    Commit(CommitArguments),
    Create(CreateArguments<'a>),
    GetAttr(Bitmap),
    GetFh,
    Lookup(&'a [u8]),
    LookupParent,
    Open(OpenArguments<'a>),
    PutFh(&'a [u8]),
    PutRootFh,
    Read(ReadArguments),
    ReadDir(ReadDirArguments),
    Remove(&'a [u8]),
    Rename(RenameArguments<'a>),
    RestoreFh,
    SaveFh,
    SetAttr(SetAttrArguments<'a>),
    Write(WriteArguments<'a>),
    ExchangeId(ExchangeIdArguments<'a>),
    CreateSession(CreateSessionArguments<'a>),
    DestroySession([u8; 16]),
    Sequence(SequenceArguments),
    DestroyClientId(u64),
    ReclaimComplete(bool),
}

impl<'a> Argument<'a> {
    /// Which operation it is.
    pub fn operation(&self) -> Operation
        ensures number { number_of result ≡ operation_of (argument_view self.now) }
        ensures told { number_of result ≡ (encoded_argument (argument_view self.now)).number }
    {
        match self {
            Argument::Access(_) => Operation::Access,
            Argument::Close(_) => Operation::Close,
            Argument::Commit(_) => Operation::Commit,
            Argument::Create(_) => Operation::Create,
            Argument::GetAttr(_) => Operation::GetAttr,
            Argument::GetFh => Operation::GetFh,
            Argument::Lookup(_) => Operation::Lookup,
            Argument::LookupParent => Operation::LookupParent,
            Argument::Open(_) => Operation::Open,
            Argument::PutFh(_) => Operation::PutFh,
            Argument::PutRootFh => Operation::PutRootFh,
            Argument::Read(_) => Operation::Read,
            Argument::ReadDir(_) => Operation::ReadDir,
            Argument::Remove(_) => Operation::Remove,
            Argument::Rename(_) => Operation::Rename,
            Argument::RestoreFh => Operation::RestoreFh,
            Argument::SaveFh => Operation::SaveFh,
            Argument::SetAttr(_) => Operation::SetAttr,
            Argument::Write(_) => Operation::Write,
            Argument::ExchangeId(_) => Operation::ExchangeId,
            Argument::CreateSession(_) => Operation::CreateSession,
            Argument::DestroySession(_) => Operation::DestroySession,
            Argument::Sequence(_) => Operation::Sequence,
            Argument::DestroyClientId(_) => Operation::DestroyClientId,
            Argument::ReclaimComplete(_) => Operation::ReclaimComplete,
        }
    }

    /// Reads the arguments after an operation's number.
    #[tactic(auto, unfolding(model::specs::Wire::WireArguments::arguments_at))]
    pub fn read(
        alloc: Global,
        operation: Operation,
        r: &mut Reader<'a>,
    ) -> Result<Argument<'a>, Refusal>
        ensures { ReadsBy argument_view (arguments_at (number_of operation)) r.old r.new result }
    {
        let mut at = r.fork();
        let argument = match operation {
            Operation::Access => Argument::Access(at.read_u32()?),
            Operation::Close => Argument::Close(CloseArguments::read(&mut at)?),
            Operation::Commit => Argument::Commit(CommitArguments::read(&mut at)?),
            Operation::Create => Argument::Create(CreateArguments::read(&mut at)?),
            Operation::GetAttr => Argument::GetAttr(Words::read(&mut at)?),
            Operation::GetFh => Argument::GetFh,
            Operation::Lookup => Argument::Lookup(at.read_opaque(ANY_LENGTH)?),
            Operation::LookupParent => Argument::LookupParent,
            Operation::Open => Argument::Open(OpenArguments::read(&mut at)?),
            Operation::PutFh => Argument::PutFh(at.read_opaque(MAX_HANDLE_BYTES)?),
            Operation::PutRootFh => Argument::PutRootFh,
            Operation::Read => Argument::Read(ReadArguments::read(&mut at)?),
            Operation::ReadDir => Argument::ReadDir(ReadDirArguments::read(&mut at)?),
            Operation::Remove => Argument::Remove(at.read_opaque(ANY_LENGTH)?),
            Operation::Rename => Argument::Rename(RenameArguments::read(&mut at)?),
            Operation::RestoreFh => Argument::RestoreFh,
            Operation::SaveFh => Argument::SaveFh,
            Operation::SetAttr => Argument::SetAttr(SetAttrArguments::read(&mut at)?),
            Operation::Write => Argument::Write(WriteArguments::read(&mut at)?),
            Operation::ExchangeId => Argument::ExchangeId(ExchangeIdArguments::read(&mut at)?),
            Operation::CreateSession => Argument::CreateSession(CreateSessionArguments::read(
                alloc, &mut at,
            )?),
            Operation::DestroySession => Argument::DestroySession(at.read_array()?),
            Operation::Sequence => Argument::Sequence(SequenceArguments::read(&mut at)?),
            Operation::DestroyClientId => Argument::DestroyClientId(at.read_u64()?),
            Operation::ReclaimComplete => Argument::ReclaimComplete(at.read_bool()?),
        };
        *r = at;
        Ok(argument)
    }

    /// Reads an operation's number and its arguments.
    ///
    /// What is read is exactly its encoding; an error other than `Memory` is returned only if no
    /// prefix of the bytes is one.
    #[tactic(auto, using(crate::proofs::ExactArguments::argument_accepted))]
    pub fn read_numbered(alloc: Global, r: &mut Reader<'a>) -> Result<Argument<'a>, Refusal>
        ensures accepts { Accepts argument_view argument r.old r.new result }
        ensures reads { ReadsBy argument_view (argument.read) r.old r.new result }
    {
        Argument::numbered(alloc, r)
    }

    fn numbered(alloc: Global, r: &mut Reader<'a>) -> Result<Argument<'a>, Refusal>
        ensures reads { ReadsBy argument_view (argument.read) r.old r.new result }
        ensures bytes { IsBytes r.old }
    {
        let mut at = r.fork();
        let number = at.read_u32()?;
        let Some(operation) = Operation::from_number(number) else {
            return Err(Refusal::Value);
        };
        let argument = Argument::read(alloc, operation, &mut at)?;
        *r = at;
        Ok(argument)
    }
}
