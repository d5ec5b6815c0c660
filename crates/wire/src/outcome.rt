//! Results of a COMPOUND (RFC 8881, section 18).

ghost use Rattle.std.specs.Prelude.{◌≡◌, OnErr};
ghost use Rattle.xdr.specs.Clauses.{Wrote};
ghost use Rattle.model.specs.Wire.WireAnswers.{encoded_answer, behind_refusal, outcome};
ghost use Rattle.wire.specs.Numbers.{number_of};
ghost use Rattle.wire.specs.OutcomeView.{answer_view, outcome_view, done_text, refused_text};

use crate::answers::{
    AccessAnswer, CreateAnswer, CreateSessionAnswer, ExchangeIdAnswer, OpenAnswer, ReadAnswer,
    ReadDirAnswer, RenameAnswer, SequenceAnswer, WriteAnswer,
};
use crate::argument::Operation;
use crate::small::{Attributes, Bitmap, ChangeInfo, StateId};
use model_tree::status::Status;
use xdr::{Refusal, Writer};

/// The result of an operation whose status is OK.
#[derive(Drop)]
pub enum Answer<'a> {
    Access(AccessAnswer),
    Close(StateId),
    Commit([u8; 8]),
    Create(CreateAnswer),
    GetAttr(Attributes<'a>),
    GetFh(&'a [u8]),
    Lookup,
    LookupParent,
    Open(OpenAnswer),
    PutFh,
    PutRootFh,
    Read(ReadAnswer<'a>),
    ReadDir(ReadDirAnswer<'a>),
    Remove(ChangeInfo),
    Rename(RenameAnswer),
    RestoreFh,
    SaveFh,
    SetAttr(Bitmap),
    Write(WriteAnswer),
    ExchangeId(ExchangeIdAnswer<'a>),
    CreateSession(CreateSessionAnswer),
    DestroySession,
    Sequence(SequenceAnswer),
    DestroyClientId,
    ReclaimComplete,
}

impl Answer<'_> {
    /// The operation whose result it is.
    pub fn operation(&self) -> Operation
        ensures { number_of result ≡ (encoded_answer (answer_view self.now)).number }
    {
        match self {
            Answer::Access(_) => Operation::Access,
            Answer::Close(_) => Operation::Close,
            Answer::Commit(_) => Operation::Commit,
            Answer::Create(_) => Operation::Create,
            Answer::GetAttr(_) => Operation::GetAttr,
            Answer::GetFh(_) => Operation::GetFh,
            Answer::Lookup => Operation::Lookup,
            Answer::LookupParent => Operation::LookupParent,
            Answer::Open(_) => Operation::Open,
            Answer::PutFh => Operation::PutFh,
            Answer::PutRootFh => Operation::PutRootFh,
            Answer::Read(_) => Operation::Read,
            Answer::ReadDir(_) => Operation::ReadDir,
            Answer::Remove(_) => Operation::Remove,
            Answer::Rename(_) => Operation::Rename,
            Answer::RestoreFh => Operation::RestoreFh,
            Answer::SaveFh => Operation::SaveFh,
            Answer::SetAttr(_) => Operation::SetAttr,
            Answer::Write(_) => Operation::Write,
            Answer::ExchangeId(_) => Operation::ExchangeId,
            Answer::CreateSession(_) => Operation::CreateSession,
            Answer::DestroySession => Operation::DestroySession,
            Answer::Sequence(_) => Operation::Sequence,
            Answer::DestroyClientId => Operation::DestroyClientId,
            Answer::ReclaimComplete => Operation::ReclaimComplete,
        }
    }

    /// Writes the values after the status. On an error a prefix of them may have been written.
    #[tactic(auto, using(xdr::proofs::Writing::wrote_nothing))]
    fn write(&self, w: &mut Writer) -> Result<(), Refusal>
        requires { (encoded_answer (answer_view self.now)).Fits }
        ensures { Wrote w.old w.new result ((encoded_answer (answer_view self.now)).text) }
    {
        match self {
            Answer::Access(a) => a.write(w),
            Answer::Close(a) => a.write(w),
            Answer::Commit(a) => w.write_fixed(a),
            Answer::Create(a) => a.write(w),
            Answer::GetAttr(a) => a.write(w),
            Answer::GetFh(a) => w.write_opaque(a),
            Answer::Open(a) => a.write(w),
            Answer::Read(a) => a.write(w),
            Answer::ReadDir(a) => a.write(w),
            Answer::Remove(a) => a.write(w),
            Answer::Rename(a) => a.write(w),
            Answer::SetAttr(a) => a.write(w),
            Answer::Write(a) => a.write(w),
            Answer::ExchangeId(a) => a.write(w),
            Answer::CreateSession(a) => a.write(w),
            Answer::Sequence(a) => a.write(w),
            Answer::Lookup
            | Answer::LookupParent
            | Answer::PutFh
            | Answer::PutRootFh
            | Answer::RestoreFh
            | Answer::SaveFh
            | Answer::DestroySession
            | Answer::DestroyClientId
            | Answer::ReclaimComplete => Ok(()),
        }
    }
}

/// A result of an operation (`nfs_resop4`).
#[derive(Drop)]
pub enum Outcome<'a> {
    Done(Answer<'a>),
    /// The status is not OK. The number is that of the operation, or 10044 if the operation is none
    /// (section 15.2).
    Refused { operation: u32, status: Status },
}

impl Outcome<'_> {
    /// Writes the number, the status and what follows it.
    pub fn write(&self, w: &mut Writer) -> Result<(), Refusal>
        requires { outcome.Fits (outcome_view self.now) }
        ensures wrote { Wrote w.old w.new result (outcome.encoding (outcome_view self.now)) }
        ensures err { OnErr result (w.new.bytes ≡ w.old.bytes) }
    {
        let mark = w.len();
        let result = self.write_parts(w);
        w.undo(mark, result)
    }

    fn write_parts(&self, w: &mut Writer) -> Result<(), Refusal>
        requires { outcome.Fits (outcome_view self.now) }
        ensures { Wrote w.old w.new result (outcome.encoding (outcome_view self.now)) }
    {
        match self {
            Outcome::Done(answer) => write_done(answer, w),
            Outcome::Refused { operation, status } => write_refused(*operation, *status, w),
        }
    }
}

fn write_done(answer: &Answer<'_>, w: &mut Writer) -> Result<(), Refusal>
    requires { (encoded_answer (answer_view answer.now)).Fits }
    ensures { Wrote w.old w.new result (done_text (answer_view answer.now)) }
{
    w.write_u32(answer.operation().number())?;
    w.write_u32(0)?;
    answer.write(w)
}

fn write_refused(operation: u32, status: Status, w: &mut Writer) -> Result<(), Refusal>
    ensures { Wrote w.old w.new result (refused_text operation status) }
{
    w.write_u32(operation)?;
    w.write_u32(status.code())?;
    write_behind_refusal(operation, w)
}

/// After the status of a failed SETATTR there is an empty bitmap (RFC 8881, section 18.30).
#[tactic(auto, using(xdr::proofs::Writing::wrote_nothing))]
fn write_behind_refusal(operation: u32, w: &mut Writer) -> Result<(), Refusal>
    ensures { Wrote w.old w.new result (behind_refusal operation) }
{
    if operation == Operation::SetAttr.number() {
        w.write_u32(0)
    } else {
        Ok(())
    }
}
