//! The statuses by their numbers (RFC 8881, section 15.1).

ghost use Rattle.std.specs.Prelude.{◌≡◌, ◌==◌, find};
ghost use Rattle.model_tree.specs.Refusals.Status.{code_of};
ghost use Rattle.model.specs.Wire.WireAnswers.{refusal_of};

use model_tree::status::Status;

// Every status but OK, by rising number.
const REFUSALS: [Status; 44] = [
    Status::NoEnt,
    Status::Access,
    Status::Exist,
    Status::NotDir,
    Status::IsDir,
    Status::Inval,
    Status::FBig,
    Status::NoSpc,
    Status::NameTooLong,
    Status::NotEmpty,
    Status::Stale,
    Status::BadHandle,
    Status::NotSupp,
    Status::TooSmall,
    Status::ServerFault,
    Status::BadType,
    Status::Delay,
    Status::ShareDenied,
    Status::ClidInUse,
    Status::NoFileHandle,
    Status::MinorVersMismatch,
    Status::StaleClientId,
    Status::OldStateId,
    Status::BadStateId,
    Status::NotSame,
    Status::AttrNotSupp,
    Status::BadXdr,
    Status::OpenMode,
    Status::BadOwner,
    Status::BadChar,
    Status::BadName,
    Status::OpIllegal,
    Status::BadSession,
    Status::BadSlot,
    Status::CompleteAlready,
    Status::SeqMisordered,
    Status::SequencePos,
    Status::RepTooBig,
    Status::TooManyOps,
    Status::OpNotInSession,
    Status::ClientIdBusy,
    Status::SeqFalseRetry,
    Status::DeadSession,
    Status::NotOnlyOp,
];

/// The status of this number, except OK.
pub(crate) fn refusal_of_number(number: u32) -> Option<Status>
    ensures { result ≡ refusal_of number }
{
    coded_so(&REFUSALS, number)
}

// The first of these that has this number.
fn coded_so(statuses: &[Status], number: u32) -> Option<Status>
    ensures { result ≡ find (λ status. code_of status == number) statuses.now }
{
    statuses
        .iter()
        .copied()
        .find(|status| status.code() == number)
}
