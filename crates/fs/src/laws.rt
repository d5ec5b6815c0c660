//! The laws of a file system: each is the contract of a function that does nothing.

ghost use Rattle.fs.specs.Verdicts.{OnlyPossible, EachIsGot, EachSettingIsMeant, EachWriteIsMeant, VerdictExamples};

/// The verdict of the opens on a stateid is no refusal, or BAD_STATEID, OLD_STATEID or OPENMODE,
/// and each of these in some state. So a READ, WRITE or SETATTR that is given one is an operation
/// of some state, and what is promised of the call is promised of such an operation.
pub fn verdicts()
    ensures only { OnlyPossible }
    ensures each { EachIsGot }
    ensures writes { EachWriteIsMeant }
    ensures sets { EachSettingIsMeant }
    ensures examples { VerdictExamples }
{}
