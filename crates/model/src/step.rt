//! The laws of one operation: each is the contract of a function that does nothing.

ghost use Rattle.model.specs.Examples.FileExamples.{FileExamples};
ghost use Rattle.model.specs.Sessions.OpensLaws.{EveryStepKeepsOpens};
ghost use Rattle.model.specs.Operations.PageLaws.{EveryPage};
ghost use Rattle.model.specs.Examples.RightsExamples.{RightsExamples};
ghost use Rattle.model.specs.Sessions.StateIdLaws.{NewestIsFound, LowerIsOld, JoinedIsOld, NotOwnIsBad, OtherRunIsBad, EndedIsBad, OpenAnswersNewest, EveryOpenGoesOn};
ghost use Rattle.model.specs.Examples.StepExamples.{StepExamples};
ghost use Rattle.model.specs.Operations.StepLaws.{EveryStepIsLawful, RunsBeginSound};

/// Operations worked out by hand.
pub fn examples()
    ensures { StepExamples }
{}

/// Listing, attributes, opens, reading and writing worked out by hand.
pub fn file_examples()
    ensures { FileExamples }
{}

/// A caller that lacks a right which an operation needs gets ACCESS, for each right of each
/// operation.
pub fn rights()
    ensures { RightsExamples }
{}

/// Every change is permitted, a refusal changes nothing, and a well-formed tree stays one.
pub fn every_step()
    ensures { EveryStepIsLawful }
{}

/// Opens name files of the tree and have serials that were given once, and there are not more than
/// the limit.
pub fn every_step_keeps_opens()
    ensures { EveryStepKeepsOpens }
{}

/// A page of READDIR has the first entries after the cookie, as many as fit into its encoding, and
/// reports the end exactly if no entry is left.
pub fn every_page()
    ensures { EveryPage }
{}

/// Each run begins with a well-formed tree whose stamps are from before its own.
pub fn every_run_begins()
    ensures { RunsBeginSound }
{}

/// What a stateid that OPEN returned means from then on. The newest names its open; once a later
/// OPEN joins the open it is OLD_STATEID; for another client, on another file, in another run and
/// once the open has ended it is BAD_STATEID.
pub fn every_stateid()
    ensures newest { NewestIsFound }
    ensures old { LowerIsOld }
    ensures joined { JoinedIsOld }
    ensures not_own { NotOwnIsBad }
    ensures other_run { OtherRunIsBad }
    ensures ended { EndedIsBad }
{}

/// OPEN returns the newest stateid; an operation leaves an open as it is, joins it by an OPEN, or
/// ends it by a CLOSE, a REMOVE or a RENAME, and none that has ended comes back.
pub fn every_open_goes_on()
    ensures answers { OpenAnswersNewest }
    ensures goes_on { EveryOpenGoesOn }
{}
