//! Operations and the bytes of files that their caller may not read.

ghost use Rattle.secrecy.specs.Blind.{EachIsBlind, EachAnswersAlike};
ghost use Rattle.secrecy.specs.Onlookers.{EveryRunIsBlind, EveryReplyIsBlind};

/// Each operation has the same result, and leaves the same except for these bytes, whatever they
/// are. So of two trees that differ only in bytes of files without READ_DATA for the caller (RFC
/// 8881, section 6.2.1.3.1) it gives one result.
pub fn every_operation_is_blind()
    ensures blind { EachIsBlind }
    ensures alike { EachAnswersAlike }
{}

/// Over a run too: the replies on connections whose callers may not read these bytes do not depend
/// on them, whatever others do on theirs. Of two worlds that differ in such bytes, in replies on
/// connections of others and in those that sessions of others keep, the same events leave two such
/// worlds. A session belongs to one side: `AreApart` says so of each turn.
pub fn every_run_is_blind()
    ensures worlds { EveryRunIsBlind }
    ensures replies { EveryReplyIsBlind }
{}
