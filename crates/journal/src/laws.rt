//! The laws of a journal: each is the contract of a function that does nothing.

ghost use Rattle.journal.specs.Laws.{CrashLeavesPrefix, EveryMount};

/// Whatever a call returned on a journal that was up before it, also if the device failed in it:
/// what a crash leaves then, and what a mount of the device finds then, is the base from before the
/// call with a prefix of the list from before it.
pub fn every_end()
    ensures stop { CrashLeavesPrefix }
    ensures mount { EveryMount }
{}
