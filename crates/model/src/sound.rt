//! The tree stays well formed and nobody is given what he may not have, whatever happens.

ghost use Rattle.model.specs.Server.AnswerRuns.{EveryAnswerIsPermitted};
ghost use Rattle.model.specs.Sessions.OpensLaws.{EveryRunKeepsOpens};
ghost use Rattle.model.specs.Server.SoundRuns.{EveryTreeIsSound};
ghost use Rattle.model.specs.Server.StampRuns.{EveryStampIsGiven};
ghost use Rattle.model.specs.Server.World.{ServerLimits};

/// Whatever bytes arrive on whatever connections, and whenever the server crashes: the tree that a
/// crash may leave is well formed, and no later run gives one of its stamps again.
pub fn every_tree()
    ensures { (limits : ServerLimits) → EveryTreeIsSound limits }
{}

/// At each moment of a run each open names a file of the tree and has a serial that was given once,
/// and there are not more than the limit.
pub fn every_run_keeps_opens()
    ensures { EveryRunKeepsOpens }
{}

/// Nobody is given what the lists deny him: whatever was answered OK, a reading as well as a
/// change, was permitted to its caller by the lists of the tree that it was answered from.
pub fn every_answer_is_permitted()
    ensures { EveryAnswerIsPermitted }
{}

/// In every run, each change gives the next stamp of that run to all that it makes or alters, and
/// to nothing else: also one that a crash takes away, and the one under way.
pub fn every_stamp_is_given()
    ensures { EveryStampIsGiven }
{}
