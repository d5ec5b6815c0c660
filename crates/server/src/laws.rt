//! What holds of every run of a server.

ghost use Rattle.server.specs.Headline.{EveryRun, EveryStop, EveryTrace, EveryLife, EveryStamping, EveryFirst, NeverLost, EveryAnswer};
ghost use Rattle.server.specs.LifeLaws.{EveryHeld, EveryTaken, EveryStays, EveryFollows, EveryDead, EveryOnce, EveryRetried, EverySits, EveryStored, EveryAsked, EveryEnded};
ghost use Rattle.server.specs.RunLaws.{HangUpIsCalls, IsBounded, NeverEmpty, OnlyIdle};

/// Whatever bytes arrive on whatever connections, and wherever the server crashes: however often
/// the volume is mounted since, in the same power cycle or after further crashes, and whether those
/// mounts are refused, crash or end, the next mount that serves has the tree that a prefix of the
/// executed operations gives, under a greater restart count. No operation of that prefix is skipped
/// or is there in part; the prefix holds every change and COMMIT whose reply was handed out (except
/// an unstable write), and every change in it was permitted.
///
/// `Server::mount` says that a run begins; `Server::{connect, feed, turn, turn_unflushed, flush,
/// hangup, take_output}` that each call is one of the run, or leaves all as it was; and a mount,
/// served or refused, what it adds to what a crash may leave.
pub fn every_run()
    ensures headline { EveryRun }
    // what a crash leaves is such a tree, and no other
    ensures stop { EveryStop }
    // before the first run there is the empty root, and the first mount that serves has it
    ensures first { EveryFirst }
    // there is a tree between any two runs too, and no mount is refused as Damaged or NotVolume
    ensures never_lost { NeverLost }
    // over every list of calls the world and each result are the definition's
    ensures trace { EveryTrace }
    // runs one after another: each begins with a good tree of the one before, and counts rise
    ensures life { EveryLife }
    // the stamps of a run's changes rise, lost ones too, and from run to run
    ensures stamps { EveryStamping }
    // no operation succeeds that the lists deny to its caller
    ensures answers { EveryAnswer }
    // Idle exactly when there is nothing to do
    ensures idle { OnlyIdle }
    ensures hang_up { HangUpIsCalls }
    // each call makes at most a stated number of writes and syncs
    ensures bounded { IsBounded }
    // and no run claims that a crash leaves nothing
    ensures empty { NeverEmpty }
{}

/// Exactly once over restarts, on sessions that have a seat, over any list of runs that follow one
/// another: a reply that was stored in a seat is held by what a crash leaves until the slot's next
/// reply is, or the seat was freed, and a client asked for that. While something waits for a flush,
/// this holds of the replies that were stored when last nothing did, and each that was taken is one
/// of them. A session of an earlier run gets what its seat holds and runs nothing, so a slot runs a
/// number again only after the 2^32 - 1 others.
pub fn every_life()
    // what was held in a run is held at the crash of each later one
    ensures held { EveryHeld }
    // each reply that was taken is one of those
    ensures taken { EveryTaken }
    // and is given again in each, to whoever asks for it again
    ensures retried { EveryRetried }
    // a seat that a run began with is left as it was, or was freed
    ensures stays { EveryStays }
    // a later run may begin with the seats that a crash leaves
    ensures follows { EveryFollows }
    ensures dead { EveryDead }
    ensures once { EveryOnce }
    // a session has a seat exactly if it was reported as persistent
    ensures sits { EverySits }
    // no reply of a session that has a seat can be taken before the seat holds it
    ensures stored { EveryStored }
    ensures asked { EveryAsked }
    // and a session that ends frees its seat
    ensures ended { EveryEnded }
{}
