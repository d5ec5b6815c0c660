//! The headline: what users of the server can rely on when it crashes.

ghost use Rattle.model.specs.Server.RuledOut.{NoSkip, NoEarlyReply, NoTakingBack, NoReplyAlone, NoSecondRun, NoForgetting, NoGap, OneATurn, EndsByHolding, HangsUpLast, HangUpIsEvents, EachEventHappens};
ghost use Rattle.model.specs.Server.Runs.{EveryRun, EveryHeldIsKept, EveryStamp};
ghost use Rattle.model.specs.Sessions.SeatRuns.{EveryReplyIsHeld, EveryTakenIsSettled, EverySeatStays, EveryRunCanFollow, EveryDeadSession, EveryNumberOnce, EveryReplyStaysHeld, EveryReplyIsStored, EverySessionSits, EveryFreeingIsAsked};
ghost use Rattle.model.specs.Server.ServedOnce.{EveryServedSlot};
ghost use Rattle.model.specs.Sessions.StateIdRuns.{EveryOtherRunRefuses, EveryStateIdGoesOn, JoinsAreCounted};

/// Whatever bytes arrive on whatever connections, and whenever the server crashes: the tree that a
/// crash may leave is the one that a prefix of the executed operations gives. None of them is
/// skipped and none is there in part; the prefix has every change and COMMIT whose reply was handed
/// out (apart from unstable writes), and every change in it was permitted.
pub fn every_run()
    ensures { EveryRun }
{}

/// What the definitions rule out: a prefix that skips an unstable write, a reply before its change
/// is kept, a change that is taken away and put back, a held reply without its change, a retry that
/// runs again, a reply that is forgotten, a slot that takes a number other than the next, a turn
/// that runs more than one operation, and a hang-up that drops the rest of a request.
pub fn ruled_out()
    ensures skip { NoSkip }
    ensures early { NoEarlyReply }
    ensures back { NoTakingBack }
    ensures alone { NoReplyAlone }
    ensures twice { NoSecondRun }
    ensures kept { NoForgetting }
    ensures gap { NoGap }
    ensures one { OneATurn }
    ensures holding { EndsByHolding }
    ensures hang_up { HangsUpLast }
    ensures events { HangUpIsEvents }
{}

/// What they allow: from each state of a server that is up, each event happens, as in a server that
/// flushes every change at once; while something waits no reply is taken. So the headline speaks of
/// every list of events.
pub fn each_event_happens()
    ensures { EachEventHappens }
{}

/// In every run of the server, the numbers of the SEQUENCE operations that a slot ran are 1, 2, 3
/// and so on: one of them runs again only after the 2^32 - 1 others, whatever came, on whatever
/// connections (RFC 8881, section 2.10.6.1).
pub fn every_served_slot()
    ensures { EveryServedSlot }
{}

/// In every run the stamps of its changes rise, of those that a crash takes away and of the one
/// under way too.
pub fn every_stamp()
    ensures { EveryStamp }
{}

/// From the moment on at which an OPEN returns a stateid, at each later moment of the run: its open
/// is as the OPENs that joined it since have made it, or it has ended and never comes back. The
/// stateid names the open until one joins it, is OLD_STATEID after that until seqids begin again at
/// 1, and BAD_STATEID for another client, on another file and once the open has ended; in every
/// other run it is BAD_STATEID.
pub fn every_stateid_goes_on()
    ensures goes_on { EveryStateIdGoesOn }
    ensures joins { JoinsAreCounted }
    ensures other_run { EveryOtherRunRefuses }
{}

/// Exactly once over restarts, on sessions that have a seat, over any list of runs and crashes. A
/// reply that was stored is held until the next of its slot is or its seat is freed, together with
/// a tree that has what it names. While something waits for a flush, this holds of the replies that
/// were stored when last nothing did, and each that was taken is one of them. A session of an
/// earlier run gets what its seat holds, and runs nothing; so a slot runs a number again only after
/// the 2^32 - 1 others.
pub fn every_life()
    ensures held { EveryReplyIsHeld }
    ensures taken { EveryTakenIsSettled }
    ensures stays { EverySeatStays }
    ensures follows { EveryRunCanFollow }
    ensures dead { EveryDeadSession }
    ensures once { EveryNumberOnce }
    ensures still_held { EveryReplyStaysHeld }
    ensures sits { EverySessionSits }
    ensures stored { EveryReplyIsStored }
    ensures asked { EveryFreeingIsAsked }
    ensures kept { EveryHeldIsKept }
{}
