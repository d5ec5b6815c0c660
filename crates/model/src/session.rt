//! Client records, sessions and slots (RFC 8881, section 2.10): their law over whole runs.

ghost use Rattle.model.specs.Sessions.KeptReplies.{KeepsShort};
ghost use Rattle.model.specs.Sessions.OpenClients.{EveryOpenHasClient};
ghost use Rattle.model.specs.Sessions.SessionRuns.{EverySlot};
ghost use Rattle.model.specs.Sessions.SessionTables.{EveryCallGivesNew, EveryTable};
ghost use Rattle.model.specs.Sessions.SlotsHeld.{EveryRunningSlot};

/// A slot runs its numbers in their order from 1 on, whatever calls are made in one run of the
/// server; so a number runs again only after the 2^32 - 1 others (RFC 8881, section 2.10.6.1).
pub fn every_slot()
    ensures { EverySlot }
{}

/// Whatever calls are made in one run of the server: an owner id has at most one confirmed and one
/// unconfirmed record, ids differ, and the tables are within their limits.
pub fn every_table()
    ensures { EveryTable }
{}

/// No client id and no session's serial is given twice in a run.
pub fn every_id_is_new()
    ensures { EveryCallGivesNew }
{}

/// Whatever events come, a kept result has at most 12 bytes less than the record of an OK reply may
/// have.
pub fn kept_replies_are_short()
    ensures { KeepsShort }
{}

/// At each moment of every run of the server: a slot runs a request exactly if one connection is
/// busy on it.
pub fn every_running_slot()
    ensures { EveryRunningSlot }
{}

/// At each moment of every run of the server: each open and each session is of a client that has a
/// confirmed record, and a request that has begun runs in a session of its client. So no open
/// outlives its client.
pub fn every_open_has_client()
    ensures { EveryOpenHasClient }
{}
