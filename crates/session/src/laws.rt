//! The law of the slots over whole runs.

ghost use Rattle.model.specs.Sessions.SessionRuns.{EverySlot};

/// A slot runs its numbers in their order from 1 on, whatever calls are made in one run of the
/// server; so a number runs again only after the 2^32 - 1 others (RFC 8881, section 2.10.6.1).
pub fn every_slot()
    ensures { EverySlot }
{
    model::session::every_slot();
}
