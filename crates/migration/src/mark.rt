//! Removing the mark of a migration.

ghost use Rattle.std.specs.Prelude.{◌≡◌, ◌≤◌, ◌<◌, IfOk, IfErr, OnOk, OnErr};
ghost use Rattle.disk.specs.Cause.{IsCounted};
ghost use Rattle.journal.specs.Journal.{log_of, journal_failures};
ghost use Rattle.journal.specs.Log.{IsSettled};
ghost use Rattle.migration.specs.Migrations.{ClearsSafely, HasCleared, Rests, StaysInPlace};
ghost use Rattle.migration.specs.Plans.{clearing_updates};

use crate::commit::commit;
use disk::{Device, Update};
use journal::{Journal, JournalFault};
use layout::places::MARK;
use layout::versions::mark_sector;
use std::alloc::{AllocError, Global};

/// The transaction that removes the mark, made before anything is written.
pub fn clearing(alloc: Global) -> Result<Vec<Update>, AllocError>
    ensures { IfOk result (λ updates. updates.items ≡ clearing_updates) }
{
    let mut updates = Vec::with_capacity(alloc, 1)?;
    updates.push(Update {
        target: MARK,
        content: mark_sector(None),
    })?;
    Ok(updates)
}

/// Removes the mark of a volume of version 2, by that transaction, which is flushed.
///
/// # Errors
///
/// [`JournalFault::Fault`] if the device failed.
pub fn clear<D: Device>(journal: &mut Journal<D>, updates: Vec<Update>) -> Result<(), JournalFault>
    requires rests { Rests (log_of journal.old) }
    requires room { 148 < (log_of journal.old).size }
    requires clearing { updates.items ≡ clearing_updates }
    // The volume holds the tree at each moment
    ensures moments { D.keeps_word → ClearsSafely (log_of journal.old) (log_of journal.new) }
    ensures rests { OnOk result (Rests (log_of journal.new)) }
    ensures ok { D.keeps_word → OnOk result
        (HasCleared (log_of journal.old) (log_of journal.new)) }
    ensures settled { D.keeps_word → OnOk result (IsSettled (log_of journal.new)) }
    ensures place { StaysInPlace (log_of journal.old) (log_of journal.new) }
    // If it fails
    ensures later { journal_failures journal.old ≤ journal_failures journal.new }
    ensures cause { OnErr result
        (IsCounted (journal_failures journal.old) (journal_failures journal.new)) }
    ensures none { OnOk result (journal_failures journal.new ≡ journal_failures journal.old) }
    ensures refuses { IfErr result (λ fault. fault ≡ JournalFault.Fault) }
{
    commit(journal, updates)
}
