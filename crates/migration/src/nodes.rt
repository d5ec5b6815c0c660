//! Moving the nodes of a volume to form two.

ghost use Rattle.std.specs.Prelude.{◌≡◌, ◌≤◌, ◌+◌, length, OnOk, IsErrOf};
ghost use Rattle.disk.specs.Cause.{IsCounted};
ghost use Rattle.disk.specs.Moments.{moment};
ghost use Rattle.journal.specs.Journal.{log_of, journal_failures};
ghost use Rattle.migration.specs.Migrations.{HasMovedAll, MovesSafely, Rests, StaysInPlace};
ghost use Rattle.migration.specs.Plans.{FitSecond};

use crate::commit::commit_all;
use crate::fault::MigrationFault;
use crate::plan::plan;
use disk::Device;
use journal::Journal;
use node_table::Table;
use std::alloc::Global;

/// Moves the nodes of a volume of version 1 to form two, from the place that its mark gives, by
/// flushed transactions of 47 places and the mark. All memory is allocated first. Then the commit
/// record is written again, since a flush overwrites its log.
///
/// # Errors
///
/// [`MigrationFault::Memory`], and then nothing was written; [`MigrationFault::Device`] if the
/// device failed.
pub fn migrate<D: Device>(
    alloc: Global,
    journal: &mut Journal<D>,
    table: &Table,
    moved: u32,
) -> Result<(), MigrationFault>
    // Nothing is pending in the journal, and the nodes have room on the device and in form two
    requires rests { Rests (log_of journal.old) }
    requires room { 148 + length table.now ≤ (log_of journal.old).size }
    requires within { moved ≤ length table.now }
    requires fit { FitSecond table.now }
    // The volume holds the tree at each moment
    ensures moments { D.keeps_word
        → MovesSafely moved table.now (log_of journal.old) (log_of journal.new) }
    ensures rests { OnOk result (Rests (log_of journal.new)) }
    ensures ok { D.keeps_word → OnOk result
        (HasMovedAll moved table.now (log_of journal.old) (log_of journal.new)) }
    ensures steps { D.keeps_word → OnOk result (moment (log_of journal.old).history + 2
        ≤ moment (log_of journal.new).history) }
    ensures place { StaysInPlace (log_of journal.old) (log_of journal.new) }
    // If it fails
    ensures memory { IsErrOf result MigrationFault.Memory
        → log_of journal.new ≡ log_of journal.old }
    ensures later { journal_failures journal.old ≤ journal_failures journal.new }
    ensures cause { IsErrOf result MigrationFault.Device
        → IsCounted (journal_failures journal.old) (journal_failures journal.new) }
    ensures none { (¬ IsErrOf result MigrationFault.Device)
        → journal_failures journal.new ≡ journal_failures journal.old }
{
    let transactions = plan(alloc, table, moved)?;
    journal.rewrite_record()?;
    commit_all(journal, transactions)?;
    Ok(())
}
