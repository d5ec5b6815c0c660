//! Beginning a run: the volume is brought to the version in which it is served, and its restart count
//! is raised.

ghost use Rattle.std.specs.Prelude.{◌≡◌, ◌≤◌, ◌<◌, ◌⊎◌, IfErr, OnOk, OnErr, IsErrOf, false};
ghost use Rattle.disk.specs.Cause.{IsCounted};
ghost use Rattle.journal.specs.Calls.{IsSafe};
ghost use Rattle.journal.specs.Journal.{log_of, journal_failures};
ghost use Rattle.journal.specs.Log.{MakesAtMost};
ghost use Rattle.layout.specs.Versions.{served};
ghost use Rattle.migration.specs.Plans.{clearing_updates};
ghost use Rattle.model_tree.specs.Seats.SeatViews.{seats_view};
ghost use Rattle.volume.specs.Loads.{HoldsBase, IsLoaded};
ghost use Rattle.volume.specs.Mounts.{IsAtRest, IsVolumeOf};
ghost use Rattle.volume.specs.Starts.{Clears, Counts, HasRewritten, HasStarted, MovesNodes, StartsSafely, is_marked};

use crate::fault::MountFault;
use crate::load::Loaded;
use crate::mount::{Superblock, raise};
use disk::{Device, Update};
use journal::{Journal, JournalFault};
use layout::versions::VersionNumber;
use migration::{MigrationFault, clear, clearing, migrate};
use std::alloc::Global;

/// Writes the commit record again as it is: after a sync that failed the disk may have an older
/// one, and the next flush writes over its log. A replay has just written it too, but that is rare,
/// and one rule for all mounts is simpler.
fn rewrite<D: Device>(journal: &mut Journal<D>) -> Result<(), MigrationFault>
    requires up { (log_of journal.old).is_down ≡ false }
    ensures safe { IsSafe D.keeps_word (log_of journal.old) (log_of journal.new) }
    ensures brief { D.keeps_word → MakesAtMost 2 (log_of journal.old) (log_of journal.new) }
    ensures ok { OnOk result (HasRewritten D.keeps_word (log_of journal.old) (log_of journal.new)) }
    // If it fails
    ensures no_memory { ¬ IsErrOf result MigrationFault.Memory }
    ensures counted { Counts (journal_failures journal.old) (journal_failures journal.new)
        (IsErrOf result MigrationFault.Device) }
{
    journal.rewrite_record()?;
    Ok(())
}

/// Writes the commit record again, and moves the nodes of a volume of version 1 to form two.
fn move_nodes<D: Device>(
    alloc: Global,
    journal: &mut Journal<D>,
    found: Superblock,
    loaded: &Loaded,
) -> Result<(), MigrationFault>
    requires volume { IsVolumeOf (log_of journal.old).size found }
    requires rests { IsAtRest found.version (log_of journal.old) }
    requires loaded { IsLoaded D.keeps_word found (log_of journal.old)
        loaded.now.mark loaded.now.table (seats_view loaded.now.seats) loaded.now.places }
    ensures moves { MovesNodes D.keeps_word found loaded.now.mark
        (log_of journal.old) (log_of journal.new) result }
    // If it fails
    ensures memory { IsErrOf result MigrationFault.Memory
        → log_of journal.new ≡ log_of journal.old }
    ensures later { journal_failures journal.old ≤ journal_failures journal.new }
    ensures cause { IsErrOf result MigrationFault.Device
        → IsCounted (journal_failures journal.old) (journal_failures journal.new) }
    ensures none { (¬ IsErrOf result MigrationFault.Device)
        → journal_failures journal.new ≡ journal_failures journal.old }
{
    match found.version {
        VersionNumber::One => migrate(alloc, journal, &loaded.table, loaded.mark.unwrap_or(0)),
        VersionNumber::Two | VersionNumber::Three(_) => rewrite(journal),
    }
}

/// Whether there is a mark once the nodes have form two.
fn is_marked(version: VersionNumber, mark: Option<u32>) -> bool
    ensures { result ≡ is_marked version mark }
{
    match version {
        VersionNumber::One => true,
        VersionNumber::Two => mark.is_some(),
        VersionNumber::Three(_) => false,
    }
}

/// Removes the mark of a migration, if there is one by the version and the mark that were found.
fn unmark<D: Device>(
    journal: &mut Journal<D>,
    version: VersionNumber,
    mark: Option<u32>,
    updates: Vec<Update>,
) -> Result<(), JournalFault>
    requires rests { IsAtRest (served version) (log_of journal.old) }
    requires room { 148 < (log_of journal.old).size }
    requires clearing { updates.items ≡ clearing_updates }
    ensures clears { Clears D.keeps_word (served version) (is_marked version mark)
        (log_of journal.old) (log_of journal.new) result }
    // If it fails
    ensures later { journal_failures journal.old ≤ journal_failures journal.new }
    ensures cause { OnErr result
        (IsCounted (journal_failures journal.old) (journal_failures journal.new)) }
    ensures none { OnOk result (journal_failures journal.new ≡ journal_failures journal.old) }
{
    if !is_marked(version, mark) {
        return Ok(());
    }
    clear(journal, updates)
}

/// Begins a run on a volume whose nodes were read: writes the commit record again, migrates one of
/// version 1, raises the restart count with the version, and removes the mark. It allocates its
/// memory before it writes.
///
/// # Errors
///
/// Memory, and then nothing was written; Device if the device failed.
pub(crate) fn start<D: Device>(
    alloc: Global,
    journal: &mut Journal<D>,
    found: Superblock,
    loaded: &Loaded,
) -> Result<(), MountFault>
    requires volume { IsVolumeOf (log_of journal.old).size found }
    requires rests { IsAtRest found.version (log_of journal.old) }
    requires base { D.keeps_word → HoldsBase found (log_of journal.old) }
    requires loaded { IsLoaded D.keeps_word found (log_of journal.old)
        loaded.now.mark loaded.now.table (seats_view loaded.now.seats) loaded.now.places }
    ensures safe { D.keeps_word → StartsSafely found loaded.now.mark
        (log_of journal.old) (log_of journal.new) }
    ensures started { OnOk result (HasStarted D.keeps_word found loaded.now.table
        (seats_view loaded.now.seats) (log_of journal.old) (log_of journal.new)) }
    ensures size { (log_of journal.new).size ≡ (log_of journal.old).size }
    // If it fails
    ensures only { IfErr result (λ fault.
        (fault ≡ MountFault.Device) ⊎ (fault ≡ MountFault.Memory)) }
    ensures memory { IsErrOf result MountFault.Memory → log_of journal.new ≡ log_of journal.old }
    ensures counted { Counts (journal_failures journal.old) (journal_failures journal.new)
        (IsErrOf result MountFault.Device) }
{
    let updates = clearing(alloc)?;
    move_nodes(alloc, journal, found, loaded)?;
    if raise(journal, found).is_err() {
        return Err(MountFault::Device);
    }
    if unmark(journal, found.version, loaded.mark, updates).is_err() {
        return Err(MountFault::Device);
    }
    Ok(())
}
