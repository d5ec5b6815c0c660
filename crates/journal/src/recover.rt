//! What a mount does to a device before anything else.

ghost use Rattle.std.specs.Prelude.{◌≡◌, ◌≤◌, ◌<◌, ◌+◌, ◌^◌, ℕ, List, [], OnOk, IsErrOf, length, vec_capacity};
ghost use Rattle.disk.specs.Moments.{History, AddsOnly, seen, synced};
ghost use Rattle.journal.specs.Layout.{AreNamed, IsArea, NamesTargets, area_end, copies, gate, targets};
ghost use Rattle.journal.specs.Recorded.{HasRoom};
ghost use Rattle.journal.specs.Settled.{SettlesAs};
ghost use Rattle.journal.specs.Phase.{AddsAtMost, FailsCounted};
ghost use Rattle.journal.specs.Recover.{Recovers, Replays, LeavesOnlySynced, IsClosed, WritesNothing, FaultsCounted};

use crate::layout::LogArea;
use crate::recorded::Recorded;
use crate::{JournalFault, commit, gate, layout};
use disk::{Device, DiskFault, SECTOR, Update};

/// Syncs, since contents of an earlier run may still be unsynced, and then copies home what a
/// commit record that is set names. If that succeeds, nothing is recorded any more.
pub(crate) fn recover<D: Device>(
    device: &mut D,
    area: LogArea,
    recorded: &mut Recorded,
) -> Result<(), JournalFault>
    requires area { IsArea area }
    requires large { area_end area ≤ D.size device.old }
    requires empty { (recorded.old.updates.items ≡ []) × (recorded.old.index.entries.items ≡ []) }
    requires room { (area.sectors ≤ vec_capacity recorded.old.targets)
        × (area.sectors ≤ vec_capacity recorded.old.updates)
        × (area.sectors ≤ vec_capacity recorded.old.index.entries) }
    // On a device that keeps its word
    ensures moments { D.keeps_word
        → AddsOnly (SettlesAs area (seen (D.history device.old).now))
        (D.history device.old) (D.history device.new) }
    ensures brief { D.keeps_word → AddsAtMost (area.sectors + 6)
        (D.history device.old) (D.history device.new) }
    ensures ok { D.keeps_word → OnOk result
        (Recovers area (D.history device.old) (D.history device.new)) }
    ensures closed { D.keeps_word → IsClosed (D.history device.old)
        → WritesNothing (D.history device.old) (D.history device.new) result }
    ensures damaged { D.keeps_word → IsErrOf result JournalFault.Damaged
        → LeavesOnlySynced area (D.history device.old) (D.history device.new) }
    // On any device
    ensures none { OnOk result
        ((recorded.new.targets.items ≡ []) × (recorded.new.updates.items ≡ [])) }
    ensures room { OnOk result (HasRoom area recorded.new) }
    ensures size { D.size device.new ≡ D.size device.old }
    ensures failures { FaultsCounted (D.failed device.old) (D.failed device.new) result }
{
    device.sync()?;
    replay(device, area, recorded)
}

/// Copies home what a commit record that is set names, if nothing is unsynced since a sync just
/// before.
fn replay<D: Device>(
    device: &mut D,
    area: LogArea,
    recorded: &mut Recorded,
) -> Result<(), JournalFault>
    requires area { IsArea area }
    requires large { area_end area ≤ D.size device.old }
    requires empty { (recorded.old.updates.items ≡ []) × (recorded.old.index.entries.items ≡ []) }
    requires room { (area.sectors ≤ vec_capacity recorded.old.targets)
        × (area.sectors ≤ vec_capacity recorded.old.updates)
        × (area.sectors ≤ vec_capacity recorded.old.index.entries) }
    // On a device that keeps its word
    ensures replays { D.keeps_word → (before : History) → D.history device.old ≡ synced before
        → Replays area before (D.history device.new) result }
    // On any device
    ensures none { OnOk result
        ((recorded.new.targets.items ≡ []) × (recorded.new.updates.items ≡ [])) }
    ensures room { OnOk result (HasRoom area recorded.new) }
    ensures size { D.size device.new ≡ D.size device.old }
    ensures failures { FaultsCounted (D.failed device.old) (D.failed device.new) result }
{
    read_gate(device, area, &mut recorded.targets)?;
    if recorded.targets.is_empty() {
        return Ok(());
    }
    // the disk may have an older one: a sync may have failed before this mount
    commit::rewrite(device, area, &recorded.targets)?;
    read_payload(device, area, &recorded.targets, &mut recorded.updates)?;
    // the index goes with the updates
    recorded.index.put_all(0, &recorded.updates);
    commit::close(device, area, recorded)?;
    Ok(())
}

/// Reads the commit record: if it has a form, `named` holds what it names.
pub(crate) fn read_gate<D: Device>(
    device: &mut D,
    area: LogArea,
    named: &mut Vec<u32>,
) -> Result<(), JournalFault>
    requires area { IsArea area }
    requires large { area_end area ≤ D.size device.old }
    requires room { area.sectors ≤ vec_capacity named.old }
    ensures named { OnOk result ((length named.new.items ≤ area.sectors)
        × AreNamed area named.new.items) }
    ensures gate_is { D.keeps_word
        → OnOk result (seen (D.history device.old).now 1 ≡ gate named.new.items) }
    ensures capacity { vec_capacity named.new ≡ vec_capacity named.old }
    // The device is read
    ensures reads { (D.history device.new ≡ D.history device.old)
        × (D.size device.new ≡ D.size device.old) }
    ensures small { area.end < 2 ^ 32 }
    // If it fails
    ensures damaged { D.keeps_word → IsErrOf result JournalFault.Damaged → (to : List ℕ)
        → ¬ NamesTargets area (seen (D.history device.old).now 1) to }
    ensures failures { FaultsCounted (D.failed device.old) (D.failed device.new) result }
{
    let mut sector = [0; SECTOR];
    device.read(layout::GATE, &mut sector)?;
    if !gate::decode(&sector, area, named) {
        return Err(JournalFault::Damaged);
    }
    Ok(())
}

/// Reads what the payload has for these targets.
fn read_payload<D: Device>(
    device: &mut D,
    area: LogArea,
    to: &[u32],
    updates: &mut Vec<Update>,
) -> Result<(), DiskFault>
    requires area { IsArea area }
    requires large { area_end area ≤ D.size device.old }
    requires few { length to.now ≤ area.sectors }
    requires empty { updates.old.items ≡ [] }
    requires room { area.sectors ≤ vec_capacity updates.old }
    ensures ok { D.keeps_word → OnOk result
        (copies (seen (D.history device.old).now) area.first to.now ≡ updates.new.items) }
    ensures named { OnOk result (targets updates.new.items ≡ to.now) }
    ensures capacity { vec_capacity updates.new ≡ vec_capacity updates.old }
    // The device is read
    ensures reads { (D.history device.new ≡ D.history device.old)
        × (D.size device.new ≡ D.size device.old) }
    ensures failures { FailsCounted (D.failed device.old) (D.failed device.new) result }
{
    let mut content = [0; SECTOR];
    for (i, target) in to.iter().enumerate() {
        device.read(area.first + i as u32, &mut content)?;
        updates.push_reserved(Update {
            target: *target,
            content,
        });
    }
    Ok(())
}
