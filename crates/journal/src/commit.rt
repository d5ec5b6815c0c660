//! How a transaction goes through the commit record: it is recorded behind what the record names,
//! and copied home only if a later one has no room there.

ghost use Rattle.std.specs.Prelude.{OnOk, ◌≡◌, ◌≤◌, ◌<◌, ◌++◌, ◌+◌, ◌*◌, [], length, vec_capacity};
ghost use Rattle.disk.specs.Moments.{seen};
ghost use Rattle.journal.specs.Layout.{IsArea, area_end, targets, through};
ghost use Rattle.journal.specs.Behind.{FitsGate, way_for};
ghost use Rattle.journal.specs.Recorded.{FitsRecorded, HasRoom, IsStored};
ghost use Rattle.journal.specs.Phase.{AddsAtMost, IsGated, FailsCounted};
ghost use Rattle.journal.specs.Commit.{AddsEither, FitsPayload, IsRecorded, KeepsShown, IsCopiedHome, MakesWay, IsCommitted, KeepsRoom, rewritten};

use crate::layout::{GATE, LogArea};
use crate::recorded::Recorded;
use crate::{gate, phase};
use disk::{Device, DiskFault, Update};

/// Commits updates: the commit record names them afterwards, by themselves or after what it named.
/// Recording them too is left to the caller.
pub(crate) fn commit<D: Device>(
    device: &mut D,
    area: LogArea,
    recorded: &mut Recorded,
    to: &[u32],
    updates: &[Update],
) -> Result<(), DiskFault>
    requires area { IsArea area }
    requires taken { FitsPayload area to.now updates.now }
    requires fits { FitsRecorded area recorded.old }
    requires large { area_end area ≤ D.size device.old }
    // On a device that keeps its word
    ensures moments { D.keeps_word → IsStored area recorded.old (D.history device.old)
        → AddsEither area updates.now
        (through area recorded.old.targets.items (seen (D.history device.old).now))
        (D.history device.old) (D.history device.new) }
    ensures brief { D.keeps_word → AddsAtMost (2 * (area.sectors + 3))
        (D.history device.old) (D.history device.new) }
    ensures ok { D.keeps_word → IsStored area recorded.old (D.history device.old)
        → OnOk result (IsCommitted area updates.now
        recorded.old.targets.items recorded.new.targets.items recorded.new.updates.items
        (D.history device.old) (D.history device.new)) }
    // On any device
    ensures shown { OnOk result
        ((recorded.new.targets.items
        ≡ way_for area recorded.old.targets.items to.now ++ to.now)
        × (targets recorded.new.updates.items
        ≡ way_for area recorded.old.targets.items to.now)) }
    ensures kept { HasRoom area recorded.new }
    ensures size { D.size device.new ≡ D.size device.old }
    ensures failures { FailsCounted (D.failed device.old) (D.failed device.new) result }
{
    make_way(device, area, recorded, to)?;
    write_commit_record(device, area, &mut recorded.targets, to, updates)?;
    Ok(())
}

/// If more targets do not go behind what the commit record names, copies that home and clears the
/// record.
pub(crate) fn make_way<D: Device>(
    device: &mut D,
    area: LogArea,
    recorded: &mut Recorded,
    to: &[u32],
) -> Result<(), DiskFault>
    requires area { IsArea area }
    requires few { length to.now ≤ area.sectors }
    requires fits { FitsRecorded area recorded.old }
    requires large { area_end area ≤ D.size device.old }
    // On a device that keeps its word
    ensures moments { D.keeps_word → IsStored area recorded.old (D.history device.old)
        → KeepsShown area recorded.old.targets.items
        (D.history device.old) (D.history device.new) }
    ensures brief { D.keeps_word → AddsAtMost (area.sectors + 3)
        (D.history device.old) (D.history device.new) }
    ensures ok { D.keeps_word → IsStored area recorded.old (D.history device.old)
        → OnOk result (MakesWay area to.now
        recorded.old.targets.items recorded.new.targets.items
        (D.history device.old) (D.history device.new)) }
    ensures stored { D.keeps_word → IsStored area recorded.old (D.history device.old)
        → OnOk result (IsStored area recorded.new (D.history device.new)) }
    // On any device
    ensures shown { OnOk result
        ((recorded.new.targets.items ≡ way_for area recorded.old.targets.items to.now)
        × (targets recorded.new.updates.items ≡ recorded.new.targets.items)) }
    ensures kept { HasRoom area recorded.new }
    ensures size { D.size device.new ≡ D.size device.old }
    ensures failures { FailsCounted (D.failed device.old) (D.failed device.new) result }
{
    if gate::goes_behind(&recorded.targets, area, to) {
        return Ok(());
    }
    close(device, area, recorded)?;
    Ok(())
}

/// Copies home what the commit record names, and clears it. Nothing is read.
pub(crate) fn close<D: Device>(
    device: &mut D,
    area: LogArea,
    recorded: &mut Recorded,
) -> Result<(), DiskFault>
    requires area { IsArea area }
    requires fits { FitsRecorded area recorded.old }
    requires large { area_end area ≤ D.size device.old }
    // On a device that keeps its word
    ensures moments { D.keeps_word → IsStored area recorded.old (D.history device.old)
        → KeepsShown area recorded.old.targets.items
        (D.history device.old) (D.history device.new) }
    ensures brief { D.keeps_word → AddsAtMost (area.sectors + 3)
        (D.history device.old) (D.history device.new) }
    ensures ok { D.keeps_word → IsStored area recorded.old (D.history device.old)
        → OnOk result (IsCopiedHome area recorded.old.targets.items
        (D.history device.old) (D.history device.new)) }
    // On any device
    ensures shown { OnOk result
        ((recorded.new.targets.items ≡ []) × (recorded.new.updates.items ≡ [])) }
    ensures kept { HasRoom area recorded.new }
    ensures size { D.size device.new ≡ D.size device.old }
    ensures failures { FailsCounted (D.failed device.old) (D.failed device.new) result }
{
    phase::write_homes(device, &recorded.updates)?;
    phase::write_sector(device, GATE, &gate::closed())?;
    recorded.clear();
    Ok(())
}

/// Writes the commit record again, for the targets that it names.
pub(crate) fn rewrite<D: Device>(
    device: &mut D,
    area: LogArea,
    named: &[u32],
) -> Result<(), DiskFault>
    requires area { IsArea area }
    requires fits { FitsGate area named.now }
    requires large { area_end area ≤ D.size device.old }
    // On a device that keeps its word
    ensures moments { D.keeps_word → IsGated named.now (D.history device.old)
        → KeepsShown area named.now (D.history device.old) (D.history device.new) }
    ensures brief { D.keeps_word → AddsAtMost 2 (D.history device.old) (D.history device.new) }
    ensures ok { D.keeps_word → OnOk result
        (D.history device.new ≡ rewritten named.now (D.history device.old)) }
    // On any device
    ensures size { D.size device.new ≡ D.size device.old }
    ensures failures { FailsCounted (D.failed device.old) (D.failed device.new) result }
{
    phase::write_sector(device, GATE, &gate::encode(named))?;
    Ok(())
}

/// Writes the payload behind what the commit record names, and then names its targets there too.
pub(crate) fn write_commit_record<D: Device>(
    device: &mut D,
    area: LogArea,
    shown: &mut Vec<u32>,
    to: &[u32],
    updates: &[Update],
) -> Result<(), DiskFault>
    requires taken { FitsPayload area to.now updates.now }
    requires fits { FitsGate area (shown.old.items ++ to.now) }
    requires area { IsArea area }
    requires room { area.sectors ≤ vec_capacity shown.old }
    requires large { area_end area ≤ D.size device.old }
    // On a device that keeps its word
    ensures moments { D.keeps_word → IsGated shown.old.items (D.history device.old)
        → AddsEither area updates.now
        (through area shown.old.items (seen (D.history device.old).now))
        (D.history device.old) (D.history device.new) }
    ensures brief { D.keeps_word → AddsAtMost (length updates.now + 3)
        (D.history device.old) (D.history device.new) }
    ensures ok { D.keeps_word → IsGated shown.old.items (D.history device.old)
        → OnOk result (IsRecorded area updates.now shown.old.items shown.new.items
        (D.history device.old) (D.history device.new)) }
    // On any device
    ensures shown { OnOk result (shown.new.items ≡ shown.old.items ++ to.now) }
    ensures kept { KeepsRoom area shown.old shown.new }
    ensures size { D.size device.new ≡ D.size device.old }
    ensures failures { FailsCounted (D.failed device.old) (D.failed device.new) result }
{
    phase::write_payload(device, area, shown.len(), updates)?;
    gate::name_all(shown, to);
    phase::write_sector(device, GATE, &gate::encode(shown))?;
    Ok(())
}
