//! The phases of a flush. Each writes its sectors one after the other, and then syncs.

ghost use Rattle.std.specs.Prelude.{All, OnOk, ◌≡◌, ◌≤◌, ◌<◌, ◌+◌, ℕ, true, false, [], ◌∷◌, length};
ghost use Rattle.disk.specs.Moments.{wrote, synced};
ghost use Rattle.journal.specs.Layout.{IsArea, placed, targets};
ghost use Rattle.journal.specs.Format.{fresh, fresh_outside, is_written};
ghost use Rattle.journal.specs.Phase.{AddsAtMost, AddsUpdates, IsFixedAs, FailsCounted};

use crate::layout::{self, LogArea};
use crate::list;
use disk::{Device, DiskFault, SECTOR, Update};
use std::ops::Range;

/// Writes the updates' contents to the payload, one after the other, after its first `behind`
/// sectors.
pub(crate) fn write_payload<D: Device>(
    device: &mut D,
    area: LogArea,
    behind: usize,
    updates: &[Update],
) -> Result<(), DiskFault>
    requires area { IsArea area }
    requires few { behind + length updates.now ≤ area.sectors }
    requires large { area.first + area.sectors ≤ D.size device.old }
    // On a device that keeps its word
    ensures moments { D.keeps_word → AddsUpdates (placed (area.first + behind) updates.now)
        (D.history device.old) (D.history device.new) }
    ensures brief { D.keeps_word → AddsAtMost (length updates.now + 1)
        (D.history device.old) (D.history device.new) }
    ensures ok { D.keeps_word → OnOk result (IsFixedAs (placed (area.first + behind) updates.now)
        (D.history device.old) (D.history device.new)) }
    // On any device
    ensures size { D.size device.new ≡ D.size device.old }
    ensures failures { FailsCounted (D.failed device.old) (D.failed device.new) result }
{
    let first = area.first + behind as u32;
    for (i, update) in updates.iter().enumerate() {
        device.write(first + i as u32, &update.content)?;
    }
    device.sync()?;
    Ok(())
}

/// Writes the updates to their sectors.
pub(crate) fn write_homes<D: Device>(device: &mut D, updates: &[Update]) -> Result<(), DiskFault>
    requires { All (λ t. t < D.size device.old) (targets updates.now) }
    // On a device that keeps its word
    ensures moments { D.keeps_word → AddsUpdates updates.now
        (D.history device.old) (D.history device.new) }
    ensures brief { D.keeps_word → AddsAtMost (length updates.now + 1)
        (D.history device.old) (D.history device.new) }
    ensures ok { D.keeps_word → OnOk result (IsFixedAs updates.now
        (D.history device.old) (D.history device.new)) }
    // On any device
    ensures size { D.size device.new ≡ D.size device.old }
    ensures failures { FailsCounted (D.failed device.old) (D.failed device.new) result }
{
    for update in updates {
        device.write(update.target, &update.content)?;
    }
    device.sync()?;
    Ok(())
}

/// Writes one sector: the commit record or the superblock.
pub(crate) fn write_sector<D: Device>(
    device: &mut D,
    n: u32,
    content: &[u8; SECTOR],
) -> Result<(), DiskFault>
    requires { n < D.size device.old }
    ensures moments { D.keeps_word
        → AddsUpdates ((record { target = n; content = content.now }) ∷ [])
        (D.history device.old) (D.history device.new) }
    ensures brief { D.keeps_word → AddsAtMost 2 (D.history device.old) (D.history device.new) }
    ensures ok { D.keeps_word → OnOk result
        (IsFixedAs ((record { target = n; content = content.now }) ∷ [])
        (D.history device.old) (D.history device.new)) }
    ensures history { D.keeps_word → OnOk result (D.history device.new
        ≡ synced (wrote (record { target = n; content = content.now }) (D.history device.old))) }
    ensures size { D.size device.new ≡ D.size device.old }
    ensures failures { FailsCounted (D.failed device.old) (D.failed device.new) result }
{
    device.write(n, content)?;
    device.sync()?;
    Ok(())
}

/// Writes every sector but sector 0: what the updates say, and zeros elsewhere.
pub(crate) fn write_fresh<D: Device>(device: &mut D, updates: &[Update]) -> Result<(), DiskFault>
    requires { 2 ≤ D.size device.old }
    ensures moments { D.keeps_word
        → AddsUpdates (fresh (D.size device.old) updates.now)
        (D.history device.old) (D.history device.new) }
    ensures ok { D.keeps_word → OnOk result
        (IsFixedAs (fresh (D.size device.old) updates.now)
        (D.history device.old) (D.history device.new)) }
    ensures size { D.size device.new ≡ D.size device.old }
    ensures failures { FailsCounted (D.failed device.old) (D.failed device.new) result }
{
    for n in 1..device.sectors() {
        let content = list::newer(updates, n, None).unwrap_or(layout::zeros());
        device.write(n, &content)?;
    }
    device.sync()?;
    Ok(())
}

/// The end of the range or of the log, if sector `n` is in one of them, and otherwise `n`.
fn behind_unread(area: LogArea, unread: &Range<u32>, n: u32) -> u32
    requires { IsArea area }
    ensures later { n ≤ result }
    ensures passed { (m : ℕ) → n ≤ m → m < result → is_written area unread.now m ≡ false }
    ensures within { (size : ℕ) → n ≤ size → unread.now.end ≤ size
        → area.first + area.sectors ≤ size → result ≤ size }
    ensures written { result ≡ n → is_written area unread.now n ≡ true }
{
    if unread.start <= n && n < unread.end {
        return unread.end;
    }
    if area.first <= n && n < area.first + area.sectors {
        return area.first + area.sectors;
    }
    n
}

/// Writes every sector but sector 0, those of the range, and the log: what the updates say, and
/// zeros elsewhere. It takes no time for the range and the log.
pub(crate) fn write_fresh_outside<D: Device>(
    device: &mut D,
    area: LogArea,
    unread: &Range<u32>,
    updates: &[Update],
) -> Result<(), DiskFault>
    requires area { IsArea area }
    requires large { area.first + area.sectors ≤ D.size device.old }
    requires unread { unread.now.end ≤ D.size device.old }
    ensures moments { D.keeps_word
        → AddsUpdates (fresh_outside area unread.now (D.size device.old) updates.now)
        (D.history device.old) (D.history device.new) }
    ensures brief { D.keeps_word → AddsAtMost
        (length (fresh_outside area unread.now (D.size device.old) updates.now) + 1)
        (D.history device.old) (D.history device.new) }
    ensures ok { D.keeps_word → OnOk result
        (IsFixedAs (fresh_outside area unread.now (D.size device.old) updates.now)
        (D.history device.old) (D.history device.new)) }
    ensures size { D.size device.new ≡ D.size device.old }
    ensures failures { FailsCounted (D.failed device.old) (D.failed device.new) result }
{
    let size = device.sectors();
    let mut n = 1;
    while n < size {
        let next = behind_unread(area, unread, n);
        if next > n {
            n = next;
            continue;
        }
        let content = list::newer(updates, n, None).unwrap_or(layout::zeros());
        device.write(n, &content)?;
        n += 1;
    }
    device.sync()?;
    Ok(())
}
