//! A device in memory, which keeps its word and a record of all its calls.

ghost use Rattle.std.specs.Prelude.{◌≡◌, ◌-◌, ◌^◌, ◌<◌, ◌≤◌, ◌↔◌, ℕ, [], vec_len, replicate, reverse, All, IfOk, OnOk, OnErr, IsErrOf, IsOk};
ghost use Rattle.disk.specs.Moments.{IsSector, seen, wrote, at_rest, written_to};
ghost use Rattle.disk.specs.Cause.{IsCounted, HasCause};
ghost use Rattle.disk.specs.Calls.{image_of, zero_sector, written_by, history_of_calls};

use crate::call::{replay, synced_count};
use crate::{Call, Device, DiskFault, SECTOR, Update};
use std::alloc::Global;

/// Sectors in memory.
///
/// If there is no memory for a call's record, the call fails as a device does, and is counted:
/// nothing else changes.
#[derive(Drop)]
pub struct MemDevice {
    first: Vec<[u8; SECTOR]>,
    sectors: Vec<[u8; SECTOR]>,
    calls: Vec<Call>,
    failures: u64,
    ghost few: { vec_len sectors < 2 ^ 32 },
    ghost same_size: { vec_len first ≡ vec_len sectors },
    ghost told: { (n : ℕ) → image_of sectors.items n
        ≡ seen (history_of_calls first.items calls.items).now n },
    ghost within: { (n : ℕ) → vec_len sectors ≤ n
        → written_to n (history_of_calls first.items calls.items).now.unsynced ≡ [] },
    ghost rows: { All IsSector sectors.items },
}

impl MemDevice {
    ghost use Rattle.disk.specs.Memory.{size_of, failures_of, calls_of, history_of};

    /// A device of zeros, just made: all that it holds is fixed. Fails only for lack of memory.
    pub fn new(alloc: Global, sectors: u32) -> Result<MemDevice, DiskFault>
        ensures size { IfOk result (λ device. size_of device ≡ sectors) }
        ensures history { IfOk result (λ device. history_of device
            ≡ at_rest (image_of (replicate sectors zero_sector))) }
        // It has no record yet
        ensures calls { IfOk result (λ device. calls_of device ≡ []) }
        ensures failures { IfOk result (λ device. failures_of device ≡ 0) }
        // If it fails
        ensures memory { OnErr result (result ≡ Err DiskFault.Memory) }
    {
        MemDevice::with_sectors(alloc, zeros(alloc, sectors as usize)?)
    }

    /// A device that holds these contents, sector 0 first, and all of them fixed. Fails only for
    /// lack of memory.
    pub fn with_sectors(alloc: Global, sectors: Vec<[u8; SECTOR]>) -> Result<MemDevice, DiskFault>
        requires { vec_len sectors < 2 ^ 32 }
        ensures size { IfOk result (λ device. size_of device ≡ vec_len sectors) }
        ensures history { IfOk result (λ device. history_of device
            ≡ at_rest (image_of sectors.items)) }
        // It has no record yet
        ensures calls { IfOk result (λ device. calls_of device ≡ []) }
        ensures failures { IfOk result (λ device. failures_of device ≡ 0) }
        // If it fails
        ensures memory { OnErr result (result ≡ Err DiskFault.Memory) }
    {
        let first = copied(alloc, &sectors)?;
        Ok(MemDevice {
            first,
            sectors,
            calls: Vec::new(alloc),
            failures: 0,
        })
    }

    /// The writes and syncs so far, the first of them first.
    pub fn calls(&self) -> &[Call]
        ensures { result.now ≡ calls_of self.now }
    {
        &self.calls
    }

    /// What is fixed, sector 0 first.
    pub(crate) fn fixed_sectors(&self, alloc: Global) -> Result<Vec<[u8; SECTOR]>, DiskFault>
        ensures size { IfOk result (λ rows. vec_len rows ≡ size_of self.now) }
        ensures few { size_of self.now < 2 ^ 32 }
        ensures fixed { IfOk result (λ rows. (n : ℕ) → image_of rows.items n
            ≡ (history_of self.now).now.fixed n) }
        // If it fails
        ensures memory { OnErr result (result ≡ Err DiskFault.Memory) }
    {
        let mut rows = copied(alloc, &self.first)?;
        replay(&mut rows, &self.calls[..synced_count(&self.calls)]);
        Ok(rows)
    }

    /// The calls since the last sync.
    pub(crate) fn since_sync(&self) -> &[Call]
        ensures unsynced { (n : ℕ) → reverse (written_to n (history_of self.now).now.unsynced)
            ≡ written_by n result.now }
        ensures within { (n : ℕ) → size_of self.now ≤ n
            → written_to n (history_of self.now).now.unsynced ≡ [] }
    {
        &self.calls[synced_count(&self.calls)..]
    }

    /// Counts a failure; the count stays at `u64::MAX`.
    pub(crate) fn fail(&mut self) -> DiskFault
        ensures fault { result ≡ DiskFault.Fault }
        ensures counted { IsCounted (failures_of self.old) (failures_of self.new) }
        // What stays
        ensures size { size_of self.new ≡ size_of self.old }
        ensures history { history_of self.new ≡ history_of self.old }
    {
        self.failures = self.failures.saturating_add(1);
        DiskFault::Fault
    }
}

impl Device for MemDevice {
    ghost use Rattle.disk.specs.Memory.{size_of, failures_of, history_of, held_sector};

    ghost keeps_word = { Unit {0} };

    ghost size = { λ device. size_of device };

    ghost failed = { λ device. failures_of device };

    ghost history = { λ device. history_of device };

    fn sectors(&self) -> u32 {
        self.sectors.len() as u32
    }

    fn failures(&self) -> u64 {
        self.failures
    }

    /// Every sector that is there is read.
    fn read(&mut self, n: u32, content: &mut [u8; SECTOR]) -> Result<(), DiskFault>
        ensures ok { OnOk result (content.new ≡ seen (history_of self.old).now n) }
        // If it fails
        ensures range { IsErrOf result DiskFault.Range ↔ (size_of self.old ≤ n) }
        ensures untouched { IsErrOf result DiskFault.Range → content.new ≡ content.old }
        // It only reads
        ensures history { history_of self.new ≡ history_of self.old }
        ensures size { size_of self.new ≡ size_of self.old }
        // Whether it fails
        ensures cause { HasCause (failures_of self.old) (failures_of self.new) result }
        ensures answered { n < size_of self.old → IsOk result }
    {
        let place = n as usize;
        if place >= self.sectors.len() {
            return Err(DiskFault::Range);
        }
        *content = self.sectors[place];
        Ok(())
    }

    /// A write that failed, for lack of memory for its record, did not land.
    fn write(&mut self, n: u32, content: &[u8; SECTOR]) -> Result<(), DiskFault>
        ensures ok { OnOk result (history_of self.new
            ≡ wrote (record { target = n; content = content.now }) (history_of self.old)) }
        // If it fails
        ensures err { OnErr result (history_of self.new ≡ history_of self.old) }
        ensures range { IsErrOf result DiskFault.Range ↔ (size_of self.old ≤ n) }
        // However it ends
        ensures size { size_of self.new ≡ size_of self.old }
        ensures cause { HasCause (failures_of self.old) (failures_of self.new) result }
    {
        let place = n as usize;
        if place >= self.sectors.len() {
            return Err(DiskFault::Range);
        }
        let update = Update {
            target: n,
            content: *content,
        };
        if self.calls.push(Call::Write(update)).is_err() {
            return Err(self.fail());
        }
        self.sectors[place] = sector_of(content);
        Ok(())
    }

    fn sync(&mut self) -> Result<(), DiskFault> {
        if self.calls.push(Call::Sync).is_err() {
            return Err(self.fail());
        }
        Ok(())
    }

    ghost holds_sectors = { λ _ device n there. held_sector device n there };
}

#[tactic(auto, unfolding(crate::specs::Calls::zero_sector))]
fn zero() -> [u8; SECTOR]
    ensures { result ≡ zero_sector }
{
    [0; SECTOR]
}

fn zeros(alloc: Global, count: usize) -> Result<Vec<[u8; SECTOR]>, DiskFault>
    ensures rows { IfOk result (λ rows. rows.items ≡ replicate count zero_sector) }
    ensures len { IfOk result (λ rows. vec_len rows ≡ count) }
    ensures memory { OnErr result (result ≡ Err DiskFault.Memory) }
{
    let mut rows = Vec::new(alloc);
    for _ in 0..count {
        if rows.push(zero()).is_err() {
            return Err(DiskFault::Memory);
        }
    }
    Ok(rows)
}

fn copied(alloc: Global, rows: &[[u8; SECTOR]]) -> Result<Vec<[u8; SECTOR]>, DiskFault>
    ensures rows { IfOk result (λ copy. copy.items ≡ rows.now) }
    ensures sectors { IfOk result (λ copy. All IsSector copy.items) }
    ensures memory { OnErr result (result ≡ Err DiskFault.Memory) }
{
    let mut copy = Vec::new(alloc);
    for row in rows {
        if copy.push(sector_of(row)).is_err() {
            return Err(DiskFault::Memory);
        }
    }
    Ok(copy)
}

/// A copy of a sector. That its bytes are bytes is known once they are looked at.
fn sector_of(row: &[u8; SECTOR]) -> [u8; SECTOR]
    ensures same { result ≡ row.now }
    ensures sector { IsSector result }
{
    let _bytes = row.as_slice();
    *row
}
