ghost use Rattle.std.specs.Prelude.{◌≡◌, ◌≤◌, ◌<◌, ◌+◌, ◌-◌, ◌⊎◌, ◌↔◌, ℕ, [], length, slice_index_or, OnOk, OnErr, IsErrOf};
ghost use Rattle.disk.specs.Moments.{History, IsSector, seen, wrote, synced};
ghost use Rattle.disk.specs.Cause.{HasCause};

use crate::{DiskFault, SECTOR};

/// A device of sectors of [`SECTOR`] bytes.
///
/// What holds only of a device that keeps its word is under `keeps_word`: memory keeps it, and of a
/// real file no contract can say so.
pub trait Device: Drop {
    /// Holds if writes and syncs do what `history` says.
    ghost keeps_word: { Type 0 };

    /// The number of sectors.
    ghost size: { Self → ℕ };

    /// How often the device has failed; full at 2^64 - 1.
    ghost failed: { Self → ℕ };

    /// What a crash may leave, now and at each moment so far.
    ghost history: { Self → History };

    /// The number of sectors.
    fn sectors(&self) -> u32
        ensures { result ≡ size self.now };

    /// How often the device has failed. The count stays at `u64::MAX`.
    fn failures(&self) -> u64
        ensures { result ≡ failed self.now };

    /// The newest content of sector `n`. After `Fault` the buffer may hold anything.
    fn read(&mut self, n: u32, content: &mut [u8; SECTOR]) -> Result<(), DiskFault>
        ensures ok { keeps_word → OnOk result (content.new ≡ seen (history self.old).now n) }
        // If it fails
        ensures range { IsErrOf result DiskFault.Range ↔ (size self.old ≤ n) }
        ensures untouched { IsErrOf result DiskFault.Range → content.new ≡ content.old }
        // It only reads
        ensures history { history self.new ≡ history self.old }
        ensures size { size self.new ≡ size self.old }
        // Whether it fails
        ensures cause { HasCause (failed self.old) (failed self.new) result };

    /// Puts into `contents` the newest contents of as many sectors, from `first` on. After `Fault`
    /// it may hold anything. The default reads one sector after the other.
    fn read_run(&mut self, first: u32, contents: &mut [[u8; SECTOR]]) -> Result<(), DiskFault>
        ensures ok { keeps_word → OnOk result ((i : ℕ) → i < length contents.old
            → slice_index_or contents.new i [] ≡ seen (history self.old).now (first + i)) }
        // If it fails: `Range` if the device has fewer sectors from `first` on
        ensures range { IsErrOf result DiskFault.Range
            ↔ (size self.old - first < length contents.old) }
        ensures untouched { IsErrOf result DiskFault.Range → contents.new ≡ contents.old }
        // It only reads
        ensures history { history self.new ≡ history self.old }
        ensures size { size self.new ≡ size self.old }
        // Whether it fails
        ensures cause { HasCause (failed self.old) (failed self.new) result }
    {
        if contents.len() > self.sectors().saturating_sub(first) as usize {
            return Err(DiskFault::Range);
        }
        for (i, content) in contents.iter_mut().enumerate() {
            self.read(first + i as u32, content)?;
        }
        Ok(())
    }

    /// Writes sector `n`. Until a sync a crash may leave it or what was there before; a write that
    /// failed counts as landed or not.
    fn write(&mut self, n: u32, content: &[u8; SECTOR]) -> Result<(), DiskFault>
        ensures ok { keeps_word → OnOk result
            (history self.new ≡ wrote (record { target = n; content = content.now })
            (history self.old)) }
        // If it fails
        ensures err { keeps_word → OnErr result ((history self.new ≡ history self.old)
            ⊎ (history self.new ≡ wrote (record { target = n; content = content.now })
            (history self.old))) }
        ensures range { IsErrOf result DiskFault.Range ↔ (size self.old ≤ n) }
        ensures untouched { IsErrOf result DiskFault.Range → history self.new ≡ history self.old }
        // However it ends
        ensures size { size self.new ≡ size self.old }
        ensures cause { HasCause (failed self.old) (failed self.new) result };

    /// Fixes what reads give: after it every crash leaves that.
    fn sync(&mut self) -> Result<(), DiskFault>
        ensures ok { keeps_word → OnOk result (history self.new ≡ synced (history self.old)) }
        // If it fails
        ensures err { keeps_word → OnErr result (history self.new ≡ history self.old) }
        ensures not_range { IsErrOf result DiskFault.Range → ⊥ }
        // However it ends
        ensures size { size self.new ≡ size self.old }
        ensures cause { HasCause (failed self.old) (failed self.new) result };

    /// What a device that keeps its word holds are sectors of bytes.
    ghost holds_sectors: { keeps_word → (device : Self) → (n : ℕ) → n < size device
        → IsSector (seen (history device).now n) };
}
