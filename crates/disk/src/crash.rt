//! A device whose power goes at a stated step, and what may then be found on it.

ghost use Rattle.std.specs.Prelude.{◌≡◌, ◌-◌, ◌^◌, ◌<◌, ◌≤◌, ◌⊎◌, ◌↔◌, ℕ, [], ◌∷◌, true, false, length, slice_index_or, IfOk, OnOk, OnErr, IsErrOf, IsOk};
ghost use Rattle.disk.specs.Moments.{seen, wrote, synced, at_rest, Left};
ghost use Rattle.disk.specs.Cause.{HasCause};
ghost use Rattle.disk.specs.Calls.{image_of, written_by};
ghost use Rattle.disk.specs.Landing.{landed_image, number_for, unsynced_below};

use crate::call::{count_written, numbered_content};
use crate::landing::number_for_sector;
use crate::{Call, Device, DiskFault, Landed, MemDevice, SECTOR, Unsynced};
use std::alloc::{AllocError, Global};

/// The step at which a device stops for good. Its steps are its writes and syncs, numbered from 0;
/// a write to a sector that it does not have is none.
#[derive(Clone, Copy, Debug, PartialEq, Eq)]
pub enum Stop {
    /// It goes on.
    Never,
    /// Before the step of this number: nothing of it is done.
    Before(u64),
    /// Within the step of this number: a write is among the unsynced contents, and may land or not;
    /// a sync is not done.
    Within(u64),
}

// The fate of a write or a sync.
#[derive(Clone, Copy, Debug, PartialEq, Eq)]
enum Fate {
    Whole,
    Part,
    Nothing,
}

/// A [`MemDevice`] that stops at a stated step: from that call on each write and each sync, and
/// each read after it, returns `Fault`, and counts it.
#[derive(Drop)]
pub struct CrashDevice {
    device: MemDevice,
    stop: Stop,
    steps: u64,
    is_stopped: bool,
}

impl CrashDevice {
    ghost use Rattle.disk.specs.Memory.{size_of, failures_of, calls_of, history_of};
    ghost use Rattle.disk.specs.Crash.{crash_size, crash_history, device_of, stop_of, steps_of, is_stopped, next_fate, IsNextCourse};

    /// A device that goes on from this one, and stops there.
    pub fn new(device: MemDevice, stop: Stop) -> CrashDevice
        // As it was given
        ensures device { device_of result ≡ device }
        ensures stop { stop_of result ≡ stop }
        // No step has begun
        ensures steps { steps_of result ≡ 0 }
        ensures runs { is_stopped result ≡ false }
    {
        CrashDevice {
            device,
            stop,
            steps: 0,
            is_stopped: false,
        }
    }

    /// How many steps have begun, that at which it stopped among them; full at `u64::MAX`.
    pub fn steps(&self) -> u64
        ensures { result ≡ steps_of self.now }
    {
        self.steps
    }

    /// Whether the device has stopped.
    pub fn is_stopped(&self) -> bool
        ensures { result ≡ is_stopped self.now }
    {
        self.is_stopped
    }

    /// The writes and syncs that were done, the first of them first.
    pub fn calls(&self) -> &[Call]
        ensures { result.now ≡ calls_of (device_of self.now) }
    {
        self.device.calls()
    }

    /// The sectors with unsynced contents, by rising number.
    pub fn unsynced(&self, alloc: Global) -> Result<Vec<Unsynced>, AllocError>
        ensures { IfOk result (λ sectors. sectors.items
            ≡ unsynced_below (crash_size self.now) (crash_history self.now).now) }
    {
        let since = self.device.since_sync();
        let mut sectors = Vec::new(alloc);
        for sector in 0..self.device.sectors() {
            let contents = count_written(since, sector);
            if contents > 0 {
                sectors.push(Unsynced { sector, contents })?;
            }
        }
        Ok(sectors)
    }

    /// The device as it is found if the power goes now and this lands, all of it fixed. Fails only
    /// for lack of memory.
    ///
    /// The list chooses the content of each unsynced sector by its number; its first entry for a
    /// sector counts. A sector that it does not name, or of which there is no such content, has the
    /// fixed one.
    pub fn landed(&self, alloc: Global, landing: &[Landed]) -> Result<MemDevice, DiskFault>
        ensures size { IfOk result (λ device. size_of device ≡ crash_size self.now) }
        ensures landed { IfOk result (λ device. history_of device
            ≡ at_rest (landed_image landing.now (crash_history self.now).now)) }
        ensures left { IfOk result (λ device. Left (crash_history self.now).now
            (seen (history_of device).now)) }
        // It has no record yet
        ensures calls { IfOk result (λ device. calls_of device ≡ []) }
        ensures failures { IfOk result (λ device. failures_of device ≡ 0) }
        // If it fails
        ensures memory { OnErr result (result ≡ Err DiskFault.Memory) }
    {
        let mut sectors = self.device.fixed_sectors(alloc)?;
        land(&mut sectors, self.device.since_sync(), landing);
        MemDevice::with_sectors(alloc, sectors)
    }

    // Begins a step.
    fn begin(&mut self) -> Fate
        ensures fate { result ≡ next_fate self.old }
        ensures device { device_of self.new ≡ device_of self.old }
        ensures course { IsNextCourse self.old self.new }
    {
        if self.is_stopped {
            return Fate::Nothing;
        }
        let number = self.steps;
        let fate = match self.stop {
            Stop::Before(at) if at == number => Fate::Nothing,
            Stop::Within(at) if at == number => Fate::Part,
            _ => Fate::Whole,
        };
        self.steps = number.saturating_add(1);
        self.is_stopped = fate != Fate::Whole;
        fate
    }
}

impl Device for CrashDevice {
    ghost use Rattle.disk.specs.Crash.{crash_size, crash_failures, crash_history, is_stopped, next_fate, AnswersFate, IsSameCourse, IsNextCourse};
    ghost use Rattle.disk.specs.Memory.{held_sector};

    ghost keeps_word = { Unit {0} };

    ghost size = { λ device. crash_size device };

    ghost failed = { λ device. crash_failures device };

    ghost history = { λ device. crash_history device };

    fn sectors(&self) -> u32 {
        self.device.sectors()
    }

    fn failures(&self) -> u64 {
        self.device.failures()
    }

    /// Reads every sector that is there, until the device has stopped.
    fn read(&mut self, n: u32, content: &mut [u8; SECTOR]) -> Result<(), DiskFault>
        ensures ok { OnOk result (content.new ≡ seen (crash_history self.old).now n) }
        // If it fails
        ensures range { IsErrOf result DiskFault.Range ↔ (crash_size self.old ≤ n) }
        ensures untouched { IsErrOf result DiskFault.Range → content.new ≡ content.old }
        // It only reads
        ensures history { crash_history self.new ≡ crash_history self.old }
        ensures size { crash_size self.new ≡ crash_size self.old }
        // Whether it fails, by whether it has stopped
        ensures cause { HasCause (crash_failures self.old) (crash_failures self.new) result }
        ensures running { is_stopped self.old ≡ false → n < crash_size self.old → IsOk result }
        ensures stopped { is_stopped self.old ≡ true → n < crash_size self.old
            → result ≡ Err DiskFault.Fault }
        ensures course { IsSameCourse self.old self.new }
    {
        if self.is_stopped && n < self.device.sectors() {
            return Err(self.device.fail());
        }
        self.device.read(n, content)
    }

    /// The step at which the device stops returns `Fault`, and so does each one after it.
    fn write(&mut self, n: u32, content: &[u8; SECTOR]) -> Result<(), DiskFault>
        ensures ok { OnOk result (crash_history self.new
            ≡ wrote (record { target = n; content = content.now }) (crash_history self.old)) }
        // If it fails
        ensures err { OnErr result ((crash_history self.new ≡ crash_history self.old)
            ⊎ (crash_history self.new ≡ wrote (record { target = n; content = content.now })
            (crash_history self.old))) }
        ensures untouched { IsErrOf result DiskFault.Range
            → (crash_history self.new ≡ crash_history self.old) × IsSameCourse self.old self.new }
        ensures range { IsErrOf result DiskFault.Range ↔ (crash_size self.old ≤ n) }
        // However it ends
        ensures size { crash_size self.new ≡ crash_size self.old }
        ensures cause { HasCause (crash_failures self.old) (crash_failures self.new) result }
        // By the step at which it stops
        ensures fate { n < crash_size self.old
            → AnswersFate (next_fate self.old) (crash_history self.old)
            (crash_history self.new) result }
        ensures course { n < crash_size self.old → IsNextCourse self.old self.new }
    {
        if n >= self.device.sectors() {
            return Err(DiskFault::Range);
        }
        match self.begin() {
            Fate::Whole => self.device.write(n, content),
            Fate::Part => {
                self.device.write(n, content)?;
                Err(self.device.fail())
            }
            Fate::Nothing => Err(self.device.fail()),
        }
    }

    /// The step at which the device stops returns `Fault`, and so does each one after it.
    fn sync(&mut self) -> Result<(), DiskFault>
        ensures ok { OnOk result (crash_history self.new ≡ synced (crash_history self.old)) }
        // If it fails
        ensures err { OnErr result (crash_history self.new ≡ crash_history self.old) }
        ensures not_range { IsErrOf result DiskFault.Range → ⊥ }
        // However it ends
        ensures size { crash_size self.new ≡ crash_size self.old }
        ensures cause { HasCause (crash_failures self.old) (crash_failures self.new) result }
        // By the step at which it stops
        ensures fate { AnswersFate (next_fate self.old) (crash_history self.old)
            (crash_history self.new) result }
        ensures course { IsNextCourse self.old self.new }
    {
        match self.begin() {
            Fate::Whole => self.device.sync(),
            Fate::Part | Fate::Nothing => Err(self.device.fail()),
        }
    }

    ghost holds_sectors = { λ _ device n there. held_sector device.device n there };
}

// Puts on each sector what landed there, over what is fixed.
fn land(sectors: &mut [[u8; SECTOR]], since: &[Call], landing: &[Landed])
    requires { length sectors.old < 2 ^ 32 }
    ensures { (n : ℕ) → n < length sectors.old → image_of sectors.new n
        ≡ slice_index_or (image_of sectors.old n ∷ written_by n since.now)
        (number_for landing.now n) (image_of sectors.old n) }
{
    for (n, content) in sectors.iter_mut().enumerate() {
        let sector = n as u32;
        let number = number_for_sector(landing, sector);
        *content = numbered_content(content, since, sector, number);
    }
}
