//! A volume that is read as a mount would find it. Nothing is written.

ghost use Rattle.std.specs.Prelude.{◌≡◌, ◌≤◌, ◌<◌, ◌⊎◌, ◌+◌, ℕ, [], slice_index_or, take, length};
ghost use Rattle.journal.specs.Layout.{IsArea, area_end};

use crate::layout::{LogArea, MAX_TARGETS};
use crate::{JournalFault, gate};
use disk::{Device, SECTOR};

/// What the journal of a device has in its base, without a mount.
///
/// A target of a commit record that is set is read in the payload, where its content is, and each
/// other sector at its own place.
#[derive(Drop)]
pub struct View<'a, D: Device> {
    device: &'a mut D,
    area: LogArea,
    targets: [u32; MAX_TARGETS],
    /// How many of these the commit record names.
    count: usize,
    is_down: bool,
    ghost is_area: { IsArea area },
    ghost large: { area_end area ≤ D.size device.now },
    ghost few: { count ≤ area.sectors },
}

/// The targets of a commit record, and zeros after them.
fn padded(targets: &[u32]) -> [u32; MAX_TARGETS]
    requires { length targets.now ≤ MAX_TARGETS }
    ensures { take (length targets.now) result ≡ targets.now }
{
    let mut named = [0; MAX_TARGETS];
    named[..targets.len()].copy_from_slice(targets);
    named
}

#[tactic(auto, unfolding(crate::specs::Views::view_of, crate::specs::Views::view_failures, crate::specs::Views::name_of))]
impl<'a, D: Device> View<'a, D> {
    ghost use Rattle.std.specs.Prelude.{false, OnOk, IfErr, IsErrOf};
    ghost use Rattle.disk.specs.Moments.{seen};
    ghost use Rattle.journal.specs.Log.{AnswersByDevice};
    ghost use Rattle.journal.specs.Viewed.{viewed};
    ghost use Rattle.journal.specs.Views.{view_of, view_failures, name_of};

    /// A view of a device through a commit record of these targets.
    pub(crate) fn new(device: &'a mut D, area: LogArea, targets: &[u32]) -> View<'a, D>
        requires area { IsArea area }
        requires large { area_end area ≤ D.size device.old }
        requires few { length targets.now ≤ area.sectors }
        ensures view { view_of result
            ≡ viewed area targets.now (D.size device.old) (D.history device.old) }
        ensures failures { view_failures result ≡ D.failed device.old }
        ensures same_reference { name_of result ≡ device.entry.ghost_name }
    {
        View {
            device,
            area,
            targets: padded(targets),
            count: targets.len(),
            is_down: false,
        }
    }

    /// Puts into `content` what sector `n` of the base holds. After `Fault` it may hold anything.
    ///
    /// # Errors
    ///
    /// [`JournalFault::Fault`] if the device failed, and [`JournalFault::Down`] from then on.
    pub fn read(&mut self, n: u32, content: &mut [u8; SECTOR]) -> Result<(), JournalFault>
        requires { n < (view_of self.old).size }
        ensures ok { D.keeps_word → OnOk result (content.new ≡ (view_of self.old).base n) }
        // It only reads, on the device that it has
        ensures view { view_of self.new ≡ record (view_of self.old)
            { is_down = (view_of self.new).is_down } }
        ensures same_reference { name_of self.new ≡ name_of self.old }
        // If it fails
        ensures untouched { IsErrOf result JournalFault.Down → content.new ≡ content.old }
        ensures answers { AnswersByDevice (view_of self.old) (view_of self.new)
            (view_failures self.old) (view_failures self.new) result }
        ensures refuses { IfErr result
            (λ fault. (fault ≡ JournalFault.Fault) ⊎ (fault ≡ JournalFault.Down)) }
    {
        if self.is_down {
            return Err(JournalFault::Down);
        }
        let place = gate::place_of(&self.targets[..self.count], self.area, n);
        if self.device.read(place, content).is_err() {
            self.is_down = true;
            return Err(JournalFault::Fault);
        }
        Ok(())
    }

    /// Puts into `run` what as many sectors of the base hold, from `first` on. The device reads
    /// them in one [`Device::read_run`], and then each whose content is in the payload there. After
    /// `Fault` the run may hold anything.
    ///
    /// # Errors
    ///
    /// [`JournalFault::Fault`] if the device failed, and [`JournalFault::Down`] from then on.
    pub fn read_run(&mut self, first: u32, run: &mut [[u8; SECTOR]]) -> Result<(), JournalFault>
        requires { first + length run.old ≤ (view_of self.old).size }
        ensures ok { D.keeps_word → OnOk result ((i : ℕ) → i < length run.old
            → slice_index_or run.new i [] ≡ (view_of self.old).base (first + i)) }
        // It only reads, on the device that it has
        ensures view { view_of self.new ≡ record (view_of self.old)
            { is_down = (view_of self.new).is_down } }
        ensures same_reference { name_of self.new ≡ name_of self.old }
        // If it fails
        ensures untouched { IsErrOf result JournalFault.Down → run.new ≡ run.old }
        ensures answers { AnswersByDevice (view_of self.old) (view_of self.new)
            (view_failures self.old) (view_failures self.new) result }
        ensures refuses { IfErr result
            (λ fault. (fault ≡ JournalFault.Fault) ⊎ (fault ≡ JournalFault.Down)) }
    {
        if self.is_down {
            return Err(JournalFault::Down);
        }
        // the number of a sector is a u32, since this is one
        let device = &mut *self.device;
        let _size = device.sectors();
        if device.read_run(first, run).is_err() {
            self.is_down = true;
            return Err(JournalFault::Fault);
        }
        for (i, content) in run.iter_mut().enumerate() {
            self.read_elsewhere(first + i as u32, content)?;
        }
        Ok(())
    }

    /// Reads sector `n` if its content is in the payload; `content` is what its own place holds.
    fn read_elsewhere(&mut self, n: u32, content: &mut [u8; SECTOR]) -> Result<(), JournalFault>
        requires up { (view_of self.old).is_down ≡ false }
        requires there { n < (view_of self.old).size }
        ensures ok { D.keeps_word → content.old ≡ seen (view_of self.old).history.now n
            → OnOk result (content.new ≡ (view_of self.old).base n) }
        // It only reads, on the device that it has
        ensures view { view_of self.new ≡ record (view_of self.old)
            { is_down = (view_of self.new).is_down } }
        ensures same_reference { name_of self.new ≡ name_of self.old }
        // If it fails
        ensures answers { AnswersByDevice (view_of self.old) (view_of self.new)
            (view_failures self.old) (view_failures self.new) result }
        ensures refuses { IfErr result
            (λ fault. (fault ≡ JournalFault.Fault) ⊎ (fault ≡ JournalFault.Down)) }
    {
        if gate::place_of(&self.targets[..self.count], self.area, n) == n {
            return Ok(());
        }
        self.read(n, content)
    }
}
