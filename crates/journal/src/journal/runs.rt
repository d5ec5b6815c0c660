//! Reading neighbouring sectors through a journal.

ghost use Rattle.std.specs.Prelude.{◌≡◌, ◌≤◌, ◌<◌, ◌⊎◌, ◌+◌, ℕ, [], length, slice_index_or, false, OnOk, IfErr, IsErrOf};
ghost use Rattle.disk.specs.Moments.{seen};
ghost use Rattle.journal.specs.Log.{AnswersByDevice, contents};

use crate::{Journal, JournalFault};
use disk::{Device, SECTOR};

#[tactic(auto, unfolding(crate::specs::Journal::log_of, crate::specs::Journal::journal_failures, crate::specs::Journal::recorded_sectors))]
impl<D: Device> Journal<D> {
    ghost use Rattle.journal.specs.Journal.{log_of, journal_failures, recorded_sectors};

    /// Puts into `run` the newest contents of as many sectors, from `first` on: what
    /// [`Journal::read`] gives of each. The device reads them in one [`Device::read_run`], and none
    /// of them is kept in memory. After `Fault` the run may hold anything.
    ///
    /// # Errors
    ///
    /// [`JournalFault::Fault`] if the device failed, and [`JournalFault::Down`] from then on.
    pub fn read_run(&mut self, first: u32, run: &mut [[u8; SECTOR]]) -> Result<(), JournalFault>
        requires { first + length run.old ≤ (log_of self.old).size }
        ensures ok { D.keeps_word → OnOk result ((i : ℕ) → i < length run.old
            → slice_index_or run.new i [] ≡ contents (log_of self.old) (first + i)) }
        // Nothing is written, and the list stays
        ensures log { log_of self.new ≡ record (log_of self.old)
            { is_down = (log_of self.new).is_down } }
        ensures contents { contents (log_of self.new) ≡ contents (log_of self.old) }
        ensures shown { recorded_sectors self.new ≡ recorded_sectors self.old }
        // If it fails
        ensures untouched { IsErrOf result JournalFault.Down → run.new ≡ run.old }
        ensures answers { AnswersByDevice (log_of self.old) (log_of self.new)
            (journal_failures self.old) (journal_failures self.new) result }
        ensures refuses { IfErr result
            (λ fault. (fault ≡ JournalFault.Fault) ⊎ (fault ≡ JournalFault.Down)) }
    {
        if self.is_down {
            return Err(JournalFault::Down);
        }
        // the number of a sector is a u32, since this is one
        let _size = self.device.sectors();
        if self.device.read_run(first, run).is_err() {
            self.is_down = true;
            return Err(JournalFault::Fault);
        }
        for (i, content) in run.iter_mut().enumerate() {
            self.put_newer(first + i as u32, content);
        }
        Ok(())
    }

    /// Puts over what the device has of sector `n` what is pending or recorded, if anything is.
    fn put_newer(&self, n: u32, content: &mut [u8; SECTOR])
        requires { (log_of self.now).is_down ≡ false }
        ensures { D.keeps_word → content.old ≡ seen (log_of self.now).history.now n
            → content.new ≡ contents (log_of self.now) n }
    {
        if let Some(place) = self.pending_sectors.find(n) {
            *content = self.pending[place].content;
            return;
        }
        let _ = self.recorded.get(n, content);
    }
}
