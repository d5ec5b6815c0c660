//! The sectors of a volume, read through its journal.

use disk::{Device, SECTOR};
use journal::Journal;
use layout::sectors::{ReadFault, Sectors};

/// A journal whose sectors are read: those of the newest state, flushed or not.
#[derive(Drop)]
pub struct Store<D: Device> {
    pub(crate) journal: Journal<D>,
}

#[tactic(auto, unfolding(journal::specs::Journal::log_of, journal::specs::Journal::journal_failures))]
impl<D: Device> Sectors for Store<D> {
    ghost use Rattle.std.specs.Prelude.{false};
    ghost use Rattle.journal.specs.Journal.{log_of, journal_failures};
    ghost use Rattle.journal.specs.Log.{Log, contents};

    ghost keeps_word = { D.keeps_word };

    ghost Kept = { Log };

    ghost kept = { λ store. record (log_of store.journal) { is_down = false } };

    ghost image = { λ log. contents log };

    ghost size = { λ log. log.size };

    ghost health = { λ store. record {
      failed = journal_failures store.journal;
      is_down = (log_of store.journal).is_down;
    } };

    fn read(&mut self, n: u32) -> Result<[u8; SECTOR], ReadFault> {
        let mut content = [0; SECTOR];
        if self.journal.read(n, &mut content).is_err() {
            return Err(ReadFault);
        }
        Ok(content)
    }

    /// Its device reads them in one call.
    fn read_run(&mut self, first: u32, contents: &mut [[u8; SECTOR]]) -> Result<(), ReadFault> {
        if self.journal.read_run(first, contents).is_err() {
            return Err(ReadFault);
        }
        Ok(())
    }
}
