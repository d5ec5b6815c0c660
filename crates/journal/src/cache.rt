//! The sectors that were read last.

ghost use Rattle.std.specs.Prelude.{◌≡◌, ◌≤◌, ◌<◌, ◌⊎◌, ℕ, List, [], false, IsTrue, IfOk};
ghost use Rattle.std.specs.List.{Contains};
ghost use Rattle.journal.specs.Cached.{AreAmong};
ghost use Rattle.journal.specs.Layout.{targets};
ghost use Rattle.journal.specs.Transactions.{has};

use crate::layout::FIRST_TARGET;
use disk::{SECTOR, Update};
use lru::LruCache;
use std::alloc::{AllocError, Global};
use std::num::NonZeroUsize;

/// The sectors that were used last and their contents, as many as there is room for.
#[derive(Drop)]
pub(crate) struct Cache {
    pub(crate) sectors: LruCache<u32, [u8; SECTOR]>,
}

impl Cache {
    /// A cache with room for `room` sectors, which has none yet.
    pub(crate) fn new(alloc: Global, room: NonZeroUsize) -> Result<Cache, AllocError>
        ensures { IfOk result (λ cache. cache.sectors.entries ≡ []) }
    {
        Ok(Cache {
            sectors: LruCache::new(alloc, room)?,
        })
    }

    /// Puts into `content` what is kept of sector `n`, if it is kept.
    pub(crate) fn get(&mut self, n: u32, content: &mut [u8; SECTOR]) -> bool
        ensures found { IsTrue result → Contains self.old.sectors.entries (n, content.new) }
        ensures missing { result ≡ false → content.new ≡ content.old }
        ensures among { AreAmong self.new.sectors.entries self.old.sectors.entries }
    {
        match self.sectors.peek(&n).copied() {
            Some(kept) => {
                let _ = self.sectors.promote(&n);
                *content = kept;
                true
            }
            None => false,
        }
    }

    /// Keeps what sector `n` holds, if it is one that a transaction may write: from the first one
    /// on and below this end. If there is no memory for it, it is left out.
    pub(crate) fn keep(&mut self, n: u32, end: u32, content: &[u8; SECTOR])
        ensures { (entry : ℕ × List ℕ) → Contains self.new.sectors.entries entry
            → Contains self.old.sectors.entries entry
            ⊎ ((FIRST_TARGET ≤ n) × (n < end) × (entry ≡ (n, content.now))) }
    {
        if n >= FIRST_TARGET && n < end {
            let _ = self.sectors.push(n, *content);
        }
    }

    /// Forgets the sectors that these updates write.
    pub(crate) fn forget(&mut self, updates: &[Update])
        ensures among { AreAmong self.new.sectors.entries self.old.sectors.entries }
        ensures gone { (n : ℕ) (content : List ℕ) → Contains self.new.sectors.entries (n, content)
            → has (targets updates.now) n ≡ false }
    {
        for update in updates {
            self.forget_one(update.target);
        }
    }

    fn forget_one(&mut self, n: u32)
        ensures among { AreAmong self.new.sectors.entries self.old.sectors.entries }
        ensures gone { (content : List ℕ) → ¬ Contains self.new.sectors.entries (n, content) }
    {
        // a cache's length says that no two of its keys are the same
        let _ = self.sectors.len();
        let _ = self.sectors.pop(&n);
    }
}
