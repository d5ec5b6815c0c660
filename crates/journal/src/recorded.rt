//! What the commit record names, kept in memory, so that copying it home reads nothing.

ghost use Rattle.std.specs.Prelude.{◌≡◌, ◌≤◌, ◌+◌, ◌++◌, ℕ, [], false, length, vec_capacity, IfOk, IsTrue};
ghost use Rattle.disk.specs.Moments.{Image, applied};
ghost use Rattle.journal.specs.Index.{IsIndexOf};
ghost use Rattle.journal.specs.Layout.{targets};
ghost use Rattle.journal.specs.Transactions.{has};

use crate::index::SectorIndex;
use crate::layout::MAX_TARGETS;
use disk::{SECTOR, Update};
use std::alloc::{AllocError, Global};
use std::mem;

/// The targets of the commit record, and what the payload has for them.
#[derive(Drop)]
pub(crate) struct Recorded {
    /// In the order that the commit record names them in.
    pub(crate) targets: Vec<u32>,
    /// The same sectors, each with its content.
    pub(crate) updates: Vec<Update>,
    /// The index of the updates' sectors.
    pub(crate) index: SectorIndex,
}

impl Recorded {
    /// Memory for all that a commit record can name, if the log has `sectors` sectors.
    pub(crate) fn new(alloc: Global, sectors: usize) -> Result<Recorded, AllocError>
        ensures room { IfOk result (λ recorded. (sectors ≤ vec_capacity recorded.targets)
            × (sectors ≤ vec_capacity recorded.updates)
            × (sectors ≤ vec_capacity recorded.index.entries)) }
        ensures none { IfOk result
            (λ recorded. (recorded.targets.items ≡ []) × (recorded.updates.items ≡ [])
            × (recorded.index.entries.items ≡ [])) }
    {
        Ok(Recorded {
            targets: Vec::with_capacity(alloc, sectors)?,
            updates: Vec::with_capacity(alloc, sectors)?,
            index: SectorIndex::new(alloc, sectors)?,
        })
    }

    /// Nothing is named any more.
    pub(crate) fn clear(&mut self)
        ensures none { (self.new.targets.items ≡ []) × (self.new.updates.items ≡ []) }
        ensures indexed { IsIndexOf self.new.index.entries.items (targets self.new.updates.items) }
        ensures capacity { (vec_capacity self.new.targets ≡ vec_capacity self.old.targets)
            × (vec_capacity self.new.updates ≡ vec_capacity self.old.updates)
            × (vec_capacity self.new.index.entries ≡ vec_capacity self.old.index.entries) }
    {
        self.targets.clear();
        self.updates.clear();
        self.index.clear();
    }

    /// Puts into `content` what is recorded of sector `n`, if anything is.
    pub(crate) fn get(&self, n: u32, content: &mut [u8; SECTOR]) -> bool
        requires named { targets self.now.updates.items ≡ self.now.targets.items }
        requires indexed { IsIndexOf self.now.index.entries.items (targets self.now.updates.items) }
        ensures found { IsTrue result → (image : Image)
            → content.new ≡ applied self.now.updates.items image n }
        ensures missing { result ≡ false
            → (has self.now.targets.items n ≡ false) × (content.new ≡ content.old) }
    {
        match self.index.find(n) {
            Some(place) => {
                *content = self.updates[place].content;
                true
            }
            None => false,
        }
    }

    /// Takes over the updates of the targets named last. If there are no others, no sector is
    /// copied.
    pub(crate) fn take_over(&mut self, updates: &mut Vec<Update>)
        requires room { (length self.old.updates.items + length updates.old.items
            ≤ vec_capacity self.old.updates) × (length self.old.updates.items
            + length updates.old.items ≤ vec_capacity self.old.index.entries) }
        requires few { length self.old.updates.items + length updates.old.items ≤ MAX_TARGETS }
        requires indexed { IsIndexOf self.old.index.entries.items (targets self.old.updates.items) }
        ensures items { self.new.updates.items ≡ self.old.updates.items ++ updates.old.items }
        ensures targets { self.new.targets ≡ self.old.targets }
        ensures emptied { updates.new.items ≡ [] }
        ensures capacity { (sectors : ℕ) → sectors ≤ vec_capacity self.old.updates
            → sectors ≤ vec_capacity updates.old
            → (sectors ≤ vec_capacity self.new.updates) × (sectors ≤ vec_capacity updates.new) }
        ensures indexed { IsIndexOf self.new.index.entries.items (targets self.new.updates.items) }
        ensures index_room { vec_capacity self.new.index.entries
            ≡ vec_capacity self.old.index.entries }
    {
        self.index.put_all(self.updates.len(), updates);
        if self.updates.is_empty() {
            mem::swap(&mut self.updates, updates);
        } else {
            // there is room for them
            let _ = self.updates.append(updates);
        }
    }
}
