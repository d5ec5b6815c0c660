//! The last place of a sector in a list, found by binary search.

ghost use Rattle.std.specs.Prelude.{◌≡◌, ◌≤◌, ◌<◌, ◌+◌, ◌^◌, ◌++◌, ◌∷◌, [], ℕ, List, false, length, vec_capacity, IfOk, IfErr};
ghost use Rattle.std.specs.List.Sorted.{IsSearchInRange};
ghost use Rattle.std.specs.Option.{IfSome, IfNone};
ghost use Rattle.journal.specs.Index.{IsEntryOf, IsGapFor, IsIndexOf, IsRising};
ghost use Rattle.journal.specs.Layout.{targets};
ghost use Rattle.journal.specs.Transactions.{has, IsLastPlace};

use disk::Update;
use std::alloc::{AllocError, Global};

/// The sectors of a list, by rising number, each with its last place.
#[derive(Drop)]
pub(crate) struct SectorIndex {
    pub(crate) entries: Vec<(u32, u32)>,
}

impl SectorIndex {
    /// The index of an empty list, with memory for a list of `sectors` sectors.
    pub(crate) fn new(alloc: Global, sectors: usize) -> Result<SectorIndex, AllocError>
        ensures none { IfOk result (λ index. index.entries.items ≡ []) }
        ensures room { IfOk result (λ index. vec_capacity index.entries ≡ sectors) }
    {
        Ok(SectorIndex {
            entries: Vec::with_capacity(alloc, sectors)?,
        })
    }

    /// The list is empty again.
    pub(crate) fn clear(&mut self)
        ensures none { self.new.entries.items ≡ [] }
        ensures capacity { vec_capacity self.new.entries ≡ vec_capacity self.old.entries }
    {
        self.entries.clear();
    }

    /// The last place of sector `n` in the list.
    pub(crate) fn find(&self, n: u32) -> Option<usize>
        ensures found { (sectors : List ℕ) → IsIndexOf self.now.entries.items sectors
            → IfSome result (λ place. IsLastPlace sectors n place) }
        ensures none { (sectors : List ℕ) → IsIndexOf self.now.entries.items sectors
            → IfNone result (has sectors n ≡ false) }
    {
        match self.search(n) {
            Ok(at) => Some(self.entries[at].1 as usize),
            Err(_) => None,
        }
    }

    /// Sector `n` comes behind the list, at this place.
    pub(crate) fn put(&mut self, n: u32, place: usize)
        requires few { length self.old.entries.items ≤ place }
        requires room { place < vec_capacity self.old.entries }
        requires small { place < 2 ^ 32 }
        ensures indexed { (sectors : List ℕ) → IsIndexOf self.old.entries.items sectors
            → length sectors ≡ place → IsIndexOf self.new.entries.items (sectors ++ n ∷ []) }
        ensures few { length self.new.entries.items ≤ place + 1 }
        ensures capacity { vec_capacity self.new.entries ≡ vec_capacity self.old.entries }
    {
        let entry = (n, place as u32);
        match self.search(n) {
            Ok(at) => self.entries[at] = entry,
            Err(at) => {
                // there is room for it
                let _ = self.entries.insert(at, entry);
            }
        }
    }

    /// The sectors of these updates come behind the list, which has `count`.
    pub(crate) fn put_all(&mut self, count: usize, updates: &[Update])
        requires few { length self.old.entries.items ≤ count }
        requires room { count + length updates.now ≤ vec_capacity self.old.entries }
        requires small { count + length updates.now ≤ 2 ^ 32 }
        ensures indexed { (sectors : List ℕ) → IsIndexOf self.old.entries.items sectors
            → length sectors ≡ count
            → IsIndexOf self.new.entries.items (sectors ++ targets updates.now) }
        ensures capacity { vec_capacity self.new.entries ≡ vec_capacity self.old.entries }
    {
        for (i, update) in updates.iter().enumerate() {
            self.put(update.target, count + i);
        }
    }

    /// Where the entry of sector `n` is, or where it would go.
    fn search(&self, n: u32) -> Result<usize, usize>
        ensures bound { IsSearchInRange result (length self.now.entries.items) }
        ensures found { IsRising self.now.entries.items
            → IfOk result (IsEntryOf self.now.entries.items n) }
        ensures absent { IsRising self.now.entries.items
            → IfErr result (IsGapFor self.now.entries.items n) }
    {
        self.entries.binary_search_by_key(&n, |entry| entry.0)
    }
}

/// A list of sectors with its index.
#[derive(Drop)]
pub(crate) struct SectorList {
    pub(crate) sectors: Vec<u32>,
    index: SectorIndex,
    ghost indexed: { IsIndexOf index.entries.items sectors.items },
    ghost index_room: { vec_capacity sectors ≤ vec_capacity index.entries },
    ghost small: { vec_capacity sectors ≤ 2 ^ 32 },
}

impl SectorList {
    /// An empty list with memory for `sectors` sectors.
    pub(crate) fn new(alloc: Global, sectors: u32) -> Result<SectorList, AllocError>
        ensures none { IfOk result (λ list. list.sectors.items ≡ []) }
        ensures room { IfOk result (λ list. sectors ≤ vec_capacity list.sectors) }
    {
        Ok(SectorList {
            sectors: Vec::with_capacity(alloc, sectors as usize)?,
            index: SectorIndex::new(alloc, sectors as usize)?,
        })
    }

    /// The last place of sector `n`.
    pub(crate) fn find(&self, n: u32) -> Option<usize>
        ensures found { IfSome result (λ place. IsLastPlace self.now.sectors.items n place) }
        ensures none { IfNone result (has self.now.sectors.items n ≡ false) }
    {
        self.index.find(n)
    }

    /// Whether the list has sector `n`.
    pub(crate) fn contains(&self, n: u32) -> bool
        ensures { result ≡ has self.now.sectors.items n }
    {
        self.find(n).is_some()
    }

    /// Puts a sector behind the others.
    pub(crate) fn push(&mut self, n: u32)
        requires { length self.old.sectors.items < vec_capacity self.old.sectors }
        ensures items { self.new.sectors.items ≡ self.old.sectors.items ++ n ∷ [] }
        ensures capacity { vec_capacity self.new.sectors ≡ vec_capacity self.old.sectors }
    {
        self.index.put(n, self.sectors.len());
        self.sectors.push_reserved(n);
    }

    /// Leaves no sector.
    pub(crate) fn clear(&mut self)
        ensures none { self.new.sectors.items ≡ [] }
        ensures capacity { vec_capacity self.new.sectors ≡ vec_capacity self.old.sectors }
    {
        self.sectors.clear();
        self.index.clear();
    }
}
