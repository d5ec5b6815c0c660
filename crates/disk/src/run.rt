//! Neighbouring sectors that were written, and are not yet handed on.

ghost use Rattle.std.specs.Prelude.{◌≡◌, ◌≤◌, ◌<◌, ◌+◌, ◌^◌, ◌==◌, ◌↔◌, ℕ, [], Some, None, length, slice_index_or, unwrap_or, vec_len, vec_capacity, flat_map, if◌then◌else◌, IsTrue, IfOk, OnErr, option_copied};
ghost use Rattle.disk.specs.declared.run.TheConstants.{RUN_SECTORS};

use crate::{DiskFault, SECTOR};
use std::alloc::Global;

/// The most sectors of a run, which are 256 KiB. 64 sectors share the cost of a file write beyond
/// the copy of its bytes: longer runs would take memory and save next to nothing.
pub(crate) const RUN_SECTORS: usize = 64;

/// Sectors whose numbers follow one another, each with its newest content.
///
/// All its memory is taken when it is made.
#[derive(Drop)]
pub(crate) struct Run {
    first: u32,
    sectors: Vec<[u8; SECTOR]>,
    ghost few: { vec_len sectors ≤ RUN_SECTORS },
    ghost room: { RUN_SECTORS ≤ vec_capacity sectors },
}

impl Run {
    ghost use Rattle.disk.specs.Run.{first_of, contents_of, newest_in, RunTakes};

    /// A run of no sector. Fails only for lack of memory.
    pub(crate) fn new(alloc: Global) -> Result<Run, DiskFault>
        ensures empty { IfOk result (λ run. contents_of run ≡ []) }
        ensures memory { OnErr result (result ≡ Err DiskFault.Memory) }
    {
        match Vec::with_capacity(alloc, RUN_SECTORS) {
            Ok(sectors) => Ok(Run { first: 0, sectors }),
            Err(_) => Err(DiskFault::Memory),
        }
    }

    /// The number of the first sector.
    pub(crate) fn first(&self) -> u32
        ensures { result ≡ first_of self.now }
    {
        self.first
    }

    /// The contents of all its sectors, one after the other.
    pub(crate) fn bytes(&self) -> &[u8]
        ensures { result.now ≡ flat_map (λ content. content) (contents_of self.now) }
    {
        self.sectors.as_flattened()
    }

    /// The content of sector `n`, if the run has it.
    pub(crate) fn get(&self, n: u32) -> Option<&[u8; SECTOR]>
        ensures { option_copied result ≡ newest_in self.now n }
    {
        if n < self.first {
            return None;
        }
        self.sectors.get((n - self.first) as usize)
    }

    /// Puts into `contents`, which are of the sectors from `first` on, those that the run has.
    pub(crate) fn copy_over(&self, first: u32, contents: &mut [[u8; SECTOR]])
        requires { first + length contents.old < 2 ^ 32 }
        ensures { (i : ℕ) → i < length contents.old → slice_index_or contents.new i []
            ≡ unwrap_or (newest_in self.now (first + i)) (slice_index_or contents.old i []) }
    {
        for (i, content) in contents.iter_mut().enumerate() {
            if let Some(newest) = self.get(first + i as u32) {
                *content = *newest;
            }
        }
    }

    /// Whether sector `n` is in the run or just after it, with room left: an empty run takes any.
    pub(crate) fn takes(&self, n: u32) -> bool
        ensures { IsTrue result ↔ RunTakes self.now n }
    {
        if self.sectors.is_empty() {
            return true;
        }
        if n < self.first {
            return false;
        }
        let place = (n - self.first) as usize;
        place <= self.sectors.len() && place < RUN_SECTORS
    }

    /// Puts the newest content of sector `n` in its place.
    pub(crate) fn put(&mut self, n: u32, content: &[u8; SECTOR])
        requires { RunTakes self.old n }
        ensures { (m : ℕ) → newest_in self.new m
            ≡ (if m == n then Some content.now else newest_in self.old m) }
    {
        if self.sectors.is_empty() {
            self.first = n;
        }
        let place = (n - self.first) as usize;
        if place < self.sectors.len() {
            self.sectors[place] = *content;
        } else {
            self.sectors.push_reserved(*content);
        }
    }

    /// Drops its sectors, and keeps its memory.
    pub(crate) fn clear(&mut self)
        ensures { contents_of self.new ≡ [] }
    {
        self.sectors.clear();
    }
}
