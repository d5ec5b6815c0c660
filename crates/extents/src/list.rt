//! The sectors of a node's blocks.

ghost use Rattle.std.specs.Prelude.{◌≡◌, ◌≢◌, ◌<◌, ◌≤◌, ◌+◌, ◌^◌, ℕ, List, [], Option, Some, None, length, take, count_by, is_some, slice_index_or, slice_set, vec_len, IsErrOf, IsTrue, IfOk, OnOk, OnErr, ◌↔◌};
ghost use Rattle.std.specs.List.{AllByRecursion};
ghost use Rattle.extents.specs.Runs.{RunsApart, AreRising, AreRunsOf, IsRunAt, IsLaidBehind, with_holes};
ghost use Rattle.extents.specs.Sector.{IsRun};

use crate::fault::ExtentsFault;
use crate::run::Run;
use crate::shared::Shared;
use std::alloc::{AllocError, Global};
use std::marker::Model;

/// The sector of each block of a node, up to 4,096 blocks; a block without a sector is a hole, all
/// zero. A copy shares the sectors' memory until one of the two changes.
///
/// Contracts see the list of the sectors.
#[derive(Drop)]
pub struct BlockList {
    /// The sectors of the blocks, and maybe others after them.
    shared: Shared,
    count: usize,
}

impl Model for BlockList {
    ghost use Rattle.std.specs.Prelude.{ℕ, List, Option, length, take, ◌≤◌};
    ghost use Rattle.extents.specs.declared.list.TheConstants.BlockList.{MAX_BLOCKS};

    ghost Value = { List (Option ℕ) };

    ghost view = { λ list. take list.count list.shared };

    ghost invariant = { λ list. (list.count ≤ length list.shared) × (list.count ≤ MAX_BLOCKS) };
}

impl BlockList {
    /// The most blocks of a node.
    pub const MAX_BLOCKS: u32 = 4096;

    /// No blocks.
    pub fn new(alloc: Global) -> BlockList
        ensures { result ≡ [] }
    {
        BlockList {
            shared: Shared::new(alloc),
            count: 0,
        }
    }

    /// A copy of the list, which shares the memory of its sectors.
    pub fn try_clone(&self) -> Result<BlockList, AllocError>
        ensures { IfOk result (λ list. list ≡ self.now) }
    {
        Ok(BlockList {
            shared: self.shared.try_clone()?,
            count: self.count,
        })
    }

    /// How many blocks there are, holes included.
    pub fn len(&self) -> u32
        ensures count { result ≡ length self.now }
        ensures most { length self.now ≤ BlockList.MAX_BLOCKS }
    {
        self.count as u32
    }

    /// The sector of a block; none if it is a hole, or past the last block.
    pub fn at(&self, block: u32) -> Option<u32>
        ensures { result ≡ slice_index_or self.now block None }
    {
        sector_at(self.sectors(), block as usize)
    }

    /// Puts a block into a sector. The blocks between the last one and this one become holes. An
    /// `Err` changes nothing.
    pub fn set(&mut self, block: u32, sector: u32) -> Result<(), AllocError>
        requires { block < BlockList.MAX_BLOCKS }
        ensures ok { OnOk result
            (self.new ≡ slice_set (with_holes self.old (block + 1)) block (Some sector)) }
        ensures err { OnErr result (self.new ≡ self.old) }
    {
        let block = block as usize;
        let count = self.count.max(block + 1);
        self.shared.put(self.count, count, block, sector)?;
        self.count = count;
        Ok(())
    }

    /// Puts holes at the end, so that there are at least `count` blocks. An `Err` changes nothing.
    pub fn grow(&mut self, count: u32) -> Result<(), AllocError>
        requires { count ≤ BlockList.MAX_BLOCKS }
        ensures ok { OnOk result (self.new ≡ with_holes self.old count) }
        ensures err { OnErr result (self.new ≡ self.old) }
    {
        let count = count as usize;
        if count > self.count {
            self.shared.grow(self.count, count)?;
            self.count = count;
        }
        Ok(())
    }

    /// Keeps at most the first `count` blocks.
    pub fn cut(&mut self, count: u32)
        ensures { self.new ≡ take count self.old }
    {
        self.count = self.count.min(count as usize);
    }

    /// The shortest list of runs of these blocks: no two neighbours could be one.
    pub fn to_runs(&self, alloc: Global) -> Result<Vec<Run>, AllocError>
        ensures runs { IfOk result (λ runs. AreRunsOf runs.items self.now) }
        ensures shortest { IfOk result (λ runs. RunsApart runs.items) }

        // Each can be encoded, and there are at most as many as there are blocks that are no holes.
        ensures each { IfOk result (λ runs. AllByRecursion IsRun runs.items) }
        ensures few { IfOk result (λ runs. vec_len runs ≤ count_by is_some self.now) }
        ensures most { IfOk result (λ runs. vec_len runs ≤ BlockList.MAX_BLOCKS) }
    {
        runs_of(alloc, self.sectors())
    }

    /// The `count` blocks of these runs.
    ///
    /// # Errors
    /// `NotRuns` exactly if these are not runs of `count` blocks: one is empty, begins before the
    /// end of the one before it, or passes the last block or the last number of a sector.
    pub fn from_runs(alloc: Global, count: u32, runs: &[Run]) -> Result<BlockList, ExtentsFault>
        requires { count ≤ BlockList.MAX_BLOCKS }
        ensures count { IfOk result (λ list. length list ≡ count) }
        ensures runs { IfOk result (λ list. AreRunsOf runs.now list) }
        ensures not_runs { IsErrOf result ExtentsFault.NotRuns → ¬ AreRising 0 count runs.now }
    {
        let count = count as usize;
        let sectors = laid_out(alloc, count, runs)?;
        let shared = Shared::from_vec(alloc, sectors)?;
        Ok(BlockList { shared, count })
    }

    /// The sectors of the blocks.
    fn sectors(&self) -> &[Option<u32>]
        ensures value { result.now ≡ self.now }
        ensures most { length self.now ≤ BlockList.MAX_BLOCKS }
    {
        &self.shared.as_slice()[..self.count]
    }
}

fn sector_at(sectors: &[Option<u32>], block: usize) -> Option<u32>
    ensures { result ≡ slice_index_or sectors.now block None }
{
    match sectors.get(block) {
        Some(sector) => *sector,
        None => None,
    }
}

/// Whether a block is `count` sectors after the first one of a run.
fn follows(sector: Option<u32>, first: u32, count: usize) -> bool
    requires { count < 2 ^ 32 }
    ensures value { IsTrue result ↔ (sector ≡ Some (first + count)) }
    ensures fits { IsTrue result → first + count < 2 ^ 32 }
{
    match sector {
        Some(sector) => u64::from(sector) == u64::from(first) + count as u64,
        None => false,
    }
}

/// How many blocks from `start` on, whose sector is `first`, are in consecutive sectors.
fn run_length(sectors: &[Option<u32>], start: usize, first: u32) -> u16
    requires small { length sectors.now ≤ BlockList.MAX_BLOCKS }
    requires within { start < length sectors.now }
    requires starts { slice_index_or sectors.now start None ≡ Some first }
    ensures run { IsRunAt sectors.now start first result }
    ensures whole { slice_index_or sectors.now (start + result) None ≢ Some (first + result) }
{
    let mut length = 1;
    while start + length < sectors.len() && follows(sectors[start + length], first, length) {
        length += 1;
    }
    length as u16
}

fn runs_of(alloc: Global, sectors: &[Option<u32>]) -> Result<Vec<Run>, AllocError>
    requires { length sectors.now ≤ BlockList.MAX_BLOCKS }
    ensures runs { IfOk result (λ runs. AreRunsOf runs.items sectors.now) }
    ensures shortest { IfOk result (λ runs. RunsApart runs.items) }
    ensures each { IfOk result (λ runs. AllByRecursion IsRun runs.items) }
    ensures few { IfOk result (λ runs. vec_len runs ≤ count_by is_some sectors.now) }
{
    let mut runs = Vec::new(alloc);
    let mut block = 0;
    while block < sectors.len() {
        match sector_at(sectors, block) {
            None => block += 1,
            Some(sector) => {
                let length = run_length(sectors, block, sector);
                runs.push(Run {
                    block: block as u16,
                    length,
                    sector,
                })?;
                block += length as usize;
            }
        }
    }
    Ok(runs)
}

/// Puts a run after the blocks so far, with holes in between.
fn put_run(sectors: &mut Vec<Option<u32>>, run: Run) -> Result<(), AllocError>
    requires behind { vec_len sectors.old ≤ run.block }
    requires sectors { run.sector + run.length ≤ 2 ^ 32 }
    ensures len { OnOk result (vec_len sectors.new ≡ run.block + run.length) }
    ensures blocks { OnOk result (IsLaidBehind sectors.old.items run sectors.new.items) }
{
    sectors.resize(usize::from(run.block), None)?;
    for i in 0..run.length {
        sectors.push(Some(run.sector + u32::from(i)))?;
    }
    Ok(())
}

/// Whether a run begins at block `from` or after it, and passes neither the last block nor the last
/// number of a sector.
fn fits(run: Run, from: usize, count: usize) -> bool
    ensures { IsTrue result ↔ ((from ≤ run.block) × (0 < run.length)
        × (run.block + run.length ≤ count) × (run.sector + run.length ≤ 2 ^ 32)) }
{
    let end = usize::from(run.block) + usize::from(run.length);
    from <= usize::from(run.block)
        && run.length > 0
        && end <= count
        && u64::from(run.sector) + u64::from(run.length) <= 1 << 32
}

fn laid_out(alloc: Global, count: usize, runs: &[Run]) -> Result<Vec<Option<u32>>, ExtentsFault>
    requires { count ≤ BlockList.MAX_BLOCKS }
    ensures count { IfOk result (λ list. length list.items ≡ count) }
    ensures runs { IfOk result (λ list. AreRunsOf runs.now list.items) }
    ensures not_runs { IsErrOf result ExtentsFault.NotRuns → ¬ AreRising 0 count runs.now }
{
    let mut sectors = Vec::new(alloc);
    for run in runs {
        if !fits(*run, sectors.len(), count) {
            return Err(ExtentsFault::NotRuns);
        }
        put_run(&mut sectors, *run)?;
    }
    sectors.resize(count, None)?;
    Ok(sectors)
}
