//! Runs in the sectors that a node's runs are kept in.

ghost use Rattle.std.specs.Prelude.{◌≡◌, ◌<◌, ◌≤◌, ◌+◌, ◌++◌, ℕ, List, length, drop, take, replicate, vec_len, IsErrOf, IfOk};
ghost use Rattle.std.specs.List.{AllByRecursion};
ghost use Rattle.extents.specs.declared.run.Run.{Run};
ghost use Rattle.extents.specs.Sector.{run_bytes, run_sector, IsRun, FillSector};

use crate::fault::ExtentsFault;
use crate::run::Run;
use sector::{SIZE, put_bytes, put_u16, put_u32, put_zeros, u16_at, u32_at};
use std::alloc::{AllocError, Global};

/// The most runs of a sector.
pub const MAX_SECTOR_RUNS: usize = 500;

/// The offset of the runs in a sector, and how long each is.
const FIRST: usize = 96;

const WIDTH: usize = 8;

fn put_run(sector: &mut [u8; SIZE], at: usize, run: Run)
    requires { at + WIDTH ≤ SIZE }
    ensures prefix { take (at + WIDTH) sector.new ≡ take at sector.old ++ run_bytes run }
    ensures len { length sector.new ≡ SIZE }
{
    put_u16(sector, at, run.block);
    put_u16(sector, at + 2, run.length);
    put_u32(sector, at + 4, run.sector);
}

fn run_at(sector: &[u8; SIZE], at: usize) -> Run
    requires { at + WIDTH ≤ SIZE }
    ensures run { (run : Run) (rest : List ℕ) → IsRun run
        → drop at sector.now ≡ run_bytes run ++ rest → result ≡ run }
    ensures none { (rest : List ℕ) → drop at sector.now ≡ replicate WIDTH 0 ++ rest
        → result.length ≡ 0 }
{
    Run {
        block: u16_at(sector, at),
        length: u16_at(sector, at + 2),
        sector: u32_at(sector, at + 4),
    }
}

/// Writes a run sector.
pub fn write_run_sector(runs: &[Run], sector: &mut [u8; SIZE])
    requires { length runs.now ≤ MAX_SECTOR_RUNS }
    ensures { sector.new ≡ run_sector runs.now }
{
    put_bytes(sector, 0, b"RUNS");
    put_zeros(sector, 4, FIRST - 4);
    for (i, run) in runs.iter().enumerate() {
        put_run(sector, FIRST + WIDTH * i, *run);
    }
    let end = FIRST + WIDTH * runs.len();
    put_zeros(sector, end, SIZE - end);
}

/// The runs that would be in a sector, whatever else it holds.
fn runs_in(alloc: Global, sector: &[u8; SIZE]) -> Result<Vec<Run>, AllocError>
    ensures few { IfOk result (λ runs. vec_len runs ≤ MAX_SECTOR_RUNS) }
    ensures each { IfOk result (λ runs. AllByRecursion IsRun runs.items) }
    ensures only { IfOk result (λ runs. (others : List Run) → FillSector others
        → sector.now ≡ run_sector others → runs.items ≡ others) }
{
    let mut runs = Vec::new(alloc);
    for i in 0..MAX_SECTOR_RUNS {
        let run = run_at(sector, FIRST + WIDTH * i);
        if run.length == 0 {
            return Ok(runs);
        }
        runs.push(run)?;
    }
    Ok(runs)
}

/// The runs of a run sector: one at least, none of them empty.
///
/// # Errors
/// `NotRuns` exactly if no runs have these bytes.
pub fn read_run_sector(alloc: Global, sector: &[u8; SIZE]) -> Result<Vec<Run>, ExtentsFault>
    ensures fill { IfOk result (λ runs. FillSector runs.items) }
    ensures found { IfOk result (λ runs. sector.now ≡ run_sector runs.items) }
    ensures not_runs { IsErrOf result ExtentsFault.NotRuns
        → (runs : List Run) → FillSector runs → ¬ (sector.now ≡ run_sector runs) }
{
    let runs = runs_in(alloc, sector)?;
    let mut encoded = [0; SIZE];
    write_run_sector(&runs, &mut encoded);
    if runs.is_empty() || encoded != *sector {
        return Err(ExtentsFault::NotRuns);
    }
    Ok(runs)
}
