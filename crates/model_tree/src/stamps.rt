//! Stamps, which number the changes of all runs.

ghost use Rattle.std.specs.Prelude.{◌≡◌};
ghost use Rattle.model_tree.specs.Trees.Stamp.{stamp};

const STAMPS_PER_RUN: u64 = 0x1_0000_0000;

/// The stamp of change `n` of a run.
pub fn stamp(run: u32, n: u32) -> u64
    ensures { result ≡ stamp run n }
{
    u64::from(run) * STAMPS_PER_RUN + u64::from(n)
}
