//! Numbers, none of which may occur twice.

ghost use Rattle.std.specs.Prelude.{◌≤◌, ◌↔◌, ℕ, IsTrue, IfOk};
ghost use Rattle.layout.specs.Marks.{times};
ghost use Rattle.volume_load.specs.Numbers.{AreDifferent};

use std::alloc::AllocError;

/// Whether no two neighbours are the same.
fn are_different(numbers: &[u64]) -> bool
    ensures { IsTrue result ↔ AreDifferent numbers.now }
{
    for i in 1..numbers.len() {
        if numbers[i - 1] == numbers[i] {
            return false;
        }
    }
    true
}

/// Whether no number occurs twice.
pub(crate) fn are_apart(mut numbers: Vec<u64>) -> Result<bool, AllocError>
    ensures { IfOk result (λ are. IsTrue are ↔ ((n : ℕ) → times n numbers.items ≤ 1)) }
{
    numbers.sort()?;
    Ok(are_different(&numbers))
}
