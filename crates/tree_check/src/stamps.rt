//! The stamps of names, which are cookies: no two names of a volume have the same.

ghost use Rattle.std.specs.Prelude.{◌≡◌, ◌++◌, ◌↔◌, IsTrue, IfOk, OnOk};
ghost use Rattle.tree_check.specs.Stamps.{entry_stamps, stamps_of, AreDifferent, AreStampsApart};

use directory::Names;
use node_table::Table;
use std::alloc::{AllocError, Global};

fn push_stamps(stamps: &mut Vec<u64>, names: &Names) -> Result<(), AllocError>
    ensures { OnOk result (stamps.new.items ≡ stamps.old.items ++ stamps_of names.now) }
{
    for place in 0..names.len() {
        stamps.push(names.entry(place).stamp)?;
    }
    Ok(())
}

/// The stamps of all names, directory by directory.
fn stamps_of(alloc: Global, table: &Table) -> Result<Vec<u64>, AllocError>
    ensures { IfOk result (λ stamps. stamps.items ≡ entry_stamps table.now) }
{
    let mut stamps = Vec::new(alloc);
    for place in 0..table.places() {
        if let Some(cached) = table.cached(place) {
            push_stamps(&mut stamps, &cached.names)?;
        }
    }
    Ok(stamps)
}

/// Whether no two neighbours are the same.
fn are_different(stamps: &[u64]) -> bool
    ensures { IsTrue result ↔ AreDifferent stamps.now }
{
    for i in 1..stamps.len() {
        if stamps[i - 1] == stamps[i] {
            return false;
        }
    }
    true
}

/// Whether no two names of a volume have the same stamp, in one directory or in two.
///
/// # Errors
///
/// `AllocError` if there is no memory for one stamp per name.
pub(crate) fn are_stamps_apart(alloc: Global, table: &Table) -> Result<bool, AllocError>
    ensures { IfOk result (λ are. IsTrue are ↔ AreStampsApart table.now) }
{
    let mut stamps = stamps_of(alloc, table)?;
    stamps.sort()?;
    Ok(are_different(&stamps))
}
