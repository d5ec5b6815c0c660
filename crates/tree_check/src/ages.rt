//! Whether all stamps of a volume are at most a given last one.

ghost use Rattle.std.specs.Prelude.{◌+◌, ◌↔◌, IsTrue};
ghost use Rattle.tree_check.specs.Ages.{AreBefore, AreNamesBefore, IsCachedBefore};

use directory::Names;
use node_table::{CachedNode, Table};

fn are_names_before(names: &Names, last: u64) -> bool
    ensures { IsTrue result ↔ AreNamesBefore (last + 1) names.now }
{
    for place in 0..names.len() {
        if names.entry(place).stamp > last {
            return false;
        }
    }
    true
}

fn is_cached_before(cached: &CachedNode, last: u64) -> bool
    ensures { IsTrue result ↔ IsCachedBefore (last + 1) cached.now }
{
    cached.inode.number <= last
        && cached.inode.change <= last
        && are_names_before(&cached.names, last)
}

/// Whether no stamp of a volume's nodes is past this last one: their numbers, change values and the
/// stamps of names.
pub(crate) fn are_before(table: &Table, last: u64) -> bool
    ensures { IsTrue result ↔ AreBefore (last + 1) table.now }
{
    for place in 0..table.places() {
        if let Some(cached) = table.cached(place) {
            if !is_cached_before(cached, last) {
                return false;
            }
        }
    }
    true
}
