//! What a migration writes, all of which is made before the first write.

ghost use Rattle.std.specs.Prelude.{◌≡◌, ◌≤◌, ◌<◌, ◌+◌, ◌-◌, ◌^◌, [], ◌∷◌, Some, length, map, IfOk};
ghost use Rattle.inode.specs.Fields.{IsInode};
ghost use Rattle.inode.specs.declared.node.Form.TheVariants.{Two};
ghost use Rattle.migration.specs.Plans as plans;
ghost use Rattle.migration.specs.Plans.{FitSecond, step};

use disk::{SECTOR, Update};
use inode::{Form, to_sector};
use layout::places::{MARK, NODES};
use layout::versions::mark_sector;
use node_table::{CachedNode, Table};
use std::alloc::{AllocError, Global};

/// How many places of the node table one transaction moves: with the mark they are the 48 sectors
/// that a transaction may have.
const PLACES_AT_ONCE: u32 = 47;

/// A node in form two.
fn moved_node(place: u32, cached: &CachedNode) -> Update
    requires fit { IsInode Two cached.now.fields }
    requires small { NODES + place < 2 ^ 32 }
    ensures { plans.moved_node place (Some cached.now) ≡ result ∷ [] }
{
    let mut content = [0; SECTOR];
    to_sector(&cached.inode, Form::Two, &mut content);
    Update {
        target: NODES + place,
        content,
    }
}

/// The mark that counts `moved` places.
fn mark_update(moved: u32) -> Update
    ensures { result ≡ plans.mark_update moved }
{
    Update {
        target: MARK,
        content: mark_sector(Some(moved)),
    }
}

/// One transaction: the nodes of these places, and the mark with their end.
fn transaction(alloc: Global, table: &Table, from: u32, to: u32) -> Result<Vec<Update>, AllocError>
    requires fit { FitSecond table.now }
    requires rising { from ≤ to }
    requires few { to ≤ Table.MAX_NODES }
    ensures { IfOk result (λ updates. updates.items ≡ step table.now from (to - from)) }
{
    let mut updates = Vec::with_capacity(alloc, (to - from) as usize + 1)?;
    for place in from..to {
        if let Some(cached) = table.cached(place) {
            updates.push(moved_node(place, cached))?;
        }
    }
    updates.push(mark_update(to))?;
    Ok(updates)
}

/// All transactions, if the first `moved` places are already done.
pub(crate) fn plan(alloc: Global, table: &Table, moved: u32) -> Result<Vec<Vec<Update>>, AllocError>
    requires fit { FitSecond table.now }
    requires within { moved ≤ length table.now }
    ensures { IfOk result (λ plan. map (λ updates. updates.items) plan.items
        ≡ plans.plan table.now moved) }
{
    let places = table.places();
    let count = (places - moved).div_ceil(PLACES_AT_ONCE);
    let mut transactions = Vec::with_capacity(alloc, count as usize)?;
    for i in 0..count {
        let from = moved + PLACES_AT_ONCE * i;
        let to = places.min(from + PLACES_AT_ONCE);
        transactions.push(transaction(alloc, table, from, to)?)?;
    }
    Ok(transactions)
}
