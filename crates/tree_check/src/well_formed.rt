//! Whether a volume's nodes are a well-formed tree.

ghost use Rattle.std.specs.Prelude.{◌+◌, ◌↔◌, IsTrue, IfOk};
ghost use Rattle.tree_check.specs.WellFormed.{AreWellFormed, DoFit};

use crate::ages::are_before;
use crate::nodes::are_nodes_allowed;
use crate::stamps::are_stamps_apart;
use crate::walk::is_one_tree;
use model_tree::limits::Limits;
use node_table::Table;
use std::alloc::{AllocError, Global};

fn do_fit(table: &Table, limits: &Limits) -> bool
    ensures { IsTrue result ↔ DoFit limits.now table.now }
{
    table.charge() <= limits.data_sectors as u64 && table.count() as usize <= limits.nodes
}

/// Whether a volume's nodes are a well-formed tree with no stamp past a last one: they make one
/// tree within the limits, of nodes that the limits allow, no two names have the same stamp, and no
/// stamp is above this last one.
///
/// # Errors
///
/// `AllocError` if there is no memory for one mark and one place per node, and for one stamp per
/// name.
pub fn are_well_formed(
    alloc: Global,
    table: &Table,
    limits: &Limits,
    last: u64,
) -> Result<bool, AllocError>
    ensures { IfOk result (λ are. IsTrue are ↔ AreWellFormed limits.now (last + 1) table.now) }
{
    if !do_fit(table, limits) || !are_nodes_allowed(table, limits) || !are_before(table, last) {
        return Ok(false);
    }
    Ok(is_one_tree(alloc, table)? && are_stamps_apart(alloc, table)?)
}
