//! The result of edits.

ghost use Rattle.std.specs.Prelude.{◌≡◌, length, IfOk, IsErrOf};
ghost use Rattle.tree_edits.specs.Edits.{AreDoable, StayFew};
ghost use Rattle.tree_edits.specs.Outcomes.{ComesTo, PrefixesHaveRoom, IsWholeVolume};
ghost use Rattle.tree_edits.specs.Outlines.{tree_without_data};
ghost use Rattle.layout.specs.Health.{FailsOrStays};

use crate::doing::edit_all;
use crate::edit::Edit;
use freemap::SharedBitmap;
use layout::sectors::Sectors;
use layout::versions::Marking;
use node_table::Table;
use std::alloc::Global;
use tree_transaction::{PreparedTransaction, Transaction, TransactionFault};

/// The result of edits of a volume, as one transaction: its updates, marks included, and the places
/// and cached nodes that memory is then to keep. The table and the places do not change. There must
/// be room after each of the edits. The data region ends with the places, and `marking` says what
/// marks its used sectors.
///
/// # Errors
///
/// [`TransactionFault::Device`] if the device failed, [`TransactionFault::Memory`], never
/// [`TransactionFault::Full`].
pub fn outcome_of<S: Sectors>(
    alloc: Global,
    base: &mut S,
    table: &Table,
    places: &SharedBitmap,
    marking: Marking,
    edits: &[Edit<'_>],
) -> Result<PreparedTransaction, TransactionFault>
    requires whole { IsWholeVolume marking (S.size (S.kept base.old)) table.now places.now }
    requires can { AreDoable (tree_without_data table.now) edits.now }
    requires few { StayFew (tree_without_data table.now) edits.now }
    requires room { PrefixesHaveRoom (length places.now) (length table.now)
        (tree_without_data table.now) edits.now }
    ensures done { IfOk result (λ outcome. ComesTo S.keeps_word marking
        (S.image (S.kept base.old)) (S.size (S.kept base.old)) table.now places.now edits.now
        outcome) }
    // If it fails
    ensures full { ¬ IsErrOf result TransactionFault.Full }
    ensures health { FailsOrStays (S.health base.old) (S.health base.new)
        (IsErrOf result TransactionFault.Device) }
    // However it ends
    ensures kept { S.kept base.new ≡ S.kept base.old }
{
    let mut transaction = Transaction::new(alloc, table, places)?;
    edit_all(&mut transaction, base, edits)?;
    transaction.finish(marking, places)?;
    Ok(transaction.into_prepared())
}
