//! Performing edits on a transaction.

ghost use Rattle.std.specs.Prelude.{◌≡◌, ◌≤◌, ◌<◌, ◌+◌, [], ◌∷◌, Some, None, All, length, slice_index_or};
ghost use Rattle.std.specs.Prelude.{IsTrue, IfOk, OnOk, IsErrOf};
ghost use Rattle.node_table.specs.Tables.{node_number_at};
ghost use Rattle.tree_transaction.specs.Transactions.{cached_nodes_of, end_of, IsKnown};
ghost use Rattle.tree_transaction.specs.Nodes.{metadata_of, new_cached, HasNode};
ghost use Rattle.tree_edits.specs.declared.edit.Edit.TheVariants as edit;
ghost use Rattle.tree_edits.specs.Doing.{DoesEdits, DoesAll, DoesAnywhere, CanDoAll, Overfills};
ghost use Rattle.tree_edits.specs.Edits.{IsNewNode, IsMetadata, IsNewName, IsName, IsFileTo};
ghost use Rattle.tree_edits.specs.Edits.{CanDo, edit_of, fresh_node};
ghost use Rattle.tree_edits.specs.Edits.{fresh_fields};
ghost use Rattle.tree_edits.specs.Outlines.{tree_without_data};
ghost use Rattle.tree_edits.specs.Parts.{PutsBytes};
ghost use Rattle.inode.specs.declared.node.Form.TheVariants.{Two};
ghost use Rattle.layout.specs.Stands.{HaveCurrentForms};
ghost use Rattle.layout.specs.CachedNodes.{CachedNode as LaidCached};
ghost use Rattle.layout.specs.Health.{FailsOrStays};
ghost use Rattle.model_tree.specs.Trees.Charge.{few_names};
ghost use Rattle.model_tree.specs.Trees.Edit.{PutName, done};
ghost use Rattle.model_tree.specs.Trees.Keyed.{is_key};

use crate::edit::Edit;
use directory::Names;
use extents::{BlockList, Runs};
use inode::{Form, Inode};
use layout::sectors::Sectors;
use model_tree::node::NodeKind;
use node_table::CachedNode;
use std::alloc::{AllocError, Global};
use tree_transaction::{Metadata, SpaceFault, Transaction, TransactionFault};

/// The place of a node.
fn place_of(transaction: &Transaction<'_>, number: u64) -> u32
    requires { IsTrue (is_key number (tree_without_data (cached_nodes_of transaction.now))) }
    ensures { node_number_at (cached_nodes_of transaction.now) result ≡ Some number }
{
    transaction.cached_nodes.find(number).unwrap()
}

fn drop_node(transaction: &mut Transaction<'_>, number: u64) -> Result<(), AllocError>
    requires known { IsKnown transaction.old }
    requires can { IsTrue (is_key number (tree_without_data (cached_nodes_of transaction.old))) }
    ensures done { OnOk result
        (DoesAnywhere transaction.old transaction.new (edit.DropNode number)) }
    ensures table { transaction.new.cached_nodes.table ≡ transaction.old.cached_nodes.table }
{
    let place = place_of(transaction, number);
    transaction.free(place)
}

fn show(
    transaction: &mut Transaction<'_>,
    number: u64,
    metadata: &Metadata,
) -> Result<(), AllocError>
    requires known { IsKnown transaction.old }
    requires forms { HaveCurrentForms (cached_nodes_of transaction.old) }
    requires can { IsMetadata (tree_without_data (cached_nodes_of transaction.old)) number
        (metadata_of metadata.now) }
    ensures done { OnOk result
        (DoesAnywhere transaction.old transaction.new (edit.Show number metadata.now)) }
    ensures table { transaction.new.cached_nodes.table ≡ transaction.old.cached_nodes.table }
{
    let place = place_of(transaction, number);
    transaction.show(place, metadata)
}

fn put_name(
    transaction: &mut Transaction<'_>,
    directory: u64,
    stamp: u64,
    name: &[u8],
    number: u64,
) -> Result<(), SpaceFault>
    // An edit that can be done
    requires known { IsKnown transaction.old }
    requires can { IsNewName (tree_without_data (cached_nodes_of transaction.old)) directory stamp
        (record { name = name.now; number = number }) }
    requires few { IsTrue (few_names Names.MAX_NAMES (done (PutName directory stamp
        (record { name = name.now; number = number }))
        (tree_without_data (cached_nodes_of transaction.old)))) }
    // Done, or full
    ensures done { OnOk result (DoesAnywhere transaction.old transaction.new
        (edit.PutName directory stamp name.entry number)) }
    ensures full { IsErrOf result SpaceFault.Full
        → Overfills transaction.old (edit.PutName directory stamp name.entry number ∷ []) }
    // However it ends
    ensures table { transaction.new.cached_nodes.table ≡ transaction.old.cached_nodes.table }
{
    let place = place_of(transaction, directory);
    transaction.put_name(place, name, stamp, number)
}

fn drop_name(
    transaction: &mut Transaction<'_>,
    directory: u64,
    stamp: u64,
    name: &[u8],
) -> Result<(), AllocError>
    requires known { IsKnown transaction.old }
    requires can { IsName (tree_without_data (cached_nodes_of transaction.old)) directory stamp
        name.now }
    ensures done { OnOk result (DoesAnywhere transaction.old transaction.new
        (edit.DropName directory stamp name.entry)) }
    ensures table { transaction.new.cached_nodes.table ≡ transaction.old.cached_nodes.table }
{
    let place = place_of(transaction, directory);
    transaction.drop_name(place, name)
}

/// The cached node of a node without bytes or names.
fn fresh_cached(
    alloc: Global,
    number: u64,
    kind: NodeKind,
    metadata: &Metadata,
) -> Result<CachedNode, AllocError>
    ensures cached { IfOk result (λ cached. cached ≡ new_cached Two cached.fields) }
    ensures fields { IfOk result (λ cached.
        cached.fields ≡ fresh_fields kind number (metadata_of metadata.now)) }
{
    Ok(CachedNode {
        form: Form::Two,
        inode: Inode {
            kind,
            number,
            owner: metadata.owner,
            group: metadata.group,
            change: metadata.change,
            time_modify: metadata.time_modify,
            size: 0,
            runs: 0,
            run_sectors: Vec::new(alloc),
            acl: metadata.acl.try_clone()?,
        },
        runs: Runs::new(),
        blocks: BlockList::new(alloc),
        names: Names::new(alloc),
    })
}

fn put_node(
    transaction: &mut Transaction<'_>,
    number: u64,
    kind: NodeKind,
    metadata: &Metadata,
) -> Result<(), SpaceFault>
    requires known { IsKnown transaction.old }
    requires can { IsNewNode (tree_without_data (cached_nodes_of transaction.old)) number
        (fresh_node kind (metadata_of metadata.now)) }
    ensures done { OnOk result (DoesAnywhere transaction.old transaction.new
        (edit.PutNode number kind metadata.now)) }
    ensures full { IsErrOf result SpaceFault.Full
        → Overfills transaction.old (edit.PutNode number kind metadata.now ∷ []) }
    ensures table { transaction.new.cached_nodes.table ≡ transaction.old.cached_nodes.table }
{
    let Some(place) = transaction.cached_nodes.free_place() else {
        return Err(SpaceFault::Full);
    };
    let cached = fresh_cached(transaction.alloc, number, kind, metadata)?;
    transaction.make(place, cached)?;
    Ok(())
}

/// The size of the file at a place.
fn size_at(transaction: &Transaction<'_>, place: u32) -> u64
    requires { HasNode (cached_nodes_of transaction.now) place }
    ensures { (cached : LaidCached) → slice_index_or (cached_nodes_of transaction.now) place None
        ≡ Some cached
        → result ≡ cached.fields.size }
{
    transaction.cached_nodes.cached(place).unwrap().inode.size
}

fn put_bytes<S: Sectors>(
    transaction: &mut Transaction<'_>,
    base: &mut S,
    file: u64,
    offset: usize,
    bytes: &[u8],
) -> Result<(), TransactionFault>
    // An edit that can be done
    requires known { IsKnown transaction.old × (end_of transaction.old ≤ S.size (S.kept base.old)) }
    requires can { IsFileTo (tree_without_data (cached_nodes_of transaction.old)) file
        (offset + length bytes.now) }
    // Done, or full
    ensures done { OnOk result (DoesEdits S.keeps_word (S.image (S.kept base.old))
        (S.size (S.kept base.old)) transaction.old transaction.new
        (edit.PutBytes file offset bytes.entry ∷ [])) }
    ensures full { IsErrOf result TransactionFault.Full
        → Overfills transaction.old (edit.PutBytes file offset bytes.entry ∷ []) }
    // However it ends
    ensures kept { (S.kept base.new ≡ S.kept base.old)
        × (transaction.new.cached_nodes.table ≡ transaction.old.cached_nodes.table) }
    ensures health { FailsOrStays (S.health base.old) (S.health base.new)
        (IsErrOf result TransactionFault.Device) }
    ensures bytes { All (λ byte. byte < 256) bytes.entry.now }
{
    let place = place_of(transaction, file);
    transaction.write(base, place, offset, bytes)
}

fn set_size<S: Sectors>(
    transaction: &mut Transaction<'_>,
    base: &mut S,
    file: u64,
    size: u64,
) -> Result<(), TransactionFault>
    // An edit that can be done
    requires known { IsKnown transaction.old × (end_of transaction.old ≤ S.size (S.kept base.old)) }
    requires can { IsFileTo (tree_without_data (cached_nodes_of transaction.old)) file size }
    // Done, or full
    ensures done { OnOk result (DoesEdits S.keeps_word (S.image (S.kept base.old))
        (S.size (S.kept base.old)) transaction.old transaction.new (edit.SetSize file size ∷ [])) }
    ensures full { ¬ IsErrOf result TransactionFault.Full }
    // However it ends
    ensures kept { (S.kept base.new ≡ S.kept base.old)
        × (transaction.new.cached_nodes.table ≡ transaction.old.cached_nodes.table) }
    ensures health { FailsOrStays (S.health base.old) (S.health base.new)
        (IsErrOf result TransactionFault.Device) }
{
    let place = place_of(transaction, file);
    if size < size_at(transaction, place) {
        return transaction.truncate(base, place, size);
    }
    transaction.grow(place, size)?;
    Ok(())
}

/// Performs an edit.
fn edit_one<S: Sectors>(
    transaction: &mut Transaction<'_>,
    base: &mut S,
    edit: &Edit<'_>,
) -> Result<(), TransactionFault>
    // An edit that can be done
    requires known { IsKnown transaction.old × (end_of transaction.old ≤ S.size (S.kept base.old)) }
    requires forms { HaveCurrentForms (cached_nodes_of transaction.old) }
    requires can { CanDo (tree_without_data (cached_nodes_of transaction.old)) edit.now }
    requires few { IsTrue (few_names Names.MAX_NAMES
        (done (edit_of edit.now) (tree_without_data (cached_nodes_of transaction.old)))) }
    // Done, or full
    ensures done { OnOk result (DoesEdits S.keeps_word (S.image (S.kept base.old))
        (S.size (S.kept base.old)) transaction.old transaction.new (edit.now ∷ [])) }
    ensures full { IsErrOf result TransactionFault.Full
        → Overfills transaction.old (edit.now ∷ []) }
    // However it ends
    ensures kept { (S.kept base.new ≡ S.kept base.old)
        × (transaction.new.cached_nodes.table ≡ transaction.old.cached_nodes.table) }
    ensures health { FailsOrStays (S.health base.old) (S.health base.new)
        (IsErrOf result TransactionFault.Device) }
    ensures parts { OnOk result (PutsBytes edit.now) }
{
    match edit {
        Edit::PutNode {
            number,
            kind,
            metadata,
        } => put_node(transaction, *number, *kind, metadata)?,
        Edit::DropNode { number } => drop_node(transaction, *number)?,
        Edit::Show { number, metadata } => show(transaction, *number, metadata)?,
        Edit::PutName {
            directory,
            stamp,
            name,
            number,
        } => put_name(transaction, *directory, *stamp, name, *number)?,
        Edit::DropName {
            directory,
            stamp,
            name,
        } => drop_name(transaction, *directory, *stamp, name)?,
        Edit::PutBytes {
            file,
            offset,
            bytes,
        } => put_bytes(transaction, base, *file, *offset, bytes)?,
        Edit::SetSize { file, size } => set_size(transaction, base, *file, *size)?,
    }
    Ok(())
}

/// Performs edits in order. Each must be one that can be done in the tree after those before it,
/// and after none of them may a directory have more than `Names::MAX_NAMES` names.
///
/// # Errors
///
/// The transaction is then to be dropped. [`TransactionFault::Device`] if the device failed,
/// [`TransactionFault::Memory`], and [`TransactionFault::Full`], only if there is no room for the
/// tree after a prefix of the edits.
pub(crate) fn edit_all<S: Sectors>(
    transaction: &mut Transaction<'_>,
    base: &mut S,
    edits: &[Edit<'_>],
) -> Result<(), TransactionFault>
    requires can { CanDoAll (S.size (S.kept base.old)) transaction.old edits.now }
    // Done, or full
    ensures done { OnOk result (DoesAll S.keeps_word (S.image (S.kept base.old))
        (S.size (S.kept base.old)) transaction.old transaction.new edits.now) }
    ensures full { IsErrOf result TransactionFault.Full
        → Overfills transaction.old edits.now }
    // However it ends
    ensures kept { (S.kept base.new ≡ S.kept base.old)
        × (transaction.new.cached_nodes.table ≡ transaction.old.cached_nodes.table) }
    ensures health { FailsOrStays (S.health base.old) (S.health base.new)
        (IsErrOf result TransactionFault.Device) }
{
    for edit in edits {
        edit_one(transaction, base, edit)?;
    }
    Ok(())
}
