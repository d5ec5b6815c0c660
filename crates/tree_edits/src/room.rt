//! Whether there is room for the tree after edits.

ghost use Rattle.std.specs.Prelude.{◌≡◌, ◌≤◌, ◌<◌, ◌+◌, ◌^◌, ℕ, IsTrue, length};
ghost use Rattle.tree_edits.specs.Edits.{edits_of};
ghost use Rattle.tree_edits.specs.Measures.{AreMeasurable};
ghost use Rattle.tree_edits.specs.Outlines.{tree_without_data};
ghost use Rattle.tree_edits.specs.Sizes.{size_at, charge_of_size, nodes_in, names_in, IsBelow};
ghost use Rattle.tree_edits.specs.Sizes.{edited_number, resized_by};
ghost use Rattle.layout.specs.Known.{AreCached};
ghost use Rattle.model_tree.specs.Trees.Charge.{charge, few_names, fits};
ghost use Rattle.model_tree.specs.Trees.Edit.{edited};
ghost use Rattle.model_tree.specs.Trees.Keyed.{total};

use crate::edit::Edit;
use directory::RECORDS;
use disk::SECTOR;
use extents::MAX_SECTOR_RUNS;
use model_tree::limits::Limits;
use model_tree::node::NodeKind;
use node_table::Table;

/// How many bytes or names a node has. Numbers here have 128 bits, so that no sum of them is too
/// large, however many edits there are.
#[derive(Clone, Copy)]
struct Size {
    kind: NodeKind,
    count: u128,
}

/// What the nodes of a tree take.
#[derive(Clone, Copy)]
struct Taken {
    /// Sectors of the data region.
    charge: u128,
    nodes: u128,
}

/// The size of a node of the table.
fn size_in(table: &Table, number: u64) -> Option<Size>
    requires { (nodes : ℕ) × (mark : ℕ → ℕ) × AreCached nodes mark table.now }
    ensures size { result ≡ size_at (tree_without_data table.now) number }
    ensures small { IsBelow (2 ^ 65) result }
{
    let Some(place) = table.find(number) else {
        return None;
    };
    let inode = &table.cached(place).unwrap().inode;
    Some(Size {
        kind: inode.kind,
        count: u128::from(inode.size),
    })
}

/// The number of the node that an edit changes.
fn number_of(edit: &Edit<'_>) -> u64
    ensures { result ≡ edited_number edit.now }
{
    match edit {
        Edit::PutNode { number, .. } => *number,
        Edit::DropNode { number } => *number,
        Edit::Show { number, .. } => *number,
        Edit::PutName { directory, .. } => *directory,
        Edit::DropName { directory, .. } => *directory,
        Edit::PutBytes { file, .. } => *file,
        Edit::SetSize { file, .. } => *file,
    }
}

/// A directory of `count` names.
fn directory(count: u128) -> Option<Size>
    ensures { result ≡ Some (record { kind = NodeKind.Directory; count = count }) }
{
    Some(Size {
        kind: NodeKind::Directory,
        count,
    })
}

/// A file of `count` bytes.
fn file(count: u128) -> Option<Size>
    ensures { result ≡ Some (record { kind = NodeKind.File; count = count }) }
{
    Some(Size {
        kind: NodeKind::File,
        count,
    })
}

/// The size, after an edit, of the node that the edit changes.
fn resized(size: Option<Size>, edit: &Edit<'_>) -> Option<Size>
    requires { IsBelow (2 ^ 66) size }
    ensures size { result ≡ resized_by edit.now size }
    ensures small { (most : ℕ) → 2 ^ 65 ≤ most → IsBelow most size → IsBelow (most + 1) result }
{
    match edit {
        Edit::PutNode { kind, .. } => Some(Size {
            kind: *kind,
            count: 0,
        }),
        Edit::DropNode { .. } => None,
        Edit::Show { .. } => size,
        Edit::PutName { .. } => directory(size?.count + 1),
        Edit::DropName { .. } => directory(size?.count.saturating_sub(1)),
        Edit::PutBytes { offset, bytes, .. } => file(
            size?.count.max(*offset as u128 + bytes.len() as u128),
        ),
        Edit::SetSize { size: end, .. } => {
            size?;
            file(u128::from(*end))
        }
    }
}

/// The size of a node in the tree after edits. This applies each edit that changes it.
fn size_after(table: &Table, edits: &[Edit<'_>], number: u64) -> Option<Size>
    requires cached_nodes { (nodes : ℕ) × (mark : ℕ → ℕ) × AreCached nodes mark table.now }
    requires can { AreMeasurable (tree_without_data table.now) edits.now }
    ensures size { result
        ≡ size_at (edited (edits_of edits.now) (tree_without_data table.now)) number }
    ensures small { IsBelow (2 ^ 65 + length edits.now) result }
{
    let mut size = size_in(table, number);
    for edit in edits {
        if number_of(edit) == number {
            size = resized(size, edit);
        }
    }
    size
}

/// What a node of this size is charged.
fn charge_of(size: Option<Size>) -> u128
    requires { IsBelow (2 ^ 66) size }
    ensures charge { result ≡ charge_of_size size }
    ensures small { result < 2 ^ 63 }
{
    let Some(size) = size else {
        return 0;
    };
    let blocks = match size.kind {
        NodeKind::File => size.count.div_ceil(SECTOR as u128),
        NodeKind::Directory => size.count.div_ceil(RECORDS as u128),
    };
    blocks + blocks.div_ceil(MAX_SECTOR_RUNS as u128)
}

/// One, or none.
fn nodes_in(size: Option<Size>) -> u128
    ensures nodes { result ≡ nodes_in size }
    ensures small { result ≤ 1 }
{
    match size {
        Some(_) => 1,
        None => 0,
    }
}

/// How many names a node has.
fn names_in(size: Option<Size>) -> u128
    ensures { result ≡ names_in size }
{
    match size {
        Some(size) => match size.kind {
            NodeKind::File => 0,
            NodeKind::Directory => size.count,
        },
        None => 0,
    }
}

/// What the nodes of the tree after edits take: each edit changes the share of one of them.
fn taken_after(table: &Table, edits: &[Edit<'_>]) -> Taken
    requires cached_nodes { (nodes : ℕ) × (mark : ℕ → ℕ) × AreCached nodes mark table.now }
    requires can { AreMeasurable (tree_without_data table.now) edits.now }
    ensures charge { result.charge
        ≡ total charge (edited (edits_of edits.now) (tree_without_data table.now)) }
    ensures nodes { result.nodes
        ≡ length (edited (edits_of edits.now) (tree_without_data table.now)) }
{
    let mut charge = u128::from(table.charge());
    let mut nodes = u128::from(table.count());
    for (i, edit) in edits.iter().enumerate() {
        let before = size_after(table, &edits[..i], number_of(edit));
        let after = resized(before, edit);
        charge = charge + charge_of(after) - charge_of(before);
        nodes = nodes + nodes_in(after) - nodes_in(before);
    }
    Taken { charge, nodes }
}

/// Whether no directory has more than `most` names after edits, if none has before them.
fn have_few_names(table: &Table, edits: &[Edit<'_>], most: usize) -> bool
    requires cached_nodes { (nodes : ℕ) × (mark : ℕ → ℕ) × AreCached nodes mark table.now }
    requires can { AreMeasurable (tree_without_data table.now) edits.now }
    requires most { IsTrue (few_names most (tree_without_data table.now)) }
    ensures { result
        ≡ few_names most (edited (edits_of edits.now) (tree_without_data table.now)) }
{
    for edit in edits {
        if names_in(size_after(table, edits, number_of(edit))) > most as u128 {
            return false;
        }
    }
    true
}

/// Whether the tree after edits fits: its charges are at most the data region, its nodes at most
/// their limit, and no directory has too many names, as none has before them. It must be possible to measure each edit in
/// the tree after those before it; there a new node may have the number 0, and a new name the stamp
/// 0. This needs no memory, and a number of steps that is quadratic in the number of edits, of
/// which there are few, with two searches by number for each of them.
pub fn fits(table: &Table, limits: &Limits, edits: &[Edit<'_>]) -> bool
    requires cached_nodes { (nodes : ℕ) × (mark : ℕ → ℕ) × AreCached nodes mark table.now }
    requires can { AreMeasurable (tree_without_data table.now) edits.now }
    requires names { IsTrue (few_names limits.now.names (tree_without_data table.now)) }
    ensures { result ≡ fits limits.now (edited (edits_of edits.now) (tree_without_data table.now)) }
{
    let taken = taken_after(table, edits);
    if taken.charge > limits.data_sectors as u128 {
        return false;
    }
    if taken.nodes > limits.nodes as u128 {
        return false;
    }
    have_few_names(table, edits, limits.names)
}
