//! Whether the limits allow each node of a volume.

ghost use Rattle.std.specs.Prelude.{◌↔◌, IsTrue};
ghost use Rattle.tree_check.specs.Nodes.{AreNamesAllowed, AreNodesAllowed, IsContentAllowed};
ghost use Rattle.tree_check.specs.Nodes.{HasRootDirectory, IsNameAllowed, IsNodeAllowed, IsRootDirectory};

use acl_set::is_list_for;
use directory::{Names, check_name};
use model_tree::limits::Limits;
use model_tree::node::{NodeKind, ROOT};
use node_table::{CachedNode, Table};

fn is_name_allowed(name: &[u8], limits: &Limits) -> bool
    ensures { IsTrue result ↔ IsNameAllowed limits.now name.now }
{
    check_name(name, limits).is_ok()
}

fn are_names_allowed(names: &Names, limits: &Limits) -> bool
    ensures { IsTrue result ↔ AreNamesAllowed limits.now names.now }
{
    for place in 0..names.len() {
        if !is_name_allowed(&names.entry(place).name, limits) {
            return false;
        }
    }
    true
}

fn is_content_allowed(cached: &CachedNode, limits: &Limits) -> bool
    ensures { IsTrue result ↔ IsContentAllowed limits.now cached.now.fields.kind cached.now }
{
    match cached.inode.kind {
        NodeKind::File => cached.inode.size <= limits.file_bytes as u64,
        NodeKind::Directory => {
            cached.names.len() <= limits.names && are_names_allowed(&cached.names, limits)
        }
    }
}

fn is_node_allowed(cached: &CachedNode, limits: &Limits) -> bool
    ensures { IsTrue result ↔ IsNodeAllowed limits.now cached.now }
{
    is_list_for(cached.inode.kind, cached.inode.acl.as_slice(), limits)
        && is_content_allowed(cached, limits)
}

fn is_root_directory(cached: &CachedNode) -> bool
    ensures { IsTrue result ↔ IsRootDirectory cached.now }
{
    cached.inode.number == ROOT && matches!(cached.inode.kind, NodeKind::Directory)
}

fn has_root_directory(table: &Table) -> bool
    ensures { IsTrue result ↔ HasRootDirectory table.now }
{
    for place in 0..table.places() {
        if let Some(cached) = table.cached(place) {
            if is_root_directory(cached) {
                return true;
            }
        }
    }
    false
}

/// Whether the limits allow each of a volume's nodes, and the root is a directory: each node may
/// have its access control list, a file has no more bytes and a directory no more names than the
/// limits allow, and each name is allowed.
pub(crate) fn are_nodes_allowed(table: &Table, limits: &Limits) -> bool
    ensures { IsTrue result ↔ AreNodesAllowed limits.now table.now }
{
    for place in 0..table.places() {
        if let Some(cached) = table.cached(place) {
            if !is_node_allowed(cached, limits) {
                return false;
            }
        }
    }
    has_root_directory(table)
}
