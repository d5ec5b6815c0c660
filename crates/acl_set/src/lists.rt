//! The lists that a node may have.

ghost use Rattle.std.specs.Prelude.{◌≡◌, count_by, not};
ghost use Rattle.std.specs.List.{list_all};
ghost use Rattle.model_tree.specs.Rights.Acl.{is_entry_for, is_list_for, is_plain};

use crate::inheritance::is_entry_for;
use acl_eval::{Ace, AceFlags, NodeKind};
use bitflags::Flags;
use model_tree::limits::Limits;

// Whether setting a mode replaces the entry: it is of a special name, it counts, and it is not
// handed down.
fn is_plain(ace: &Ace) -> bool
    ensures { result ≡ is_plain ace.now }
{
    ace.who.is_special()
        && ace.counts()
        && !ace
            .flags
            .intersects(AceFlags::FILE_INHERIT.union(AceFlags::DIRECTORY_INHERIT))
}

fn are_entries_for(kind: NodeKind, acl: &[Ace]) -> bool
    ensures { result ≡ list_all (is_entry_for kind) acl.now }
{
    acl.iter().all(|ace| is_entry_for(kind, ace))
}

// How many entries setting a mode keeps.
fn count_set(acl: &[Ace]) -> usize
    ensures { result ≡ count_by (λ ace. not (is_plain ace)) acl.now }
{
    acl.iter().filter(|ace| !is_plain(ace)).count()
}

/// Whether a node of this kind may have the list: it may have each entry, and neither all of them
/// nor those that setting a mode keeps are more than the limits allow. Allocates no memory.
#[tactic(auto, unfolding(model_tree::specs::Rights::Acl::is_list_for))]
pub fn is_list_for(kind: NodeKind, acl: &[Ace], limits: &Limits) -> bool
    ensures { result ≡ is_list_for limits.now.aces_set limits.now.aces kind acl.now }
{
    are_entries_for(kind, acl) && acl.len() <= limits.aces && count_set(acl) <= limits.aces_set
}
