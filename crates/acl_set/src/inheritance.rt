//! What a new node inherits from its directory's list.

ghost use Rattle.std.specs.Prelude.{◌≡◌, ◌≤◌, true, not, position, MatchOption, IfOk, IsOkUnless};
ghost use Rattle.std.specs.Option.{ForSome, option_copied};
ghost use Rattle.model_tree.specs.Rights.Acl.{are_flags_for, has_width, inheritance, is_entry_for};
ghost use Rattle.model_tree.specs.Rights.Inherit.{is_inherited_by, inherited_flags, inherited, created_list, first_refused};
ghost use Rattle.acl_set.specs.Refused.{most_set, refused_of};

use crate::fault::AclFault;
use crate::modes::{MAX_MODE, with_mode};
use acl_eval::{Ace, AceFlags, Acl, NodeKind, Who};
use bitflags::Flags;
use std::alloc::Global;

/// The attributes given for a new node.
#[derive(Clone, Copy)]
pub struct Given<'a> {
    /// No attribute was given. Ignored if a mode or a list was given.
    pub empty: bool,
    /// A mode of at most 0o777.
    pub mode: Option<u32>,
    /// A list; a mode given with it is ignored.
    pub acl: Option<&'a [Ace]>,
}

// The four flags that say what becomes of an entry in new nodes.
fn inheritance() -> AceFlags
    ensures { result.0 ≡ inheritance }
{
    AceFlags::FILE_INHERIT
        .union(AceFlags::DIRECTORY_INHERIT)
        .union(AceFlags::NO_PROPAGATE)
        .union(AceFlags::INHERIT_ONLY)
}

// Whether a new node of this kind inherits the entry.
fn is_inherited(kind: NodeKind, ace: &Ace) -> bool
    ensures { result ≡ is_inherited_by kind ace.now }
{
    let for_files = ace.flags.intersects(AceFlags::FILE_INHERIT);
    match kind {
        NodeKind::File => for_files,
        NodeKind::Directory => {
            ace.flags.intersects(AceFlags::DIRECTORY_INHERIT)
                || (for_files && !ace.flags.intersects(AceFlags::NO_PROPAGATE))
        }
    }
}

// The flags with which the new node inherits it.
fn flags_inherited(kind: NodeKind, flags: AceFlags) -> AceFlags
    ensures { result.0 ≡ inherited_flags kind flags.0 }
{
    let none = flags.difference(inheritance());
    match kind {
        NodeKind::File => none,
        NodeKind::Directory => {
            if !flags.intersects(AceFlags::DIRECTORY_INHERIT) {
                flags.union(AceFlags::INHERIT_ONLY)
            } else if flags.intersects(AceFlags::NO_PROPAGATE) {
                none
            } else {
                flags.difference(AceFlags::INHERIT_ONLY)
            }
        }
    }
}

/// The list that a new node of a kind inherits from its directory's list (RFC 8881, section 6.4.3).
///
/// Fails only if memory runs out.
pub fn inherit(alloc: Global, parent: &[Ace], kind: NodeKind) -> Result<Acl, AclFault>
    ensures list { IfOk result (λ list. list ≡ inherited parent.now kind) }
    ensures memory { IsOkUnless result AclFault.Memory }
{
    let mut list = Acl::new(alloc);
    for ace in parent {
        if is_inherited(kind, ace) {
            list.push(Ace {
                flags: flags_inherited(kind, ace.flags),
                ..*ace
            })?;
        }
    }
    Ok(list)
}

/// Whether an entry of a node of this kind may have these flags.
pub fn are_flags_for(kind: NodeKind, flags: AceFlags) -> bool
    ensures { result ≡ are_flags_for kind flags.0 }
{
    let handed_down = AceFlags::FILE_INHERIT.union(AceFlags::DIRECTORY_INHERIT);
    let further = AceFlags::NO_PROPAGATE.union(AceFlags::INHERIT_ONLY);
    match kind {
        NodeKind::File => flags.is_empty(),
        NodeKind::Directory => {
            inheritance().contains(flags)
                && (!flags.intersects(further) || flags.intersects(handed_down))
        }
    }
}

// A number has 32 bits by its type; this function only states it.
fn tell_width(who: Who)
    ensures { has_width who ≡ true }
{
    let _number = match who {
        Who::User(number) | Who::NamedGroup(number) => number,
        Who::Owner | Who::Group | Who::Everyone => 0,
    };
}

// Whether a node of this kind may have the entry.
#[tactic(auto, unfolding(bitflags::specs::Sets::known_from))]
pub(crate) fn is_entry_for(kind: NodeKind, ace: &Ace) -> bool
    ensures { result ≡ is_entry_for kind ace.now }
{
    tell_width(ace.who);
    are_flags_for(kind, ace.flags) && !ace.mask.contains_unknown_bits()
}

// The index of the first entry that a node of this kind may not have.
fn first_unfit(kind: NodeKind, acl: &[Ace]) -> Option<usize>
    ensures { result ≡ position (λ ace. not (is_entry_for kind ace)) acl.now }
{
    acl.iter().position(|ace| !is_entry_for(kind, ace))
}

/// The index of the first entry that a client may not set on a node of this kind: one with an
/// unknown right, one with flags that the kind may not have, or the 65th. Allocates no memory.
///
/// A file's entries have no flags. A directory's have NO_PROPAGATE or INHERIT_ONLY only together
/// with FILE_INHERIT or DIRECTORY_INHERIT, and no flag other than these four: the name says whether
/// a number is a group's.
pub fn first_refused(kind: NodeKind, acl: &[Ace]) -> Option<usize>
    ensures { result ≡ first_refused most_set kind acl.now }
{
    let place = first_unfit(kind, acl)
        .unwrap_or(acl.len())
        .min(Acl::MAX_SET);
    (place < acl.len()).then_some(place)
}

/// The list of a new node: the list given; else what setting the mode given makes of the inherited
/// list; else the inherited list, or the empty list if no attribute was given.
///
/// A given list is refused at its first entry that may not be set; apart from that, the call fails
/// only if memory runs out.
pub fn at_creation(
    alloc: Global,
    parent: &[Ace],
    kind: NodeKind,
    given: &Given,
) -> Result<Acl, AclFault>
    requires { ForSome given.now.mode (λ mode. mode ≤ MAX_MODE) }
    ensures list { IfOk result (λ list. list
        ≡ created_list parent.now kind given.now.empty given.now.mode
        (option_copied given.now.acl)) }
    ensures refused { MatchOption (refused_of most_set kind (option_copied given.now.acl))
        (IsOkUnless result AclFault.Memory)
        (λ place. result ≡ Err (AclFault.Ace place)) }
{
    match (given.acl, given.mode) {
        (Some(acl), _) => match first_refused(kind, acl) {
            Some(place) => Err(AclFault::Ace(place)),
            None => Ok(Acl::from_slice(alloc, acl)?),
        },
        (None, Some(mode)) => {
            let inherited = inherit(alloc, parent, kind)?;
            with_mode(alloc, kind, inherited.as_slice(), mode)
        }
        (None, None) if given.empty => Ok(Acl::new(alloc)),
        (None, None) => inherit(alloc, parent, kind),
    }
}
