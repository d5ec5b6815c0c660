//! The lists that nodes get.

ghost use Rattle.std.specs.Prelude.{◌≡◌, ◌≤◌, IfOk};
ghost use Rattle.std.specs.Option.{ForSome};
ghost use Rattle.model_tree.specs.Rights.Inherit.{created_list};
ghost use Rattle.model.specs.Operations.SetAttr.{list_set};

use acl_eval::{Ace, Acl, NodeKind};
use acl_set::{AclFault, Given, MAX_MODE, at_creation, with_mode};
use std::alloc::{AllocError, Global};
use wire_attributes::Settings;

/// The list of a new node in a directory with the list `parent` (RFC 8881, section 6.4.3): the one
/// that is given, which passed its tests, or else that of the mode.
pub(crate) fn list_created(
    alloc: Global,
    parent: &[Ace],
    kind: NodeKind,
    settings: Settings,
) -> Result<Acl, AllocError>
    requires { ForSome settings.mode (λ mode. mode ≤ MAX_MODE) }
    ensures { IfOk result (λ acl. acl
        ≡ created_list parent.now kind settings.is_empty settings.mode settings.acl) }
{
    if let Some(acl) = settings.acl {
        return Ok(acl);
    }
    let given = Given {
        empty: settings.is_empty,
        mode: settings.mode,
        acl: None,
    };
    match at_creation(alloc, parent, kind, &given) {
        Ok(acl) => Ok(acl),
        Err(AclFault::Memory) => Err(AllocError),
        // no list is given that could be refused
        Err(AclFault::Ace(_)) => unreachable!(),
    }
}

/// The list of a node of this kind and list after a SETATTR (RFC 8881, section 6.4.1): the one that
/// is set, which passed its tests, or else that of the mode that is set.
pub(crate) fn list_set(
    alloc: Global,
    kind: NodeKind,
    acl: &Acl,
    mode: Option<u32>,
    set: Option<Acl>,
) -> Result<Acl, AllocError>
    requires { ForSome mode (λ mode. mode ≤ MAX_MODE) }
    ensures { IfOk result (λ list. list ≡ list_set kind acl.now mode set) }
{
    if let Some(set) = set {
        return Ok(set);
    }
    let Some(mode) = mode else {
        return acl.try_clone();
    };
    match with_mode(alloc, kind, acl.as_slice(), mode) {
        Ok(list) => Ok(list),
        Err(AclFault::Memory) => Err(AllocError),
        // a list of a mode is never refused
        Err(AclFault::Ace(_)) => unreachable!(),
    }
}
