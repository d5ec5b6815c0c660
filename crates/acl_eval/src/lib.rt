//! Whether an access control list grants rights to a caller (RFC 8881, section 6.2.1).
#![tactic(auto)]

ghost use Rattle.std.specs.Prelude.{◌≡◌, ◌+◌, ◌&&◌};
ghost use Rattle.model_tree.specs.Rights.Acl.{counts, granted, matches, read_acl, write_acl, write_attributes};

use bitflags::Flags;
pub use model_tree::acl::{Ace, AceFlags, AceKind, Acl, Cred, Gids, Mask, Who};
pub use model_tree::node::NodeKind;

// The owner always has these, so that no list locks it out.
fn owners_rights() -> Mask
    ensures { result.0 ≡ read_acl + write_acl + write_attributes }
{
    Mask::READ_ACL
        .union(Mask::WRITE_ACL)
        .union(Mask::WRITE_ATTRIBUTES)
}

// Whether an entry applies to the node itself and to this caller.
fn concerns(ace: &Ace, owner: u32, group: u32, cred: &Cred) -> bool
    ensures { result ≡ (counts ace.now && matches ace.now.who owner group cred.now) }
{
    ace.counts() && ace.who.matches(owner, group, cred)
}

/// Whether a caller has all the rights of a mask on a node of this owner and group.
///
/// Each right is decided by the first entry that counts, names it and matches the caller: it is
/// granted if that entry is ALLOW, and denied if there is none. The owner may always read and write
/// the list and write the attributes. No user is exempt from the list, whatever its number.
/// Allocates no memory.
pub fn granted(acl: &[Ace], owner: u32, group: u32, cred: &Cred, mask: Mask) -> bool
    ensures { result ≡ granted acl.now owner group cred.now mask.0 }
{
    let asked = mask.bits();
    let mut undecided = if cred.uid == owner {
        mask.difference(owners_rights()).bits()
    } else {
        asked
    };
    for ace in acl {
        if !concerns(ace, owner, group, cred) {
            continue;
        }
        let named = ace.mask.bits();
        match ace.kind {
            AceKind::Allow => undecided &= !named,
            AceKind::Deny => {
                let is_denied = undecided & named != 0;
                if is_denied {
                    return false;
                }
            }
        }
    }
    undecided == 0
}
