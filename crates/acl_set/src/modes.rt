//! The mode of a list, and the list of a mode.

ghost use Rattle.std.specs.Prelude.{◌≡◌, ◌≤◌, ◌+◌, ◌&&◌, ◌++◌, [], ◌∷◌, not, filter, map, if◌then◌else◌, IfOk, OnOk, IsOkUnless};
ghost use Rattle.model_tree.specs.Rights.Acl.{counts, is_allow, is_special, meets};
ghost use Rattle.model_tree.specs.Rights.Mode.{allows_right, permissions, mode_of, rights_of, rights_lacking, entry, limited_kind, limited, is_handed_down, not_counting, has_rights, moded};
ghost use Rattle.acl_set.specs.Class.{named_by};

use crate::fault::AclFault;
use acl_eval::{Ace, AceFlags, AceKind, Acl, Mask, NodeKind, Who};
use bitflags::Flags;
use std::alloc::{AllocError, Global};

/// The greatest value of the nine bits of a mode.
pub const MAX_MODE: u32 = 0o777;

// Whose three bits of a mode are meant.
#[derive(Clone, Copy)]
pub(crate) enum Class {
    Owner,
    Group,
    Everyone,
}

impl Class {
    // Whether the name is the class's own or `EVERYONE@`.
    fn names(self, who: Who) -> bool
        ensures { result ≡ named_by self who }
    {
        match self {
            Class::Owner => matches!(who, Who::Owner | Who::Everyone),
            Class::Group => matches!(who, Who::Group | Who::Everyone),
            Class::Everyone => matches!(who, Who::Everyone),
        }
    }
}

// The value, or 0.
fn value_if(is_set: bool, value: u32) -> u32
    ensures chosen { result ≡ (if is_set then value else 0) }
    ensures most { result ≤ value }
{
    if is_set { value } else { 0 }
}

// ---- the mode of a list

fn is_allow(kind: AceKind) -> bool
    ensures { result ≡ is_allow kind }
{
    matches!(kind, AceKind::Allow)
}

// Whether an entry decides a right for a class, if none before it does.
fn decides(ace: &Ace, class: Class, right: Mask) -> bool
    ensures { result ≡ ((counts ace.now && named_by class ace.now.who)
        && meets ace.now.mask.0 right.0) }
{
    ace.counts() && class.names(ace.who) && ace.mask.intersects(right)
}

fn allows(acl: &[Ace], class: Class, right: Mask) -> bool
    ensures { result ≡ allows_right
        (filter (λ ace. counts ace && named_by class ace.who) acl.now) right.0 }
{
    for ace in acl {
        if decides(ace, class, right) {
            return is_allow(ace.kind);
        }
    }
    false
}

// Read 4, write 2 and execute 1, as the list allows them to a class.
fn permissions_of(acl: &[Ace], class: Class) -> u32
    ensures value { result ≡ permissions
        (filter (λ ace. counts ace && named_by class ace.who) acl.now) }
    ensures three_bits { result ≤ 7 }
{
    let can_read = allows(acl, class, Mask::READ_DATA);
    let can_write = allows(acl, class, Mask::WRITE_DATA) && allows(acl, class, Mask::APPEND_DATA);
    let can_execute = allows(acl, class, Mask::EXECUTE);
    value_if(can_read, 4) + value_if(can_write, 2) + value_if(can_execute, 1)
}

/// The mode of a list: nine bits, at most 0o777 (RFC 8881, section 6.3.2). Allocates no memory.
pub fn mode_of(acl: &[Ace]) -> u32
    ensures value { result ≡ mode_of acl.now }
    ensures nine_bits { result ≤ MAX_MODE }
{
    64 * permissions_of(acl, Class::Owner)
        + 8 * permissions_of(acl, Class::Group)
        + permissions_of(acl, Class::Everyone)
}

// ---- the list of a mode

fn rights_of(kind: NodeKind, bits: u32) -> Mask
    ensures { result.0 ≡ rights_of kind bits }
{
    let write = match kind {
        NodeKind::File => 0x6,
        NodeKind::Directory => 0x46,
    };
    Mask::from_bits_retain(
        value_if(bits & 4 != 0, 0x1)
            + value_if(bits & 2 != 0, write)
            + value_if(bits & 1 != 0, 0x20),
    )
}

fn rights_lacking(kind: NodeKind, bits: u32) -> Mask
    ensures { result.0 ≡ rights_lacking kind bits }
{
    rights_of(kind, 7).difference(rights_of(kind, bits))
}

// An entry without flags.
fn entry(kind: AceKind, who: Who, mask: Mask) -> Ace
    ensures { result ≡ entry kind who mask.0 }
{
    Ace {
        kind,
        flags: AceFlags::empty(),
        mask,
        who,
    }
}

// Appends an entry to the list, unless it names no right.
fn push_if_any(list: &mut Acl, ace: Ace) -> Result<(), AllocError>
    ensures { OnOk result (list.new ≡ list.old ++ filter has_rights (ace ∷ [])) }
{
    if !ace.mask.is_empty() {
        list.push(ace)?;
    }
    Ok(())
}

// Appends what a mode allows and denies to a special name.
fn push_special(list: &mut Acl, kind: NodeKind, who: Who, bits: u32) -> Result<(), AllocError>
    ensures { OnOk result (list.new ≡ list.old
        ++ filter has_rights (entry AceKind.Allow who (rights_of kind bits)
        ∷ entry AceKind.Deny who (rights_lacking kind bits) ∷ [])) }
{
    push_if_any(list, entry(AceKind::Allow, who, rights_of(kind, bits)))?;
    push_if_any(list, entry(AceKind::Deny, who, rights_lacking(kind, bits)))
}

// An entry for a number; an ALLOW entry loses the rights that the group lacks.
fn limited(ace: &Ace, lacking: Mask) -> Ace
    ensures { result ≡ record ace.now {
      mask = record {
        0 = limited_kind ace.now.kind
            ace.now.mask.0 lacking.0;
      };
    } }
{
    match ace.kind {
        AceKind::Allow => Ace {
            mask: ace.mask.difference(lacking),
            ..*ace
        },
        AceKind::Deny => *ace,
    }
}

// Whether an entry applies to its own node and is for a user or a group by number.
fn is_of_number(ace: &Ace) -> bool
    ensures { result ≡ (counts ace.now && not (is_special ace.now.who)) }
{
    ace.counts() && !ace.who.is_special()
}

fn push_numbers(list: &mut Acl, kind: NodeKind, acl: &[Ace], mode: u32) -> Result<(), AllocError>
    ensures { OnOk result (list.new ≡ list.old
        ++ filter has_rights (map (limited kind mode)
        (filter (λ ace. counts ace && not (is_special ace.who)) acl.now))) }
{
    let lacking = rights_lacking(kind, mode / 8 % 8);
    for ace in acl {
        if is_of_number(ace) {
            push_if_any(list, limited(ace, lacking))?;
        }
    }
    Ok(())
}

// Whether an entry is handed down, whatever the mode.
fn is_handed_down(ace: &Ace) -> bool
    ensures { result ≡ is_handed_down ace.now }
{
    !ace.counts()
        || (ace.who.is_special()
            && ace
                .flags
                .intersects(AceFlags::FILE_INHERIT.union(AceFlags::DIRECTORY_INHERIT)))
}

fn push_handed_down(list: &mut Acl, acl: &[Ace]) -> Result<(), AllocError>
    ensures { OnOk result (list.new
        ≡ list.old ++ filter has_rights (map not_counting (filter is_handed_down acl.now))) }
{
    for ace in acl {
        if is_handed_down(ace) {
            push_if_any(
                list,
                Ace {
                    flags: ace.flags.union(AceFlags::INHERIT_ONLY),
                    ..*ace
                },
            )?;
        }
    }
    Ok(())
}

/// The list that setting a mode makes of a node's list (within RFC 8881, section 6.4.1).
///
/// The three special names get what the mode says. Entries for numbers remain, but an ALLOW entry
/// loses each right of read, write and execute that the group's bits lack. Entries that are handed
/// down to new nodes remain, and no longer count on this one. An entry that names no right is left
/// out.
///
/// Fails only if memory runs out.
pub fn with_mode(alloc: Global, kind: NodeKind, acl: &[Ace], mode: u32) -> Result<Acl, AclFault>
    requires { mode ≤ MAX_MODE }
    ensures list { IfOk result (λ list. list ≡ moded kind acl.now mode) }
    ensures memory { IsOkUnless result AclFault.Memory }
{
    let mut list = Acl::new(alloc);
    push_special(&mut list, kind, Who::Owner, mode / 64 % 8)?;
    push_numbers(&mut list, kind, acl, mode)?;
    push_special(&mut list, kind, Who::Group, mode / 8 % 8)?;
    push_if_any(
        &mut list,
        entry(AceKind::Allow, Who::Everyone, rights_of(kind, mode % 8)),
    )?;
    push_handed_down(&mut list, acl)?;
    Ok(list)
}
