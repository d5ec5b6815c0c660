//! Access control entries in an inode's sector: 16 bytes each, as in form two.

ghost use Rattle.std.specs.Prelude.{◌≡◌, ◌<◌, ◌≤◌, ◌+◌, ◌^◌, ◌++◌, ℕ, List, length, drop, take, Some, IfSome};
ghost use Rattle.model_tree.specs.declared.acl.Ace.{Ace};
ghost use Rattle.model_tree.specs.declared.acl.AceKind.{AceKind};
ghost use Rattle.model_tree.specs.declared.acl.Who.{Who};
ghost use Rattle.inode.specs.Fields.{IsAce, id_of};
ghost use Rattle.inode.specs.Encoding.{ace_bytes, ace_kind_byte, who_byte};

use bitflags::Flags;
use model_tree::acl::{Ace, AceFlags, AceKind, Mask, Who};
use sector::{SIZE, put_bytes, put_u32, put_zeros, u32_at};

/// How long an entry is.
pub(crate) const WIDTH: usize = 16;

/// The most entries that an inode has room for.
pub(crate) const MOST: usize = 72;

fn kind_byte(kind: AceKind) -> u8
    ensures { result ≡ ace_kind_byte kind }
{
    match kind {
        AceKind::Allow => 0,
        AceKind::Deny => 1,
    }
}

/// The kind of whom an entry speaks of, and the number.
fn who_bytes(who: Who) -> (u8, u32)
    ensures kind { result.0 ≡ who_byte who }
    ensures id { result.1 ≡ id_of who }
{
    match who {
        Who::Owner => (0, 0),
        Who::Group => (1, 0),
        Who::Everyone => (2, 0),
        Who::User(id) => (3, id),
        Who::NamedGroup(id) => (4, id),
    }
}

fn kind_from(byte: u8) -> Option<AceKind>
    ensures { (kind : AceKind) → byte ≡ ace_kind_byte kind → result ≡ Some kind }
{
    match byte {
        0 => Some(AceKind::Allow),
        1 => Some(AceKind::Deny),
        _ => None,
    }
}

fn who_from(byte: u8, id: u32) -> Option<Who>
    ensures fits { IfSome result (λ who. id_of who < 2 ^ 32) }
    ensures only { (who : Who) → byte ≡ who_byte who → id ≡ id_of who → result ≡ Some who }
{
    match byte {
        0 => Some(Who::Owner),
        1 => Some(Who::Group),
        2 => Some(Who::Everyone),
        3 => Some(Who::User(id)),
        4 => Some(Who::NamedGroup(id)),
        _ => None,
    }
}

/// Writes the 16 bytes of an entry from place `at` on.
pub(crate) fn put_ace(sector: &mut [u8; SIZE], at: usize, ace: Ace)
    requires within { at + WIDTH ≤ SIZE }
    requires ace { IsAce ace }
    ensures prefix { take (at + WIDTH) sector.new ≡ take at sector.old ++ ace_bytes ace }
    ensures len { length sector.new ≡ SIZE }
{
    let (who, id) = who_bytes(ace.who);
    let flags = ace.flags.bits() as u8;
    put_bytes(sector, at, &[kind_byte(ace.kind), who, flags, 0]);
    put_u32(sector, at + 4, ace.mask.bits());
    put_u32(sector, at + 8, id);
    put_zeros(sector, at + 12, 4);
}

/// The entry that would be at place `at`, whatever the bytes hold that an entry has zero; none if
/// no entry does.
pub(crate) fn ace_at(sector: &[u8; SIZE], at: usize) -> Option<Ace>
    requires { at + WIDTH ≤ SIZE }
    ensures fits { IfSome result IsAce }
    ensures only { (ace : Ace) (rest : List ℕ) → IsAce ace
        → drop at sector.now ≡ ace_bytes ace ++ rest → result ≡ Some ace }
{
    let kind = kind_from(sector[at])?;
    let who = who_from(sector[at + 1], u32_at(sector, at + 8))?;
    let flags = sector[at + 2];
    if flags >= 16 {
        return None;
    }
    Some(Ace {
        kind,
        flags: AceFlags::from_bits_retain(u32::from(flags)),
        mask: Mask::from_bits_retain(u32_at(sector, at + 4)),
        who,
    })
}
