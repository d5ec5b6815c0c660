//! Entries of the definitions as entries on the wire, and back (RFC 8881, section 6.2.1).

ghost use Rattle.std.specs.Prelude.{◌≡◌};
ghost use Rattle.model_tree.specs.Rights.Acl.{bits_without};
ghost use Rattle.model.specs.Attributes.AclText.{ace_in, entry_flags, entry_text, identifier_group, kind_in, kind_number, who_text};
ghost use Rattle.wire_attributes.specs.Views.{entry_view};

use crate::entry::AclEntry;
use crate::who::who_of;
use bitflags::Flags;
use model_tree::acl::{Ace, AceFlags, AceKind, Mask, Who};

/// The entry that one on the wire represents, if its type is ALLOW or DENY and its text names
/// somebody. Its flags and rights are not checked.
#[tactic(auto, unfolding(model::specs::Attributes::AclText::ace_in))]
pub fn ace_of(entry: &AclEntry<'_>) -> Option<Ace>
    ensures { result ≡ ace_in (entry_view entry.now) }
{
    let kind = kind_of(entry.kind)?;
    let flags = AceFlags::from_bits_retain(entry.flags);
    let who = who_of(entry.who, flags.intersects(AceFlags::IDENTIFIER_GROUP))?;
    Some(Ace {
        kind,
        flags: flags.difference(AceFlags::IDENTIFIER_GROUP),
        mask: Mask::from_bits_retain(entry.mask),
        who,
    })
}

/// The entry on the wire that represents this one, whose name the text is.
pub fn entry_of<'a>(ace: &Ace, text: &'a [u8]) -> AclEntry<'a>
    requires flags { bits_without ace.now.flags.0 identifier_group ≡ ace.now.flags.0 }
    requires text { text.now ≡ who_text ace.now.who }
    ensures { entry_view result ≡ entry_text ace.now }
{
    AclEntry {
        kind: number_of_kind(ace.kind),
        flags: wire_flags(ace.flags, ace.who).bits(),
        mask: ace.mask.bits(),
        who: text,
    }
}

fn kind_of(number: u32) -> Option<AceKind>
    ensures { result ≡ kind_in number }
{
    match number {
        0 => Some(AceKind::Allow),
        1 => Some(AceKind::Deny),
        _ => None,
    }
}

pub(crate) fn number_of_kind(kind: AceKind) -> u32
    ensures { result ≡ kind_number kind }
{
    kind as u32
}

/// With IDENTIFIER_GROUP if the number is a group's.
pub(crate) fn wire_flags(flags: AceFlags, name: Who) -> AceFlags
    ensures { result.0 ≡ entry_flags flags.0 name }
{
    match name {
        Who::NamedGroup(_) => flags.union(AceFlags::IDENTIFIER_GROUP),
        Who::Owner | Who::Group | Who::Everyone | Who::User(_) => flags,
    }
}
