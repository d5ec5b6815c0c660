//! Whom an entry's text names (RFC 8881, section 6.2.1.5).

ghost use Rattle.std.specs.Prelude.{◌≡◌, IfOk, IfErr, string_bytes};
ghost use Rattle.xdr.specs.declared.refusal.Refusal.TheVariants.{Memory};
ghost use Rattle.model.specs.Attributes.AclText.{number_in, who_in, who_text};

use model_tree::acl::Who;
use std::alloc::Global;
use xdr::Refusal;

/// Whom a text names: OWNER@, GROUP@ or EVERYONE@, or a number of 32 bits in decimal digits without
/// leading zeros. `is_group` says whether a number is a group's; a special name is the same with it
/// and without.
#[tactic(auto, using(crate::proofs::Naming::names_none))]
pub fn who_of(text: &[u8], is_group: bool) -> Option<Who>
    ensures { result ≡ who_in is_group text.now }
{
    if text == b"OWNER@".as_slice() {
        return Some(Who::Owner);
    }
    if text == b"GROUP@".as_slice() {
        return Some(Who::Group);
    }
    if text == b"EVERYONE@".as_slice() {
        return Some(Who::Everyone);
    }
    let number = number_of(text)?;
    Some(if is_group {
        Who::NamedGroup(number)
    } else {
        Who::User(number)
    })
}

/// The number that a text writes in decimal digits without zeros in front.
#[tactic(auto, using(crate::proofs::Naming::unread, crate::proofs::Naming::read, crate::proofs::Naming::no_number_empty, crate::proofs::Naming::no_number_plus, crate::proofs::Naming::no_number_zero, crate::proofs::Naming::no_number_bytes, crate::proofs::Naming::no_number_digits, crate::proofs::Naming::is_number))]
pub fn number_of(text: &[u8]) -> Option<u32>
    ensures { result ≡ number_in text.now }
{
    if text.is_empty() || text[0] == b'+' {
        return None;
    }
    if text[0] == b'0' && text.len() > 1 {
        return None;
    }
    let Ok(digits) = str::from_utf8(text) else {
        return None;
    };
    let Ok(number) = digits.parse::<u32>() else {
        return None;
    };
    Some(number)
}

/// The text that names this one.
pub fn text_of(alloc: Global, name: Who) -> Result<String, Refusal>
    ensures ok { IfOk result (λ text. string_bytes text ≡ who_text name) }
    ensures err { IfErr result (λ e. e ≡ Memory) }
{
    Ok(match name {
        Who::Owner => String::from_str(alloc, "OWNER@")?,
        Who::Group => String::from_str(alloc, "GROUP@")?,
        Who::Everyone => String::from_str(alloc, "EVERYONE@")?,
        Who::User(number) | Who::NamedGroup(number) => format!(in alloc; "{number}")?,
    })
}
