//! What attributes set.

ghost use Rattle.std.specs.Prelude.{◌≡◌, IfOk, map};
ghost use Rattle.model.specs.Attributes.AclText.{aces_in};
ghost use Rattle.model.specs.Attributes.Attribute.{acl_said, first_said, group_said, mode_said, owner_said, size_said};
ghost use Rattle.wire_attributes.specs.Views.{entry_view, value_view};
ghost use Rattle.wire_attributes.specs.Given.{AreSaid};

use crate::ace::ace_of;
use crate::entry::AclEntry;
use crate::value::Value;
use crate::who::number_of;
use acl_eval::Acl;
use std::alloc::{AllocError, Global};

/// What attributes set: nothing of what they do not say.
#[derive(Drop)]
pub struct Settings {
    /// No attribute is given.
    pub is_empty: bool,
    /// In bytes.
    pub size: Option<u64>,
    pub acl: Option<Acl>,
    pub mode: Option<u32>,
    /// The number of a user.
    pub owner: Option<u32>,
    /// The number of a group.
    pub group: Option<u32>,
}

fn size_in(values: &[Value<'_>]) -> Option<u64>
    ensures { result ≡ first_said size_said (map value_view values.now) }
{
    let (value, others) = values.split_first()?;
    match value {
        Value::Size(bytes) => Some(*bytes),
        _ => size_in(others),
    }
}

fn mode_in(values: &[Value<'_>]) -> Option<u32>
    ensures { result ≡ first_said mode_said (map value_view values.now) }
{
    let (value, others) = values.split_first()?;
    match value {
        Value::Mode(mode) => Some(*mode),
        _ => mode_in(others),
    }
}

// A text that is no number says nothing, and then a later one of the kind may.
fn owner_in(values: &[Value<'_>]) -> Option<u32>
    ensures { result ≡ first_said owner_said (map value_view values.now) }
{
    let (value, others) = values.split_first()?;
    if let Value::Owner(text) = value
        && let Some(number) = number_of(text)
    {
        return Some(number);
    }
    owner_in(others)
}

fn group_in(values: &[Value<'_>]) -> Option<u32>
    ensures { result ≡ first_said group_said (map value_view values.now) }
{
    let (value, others) = values.split_first()?;
    if let Value::OwnerGroup(text) = value
        && let Some(number) = number_of(text)
    {
        return Some(number);
    }
    group_in(others)
}

// The entries that those on the wire represent.
fn aces_in(alloc: Global, entries: &[AclEntry<'_>]) -> Result<Acl, AllocError>
    ensures { IfOk result (λ acl. acl ≡ aces_in (map entry_view entries.now)) }
{
    let mut acl = Acl::new(alloc);
    for entry in entries {
        if let Some(ace) = ace_of(entry) {
            acl.push(ace)?;
        }
    }
    Ok(acl)
}

fn acl_in(alloc: Global, values: &[Value<'_>]) -> Result<Option<Acl>, AllocError>
    ensures { IfOk result (λ acl. acl ≡ first_said acl_said (map value_view values.now)) }
{
    let Some((value, others)) = values.split_first() else {
        return Ok(None);
    };
    match value {
        Value::Acl(entries) => Ok(Some(aces_in(alloc, entries)?)),
        _ => acl_in(alloc, others),
    }
}

/// What these values of these attributes set.
pub fn settings_in(
    alloc: Global,
    attributes: &[u32],
    values: &[Value<'_>],
) -> Result<Settings, AllocError>
    ensures { IfOk result (λ settings. AreSaid settings attributes.now
        (map value_view values.now)) }
{
    Ok(Settings {
        is_empty: attributes.is_empty(),
        size: size_in(values),
        acl: acl_in(alloc, values)?,
        mode: mode_in(values),
        owner: owner_in(values),
        group: group_in(values),
    })
}
