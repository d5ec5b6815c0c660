//! The tests of attributes that a client sets, in their order.

ghost use Rattle.std.specs.Prelude.{◌≡◌, ◌≤◌, ◌+◌, not, length, map, IfOk};
ghost use Rattle.std.specs.List.{flat_map};
ghost use Rattle.model_tree.specs.Rights.Acl.{every_right, inheritance, is_within};
ghost use Rattle.model.specs.Attributes.AclText.{identifier_group};
ghost use Rattle.model.specs.Attributes.Attribute.{attribute_refusals, entry_refusals, value_refusals};
ghost use Rattle.model.specs.Attributes.AttributeValue.{Acl};
ghost use Rattle.wire_attributes.specs.NodeValues.{attribute_number};
ghost use Rattle.wire_attributes.specs.Views.{entry_view, value_view};
ghost use Rattle.wire_attributes.specs.Given.{given_of, AreSettings, WithinLimits, IsChecked, IsCheckedInMemory};

use crate::attribute::{Attribute, EVERY, has_one_outside};
use crate::bitmap::numbers_of;
use crate::entry::AclEntry;
use crate::given::GivenAttributes;
use crate::settings::{Settings, settings_in};
use crate::value::Value;
use crate::values::read_values;
use crate::who::{number_of, who_of};
use acl_set::are_flags_for;
use bitflags::Flags;
use model::not_done::NotDone;
use model_tree::acl::{AceFlags, Mask};
use model_tree::limits::Limits;
use model_tree::node::NodeKind;
use model_tree::status::Status;
use std::alloc::Global;

// An entry's type, flags, rights and name, and whether a node of this kind may have such flags.
fn check_entry(kind: NodeKind, entry: &AclEntry<'_>) -> Result<(), Status>
    ensures { IsChecked (entry_refusals kind (entry_view entry.now)) result }
{
    let flags = AceFlags::from_bits_retain(entry.flags);
    if 1 < entry.kind {
        return Err(Status::AttrNotSupp);
    }
    if has_flags_outside(flags) {
        return Err(Status::AttrNotSupp);
    }
    if has_rights_outside(Mask::from_bits_retain(entry.mask)) {
        return Err(Status::AttrNotSupp);
    }
    if who_of(entry.who, flags.intersects(AceFlags::IDENTIFIER_GROUP)).is_none() {
        return Err(Status::BadOwner);
    }
    if !are_flags_for(kind, flags.difference(AceFlags::IDENTIFIER_GROUP)) {
        return Err(Status::AttrNotSupp);
    }
    Ok(())
}

#[tactic(auto, unfolding(bitflags::specs::Sets::known_from))]
fn has_flags_outside(flags: AceFlags) -> bool
    ensures { result ≡ not (is_within flags.0 (inheritance + identifier_group)) }
{
    flags.contains_unknown_bits()
}

#[tactic(auto, unfolding(bitflags::specs::Sets::known_from))]
fn has_rights_outside(mask: Mask) -> bool
    ensures { result ≡ not (is_within mask.0 every_right) }
{
    mask.contains_unknown_bits()
}

fn check_entries(kind: NodeKind, entries: &[AclEntry<'_>]) -> Result<(), Status>
    ensures { IsChecked (flat_map (entry_refusals kind) (map entry_view entries.now)) result }
{
    for entry in entries {
        check_entry(kind, entry)?;
    }
    Ok(())
}

fn check_list(limits: &Limits, kind: NodeKind, entries: &[AclEntry<'_>]) -> Result<(), Status>
    ensures { IsChecked (value_refusals limits.now kind (Acl (map entry_view entries.now))) result }
{
    if limits.aces_set < entries.len() {
        return Err(Status::Inval);
    }
    check_entries(kind, entries)
}

// A mode has nine bits: SUID, SGID and SVTX are left out.
fn check_value(limits: &Limits, kind: NodeKind, value: &Value<'_>) -> Result<(), Status>
    ensures { IsChecked (value_refusals limits.now kind (value_view value.now)) result }
{
    match value {
        Value::Size(bytes) if (limits.file_bytes as u64) < *bytes => Err(Status::FBig),
        Value::Acl(entries) => check_list(limits, kind, entries),
        Value::Mode(mode) if 0o777 < *mode => Err(Status::Inval),
        Value::Owner(text) | Value::OwnerGroup(text) if number_of(text).is_none() => {
            Err(Status::BadOwner)
        }
        _ => Ok(()),
    }
}

fn check_values(limits: &Limits, kind: NodeKind, values: &[Value<'_>]) -> Result<(), Status>
    ensures { IsChecked (flat_map (value_refusals limits.now kind)
        (map value_view values.now)) result }
{
    for value in values {
        check_value(limits, kind, value)?;
    }
    Ok(())
}

/// The tests of attributes that are set on a node of this kind, in their order, and what they set.
#[tactic(auto, unfolding(model::specs::Attributes::Attribute::attribute_refusals))]
pub fn check_attributes(
    alloc: Global,
    limits: &Limits,
    kind: NodeKind,
    settable: &[Attribute],
    given: GivenAttributes,
) -> Result<Settings, NotDone>
    requires { length given.bitmap.now ≤ 8 }
    ensures tests { IsCheckedInMemory
        (attribute_refusals limits.now kind (map attribute_number settable.now)
        (given_of given.entry)) result }
    ensures settings { IfOk result (λ settings. AreSettings settings (given_of given.entry)) }
    ensures within { IfOk result (λ settings. WithinLimits limits.now kind settings) }
{
    let attributes = numbers_of(alloc, given.bitmap)?;
    if has_one_outside(&EVERY, &attributes) {
        return Err(NotDone::Status(Status::AttrNotSupp));
    }
    if has_one_outside(settable, &attributes) {
        return Err(NotDone::Status(Status::Inval));
    }
    let values = match read_values(alloc, &attributes, given.values) {
        Ok(values) => values,
        Err(xdr::Refusal::Memory) => return Err(NotDone::Memory),
        Err(_) => return Err(NotDone::Status(Status::BadXdr)),
    };
    check_values(limits, kind, &values)?;
    Ok(settings_in(alloc, &attributes, &values)?)
}
