//! The values of attributes, one after the other (RFC 8881, section 3.3.9).

ghost use Rattle.std.specs.Prelude.{◌≡◌, OnErr, All};
ghost use Rattle.std.specs.List.{flat_map};
ghost use Rattle.xdr.specs.Clauses.{Wrote};
ghost use Rattle.xdr.specs.Laws.{IsBytes};
ghost use Rattle.model.specs.Attributes.Attribute.{attributes_of};
ghost use Rattle.wire_attributes.specs.Views.{ValueFits, value_encoding};
ghost use Rattle.wire_attributes.specs.Clauses.{AreRead, AreValues, ReadsValues};

use crate::bitmap::numbers_of;
use crate::value::Value;
use std::alloc::Global;
use wire::Attributes;
use xdr::{Reader, Refusal, Writer};

/// The values of the attributes of these numbers, if the bytes are exactly they.
///
/// `Short`, `Value` or `Long` if the bytes are no such values, and `Memory`.
#[tactic(auto, using(model::proofs::Wire::AttributeExact::are_values, crate::proofs::Whole::no_values, crate::proofs::Whole::too_many_bytes, crate::proofs::Whole::read_whole, crate::proofs::Whole::no_whole, crate::proofs::Whole::not_whole))]
pub fn read_values<'a>(
    alloc: Global,
    attributes: &[u32],
    bytes: &'a [u8],
) -> Result<Vec<Value<'a>>, Refusal>
    ensures values { AreValues attributes.now bytes.now result }
    ensures read { AreRead attributes.now bytes.now result }
{
    let (values, rest) = each_value(alloc, attributes, Reader::new(bytes))?;
    if !rest.is_empty() {
        return Err(Refusal::Value);
    }
    Ok(values)
}

/// The values of attributes as they were read, if the bytes after the bitmap are exactly these.
pub fn values_of<'a>(alloc: Global, given: &Attributes<'a>) -> Result<Vec<Value<'a>>, Refusal>
    ensures values { AreValues (attributes_of given.now.bitmap) given.now.values.now result }
    ensures read { AreRead (attributes_of given.now.bitmap) given.now.values.now result }
{
    let attributes = numbers_of(alloc, given.bitmap.as_slice())?;
    read_values(alloc, &attributes, given.values)
}

fn each_value<'a>(
    alloc: Global,
    attributes: &[u32],
    at: Reader<'a>,
) -> Result<(Vec<Value<'a>>, Reader<'a>), Refusal>
    ensures reads { ReadsValues attributes.now at.entry result }
    ensures bytes { IsBytes at.entry }
{
    let mut at = at;
    let mut values = Vec::new(alloc);
    for attribute in attributes {
        let value = Value::read(alloc, *attribute, &mut at)?;
        values.push(value)?;
    }
    Ok((values, at))
}

/// Writes values, each without its attribute's number. They are to come by rising number.
#[tactic(auto, using(xdr::proofs::Writing::failed_write, xdr::proofs::Writing::unchanged))]
pub fn write_values(w: &mut Writer, values: &[Value<'_>]) -> Result<(), Refusal>
    requires { All ValueFits values.now }
    ensures wrote { Wrote w.old w.new result (flat_map value_encoding values.now) }
    ensures err { OnErr result (w.new.bytes ≡ w.old.bytes) }
{
    let mark = w.len();
    let result = write_each_value(w, values);
    w.undo(mark, result)
}

fn write_each_value(w: &mut Writer, values: &[Value<'_>]) -> Result<(), Refusal>
    requires { All ValueFits values.now }
    ensures { Wrote w.old w.new result (flat_map value_encoding values.now) }
{
    for value in values {
        value.write(w)?;
    }
    Ok(())
}
