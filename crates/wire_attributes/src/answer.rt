//! The attributes of a node that are asked for (RFC 8881, sections 3.3.9, 18.7 and 18.23).

ghost use Rattle.std.specs.Prelude.{◌≡◌, ◌+◌, ◌*◌, ◌%◌, ◌≤◌, ◌^◌, ◌++◌, length};
ghost use Rattle.std.specs.List.{flat_map};
ghost use Rattle.model.specs.Attributes.Attribute.{attributes_of, is_among};
ghost use Rattle.model.specs.Attributes.NodeAttributes.{common, supported_bitmap};
ghost use Rattle.model.specs.Wire.WireAnswers.{answered_attributes};
ghost use Rattle.wire_attributes.specs.NodeValues.{HasFewEntries, answer_view, asked_text, every_attribute, attribute_number};
ghost use Rattle.xdr.specs.Clauses.{Wrote};

use crate::attribute::{Attribute, EVERY};
use crate::bitmap::is_asked;
use crate::node::{NodeAttributes, SUPPORTED, write_words};
use wire::{Bitmap, trimmed};
use xdr::{Refusal, Words, Writer};

/// `fattr4` of a node: of the attributes that a bitmap asks for those that the server has, and
/// their values. It is encoded when it is written; no value has memory of its own.
#[derive(Clone, Copy)]
pub struct AttributesAnswer<'a> {
    pub node: NodeAttributes<'a>,
    /// The bitmap that is asked for, of any length.
    pub asked: &'a [u32],
}

/// Puts the bits that two bitmaps have in common after other words.
fn push_common(words: &mut Bitmap, asked: &[u32], supported: &[u32])
    requires { length words.old + length supported.now ≤ 8 }
    ensures { words.new ≡ words.old ++ common asked.now supported.now }
{
    let (Some((word, rest)), Some((other, others))) = (asked.split_first(), supported.split_first())
    else {
        return;
    };
    words.push(*word & *other);
    push_common(words, rest, others);
}

/// The words of a bitmap, as far as they ask for attributes of this server's.
fn common(asked: &[u32]) -> Bitmap
    ensures { result ≡ common asked.now supported_bitmap }
{
    let mut words = Words::new();
    push_common(&mut words, asked, &SUPPORTED);
    words
}

impl AttributesAnswer<'_> {
    /// Whether an attribute is asked for.
    fn asks(&self, attribute: Attribute) -> bool
        ensures { result
            ≡ is_among (attributes_of self.now.asked.now) (attribute_number attribute) }
    {
        is_asked(self.asked, attribute.number())
    }

    /// How many bytes the value of an attribute takes if it is asked for.
    fn asked_size(&self, attribute: Attribute) -> usize
        requires { HasFewEntries self.now.node }
        ensures value { result ≡ length (asked_text self.now.node self.now.asked.now attribute) }
        ensures bound { result ≤ 4400 }
        ensures whole { result % 4 ≡ 0 }
    {
        if !self.asks(attribute) {
            return 0;
        }
        self.node.value_size(attribute)
    }

    /// How many bytes the values take.
    fn values_size(&self) -> usize
        requires { HasFewEntries self.now.node }
        ensures value { result
            ≡ length (flat_map (asked_text self.now.node self.now.asked.now) every_attribute) }
        ensures bound { result ≤ 4400 * 26 }
        ensures whole { result % 4 ≡ 0 }
    {
        let mut size = 0;
        for attribute in &EVERY {
            size += self.asked_size(*attribute);
        }
        size
    }

    /// How many bytes `write` writes.
    pub fn size(&self) -> usize
        requires { HasFewEntries self.now.node }
        ensures value { result ≡ length (answered_attributes.encoding (answer_view self.now)) }
        ensures bound { result ≤ 2 ^ 17 }
    {
        8 + 4 * trimmed(common(self.asked).as_slice()).len() + self.values_size()
    }

    /// Writes the value of an attribute if it is asked for. On an error a prefix of it may have
    /// been written.
    fn write_asked(&self, w: &mut Writer, attribute: Attribute) -> Result<(), Refusal>
        requires { HasFewEntries self.now.node }
        ensures { Wrote w.old w.new result
            (asked_text self.now.node self.now.asked.now attribute) }
    {
        if !self.asks(attribute) {
            return Ok(());
        }
        self.node.write_value(w, attribute)
    }

    /// Writes the values. On an error a prefix of them may have been written.
    fn write_values(&self, w: &mut Writer) -> Result<(), Refusal>
        requires { HasFewEntries self.now.node }
        ensures { Wrote w.old w.new result
            (flat_map (asked_text self.now.node self.now.asked.now) every_attribute) }
    {
        for attribute in &EVERY {
            self.write_asked(w, *attribute)?;
        }
        Ok(())
    }

    /// Writes it. On an error a prefix of it may have been written.
    pub fn write(&self, w: &mut Writer) -> Result<(), Refusal>
        requires { HasFewEntries self.now.node }
        ensures { Wrote w.old w.new result (answered_attributes.encoding (answer_view self.now)) }
    {
        write_words(w, trimmed(common(self.asked).as_slice()))?;
        w.write_u32(self.values_size() as u32)?;
        self.write_values(w)
    }
}
