//! The values of attributes, and the entries of lists, on the wire: their laws.

ghost use Rattle.std.specs.Prelude.{ℕ, List};
ghost use Rattle.xdr.specs.Laws.{Exact, OneEncoding};
ghost use Rattle.model.specs.Attributes.AclText.{ReadsEntries, ReadsNames, ReadsNumbers, WritesEntries};
ghost use Rattle.model.specs.Attributes.Attribute.{GivenListsFit};
ghost use Rattle.model.specs.Attributes.AttributeValue.{ReadsWhole, values};
ghost use Rattle.model.specs.Attributes.NodeAttributes.{AnswersAsked, AnswersSupported};

/// The values of any attributes are exact: so they have one encoding, and no encoding is a prefix
/// of another.
#[tactic(auto, using(crate::proofs::Wire::AttributeExact::values_exact, crate::proofs::Wire::AttributeExact::one_values))]
pub fn values_are_exact()
    ensures exact { (attributes : List ℕ) → Exact (values attributes) }
    ensures one { (attributes : List ℕ) → OneEncoding (values attributes) }
    ensures whole { ReadsWhole }
{}

/// Numbers, names and entries are read exactly from what is written for them (RFC 8881, sections
/// 5.9 and 6.2.1).
pub fn texts_are_exact()
    ensures numbers { ReadsNumbers }
    ensures names { ReadsNames }
    ensures entries { ReadsEntries }
    ensures written { WritesEntries }
{}

/// A list that a client gives, and that passes its tests, is one that a node of this kind may have.
pub fn given_lists_fit()
    ensures { GivenListsFit }
{}

/// A node has a value of each attribute that is supported, and of no other.
pub fn each_has_a_value()
    ensures { AnswersSupported }
{}

/// The bitmap that a node returns names the attributes whose values come with it: those that were
/// asked for and are supported.
pub fn answers_tell_their_attributes()
    ensures { AnswersAsked }
{}
