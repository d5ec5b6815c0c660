//! The place of a COMPOUND in the record of its call.

ghost use Rattle.std.specs.Prelude.{◌<◌, ◌≤◌};
ghost use Rattle.rpc.specs.declared.tag.TheConstants.{MAX_TAG_BYTES};

use crate::compound::Compound;
use crate::tag::Tag;

/// The bytes of the length of a tag, with which the arguments of a COMPOUND begin.
const TAG_START: usize = 4;

/// The place of a COMPOUND in its record, so that it is found again without reading the call again.
#[derive(Clone, Copy)]
pub struct CompoundPlace {
    /// The place at which the bytes of its tag begin, and their number.
    pub(crate) tag: usize,
    pub(crate) tag_size: usize,
    /// How many operations there are.
    pub(crate) count: u32,
    /// The place at which the bytes of all of them begin.
    pub(crate) operations: usize,
    ghost some: { 0 < count },
    ghost short: { tag_size ≤ MAX_TAG_BYTES },
}

impl CompoundPlace {
    ghost use Rattle.std.specs.Prelude.{◌≡◌, true};
    ghost use Rattle.rpc.specs.Places.{EndsWith, StandsIn, compound_at, is_within};
    ghost use Rattle.rpc.specs.Views.{compound_view};

    /// The place of a COMPOUND that this body asks for, with which its record ends.
    pub fn of(request: &[u8], body: &[u8], compound: &Compound<'_>) -> CompoundPlace
        requires body { EndsWith request.now body.now }
        requires compound { StandsIn body.now (compound_view compound.now) }
        ensures within { is_within request.now result ≡ true }
        ensures there { compound_at request.now result ≡ compound_view compound.now }
    {
        CompoundPlace {
            tag: request.len() - body.len() + TAG_START,
            tag_size: compound.tag.bytes.len(),
            count: compound.count,
            operations: request.len() - compound.operations.len(),
        }
    }

    /// The COMPOUND that is there.
    pub fn compound<'a>(&self, request: &'a [u8]) -> Compound<'a>
        requires { is_within request.now self.now ≡ true }
        ensures { compound_view result ≡ compound_at request.now self.now }
    {
        Compound {
            tag: Tag {
                bytes: &request[self.tag..][..self.tag_size],
            },
            count: self.count,
            operations: &request[self.operations..],
        }
    }
}
