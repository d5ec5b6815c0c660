//! The result of CREATE (RFC 8881, section 18.4).

ghost use Rattle.std.specs.Prelude.{◌≡◌, ◌≤◌, IsTrue, length};
ghost use Rattle.xdr.specs.Forms.{is_trimmed};
ghost use Rattle.model.specs.Attributes.Attribute.{trimmed};
ghost use Rattle.wire.specs.AnswerViews.{create_view};
ghost use Rattle.wire.specs.SmallViews.{change_view};

use crate::answers::CreateAnswer;
use crate::small::{Bitmap, ChangeInfo, trimmed};
use xdr::Words;

impl CreateAnswer {
    /// The directory's change, if each of the given attributes was set.
    #[tactic(auto, using(crate::proofs::Bitmaps::trimmed_is))]
    pub fn new(change: ChangeInfo, given: &Bitmap) -> CreateAnswer
        ensures answered { create_view result
            ≡ record { change = change_view change; was_set = trimmed given.now } }
        ensures short { IsTrue (is_trimmed (create_view result).was_set) }
    {
        CreateAnswer {
            change,
            was_set: copied(trimmed(given.as_slice())),
        }
    }
}

fn copied(words: &[u32]) -> Bitmap
    requires { length words.now ≤ 8 }
    ensures { result ≡ words.now }
{
    let mut copy = Words::new();
    for word in words {
        copy.push(*word);
    }
    copy
}
