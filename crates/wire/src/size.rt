//! How many bytes results take.

ghost use Rattle.std.specs.Prelude.{◌≡◌, ◌+◌, ◌<◌, ◌≤◌, ◌^◌, length, All};
ghost use Rattle.model.specs.Wire.WireTypes.{attributes, channel};
ghost use Rattle.model.specs.Wire.WireAnswers.{encoded_answer, behind_refusal, entry, outcome};
ghost use Rattle.wire.specs.SmallViews.{attributes_view, channel_view};
ghost use Rattle.wire.specs.AnswerViews.{entry_view, chain_of, EntryFits};
ghost use Rattle.wire.specs.OutcomeView.{answer_view, outcome_view};

use crate::answers::Entry;
use crate::argument::Operation;
use crate::outcome::{Answer, Outcome};
use crate::small::{Attributes, Channel};
use xdr::opaque_size;

impl Attributes<'_> {
    /// How many bytes they take.
    #[tactic(auto, using(crate::proofs::Sizes::attributes_length))]
    pub fn size(&self) -> usize
        requires { length self.now.values.now < 2 ^ 32 }
        ensures value { result ≡ length (attributes.encoding (attributes_view self.now)) }
        ensures bound { result < 2 ^ 33 }
    {
        self.bitmap.size() + opaque_size(self.values)
    }
}

impl Channel {
    /// How many bytes it takes.
    #[tactic(auto, using(crate::proofs::Sizes::channel_none, crate::proofs::Sizes::channel_some))]
    pub fn size(&self) -> usize
        ensures value { result ≡ length (channel.encoding (channel_view self.now)) }
        ensures bound { result ≤ 32 }
    {
        match self.rdma_ird {
            None => 28,
            Some(_) => 32,
        }
    }
}

impl Entry<'_> {
    /// How many bytes it takes, the truth value before it not counted.
    #[tactic(auto, using(crate::proofs::Sizes::entry_length))]
    pub fn size(&self) -> usize
        requires { EntryFits self.now }
        ensures value { result ≡ length (entry.encoding (entry_view self.now)) }
        ensures bound { result < 2 ^ 34 }
    {
        8 + opaque_size(self.name) + self.attributes.size()
    }
}

/// How many bytes entries take, with the truth values around them.
#[tactic(auto, using(crate::proofs::Sizes::chain_length))]
fn entries_size(entries: &[Entry<'_>]) -> usize
    requires fits { All EntryFits entries.now }
    requires small { length (chain_of entries.now) < 2 ^ 63 }
    ensures { result ≡ length (chain_of entries.now) }
{
    let mut size = 0;
    for entry in entries {
        size += 4 + entry.size();
    }
    size + 4
}

impl Answer<'_> {
    /// How many bytes the values after the status take.
    pub fn size(&self) -> usize
        requires fits { (encoded_answer (answer_view self.now)).Fits }
        requires small { length ((encoded_answer (answer_view self.now)).text) < 2 ^ 63 }
        ensures { result ≡ length ((encoded_answer (answer_view self.now)).text) }
    {
        match self {
            Answer::Access(_) => 8,
            Answer::Close(_) => 16,
            Answer::Commit(_) => 8,
            Answer::Write(_) => 16,
            Answer::Create(a) => 20 + a.was_set.size(),
            Answer::GetAttr(a) => a.size(),
            Answer::GetFh(handle) => opaque_size(handle),
            Answer::Open(a) => 44 + a.was_set.size(),
            Answer::Read(a) => 4 + opaque_size(a.data),
            Answer::ReadDir(a) => 12 + entries_size(&a.entries),
            Answer::Remove(_) => 20,
            Answer::Rename(_) => 40,
            Answer::SetAttr(was_set) => was_set.size(),
            Answer::ExchangeId(a) => 32 + opaque_size(a.major_id) + opaque_size(a.scope),
            Answer::CreateSession(a) => 24 + a.fore.size() + a.back.size(),
            Answer::Sequence(_) => 36,
            _ => 0,
        }
    }
}

impl Outcome<'_> {
    /// How many bytes `write` writes.
    pub fn size(&self) -> usize
        requires fits { outcome.Fits (outcome_view self.now) }
        requires small { length (outcome.encoding (outcome_view self.now)) < 2 ^ 63 }
        ensures { result ≡ length (outcome.encoding (outcome_view self.now)) }
    {
        match self {
            Outcome::Done(answer) => 8 + answer.size(),
            Outcome::Refused { operation, .. } => refused_size(*operation),
        }
    }
}

#[tactic(auto, using(crate::proofs::Sizes::int_length))]
fn refused_size(operation: u32) -> usize
    ensures { result ≡ 8 + length (behind_refusal operation) }
{
    if operation == Operation::SetAttr.number() {
        12
    } else {
        8
    }
}
