//! Results that are short fit their grammar: their numbers have the sizes of their types, which
//! functions that do nothing else say.

ghost use Rattle.std.specs.Prelude.{◌≡◌, ◌<◌, ◌≤◌, ◌^◌, IsTrue, length};
ghost use Rattle.std.specs.List.{AllByRecursion};
ghost use Rattle.xdr.specs.Forms.{is_trimmed, trimmed_bitmap};
ghost use Rattle.model.specs.Operations.Answer.{Done, Refused};
ghost use Rattle.model.specs.Wire.WireTypes.{channel, change_info, state_id};
ghost use Rattle.model.specs.Wire.WireAnswers.{access_answer, create_answer, open_answer, rename_answer, write_answer, create_session_answer, sequence_answer, encoded_answer, outcome};
ghost use Rattle.wire.specs.Numbers.{number_of};
ghost use Rattle.wire.specs.Short.{IsRefusal, IsShortAnswer};
ghost use Rattle.wire.specs.SmallViews.{channel_view, change_view, state_view};
ghost use Rattle.wire.specs.AnswerViews.{access_view, create_view, open_view, rename_view, write_view, create_session_view, sequence_view};
ghost use Rattle.wire.specs.OutcomeView.{answer_view};
ghost use Rattle.wire.specs.declared.outcome.Outcome.TheVariants as outcomes;

use crate::answers::{
    AccessAnswer, CreateAnswer, CreateSessionAnswer, OpenAnswer, RenameAnswer, SequenceAnswer,
    WriteAnswer,
};
use crate::argument::Operation;
use crate::outcome::{Answer, Outcome};
use crate::small::{Bitmap, ChangeInfo, Channel, StateId};
use model_tree::status::Status;

fn tell_word(number: u32)
    ensures { number < 2 ^ 32 }
{
    let _ = number;
}

fn tell_hyper(number: u64)
    ensures { number < 2 ^ 64 }
{
    let _ = number;
}

fn tell_array<const N: usize>(bytes: &[u8; N])
    ensures { length bytes.now ≡ N }
{
    let _ = bytes.len();
}

fn tell_words(words: &[u32])
    ensures { AllByRecursion (λ word. word < 2 ^ 32) words.now }
{
    let _ = words.len();
}

fn tell_bitmap(bitmap: &Bitmap)
    requires { IsTrue (is_trimmed bitmap.now) }
    ensures fits { trimmed_bitmap.Fits bitmap.now }
    ensures bound { length (trimmed_bitmap.encoding bitmap.now) ≤ 36 }
{
    tell_words(bitmap.as_slice());
    let _ = bitmap.size();
}

fn tell_state(state: &StateId)
    ensures { state_id.Fits (state_view state.now) }
{
    tell_word(state.seqid);
    tell_array(&state.other);
}

fn tell_change(change: &ChangeInfo)
    ensures { change_info.Fits (change_view change.now) }
{
    tell_hyper(change.before);
    tell_hyper(change.after);
}

fn tell_channel(given: &Channel)
    ensures fits { channel.Fits (channel_view given.now) }
    ensures bound { length (channel.encoding (channel_view given.now)) ≤ 32 }
{
    tell_word(given.header_pad_size);
    tell_word(given.max_request_size);
    tell_word(given.max_response_size);
    tell_word(given.max_response_size_cached);
    tell_word(given.max_operations);
    tell_word(given.max_requests);
    if let Some(size) = given.rdma_ird {
        tell_word(size);
    }
    let _ = given.size();
}

fn tell_access(answer: &AccessAnswer)
    ensures { access_answer.Fits (access_view answer.now) }
{
    tell_word(answer.supported);
    tell_word(answer.access);
}

fn tell_create(answer: &CreateAnswer)
    requires { IsTrue (is_trimmed answer.now.was_set) }
    ensures fits { create_answer.Fits (create_view answer.now) }
    ensures bound { length (create_answer.encoding (create_view answer.now)) ≤ 56 }
{
    tell_change(&answer.change);
    tell_bitmap(&answer.was_set);
}

fn tell_open(answer: &OpenAnswer)
    requires { IsTrue (is_trimmed answer.now.was_set) }
    ensures fits { open_answer.Fits (open_view answer.now) }
    ensures bound { length (open_answer.encoding (open_view answer.now)) ≤ 80 }
{
    tell_state(&answer.state);
    tell_change(&answer.change);
    tell_word(answer.flags);
    tell_bitmap(&answer.was_set);
}

fn tell_rename(answer: &RenameAnswer)
    ensures { rename_answer.Fits (rename_view answer.now) }
{
    tell_change(&answer.source);
    tell_change(&answer.target);
}

fn tell_write(answer: &WriteAnswer)
    ensures { write_answer.Fits (write_view answer.now) }
{
    tell_word(answer.count);
    tell_word(answer.committed);
    tell_array(&answer.verifier);
}

fn tell_create_session(answer: &CreateSessionAnswer)
    ensures fits { create_session_answer.Fits (create_session_view answer.now) }
    ensures bound { length (create_session_answer.encoding (create_session_view answer.now)) ≤ 88 }
{
    tell_array(&answer.session);
    tell_word(answer.sequence);
    tell_word(answer.flags);
    tell_channel(&answer.fore);
    tell_channel(&answer.back);
}

fn tell_sequence(answer: &SequenceAnswer)
    ensures { sequence_answer.Fits (sequence_view answer.now) }
{
    tell_array(&answer.session);
    tell_word(answer.sequence);
    tell_word(answer.slot);
    tell_word(answer.highest_slot);
    tell_word(answer.target_highest_slot);
    tell_word(answer.flags);
}

impl Answer<'_> {
    fn tell_fits(&self)
        requires { IsShortAnswer (answer_view self.now) }
        ensures fits { (encoded_answer (answer_view self.now)).Fits }
        ensures bound { length ((encoded_answer (answer_view self.now)).text) ≤ 192 }
    {
        match self {
            Answer::Access(a) => tell_access(a),
            Answer::Close(state) => tell_state(state),
            Answer::Commit(verifier) => tell_array(verifier),
            Answer::Create(a) => tell_create(a),
            Answer::GetFh(_) => {}
            Answer::Open(a) => tell_open(a),
            Answer::Remove(change) => tell_change(change),
            Answer::Rename(a) => tell_rename(a),
            Answer::SetAttr(was_set) => tell_bitmap(was_set),
            Answer::Write(a) => tell_write(a),
            Answer::CreateSession(a) => tell_create_session(a),
            Answer::Sequence(a) => tell_sequence(a),
            Answer::GetAttr(_) | Answer::Read(_) | Answer::ReadDir(_) | Answer::ExchangeId(_) =>
                unreachable!(),
            Answer::Lookup
            | Answer::LookupParent
            | Answer::PutFh
            | Answer::PutRootFh
            | Answer::RestoreFh
            | Answer::SaveFh
            | Answer::DestroySession
            | Answer::DestroyClientId
            | Answer::ReclaimComplete => {}
        }
    }
}

impl<'a> Outcome<'a> {
    /// The result OK of an operation whose result is short: it fits its grammar, and takes at most
    /// 256 bytes.
    pub fn short(answer: Answer<'a>) -> Outcome<'a>
        requires { IsShortAnswer (answer_view answer) }
        ensures is { result ≡ outcomes.Done answer.entry }
        ensures fits { outcome.Fits (Done (answer_view answer.entry)) }
        ensures bound { length (outcome.encoding (Done (answer_view answer.entry))) ≤ 256 }
    {
        answer.tell_fits();
        Outcome::Done(answer)
    }

    /// The result of an operation that failed: it fits its grammar, and takes at most 256 bytes.
    pub fn refused(operation: Operation, status: Status) -> Outcome<'a>
        requires { IsRefusal status }
        ensures is { result ≡ outcomes.Refused (number_of operation) status }
        ensures fits { outcome.Fits (Refused (number_of operation) status) }
        ensures bound { length (outcome.encoding (Refused (number_of operation) status)) ≤ 256 }
    {
        Outcome::Refused {
            operation: operation.number(),
            status,
        }
    }
}
