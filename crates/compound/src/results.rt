//! The results of a COMPOUND (RFC 8881, section 16.2).

use crate::encoded_result::EncodedResult;
use crate::executed::{Effect, Executed};
use crate::fault::Fault;
use crate::progress::{Progress, RESULT_BUFFER};
use crate::running::Running;
use fs::FsFault;
use model_tree::status::Status;
use wire::{Answer, Operation, Outcome};
use xdr::opaque_size;

/// The most bytes of a reply up to the end of an OK result, the record's header not counted.
pub const MAX_REPLY_BYTES: usize = 16_368;

/// The bytes of a reply around the tag and the results: the xid, the message type and four words up
/// to the accept status; the status and the number of results.
const AROUND_RESULTS: usize = 32;

/// The most bytes of a refused result, which may follow those that had room.
const MAX_REFUSAL_BYTES: usize = 12;

/// The bytes of a result before its values: its number and its status.
const RESULT_PREFIX: usize = 8;

#[tactic(auto, unfolding(model::specs::Server::World::outcome_text))]
impl Running<'_> {
    ghost use Rattle.std.specs.Prelude.{◌≡◌, ◌+◌, ◌<◌, ◌≤◌, ◌^◌, ℕ, nat_le, length};
    ghost use Rattle.xdr.specs.Forms.{counted};
    ghost use Rattle.model.specs.Operations.Answer.{Answer as Answered, Done, Refused};
    ghost use Rattle.model.specs.Operations.Operation.{Argument as Kind, operation_of};
    ghost use Rattle.model.specs.Server.World.{reply_with, outcome_text};
    ghost use Rattle.model.specs.Wire.WireAnswers as answers;
    ghost use Rattle.wire.specs.OutcomeView.{answer_view, outcome_view};
    ghost use Rattle.wire.specs.Numbers.{number_of};
    ghost use Rattle.wire.specs.Short.{IsRefusal, IsShortAnswer};
    ghost use Rattle.wire.specs.declared.outcome.Outcome.TheVariants as outcomes;
    ghost use Rattle.compound.specs.Operates.{Operates, RunsTo, GivesIn, EncodesAnswer, HasResult, left_by_effect};
    ghost use Rattle.compound.specs.States.{SharedState};
    ghost use Rattle.compound.specs.Trees.{IsUp, refusal, fault_result};
    ghost use Rattle.compound.specs.Views.{in_progress_of};
    ghost use Rattle.compound.specs.declared.executed.Executed.TheVariants as execution;

    /// Whether the reply would have room for this result if it were the last one.
    #[tactic(auto, unfolding(crate::specs::Views::in_progress_of, model::specs::Server::World::outcome_text), using(crate::proofs::Replies::reply_length))]
    pub(crate) fn has_room(&self, outcome: &Outcome<'_>) -> bool
        requires fits { answers.outcome.Fits (outcome_view outcome.now) }
        requires small { length (outcome_text (outcome_view outcome.now)) < 2 ^ 63 }
        ensures { result ≡ nat_le
            (length (reply_with (in_progress_of self.now) (outcome_view outcome.now)))
            MAX_REPLY_BYTES }
    {
        self.has_room_for(outcome.size())
    }

    /// Whether the reply would have room for a result of this size if it were the last one.
    #[tactic(auto, unfolding(crate::specs::Views::in_progress_of))]
    fn has_room_for(&self, result_size: usize) -> bool
        requires { result_size < 2 ^ 63 + 8 }
        ensures { result ≡ nat_le (AROUND_RESULTS + length (counted (in_progress_of self.now).tag)
            + length (in_progress_of self.now).results + result_size) MAX_REPLY_BYTES }
    {
        let size = AROUND_RESULTS
            + opaque_size(self.compound.tag.bytes)
            + self.progress.results.len()
            + result_size;
        size <= MAX_REPLY_BYTES
    }

    /// What an operation comes to that nothing else refuses: it is refused if the reply has no room
    /// for its answer.
    pub(crate) fn settle(&self, answer: Answer<'static>, effect: Effect) -> Executed
        requires { IsShortAnswer (answer_view answer) }
        ensures gives { (now : ℕ) (state : SharedState) (kind : Kind)
            → (answers.encoded_answer (answer_view answer.entry)).number ≡ operation_of kind
            → RunsTo now state state (in_progress_of self.now)
            (left_by_effect effect (in_progress_of self.now)) kind (Done (answer_view answer.entry))
            → Operates now state state (in_progress_of self.now) kind result }
        ensures answered { HasResult (in_progress_of self.now) result }
    {
        let operation = answer.operation();
        let outcome = Outcome::short(answer);
        if !self.has_room(&outcome) {
            return self.refuse(operation, Status::RepTooBig);
        }
        Executed::Gives { outcome, effect }
    }

    /// What an operation comes to that changes nothing, and whose OK result is encoded: it is
    /// refused if the reply has no room.
    pub(crate) fn settle_encoded(&self, operation: Operation, values: Vec<u8>) -> Executed
        ensures gives { (now : ℕ) (state : SharedState) (kind : Kind) (answer : Answered)
            → EncodesAnswer (number_of operation) values.items answer
            → number_of operation ≡ operation_of kind
            → RunsTo now state state (in_progress_of self.now) (in_progress_of self.now) kind
            (Done answer)
            → Operates now state state (in_progress_of self.now) kind result }
        ensures answered { HasResult (in_progress_of self.now) result }
    {
        if !self.has_room_for(RESULT_PREFIX + values.as_slice().len()) {
            return self.refuse(operation, Status::RepTooBig);
        }
        Executed::GivesValues { operation, values }
    }

    /// What an operation comes to that is refused.
    pub(crate) fn refuse(&self, operation: Operation, status: Status) -> Executed
        requires { IsRefusal status }
        ensures gives { (now : ℕ) (old new : SharedState) (kind : Kind)
            → GivesIn now old new (in_progress_of self.now) (in_progress_of self.now) kind
            (Refused (number_of operation) status)
            → Operates now old new (in_progress_of self.now) kind result }
        ensures answered { HasResult (in_progress_of self.now) result }
        ensures is { result ≡ refusal (number_of operation) status }
    {
        Executed::Gives {
            outcome: Outcome::refused(operation, status),
            effect: Effect::Stays,
        }
    }

    /// What an operation comes to that its file system did not do.
    ///
    /// # Errors
    /// Those of the file system that have no status.
    pub(crate) fn tell_fault(&self, operation: Operation, fault: FsFault) -> Result<Executed, Fault>
        requires { IsUp fault }
        ensures { result ≡ fault_result (number_of operation) fault }
    {
        match fault {
            FsFault::Status(status) => Ok(self.refuse(operation, status)),
            FsFault::NoRoom => Ok(self.refuse(operation, Status::RepTooBig)),
            FsFault::Memory => Err(Fault::Memory),
            FsFault::Device => Err(Fault::Device),
            FsFault::Down => unreachable!(),
        }
    }

    /// What the first operation comes to, if nothing refuses it: the reply has room for each short
    /// answer.
    pub(crate) fn answer_first(&self, answer: Answer<'static>, effect: Effect) -> Executed
        requires first { (in_progress_of self.now).answered ≡ 0 }
        requires short { IsShortAnswer (answer_view answer) }
        ensures gives { (now : ℕ) (old new : SharedState) (kind : Kind)
            → RunsTo now old new (in_progress_of self.now)
            (left_by_effect effect (in_progress_of self.now)) kind (Done (answer_view answer.entry))
            → Operates now old new (in_progress_of self.now) kind result }
        ensures answered { HasResult (in_progress_of self.now) result }
        ensures is { result ≡ execution.Gives (outcomes.Done answer.entry) effect }
    {
        Executed::Gives {
            outcome: Outcome::short(answer),
            effect,
        }
    }

    /// What the first operation comes to, if nothing refuses it and its OK result is encoded in few
    /// bytes: the reply has room for that.
    pub(crate) fn answer_first_encoded(&self, operation: Operation, values: Vec<u8>) -> Executed
        requires first { (in_progress_of self.now).answered ≡ 0 }
        requires short { length values.items ≤ 4096 }
        ensures gives { (now : ℕ) (old new : SharedState) (kind : Kind) (answer : Answered)
            → EncodesAnswer (number_of operation) values.items answer
            → RunsTo now old new (in_progress_of self.now) (in_progress_of self.now) kind
            (Done answer)
            → Operates now old new (in_progress_of self.now) kind result }
        ensures answered { HasResult (in_progress_of self.now) result }
    {
        Executed::GivesValues { operation, values }
    }
}

impl Progress {
    ghost use Rattle.std.specs.Prelude.{◌≡◌, ◌+◌, ◌<◌, ◌≤◌, ◌^◌, length};
    ghost use Rattle.compound.specs.EncodedResult.{CanBeEncoded, text_of_result, with_encoded, with_last};
    ghost use Rattle.compound.specs.Views.{Asked, resumed};

    /// With one more result, after those so far.
    pub(crate) fn with_result(self, encoded: EncodedResult<'_>) -> Progress
        requires encodable { CanBeEncoded encoded }
        requires more { self.answered + 1 < 2 ^ 32 }
        requires room { length self.results.bytes + length (text_of_result encoded) ≤ RESULT_BUFFER }
        ensures request { (asked : Asked) → resumed asked result
            ≡ with_encoded (resumed asked self) encoded.entry }
        ensures position { result.position ≡ self.position }
    {
        let Progress {
            position,
            answered,
            results,
            reply,
            client,
            run,
            current,
            saved,
            slot,
            altered,
            ended,
        } = self;
        Progress {
            position,
            answered: answered + 1,
            results: encoded.write(results),
            reply,
            client,
            run,
            current,
            saved,
            slot,
            altered,
            ended,
        }
    }

    /// With one more result, which is the last one.
    pub(crate) fn with_last(self, encoded: EncodedResult<'_>) -> Progress
        requires encodable { CanBeEncoded encoded }
        requires more { self.answered + 1 < 2 ^ 32 }
        requires room { length self.results.bytes + length (text_of_result encoded) ≤ RESULT_BUFFER }
        ensures request { (asked : Asked) → resumed asked result
            ≡ with_last (resumed asked self) encoded.entry }
        ensures position { result.position ≡ self.position }
    {
        let last = encoded.status();
        let mut progress = self.with_result(encoded);
        progress.ended = Some(last);
        progress
    }
}
