//! A result on its way into the reply.

use model_tree::status::Status;
use wire::{Operation, Outcome};
use xdr::{Refusal, Writer};

/// A result of an operation, as it goes into the reply.
#[derive(Clone, Copy)]
pub(crate) enum EncodedResult<'a> {
    Whole(&'a Outcome<'static>),
    /// An OK result, of which the values after the status are already encoded.
    Values {
        operation: Operation,
        values: &'a [u8],
    },
}

impl EncodedResult<'_> {
    ghost use Rattle.std.specs.Prelude.{◌≡◌, ◌+◌, ◌≤◌, ◌++◌, length};
    ghost use Rattle.compound.specs.EncodedResult.{CanBeEncoded, text_of_result, status_of_result, is_ok};

    /// Whether its status is OK.
    pub(crate) fn is_ok(&self) -> bool
        ensures { result ≡ is_ok self.now }
    {
        !matches!(self, EncodedResult::Whole(Outcome::Refused { .. }))
    }

    /// The status.
    pub(crate) fn status(&self) -> Status
        ensures { result ≡ status_of_result self.now }
    {
        match self {
            EncodedResult::Whole(Outcome::Refused { status, .. }) => *status,
            _ => Status::Ok,
        }
    }

    /// It is encoded after other results.
    pub(crate) fn write(&self, results: Writer) -> Writer
        requires encodable { CanBeEncoded self.now }
        requires room { length results.bytes + length (text_of_result self.now) ≤ results.capacity }
        ensures bytes { result.bytes ≡ results.bytes ++ text_of_result self.now }
        ensures capacity { results.capacity ≤ result.capacity }
    {
        match self {
            EncodedResult::Whole(outcome) => write_outcome(results, outcome),
            EncodedResult::Values { operation, values } => write_encoded(
                results, *operation, values,
            ),
        }
    }
}

ghost use Rattle.std.specs.Prelude.{◌≡◌, ◌+◌, ◌≤◌, ◌++◌, length};
ghost use Rattle.std.specs.Int.{w32};
ghost use Rattle.xdr.specs.Clauses.{Wrote};
ghost use Rattle.xdr.specs.Grammar.{number};
ghost use Rattle.model.specs.Wire.WireAnswers as answers;
ghost use Rattle.model.specs.Server.World.{outcome_text};
ghost use Rattle.wire.specs.Numbers.{number_of};
ghost use Rattle.wire.specs.OutcomeView.{outcome_view};
ghost use Rattle.compound.specs.Operates.{encoded_text};

/// The results, and one more.
#[tactic(auto, unfolding(model::specs::Server::World::outcome_text))]
fn write_outcome(results: Writer, outcome: &Outcome<'_>) -> Writer
    requires fits { answers.outcome.Fits (outcome_view outcome.now) }
    requires room { length results.bytes + length (outcome_text (outcome_view outcome.now))
        ≤ results.capacity }
    ensures bytes { result.bytes ≡ results.bytes ++ outcome_text (outcome_view outcome.now) }
    ensures capacity { results.capacity ≤ result.capacity }
{
    let mut results = results;
    match outcome.write(&mut results) {
        Ok(()) => results,
        Err(_) => unreachable!(),
    }
}

/// The results, and one more whose values are already encoded.
fn write_encoded(results: Writer, operation: Operation, values: &[u8]) -> Writer
    requires { length results.bytes + length (encoded_text (number_of operation) values.now)
        ≤ results.capacity }
    ensures bytes { result.bytes
        ≡ results.bytes ++ encoded_text (number_of operation) values.now }
    ensures capacity { results.capacity ≤ result.capacity }
{
    let mut prefix = results;
    match write_prefix(&mut prefix, operation) {
        Ok(()) => append(prefix, values),
        Err(_) => unreachable!(),
    }
}

/// Writes the number and the status OK. A refusal may leave a prefix of them.
#[tactic(auto, using(xdr::proofs::Writing::wrote_on, xdr::proofs::Writing::wrote_exit, xdr::proofs::Writing::wrote_end))]
fn write_prefix(w: &mut Writer, operation: Operation) -> Result<(), Refusal>
    ensures { Wrote w.old w.new result (number w32 (number_of operation) ++ number w32 0) }
{
    w.write_u32(operation.number())?;
    w.write_u32(0)
}

/// The bytes that were written, and others after them as they are.
fn append(prefix: Writer, values: &[u8]) -> Writer
    requires { length prefix.bytes + length values.now ≤ prefix.capacity }
    ensures bytes { result.bytes ≡ prefix.bytes ++ values.now }
    ensures capacity { prefix.capacity ≤ result.capacity }
{
    let mut bytes = prefix.into_vec();
    match bytes.extend_from_slice(values) {
        Ok(()) => Writer::from_vec(bytes),
        Err(_) => unreachable!(),
    }
}
