//! The result of a COMPOUND (RFC 8881, section 16.2).

ghost use Rattle.std.specs.Prelude.{◌≡◌, ◌||◌, not, map, Some, None, if◌then◌else◌};
ghost use Rattle.xdr.specs.Clauses.{ReadsBy};
ghost use Rattle.xdr.specs.Forms.{array};
ghost use Rattle.model.specs.Wire.Results.{compound_result};
ghost use Rattle.model.specs.Wire.WireAnswers.{outcome};
ghost use Rattle.wire.specs.OutcomeView.{outcome_view};
ghost use Rattle.client.specs.Replies.{ending, outcome_number, status_of, is_ok};
ghost use Rattle.client.specs.Views.{result_view, ReadsOutcomes};

use model_tree::status::Status;
use rpc::MAX_TAG_BYTES;
use std::alloc::Global;
use wire::Outcome;
use wire_client::read_outcome;
use xdr::{Reader, Refusal};

/// The result of a COMPOUND.
#[derive(Drop)]
pub struct CompoundResult<'a> {
    /// The number of the last result's status.
    pub code: u32,
    pub tag: &'a [u8],
    pub results: Vec<Outcome<'a>>,
}

/// Reads `COMPOUND4res`.
pub(crate) fn read_result<'a>(
    alloc: Global,
    r: &mut Reader<'a>,
) -> Result<CompoundResult<'a>, Refusal>
    ensures { ReadsBy result_view (compound_result.read) r.old r.new result }
{
    let mut at = r.fork();
    let code = at.read_u32()?;
    let tag = at.read_opaque(MAX_TAG_BYTES)?;
    let results = read_outcomes(alloc, &mut at)?;
    *r = at;
    Ok(CompoundResult { code, tag, results })
}

#[tactic(auto, unfolding(xdr::specs::Forms::elements_at))]
fn read_outcomes<'a>(alloc: Global, r: &mut Reader<'a>) -> Result<Vec<Outcome<'a>>, Refusal>
    ensures { ReadsBy (λ list. map outcome_view list.items)
        ((array 4294967295 outcome).read) r.old r.new result }
{
    let mut at = r.fork();
    let count = at.read_u32()?;
    let (list, at) = each_outcome(alloc, count, at)?;
    *r = at;
    Ok(list)
}

fn each_outcome<'a>(
    alloc: Global,
    count: u32,
    at: Reader<'a>,
) -> Result<(Vec<Outcome<'a>>, Reader<'a>), Refusal>
    ensures { ReadsOutcomes count at.entry result }
{
    let mut at = at;
    let mut list = Vec::new(alloc);
    for _ in 0..count {
        let one = read_outcome(alloc, &mut at)?;
        list.push(one)?;
    }
    Ok((list, at))
}

/// The status of the last of these results, if they are those of a prefix of the operations of
/// these numbers.
pub(crate) fn ending(operations: &[u32], results: &[Outcome<'_>]) -> Option<Status>
    ensures { result ≡ ending operations.now (map outcome_view results.now) }
{
    for i in 0..results.len() {
        let one = &results[i];
        if i >= operations.len() || number_of(one) != operations[i] {
            return None;
        }
        let is_ok = is_ok(one);
        if i + 1 == results.len() {
            return ending_with(one, is_ok, i + 1 == operations.len());
        }
        if !is_ok {
            return None;
        }
    }
    None
}

/// The status of the last result, which may be OK only if all operations have results.
fn ending_with(last: &Outcome<'_>, is_ok: bool, is_whole: bool) -> Option<Status>
    ensures { result ≡ (if not is_ok
        || is_whole then Some (status_of (outcome_view last.now)) else None) }
{
    if !is_ok || is_whole {
        Some(status_of(last))
    } else {
        None
    }
}

fn is_ok(outcome: &Outcome<'_>) -> bool
    ensures { result ≡ is_ok (outcome_view outcome.now) }
{
    matches!(outcome, Outcome::Done(_))
}

fn number_of(outcome: &Outcome<'_>) -> u32
    ensures { result ≡ outcome_number (outcome_view outcome.now) }
{
    match outcome {
        Outcome::Done(answer) => answer.operation().number(),
        Outcome::Refused { operation, .. } => *operation,
    }
}

fn status_of(outcome: &Outcome<'_>) -> Status
    ensures { result ≡ status_of (outcome_view outcome.now) }
{
    match outcome {
        Outcome::Done(_) => Status::Ok,
        Outcome::Refused { status, .. } => *status,
    }
}
