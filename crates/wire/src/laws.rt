//! The laws of the grammars: each is exact, and so one value has one encoding and no encoding is a
//! prefix of another.

ghost use Rattle.xdr.specs.Laws.{Exact, OneEncoding};
ghost use Rattle.model.specs.Wire.WireArguments.{argument};
ghost use Rattle.model.specs.Wire.WireAnswers.{outcome};

/// An operation with its arguments.
#[tactic(auto, using(crate::proofs::ExactArguments::argument_exact, crate::proofs::ExactArguments::one_argument))]
pub fn arguments_are_exact()
    ensures exact { Exact argument }
    ensures one { OneEncoding argument }
{}

/// A result of an operation, whether it succeeded or failed.
#[tactic(auto, using(model::proofs::Wire::ExactAnswers::outcome_exact, model::proofs::Wire::ExactAnswers::one_outcome))]
pub fn outcomes_are_exact()
    ensures exact { Exact outcome }
    ensures one { OneEncoding outcome }
{}
