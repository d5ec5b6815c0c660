//! The tests around an operation, in their order (RFC 8881, section 16.2.3).

ghost use Rattle.std.specs.Prelude.{◌≡◌};
ghost use Rattle.model.specs.Server.Served.{is_served, looks_no_further, opens_no_further};
ghost use Rattle.model.specs.Server.World as world;
ghost use Rattle.model.specs.Server.World.{first_or, first_tests, later_tests};
ghost use Rattle.wire.specs.ArgumentView.{argument_view};
ghost use Rattle.wire.specs.ArgumentViews.{opening_view};
ghost use Rattle.compound.specs.Views.{refused_or};
ghost use Rattle.compound.specs.declared.next.Next.TheVariants as nexts;
ghost use Rattle.model_tree.specs.declared.status.Status.TheVariants as status;

use crate::fault::Fault;
use crate::running::Running;
use model_tree::status::Status;
use std::alloc::Global;
use wire::{Argument, Claim, CreateArguments, Opening, Operation};
use xdr::{Reader, Refusal};

/// The number of a result that belongs to no operation (RFC 8881, section 15.2).
pub(crate) const OP_ILLEGAL: u32 = 10044;

/// What comes next of a COMPOUND.
#[derive(Drop)]
pub(crate) enum Next<'a> {
    /// It is refused before it is run, under this number.
    Refuses {
        operation: u32,
        status: Status,
    },
    /// It runs; after it come the bytes from this position on.
    Reads {
        argument: Argument<'a>,
        position: usize,
    },
}

impl Running<'_> {
    ghost use Rattle.std.specs.Prelude.{◌≡◌, ◌≤◌, ℕ, ◌&&◌, not, List, length, drop, Ok, IfOk};
    ghost use Rattle.model.specs.Wire.Rpc.{is_empty};
    ghost use Rattle.model.specs.Server.Served.{looks_no_further};
    ghost use Rattle.wire.specs.ArgumentView.{argument_view};
    ghost use Rattle.std.specs.Int.{w32};
    ghost use Rattle.xdr.specs.Grammar.{number_at};
    ghost use Rattle.model.specs.Server.World as world;
    ghost use Rattle.model.specs.Server.World.{next_operation, by_arguments, first_or, tests_of, is_last};
    ghost use Rattle.model.specs.Wire.WireArguments.{arguments_at};
    ghost use Rattle.compound.specs.Memory.{OrMemory};
    ghost use Rattle.compound.specs.Runs.{noted, with_rest};
    ghost use Rattle.compound.specs.Views.{in_progress_of, asked_of, next_view, refused_or, IsWithin};

    /// The next operation with its arguments, or why it is refused before it is run.
    ///
    /// In this order: BADXDR if the operation's number is not complete, and OP_ILLEGAL if it is
    /// outside 3 to 58, both under result number 10044; OP_NOT_IN_SESSION and NOT_ONLY_OP for the
    /// first operation, NOTSUPP and SEQUENCE_POS for a later one; BADXDR for arguments that cannot
    /// be read, and for bytes after the last operation.
    #[tactic(auto, unfolding(crate::specs::Views::in_progress_of, model::specs::Server::World::next_operation))]
    pub(crate) fn next_operation(&self, alloc: Global) -> Result<Next<'_>, Fault>
        ensures ok { OrMemory result (λ next.
            next_operation (in_progress_of self.now)
            ≡ next_view self.now.compound.operations.now next) }
        ensures within { IfOk result (IsWithin self.now.compound.operations.now) }
    {
        let start = Reader::new(&self.compound.operations[self.progress.position..]);
        let mut at = start.fork();
        let Ok(number) = at.read_u32() else {
            return Ok(Next::Refuses {
                operation: OP_ILLEGAL,
                status: Status::BadXdr,
            });
        };
        if let Some((operation, status)) = self.refusal(number) {
            return Ok(Next::Refuses { operation, status });
        }
        self.read_next(alloc, number, start)
    }

    /// The operation of this number that begins at `start`, if nothing refuses the number.
    fn read_next<'a>(
        &'a self,
        alloc: Global,
        number: u32,
        start: Reader<'a>,
    ) -> Result<Next<'a>, Fault>
        requires { start ≡ (in_progress_of self.now).rest }
        ensures ok { OrMemory result (λ next. (bytes : List ℕ)
            → number_at w32 start.entry ≡ Ok (number, bytes)
            → by_arguments (in_progress_of self.now) number (arguments_at number bytes)
            ≡ next_view self.now.compound.operations.now next) }
        ensures within { IfOk result (IsWithin self.now.compound.operations.now) }
    {
        let mut at = start;
        let argument = match Argument::read_numbered(alloc, &mut at) {
            Ok(argument) => argument,
            Err(Refusal::Memory) => return Err(Fault::Memory),
            Err(_) => return Ok(bad_arguments(number)),
        };
        if self.has_too_much(&argument, at.rest()) {
            return Ok(bad_arguments(number));
        }
        let position = self.compound.operations.len() - at.len();
        Ok(Next::Reads { argument, position })
    }

    /// Whether bytes follow the arguments of the last operation, unless such bytes are ignored.
    fn has_too_much(&self, argument: &Argument<'_>, rest: &[u8]) -> bool
        ensures { result ≡ is_last (in_progress_of self.now)
            && (not (looks_no_further (argument_view argument.now)) && not (is_empty rest.now)) }
    {
        self.is_last() && !looks_no_further(argument) && !rest.is_empty()
    }

    /// Whether one operation remains.
    #[tactic(auto, unfolding(crate::specs::Views::in_progress_of))]
    pub(crate) fn is_last(&self) -> bool
        ensures { result ≡ is_last (in_progress_of self.now) }
    {
        self.compound.count.saturating_sub(self.progress.answered) == 1
    }

    /// Goes on after an operation, to the bytes from this position on. `altered` says whether it
    /// made a change that has to last.
    #[tactic(auto, unfolding(crate::specs::Views::in_progress_of))]
    pub(crate) fn advance(&mut self, position: usize, altered: bool)
        requires { position ≤ length self.old.compound.operations.now }
        ensures asked { asked_of self.new ≡ asked_of self.old }
        ensures request { in_progress_of self.new ≡ noted altered (with_rest
            (in_progress_of self.old) (drop position self.old.compound.operations.now)) }
    {
        self.progress.position = position;
        self.progress.altered |= altered;
    }

    /// Why an operation of this number is refused, and under which number, whatever its arguments.
    #[tactic(auto, unfolding(crate::specs::Views::in_progress_of))]
    fn refusal(&self, number: u32) -> Option<(u32, Status)>
        ensures { (next : world.Next)
            → first_or (tests_of (in_progress_of self.now) number) next ≡ refused_or result next }
    {
        if self.progress.answered == 0 {
            first_refusal(self.compound.count, number)
        } else {
            later_refusal(number)
        }
    }
}

/// Why the first of `count` operations is refused by its number.
fn first_refusal(count: u32, number: u32) -> Option<(u32, Status)>
    ensures { (next : world.Next)
        → first_or (first_tests count number) next ≡ refused_or result next }
{
    if is_no_operation(number) {
        Some((OP_ILLEGAL, Status::OpIllegal))
    } else if !is_sequence(number) && !stands_alone(number) {
        Some((number, Status::OpNotInSession))
    } else if stands_alone(number) && count > 1 {
        Some((number, Status::NotOnlyOp))
    } else {
        None
    }
}

/// Why a later operation is refused by its number.
fn later_refusal(number: u32) -> Option<(u32, Status)>
    ensures { (next : world.Next) → first_or (later_tests number) next ≡ refused_or result next }
{
    if is_no_operation(number) {
        Some((OP_ILLEGAL, Status::OpIllegal))
    } else if !is_served(number) || stands_alone(number) {
        Some((number, Status::NotSupp))
    } else if is_sequence(number) {
        Some((number, Status::SequencePos))
    } else {
        None
    }
}

pub(crate) fn is_no_operation(number: u32) -> bool
    ensures { result ≡ world.is_no_operation number }
{
    number < Operation::Access.number() || Operation::ReclaimComplete.number() < number
}

fn is_sequence(number: u32) -> bool
    ensures { result ≡ world.is_sequence number }
{
    number == Operation::Sequence.number()
}

fn stands_alone(number: u32) -> bool
    ensures { result ≡ world.stands_alone number }
{
    number == Operation::ExchangeId.number()
        || number == Operation::CreateSession.number()
        || number == Operation::DestroySession.number()
        || number == Operation::DestroyClientId.number()
}

/// Whether an operation is served; any other one of the standard's gets NOTSUPP.
fn is_served(number: u32) -> bool
    ensures { result ≡ is_served number }
{
    Operation::from_number(number).is_some()
}

/// Whether the bytes after the arguments are ignored.
fn looks_no_further(argument: &Argument<'_>) -> bool
    ensures { result ≡ looks_no_further (argument_view argument.now) }
{
    match argument {
        Argument::Create(CreateArguments::OtherType(_)) => true,
        Argument::Open(open) => opens_no_further(&open.opening),
        _ => false,
    }
}

fn opens_no_further(opening: &Opening<'_>) -> bool
    ensures { result ≡ opens_no_further (opening_view opening.now) }
{
    match opening {
        Opening::Opens { claim, .. } => matches!(claim, Claim::OtherClaim(_)),
        Opening::Exclusive(_) => true,
    }
}

fn bad_arguments(number: u32) -> Next<'static>
    ensures { result ≡ nexts.Refuses number status.BadXdr }
{
    Next::Refuses {
        operation: number,
        status: Status::BadXdr,
    }
}
