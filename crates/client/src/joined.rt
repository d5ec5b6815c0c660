//! What joins the client's end of a connection with the server's.

ghost use Rattle.client.specs.ExchangeExample.{ExchangeExample};
ghost use Rattle.client.specs.Joined.{EveryPieceWaits, EveryRecordIsAsked, EveryReplyIsTold};
ghost use Rattle.client.specs.Progress.{EveryCallIsAnswered, EveryRequestIsAnswered};
ghost use Rattle.client.specs.Resends.{EveryHeldIsFound, EveryOutcomeIsToldAgain, EveryResendIsReplayed};
ghost use Rattle.client.specs.Whole.{EveryExchange};

/// Once the record of a client is whole, in pieces or at once, it is the request of this caller with
/// these operations. The reply to a request that ends, with results of a prefix of them, is read as
/// these results. So of a record whose operations are run one a turn, whatever happens between, the
/// client returns their outcomes, and no others. Of a reply that is sent again
/// `every_resend_is_replayed` says it.
pub fn every_exchange()
    ensures waits { EveryPieceWaits }
    ensures asked { EveryRecordIsAsked }
    ensures told { EveryReplyIsTold }
    ensures whole { EveryExchange }
{}

/// An exchange that is worked out by hand: what `every_exchange` asks can be met.
#[tactic(auto, using(crate::proofs::Worked::worked))]
pub fn exchange_example()
    ensures { ExchangeExample }
{}

/// A call that has come has its reply after one turn of its connection more than it has operations,
/// whatever else happens between; and a request under way after one more than are left.
pub fn every_request_is_answered()
    ensures comes { EveryCallIsAnswered }
    ensures goes_on { EveryRequestIsAnswered }
{}

/// A record that is sent again, since its reply was lost with a connection or in a crash, runs
/// nothing if a slot keeps its result or a seat holds it: the client returns the outcomes of the
/// first time (RFC 8881, section 2.10.6).
pub fn every_resend_is_replayed()
    ensures replayed { EveryResendIsReplayed }
    ensures held { EveryHeldIsFound }
    ensures told { EveryOutcomeIsToldAgain }
{}
