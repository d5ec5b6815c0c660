//! Records and calls on a stream (RFC 5531): their laws.

ghost use Rattle.xdr.specs.Laws.{Exact, OneEncoding};
ghost use Rattle.model.specs.Wire.Feeding.{EveryFeeding};
ghost use Rattle.model.specs.Wire.Record.{EveryCut, EveryFragmenting, OnlySent, SentIsRead};
ghost use Rattle.model.specs.Wire.Results.{EveryRequestHasResults, EncodesResults, compound_result};
ghost use Rattle.model.specs.Wire.RpcGrammar.{ReadsCalls, ReadsCredentials, ReadsReplies, call_head, reply_head};

/// The records of a stream are the same however it was cut into pieces (RFC 5531, section 11).
pub fn every_cut()
    ensures { EveryCut }
{}

/// A record that is sent is read back, whatever follows it.
pub fn sent_is_read()
    ensures { SentIsRead }
{}

/// A record is read as its fragments joined, however it is fragmented within the limits (RFC 5531,
/// section 11).
pub fn every_fragmenting()
    ensures { EveryFragmenting }
{}

/// What is read as a record was sent as one, in fragments within the limits: nothing else is taken
/// for a record.
pub fn only_sent()
    ensures { OnlySent }
{}

/// A record is read as a call exactly if it is the encoding of a call's header, followed by the
/// call's arguments; no header is a prefix of another (RFC 5531, section 9).
pub fn calls_are_exact()
    ensures exact { Exact call_head }
    ensures one { OneEncoding call_head }
    ensures read { ReadsCalls }
    ensures credentials { ReadsCredentials }
{}

/// A record is read as a reply exactly if it is the reply's encoding; no header is a prefix of
/// another.
pub fn replies_are_exact()
    ensures exact { Exact reply_head }
    ensures one { OneEncoding reply_head }
    ensures read { ReadsReplies }
{}

/// The result of a COMPOUND is read exactly from its encoding, and no encoding is a prefix of
/// another; what the server makes of a request's results is such an encoding, at each moment of
/// every run (RFC 8881, section 16.2.2).
pub fn results_are_exact()
    ensures exact { Exact compound_result }
    ensures one { OneEncoding compound_result }
    ensures encoded { EncodesResults }
    ensures each { EveryRequestHasResults }
{}

/// A stream that is fed in pieces, each whole request released before the next record begins, gives
/// the records of the bytes that were taken, in their order (RFC 5531, section 11).
pub fn every_feeding()
    ensures { EveryFeeding }
{}
