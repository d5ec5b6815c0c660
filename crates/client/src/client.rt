//! A client: what it sends, and what it knows from the replies.

ghost use Rattle.std.specs.Prelude.{◌≡◌, ◌≤◌, ◌⊎◌, Some, None, length, map, All, OnOk, OnErr, IfOk, IfErr, MatchResult, MatchOption};
ghost use Rattle.wire.specs.ArgumentView.{argument_view};
ghost use Rattle.wire_client.specs.ArgumentFits.{ArgumentFits};
ghost use Rattle.client.specs.Requests.{new_client, requested, bytes_kept};
ghost use Rattle.wire.specs.OutcomeView.{outcome_view};
ghost use Rattle.client.specs.Replies.{reply_to};
ghost use Rattle.client.specs.Views.{AnswersOk, Refuses, known};
ghost use Rattle.client.specs.Streams.{stream};
ghost use Rattle.client.specs.Exchanges.{Asks, Resends};
ghost use Rattle.client.specs.declared.fault.ClientFault.TheVariants.{Memory, Pending};

use crate::call::credential_body;
use crate::fault::ClientFault;
use crate::known::{is_delayed, learn, was_answered};
use crate::receive::converse;
use crate::reply::{ReplyRead, read_reply, results_or_status};
use crate::sent::{Sent, Session, is_alone, make_record};
use model_tree::acl::Cred;
use rpc::MAX_TAG_BYTES;
use std::alloc::Global;
use std::io::{Read, Write};
use std::marker::Model;
use wire::{Argument, Outcome};

/// A client. In a contract it is what it knows: its caller and tag, the next xid, the session, and
/// the last record.
#[derive(Drop)]
pub struct Client {
    alloc: Global,
    credential: Vec<u8>,
    tag: Vec<u8>,
    xid: u32,
    session: Option<Session>,
    sent: Option<Sent>,
}

impl Model for Client {
    ghost use Rattle.std.specs.Prelude.{◌≤◌, length};
    ghost use Rattle.std.specs.Option.{option_map};
    ghost use Rattle.rpc.specs.declared.call.TheConstants.{MAX_AUTH_BYTES};
    ghost use Rattle.rpc.specs.declared.tag.TheConstants.{MAX_TAG_BYTES};
    ghost use Rattle.client.specs.Client.{Client as Known};
    ghost use Rattle.client.specs.Views.{session_of, sent_of};

    ghost Value = { Known };

    ghost view = { λ c. record {
      credential = c.credential.items;
      tag = c.tag.items;
      xid = c.xid;
      session = option_map session_of c.session;
      sent = option_map sent_of c.sent;
    } };

    ghost invariant = { λ c. (length c.credential.items ≤ MAX_AUTH_BYTES)
        × (length c.tag.items ≤ MAX_TAG_BYTES) };
}

impl Client {
    /// A client of this caller and tag, whose first record has this xid.
    pub fn new(
        alloc: Global,
        cred: &Cred,
        tag: &[u8],
        xid: u32,
    ) -> Result<Client, ClientFault<'static>>
        requires { length tag.now ≤ MAX_TAG_BYTES }
        ensures ok { IfOk result (λ client. client ≡ new_client cred.now tag.now xid) }
        ensures err { IfErr result (λ e. e ≡ Memory) }
    {
        let Ok(credential) = credential_body(alloc, cred) else {
            return Err(ClientFault::Memory);
        };
        Ok(Client {
            alloc,
            credential,
            tag: Vec::from_slice(alloc, tag)?,
            xid,
            session: None,
            sent: None,
        })
    }

    /// Makes the record of these operations, after a SEQUENCE on slot 0 unless they are just one
    /// EXCHANGE_ID, CREATE_SESSION, DESTROY_SESSION or DESTROY_CLIENTID. The client keeps it, and
    /// `retry` gives it.
    ///
    /// `Pending` while a record waits for its reply, and if there is no session yet that the
    /// operations need.
    #[tactic(auto, unfolding(crate::specs::Requests::requested))]
    pub fn request(&mut self, operations: &[Argument<'_>]) -> Result<(), ClientFault<'static>>
        requires { All ArgumentFits operations.now }
        ensures ok { OnOk result
            (requested self.old (map argument_view operations.now) ≡ Some self.new) }
        ensures refused { IfErr result (λ e. MatchOption
            (requested self.old (map argument_view operations.now)) (e ≡ Pending)
            (λ _. e ≡ Memory)) }
        ensures err { OnErr result (self.new ≡ self.old) }
    {
        if let Some(sent) = &self.sent {
            if !sent.is_answered {
                return Err(ClientFault::Pending);
            }
        }
        let mut session = None;
        if !is_alone(operations) {
            if self.session.is_none() {
                return Err(ClientFault::Pending);
            }
            session = self.session;
        }
        let made = make_record(
            self.alloc,
            self.xid,
            &self.credential,
            &self.tag,
            session,
            operations,
        );
        let Ok(sent) = made else {
            return Err(ClientFault::Memory);
        };
        self.sent = Some(sent);
        self.xid = self.xid.wrapping_add(1);
        Ok(())
    }

    /// The kept record, its header included: to be sent, for the first time or again, over this
    /// stream or a new one.
    pub fn retry(&self) -> Result<&[u8], ClientFault<'static>>
        ensures { MatchResult result (λ bytes. bytes_kept self.now.sent ≡ Some bytes.now)
            (λ e. (self.now.sent ≡ None) × (e ≡ Pending)) }
    {
        match &self.sent {
            Some(sent) => Ok(&sent.bytes),
            None => Err(ClientFault::Pending),
        }
    }

    /// The results in a reply's record, of one fragment with its header, if every operation
    /// succeeded.
    ///
    /// `Garbled` if it is no reply to the last record; `Rpc` if the call was denied or not
    /// accepted; `Status` if an operation failed. The record has its reply then, except after
    /// `Garbled`, and after DELAY at its SEQUENCE.
    #[tactic(auto, unfolding(crate::specs::Replies::replied))]
    pub fn reply<'a>(&mut self, bytes: &'a [u8]) -> Result<Vec<Outcome<'a>>, ClientFault<'a>>
        ensures ok { IfOk result (λ results.
            AnswersOk (reply_to self.old bytes.now) (map outcome_view results.items)) }
        ensures refused { IfErr result (λ e. (e ≡ Memory)
            ⊎ Refuses (reply_to self.old bytes.now) e) }
        ensures known { self.new ≡ known self.old (reply_to self.old bytes.now) result }
    {
        let Some(sent) = &self.sent else {
            return Err(ClientFault::Garbled);
        };
        let Ok(read) = read_reply(self.alloc, &self.tag, sent, bytes) else {
            return Err(ClientFault::Memory);
        };
        match read {
            ReplyRead::NoReply => Err(ClientFault::Garbled),
            ReplyRead::Rejects => {
                self.sent = was_answered(self.sent.take());
                Err(ClientFault::Rpc)
            }
            ReplyRead::Gives(results, last) => {
                if !is_delayed(&results) {
                    let (session, sent) = learn(self.session, self.sent.take(), &results);
                    self.session = session;
                    self.sent = sent;
                }
                results_or_status(results, last)
            }
        }
    }

    /// Sends the record of these operations, as `request` makes it, and reads its reply: returns
    /// what `reply` does. The reply is in `received`, from which the results borrow.
    ///
    /// `Pending` and `Memory` as of `request`, and then nothing is written. `Io` if the writer
    /// failed, or the reader failed or ended before the reply was whole: the record is kept, and
    /// `resend` sends it over another stream. `Garbled` also if the reply has more than 16,384
    /// bytes or 64 fragments (RFC 5531, section 11).
    pub fn exchange<'a, R: Read, W: Write>(
        &mut self,
        reader: &mut R,
        writer: &mut W,
        operations: &[Argument<'_>],
        received: &'a mut Vec<u8>,
    ) -> Result<Vec<Outcome<'a>>, ClientFault<'a>>
        requires { All ArgumentFits operations.now }
        ensures { Asks (requested self.old (map argument_view operations.now)) self.old self.new
            (stream (W.contents writer.old) (R.remaining reader.old))
            (stream (W.contents writer.new) (R.remaining reader.new)) result }
    {
        self.request(operations)?;
        self.resend(reader, writer, received)
    }

    /// Sends the kept record over this stream, and reads its reply, as `exchange` does: `Pending`
    /// if there is none, `Memory` if there is none for the reply, and then nothing is written.
    pub fn resend<'a, R: Read, W: Write>(
        &mut self,
        reader: &mut R,
        writer: &mut W,
        received: &'a mut Vec<u8>,
    ) -> Result<Vec<Outcome<'a>>, ClientFault<'a>>
        ensures { Resends self.old self.new
            (stream (W.contents writer.old) (R.remaining reader.old))
            (stream (W.contents writer.new) (R.remaining reader.new)) result }
    {
        let Some(sent) = &self.sent else {
            return Err(ClientFault::Pending);
        };
        match converse(reader, writer, &sent.bytes, received) {
            Ok(()) => self.reply(received),
            Err(fault) => Err(fault),
        }
    }
}
