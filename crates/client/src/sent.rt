//! The record of a client's operations, as it is kept.

ghost use Rattle.std.specs.Prelude.{◌≡◌, ◌≤◌, ◌<◌, ◌++◌, length, map, All, IfOk};
ghost use Rattle.xdr.specs.Clauses.{Wrote};
ghost use Rattle.model.specs.Wire.WireArguments.{argument};
ghost use Rattle.model.specs.Server.World.{stands_alone};
ghost use Rattle.wire.specs.Numbers.{number_of};
ghost use Rattle.wire.specs.ArgumentView.{argument_view};
ghost use Rattle.wire_client.specs.ArgumentFits.{ArgumentFits};
ghost use Rattle.std.specs.Option.{option_map};
ghost use Rattle.client.specs.Requests.{is_alone, behind, new_record, sequence_of, call_text};
ghost use Rattle.client.specs.Rests.{sequence_number, number_asked};
ghost use Rattle.client.specs.Views.{session_of, sent_of};

use crate::call::{RECORD_LIMIT, frame, write_head, write_operations};
use rpc::{MAX_AUTH_BYTES, MAX_TAG_BYTES};
use std::alloc::{AllocError, Global};
use wire::{Argument, Operation, SequenceArguments};
use wire_client::write_argument;
use xdr::{Refusal, Writer};

/// A session, and the number of its next request on slot 0.
#[derive(Clone, Copy)]
pub struct Session {
    pub id: [u8; 16],
    pub number: u32,
}

/// The last record.
#[derive(Drop)]
pub struct Sent {
    pub xid: u32,
    /// The numbers of its operations.
    pub operations: Vec<u32>,
    /// As it is sent.
    pub bytes: Vec<u8>,
    pub is_answered: bool,
    /// A reply said that its SEQUENCE succeeded.
    pub is_counted: bool,
}

/// Whether the operations need no SEQUENCE.
pub(crate) fn is_alone(operations: &[Argument<'_>]) -> bool
    ensures { result ≡ is_alone (map argument_view operations.now) }
{
    match operations {
        [operation] => stands_alone(operation.operation()),
        _ => false,
    }
}

fn stands_alone(operation: Operation) -> bool
    ensures { result ≡ stands_alone (number_of operation) }
{
    match operation {
        Operation::ExchangeId
        | Operation::CreateSession
        | Operation::DestroySession
        | Operation::DestroyClientId => true,
        _ => false,
    }
}

/// The record of these operations, after the SEQUENCE of a session if there is one. It has less
/// than 2^31 bytes.
#[tactic(auto, unfolding(crate::specs::Requests::record_text))]
pub(crate) fn make_record(
    alloc: Global,
    xid: u32,
    credential: &[u8],
    tag: &[u8],
    session: Option<Session>,
    operations: &[Argument<'_>],
) -> Result<Sent, Refusal>
    requires credential { length credential.now ≤ MAX_AUTH_BYTES }
    requires tag { length tag.now ≤ MAX_TAG_BYTES }
    requires fits { All ArgumentFits operations.now }
    ensures { IfOk result (λ sent. sent_of sent ≡ new_record xid credential.now tag.now
        (behind (option_map session_of session) (map argument_view operations.now))) }
{
    let mut call = Writer::new(alloc);
    write_call(&mut call, xid, credential, tag, session, operations)?;
    let bytes = frame(alloc, call.as_slice())?;
    let numbers = numbers_of(alloc, session, operations)?;
    Ok(Sent {
        xid,
        operations: numbers,
        bytes,
        is_answered: false,
        is_counted: false,
    })
}

/// Writes the whole call.
fn write_call(
    w: &mut Writer,
    xid: u32,
    credential: &[u8],
    tag: &[u8],
    session: Option<Session>,
    operations: &[Argument<'_>],
) -> Result<(), Refusal>
    requires credential { length credential.now ≤ MAX_AUTH_BYTES }
    requires tag { length tag.now ≤ MAX_TAG_BYTES }
    requires fits { All ArgumentFits operations.now }
    ensures { IfOk result (λ _. w.new.bytes ≡ w.old.bytes ++ call_text xid credential.now tag.now
        (behind (option_map session_of session) (map argument_view operations.now))) }
{
    if operations.len() >= RECORD_LIMIT {
        return Err(Refusal::Memory);
    }
    let count = operations.len() as u32;
    match session {
        None => {
            write_head(w, xid, credential, tag, count)?;
            write_operations(w, operations)
        }
        Some(session) => {
            write_head(w, xid, credential, tag, count + 1)?;
            write_sequence(w, session)?;
            write_operations(w, operations)
        }
    }
}

fn write_sequence(w: &mut Writer, session: Session) -> Result<(), Refusal>
    ensures { Wrote w.old w.new result (argument.encoding (sequence_of (session_of session))) }
{
    let id = session.id;
    let sequence = Argument::Sequence(SequenceArguments {
        session: id,
        sequence: session.number,
        slot: 0,
        highest_slot: 0,
        cache_this: true,
    });
    write_argument(w, &sequence)?;
    Ok(())
}

/// The numbers of operations, perhaps after that of SEQUENCE.
fn numbers_of(
    alloc: Global,
    session: Option<Session>,
    operations: &[Argument<'_>],
) -> Result<Vec<u32>, AllocError>
    ensures { IfOk result (λ numbers. numbers.items
        ≡ sequence_number session ++ map number_asked operations.now) }
{
    let mut numbers = Vec::new(alloc);
    if let Some(_) = session {
        numbers.push(Operation::Sequence.number())?;
    }
    for operation in operations {
        numbers.push(operation.operation().number())?;
    }
    Ok(numbers)
}
