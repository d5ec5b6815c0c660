//! A client as the tests use it. Each of its calls is here once, since it brings all that it
//! promises to its caller.
//!
//! Records are written as words of four bytes in hex, the header first; leading zeros may be left
//! out.

ghost use Rattle.std.specs.Prelude.{All, IfOk};
ghost use Rattle.wire_client.specs.ArgumentFits.{ArgumentFits};

use client::{Client, ClientFault};
use model_tree::acl::{Cred, Gids};
use std::alloc::{AllocError, Global};
use std::io::{Read, Write};
use std::test::*;
use wire::{
    Argument, Attributes, Bitmap, CallbackSecurity, Channel, CreateArguments,
    CreateSessionArguments, ExchangeIdArguments, Outcome,
};
use xdr::Words;

/// EXCHANGE_ID of the owner id `cl`, by uid 7, and the reply: client 4294967297.
pub(super) const EXCHANGE_ID: &str = "80000068 2 0 2 186a3 4 1 1 14 0 0 7 7 0 0 0 0 1 1
    2a 01020304 05060708 2 636c0000 0 0 0";

pub(super) const EXCHANGED: &str = "80000064 2 1 0 0 0 0 0 0 1
    2a 0 1 1 1 10000 0 0 0 8 6e667334 31737276 8 6e667334 31737276 0";

/// CREATE_SESSION of that client, and the reply.
pub(super) const CREATE_SESSION: &str = "800000a0 3 0 2 186a3 4 1 1 14 0 0 7 7 0 0 0 0 1 1
    2b 1 1 1 0 0 4000 4000 4000 10 8 0 0 4000 4000 4000 10 8 0 0 1 0";

pub(super) const CREATED: &str = "8000007c 3 1 0 0 0 0 0 0 1
    2b 0 1 1 0 1 1 0 0 4000 4000 4000 10 8 0 0 4000 4000 4000 10 8 0";

/// Number 1 of slot 0: PUTROOTFH, CREATE of the directory `a`, GETFH; and the reply.
pub(super) const MAKE_A: &str = "80000098 4 0 2 186a3 4 1 1 14 0 0 7 7 0 0 0 0 1 4
    35 1 1 0 1 1 0 0 1 18 6 2 1 61000000 2 0 2 4 1ed a";

pub(super) const A_MADE: &str = "80000094 4 1 0 0 0 0 0 0 4
    35 0 1 1 0 1 1 0 7 7 0 18 0 6 0 1 0 1 1 1 2 0 2 a 0 8 1 1";

/// What a client is to ask.
#[derive(Clone, Copy)]
pub(super) enum Ask {
    ExchangeId,
    CreateSession,
    MakeA,
    Root,
}

/// What a call of the client returned.
#[derive(Clone, Copy, PartialEq)]
pub(super) enum Told {
    /// A record was made.
    Made,
    /// This number of results.
    Results(usize),
    Io,
    Rpc,
    /// The operation at this place was refused with this status, after this number of results.
    Status(usize, u32, usize),
    Garbled,
    Memory,
    Pending,
}

pub(super) fn bytes_of(alloc: Global, words: &str) -> Result<Vec<u8>, Fail> {
    let mut bytes = Vec::new(alloc);
    for word in words.split_whitespace() {
        let number = u32::from_str_radix(word, 16)?;
        bytes.extend_from_slice(&number.to_be_bytes())?;
    }
    Ok(bytes)
}

/// A client of uid 7 and gid 7 and no tag, whose first record has the xid 2.
pub(super) fn new_client(alloc: Global) -> Result<Client, Fail> {
    let cred = Cred {
        uid: 7,
        gid: 7,
        gids: Gids::new(),
    };
    match Client::new(alloc, &cred, &[], 2) {
        Ok(client) => Ok(client),
        Err(_) => Err("no client".into()),
    }
}

/// EXCHANGE_ID of the owner id `cl`.
fn exchange_id() -> Argument<'static>
    ensures { ArgumentFits result }
{
    Argument::ExchangeId(ExchangeIdArguments {
        verifier: [1, 2, 3, 4, 5, 6, 7, 8],
        owner: b"cl",
        flags: 0,
        implementation: None,
    })
}

fn create_session(alloc: Global) -> Result<Argument<'static>, AllocError>
    ensures { IfOk result ArgumentFits }
{
    let channel = Channel {
        header_pad_size: 0,
        max_request_size: 0x4000,
        max_response_size: 0x4000,
        max_response_size_cached: 0x4000,
        max_operations: 16,
        max_requests: 8,
        rdma_ird: None,
    };
    let security = vec![in alloc; CallbackSecurity::NoSecurity]?;
    Ok(Argument::CreateSession(CreateSessionArguments {
        client: 0x1_0000_0001,
        sequence: 1,
        flags: 0,
        fore: channel,
        back: channel,
        callback_program: 0,
        security,
    }))
}

/// CREATE of the directory `a`.
fn create_a() -> Argument<'static>
    ensures { ArgumentFits result }
{
    let mut bitmap: Bitmap = Words::new();
    bitmap.push(0);
    bitmap.push(2);
    Argument::Create(CreateArguments::NewDirectory {
        name: b"a",
        attributes: Attributes {
            bitmap,
            values: &[0, 0, 1, 0xed],
        },
    })
}

/// What a call that makes no results returned.
fn told_of(made: Result<(), ClientFault<'_>>) -> Told {
    match made {
        Ok(()) => Told::Made,
        Err(fault) => fault_of(&fault),
    }
}

fn results_of(results: Result<Vec<Outcome<'_>>, ClientFault<'_>>) -> Told {
    match results {
        Ok(results) => Told::Results(results.len()),
        Err(fault) => fault_of(&fault),
    }
}

fn fault_of(fault: &ClientFault<'_>) -> Told {
    match fault {
        ClientFault::Io => Told::Io,
        ClientFault::Rpc => Told::Rpc,
        ClientFault::Status {
            index,
            status,
            before,
        } => Told::Status(*index, status.code(), before.len()),
        ClientFault::Garbled => Told::Garbled,
        ClientFault::Memory => Told::Memory,
        ClientFault::Pending => Told::Pending,
    }
}

fn make(client: &mut Client, operations: &[Argument<'_>]) -> Told
    requires { All ArgumentFits operations.now }
{
    told_of(client.request(operations))
}

/// Makes a record.
pub(super) fn request(alloc: Global, client: &mut Client, ask: Ask) -> Told {
    match ask {
        Ask::ExchangeId => make(client, &[exchange_id()]),
        Ask::CreateSession => match create_session(alloc) {
            Ok(operation) => make(client, &[operation]),
            Err(_) => Told::Memory,
        },
        Ask::MakeA => make(client, &[Argument::PutRootFh, create_a(), Argument::GetFh]),
        Ask::Root => make(client, &[Argument::PutRootFh]),
    }
}

/// The kept record.
pub(super) fn kept(client: &Client) -> Option<&[u8]> {
    match client.retry() {
        Ok(bytes) => Some(bytes),
        Err(_) => None,
    }
}

/// What the client makes of a reply.
pub(super) fn reply(client: &mut Client, bytes: &[u8]) -> Told {
    results_of(client.reply(bytes))
}

/// Asks over a stream.
pub(super) fn exchange<R: Read, W: Write>(
    alloc: Global,
    client: &mut Client,
    reader: &mut R,
    writer: &mut W,
) -> Told {
    let mut received = Vec::new(alloc);
    results_of(client.exchange(reader, writer, &[exchange_id()], &mut received))
}

/// Sends the kept record over a stream.
pub(super) fn resend<R: Read, W: Write>(
    alloc: Global,
    client: &mut Client,
    reader: &mut R,
    writer: &mut W,
) -> Told {
    let mut received = Vec::new(alloc);
    results_of(client.resend(reader, writer, &mut received))
}
