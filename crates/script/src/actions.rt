//! What the lines of a script have a user do.

ghost use Rattle.std.specs.Prelude.{◌≤◌, length, All, IfOk};
ghost use Rattle.wire_client.specs.ArgumentFits.{ArgumentFits, SecurityFits};

use crate::arguments::MAX_OWNER_BYTES;
use crate::operation::{Operation, arguments_of};
use crate::user::{Known, User};
use callers::{Caller, Results, ScriptFault, connect};
use disk::Device;
use model_tree::status::Status;
use server::{Server, Turn};
use std::alloc::Global;
use std::io::{Read, Write};
use std::net::Net;
use wire::{
    Answer, Argument, CallbackSecurity, CreateSessionArguments, ExchangeIdArguments, Outcome,
};
use wire_client::CHANNEL;

/// `CREATE_SESSION4_FLAG_PERSIST`: the session is to outlive a crash (RFC 8881, section 18.36).
const PERSIST: u32 = 1;

/// Makes a new caller known by this name, and prints its number.
pub fn hello<S, D, O>(
    server: &mut Server<D>,
    caller: &mut Caller<S>,
    name: &str,
    out: &mut O,
) -> Result<Known, ScriptFault>
where
    S: Read + Write + Drop,
    D: Device,
    O: Write,
{
    let known = ask_hello(server, caller, name)?;
    writeln!(out, "{name} client {} {}", known.id, known.sequence)?;
    Ok(known)
}

/// The result of EXCHANGE_ID.
fn ask_hello<S, D>(
    server: &mut Server<D>,
    caller: &mut Caller<S>,
    name: &str,
) -> Result<Known, ScriptFault>
where
    S: Read + Write + Drop,
    D: Device,
{
    let owner = owner_of(name)?;
    let reply = exchange_ids(server, caller, owner)?;
    known_in(caller, &reply)
}

/// The reply to EXCHANGE_ID.
fn exchange_ids<S, D>(
    server: &mut Server<D>,
    caller: &mut Caller<S>,
    owner: &[u8],
) -> Result<Vec<u8>, ScriptFault>
where
    S: Read + Write + Drop,
    D: Device,
    requires { length owner.now ≤ MAX_OWNER_BYTES }
{
    caller.call(server, &[exchange_id(owner)])
}

fn known_in<S>(caller: &mut Caller<S>, reply: &[u8]) -> Result<Known, ScriptFault>
where
    S: Read + Write + Drop,
{
    known_of(&caller.read_reply(reply)?)
}

fn known_of(results: &Results<'_>) -> Result<Known, ScriptFault> {
    match first_answer(results)? {
        Answer::ExchangeId(answer) => Ok(Known {
            id: answer.client,
            sequence: answer.sequence,
        }),
        _ => Err(ScriptFault::Garbled),
    }
}

/// Asks for a session, or for a persistent one, and prints its id.
pub fn session<S, D, O>(
    alloc: Global,
    server: &mut Server<D>,
    user: &mut User<S>,
    persistent: bool,
    out: &mut O,
) -> Result<(), ScriptFault>
where
    S: Read + Write + Drop,
    D: Device,
    O: Write,
{
    user.words = words(alloc, "session")?;
    let id = ask_session(alloc, server, &mut user.caller, user.known, persistent)?;
    user.has_session = true;
    tell_session(out, &user.name, &id)
}

/// The session's id, which CREATE_SESSION returns.
fn ask_session<S, D>(
    alloc: Global,
    server: &mut Server<D>,
    caller: &mut Caller<S>,
    known: Known,
    persistent: bool,
) -> Result<[u8; 16], ScriptFault>
where
    S: Read + Write + Drop,
    D: Device,
{
    let security = vec![in alloc; CallbackSecurity::NoSecurity]?;
    let flags = if persistent { PERSIST } else { 0 };
    let reply = make_session(server, caller, known, flags, security)?;
    session_in(caller, &reply)
}

/// The reply to CREATE_SESSION.
fn make_session<S, D>(
    server: &mut Server<D>,
    caller: &mut Caller<S>,
    known: Known,
    flags: u32,
    security: Vec<CallbackSecurity<'_>>,
) -> Result<Vec<u8>, ScriptFault>
where
    S: Read + Write + Drop,
    D: Device,
    requires { (length security.items ≤ 4) × All SecurityFits security.items }
{
    caller.call(server, &[create_session(known, flags, security)])
}

fn session_in<S>(caller: &mut Caller<S>, reply: &[u8]) -> Result<[u8; 16], ScriptFault>
where
    S: Read + Write + Drop,
{
    session_of(&caller.read_reply(reply)?)
}

fn tell_session<O: Write>(out: &mut O, name: &str, id: &[u8]) -> Result<(), ScriptFault> {
    write!(out, "{name} session ")?;
    write_hex(out, id)
}

fn session_of(results: &Results<'_>) -> Result<[u8; 16], ScriptFault> {
    match first_answer(results)? {
        Answer::CreateSession(answer) => Ok(answer.session),
        _ => Err(ScriptFault::Garbled),
    }
}

/// The first answer of a reply in which nothing is refused.
fn first_answer<'a, 'b>(results: &'b Results<'a>) -> Result<&'b Answer<'a>, ScriptFault> {
    match (results.refusal, results.done.first()) {
        (None, Some(Outcome::Done(answer))) => Ok(answer),
        (Some(_), _) => Err(ScriptFault::Status),
        _ => Err(ScriptFault::Garbled),
    }
}

/// Sends operations after a SEQUENCE on slot 0.
pub fn call<S, D>(
    alloc: Global,
    server: &mut Server<D>,
    user: &mut User<S>,
    operations: &[Operation<'_>],
) -> Result<(), ScriptFault>
where
    S: Read + Write + Drop,
    D: Device,
{
    if !user.has_session {
        return Err(ScriptFault::Script);
    }
    user.words = words_of(alloc, operations)?;
    ask_call(alloc, server, &mut user.caller, &user.name, operations)
}

fn ask_call<S, D>(
    alloc: Global,
    server: &mut Server<D>,
    caller: &mut Caller<S>,
    owner: &str,
    operations: &[Operation<'_>],
) -> Result<(), ScriptFault>
where
    S: Read + Write + Drop,
    D: Device,
{
    let arguments = arguments_of(alloc, operations, owner)?;
    caller.ask(server, &arguments)
}

/// The words for a SEQUENCE, and for the operations after it.
fn words_of(alloc: Global, operations: &[Operation<'_>]) -> Result<Vec<&'static str>, ScriptFault> {
    let mut words = words(alloc, "sequence")?;
    for operation in operations {
        words.push(operation.word())?;
    }
    Ok(words)
}

/// Gives the user's connection a turn, and prints what it did.
pub fn turn<S, D, O>(
    server: &mut Server<D>,
    user: &mut User<S>,
    out: &mut O,
) -> Result<(), ScriptFault>
where
    S: Read + Write + Drop,
    D: Device,
    O: Write,
{
    let word = match user.caller.turn(server)? {
        Turn::Idle => "idle",
        Turn::Ran => "ran",
        Turn::Answered => "answered",
    };
    writeln!(out, "{} {word}", user.name)?;
    Ok(())
}

/// Runs turns up to the user's reply, and prints its results.
pub fn take<S, D, O>(
    server: &mut Server<D>,
    user: &mut User<S>,
    out: &mut O,
) -> Result<(), ScriptFault>
where
    S: Read + Write + Drop,
    D: Device,
    O: Write,
{
    let reply = user.caller.await_reply(server)?;
    tell_reply(user, &reply, out)
}

fn tell_reply<S, O>(user: &mut User<S>, reply: &[u8], out: &mut O) -> Result<(), ScriptFault>
where
    S: Read + Write + Drop,
    O: Write,
{
    let results = user.caller.read_reply(reply)?;
    tell(out, &user.name, &user.words, &results)
}

/// Sends the last record again, over a new connection.
pub fn retry<R, D>(
    rt: &R,
    server: &mut Server<D>,
    user: &mut User<R::Stream>,
) -> Result<(), ScriptFault>
where
    R: Net + AllocGlobal,
    D: Device,
{
    if user.words.is_empty() {
        return Err(ScriptFault::Script);
    }
    let connection = connect(rt, server)?;
    user.caller.ask_again(server, connection)
}

fn words(alloc: Global, word: &'static str) -> Result<Vec<&'static str>, ScriptFault> {
    Ok(vec![in alloc; word]?)
}

/// The owner id of a user of this name.
fn owner_of(name: &str) -> Result<&[u8], ScriptFault>
    ensures { IfOk result (λ owner. length owner.now ≤ MAX_OWNER_BYTES) }
{
    let owner = name.as_bytes();
    if owner.len() > MAX_OWNER_BYTES {
        return Err(ScriptFault::Script);
    }
    Ok(owner)
}

/// EXCHANGE_ID of this owner id: a zero verifier, no flags (RFC 8881, section 18.35).
fn exchange_id(owner: &[u8]) -> Argument<'_>
    requires { length owner.now ≤ MAX_OWNER_BYTES }
    ensures { ArgumentFits result }
{
    Argument::ExchangeId(ExchangeIdArguments {
        verifier: [0; 8],
        owner,
        flags: 0,
        implementation: None,
    })
}

/// CREATE_SESSION of this client, with these flags (section 18.36).
fn create_session<'a>(known: Known, flags: u32, security: Vec<CallbackSecurity<'a>>) -> Argument<'a>
    requires { (length security.items ≤ 4) × All SecurityFits security.items }
    ensures { ArgumentFits result }
{
    Argument::CreateSession(CreateSessionArguments {
        client: known.id,
        sequence: known.sequence,
        flags,
        fore: CHANNEL,
        back: CHANNEL,
        callback_program: 0,
        security,
    })
}

/// Prints the results of the operations that the words name.
fn tell<O: Write>(
    out: &mut O,
    name: &str,
    words: &[&'static str],
    results: &Results<'_>,
) -> Result<(), ScriptFault> {
    tell_done(out, name, words, &results.done)?;
    let Some(status) = results.refusal else {
        return Ok(());
    };
    match words.get(results.done.len()) {
        Some(word) => tell_refusal(out, name, *word, status),
        None => Ok(()),
    }
}

fn tell_done<O: Write>(
    out: &mut O,
    name: &str,
    words: &[&'static str],
    done: &[Outcome<'_>],
) -> Result<(), ScriptFault> {
    for (word, outcome) in words.iter().zip(done) {
        tell_outcome(out, name, *word, outcome)?;
    }
    Ok(())
}

fn tell_outcome<O: Write>(
    out: &mut O,
    name: &str,
    word: &str,
    outcome: &Outcome<'_>,
) -> Result<(), ScriptFault> {
    write!(out, "{name} {word} 0")?;
    tell_bytes(out, outcome)
}

fn tell_refusal<O: Write>(
    out: &mut O,
    name: &str,
    word: &str,
    status: Status,
) -> Result<(), ScriptFault> {
    Ok(writeln!(out, "{name} {word} {}", status.code())?)
}

/// The bytes of a filehandle or of a file, if the result has any, and the end of the line.
fn tell_bytes<O: Write>(out: &mut O, outcome: &Outcome<'_>) -> Result<(), ScriptFault> {
    let bytes = match outcome {
        Outcome::Done(Answer::GetFh(handle)) => *handle,
        Outcome::Done(Answer::Read(part)) => part.data,
        _ => return Ok(writeln!(out)?),
    };
    write!(out, " ")?;
    write_hex(out, bytes)
}

/// Bytes in lower-case hexadecimal digits, and the end of the line.
fn write_hex<O: Write>(out: &mut O, bytes: &[u8]) -> Result<(), ScriptFault> {
    for byte in bytes {
        write!(out, "{byte:02x}")?;
    }
    Ok(writeln!(out)?)
}
