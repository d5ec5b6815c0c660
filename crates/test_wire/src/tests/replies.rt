//! The records that a client makes, and what it makes of replies.

use super::asking::{
    A_MADE, Ask, CREATE_SESSION, CREATED, EXCHANGE_ID, EXCHANGED, MAKE_A, Told, bytes_of, kept,
    new_client, reply, request,
};
use client::Client;
use std::alloc::Global;
use std::test::*;

/// Number 2 of slot 0: PUTROOTFH.
const NUMBER_2: &str = "80000070 5 0 2 186a3 4 1 1 14 0 0 7 7 0 0 0 0 1 2 35 1 1 0 1 2 0 0 1 18";

/// Replies to MAKE_A that the client accepts.
const ANSWERS: [(&str, Told); 7] = [
    // the directory is there
    (
        "80000060 4 1 0 0 0 0 11 0 3 35 0 1 1 0 1 1 0 7 7 0 18 0 6 11",
        Told::Status(2, 17, 2),
    ),
    // the session is not
    (
        "8000002c 4 1 0 0 0 0 2724 0 1 35 2724",
        Told::Status(0, 10020, 0),
    ),
    // denied: another RPC, and other credentials
    ("80000018 4 1 1 0 2 2", Told::Rpc),
    ("80000014 4 1 1 1 1", Told::Rpc),
    // accepted, but no program, no version, no procedure, no arguments
    ("80000018 4 1 0 0 0 1", Told::Rpc),
    ("80000020 4 1 0 0 0 2 4 4", Told::Rpc),
    ("80000018 4 1 0 0 0 3", Told::Rpc),
];

/// Bytes that leave it waiting.
const OTHERS: [(&str, Told); 14] = [
    // to be sent again
    (
        "8000002c 4 1 0 0 0 0 2718 0 1 35 2718",
        Told::Status(0, 10008, 0),
    ),
    ("", Told::Garbled),
    // another xid, and a call
    (
        "80000094 5 1 0 0 0 0 0 0 4
        35 0 1 1 0 1 1 0 7 7 0 18 0 6 0 1 0 1 1 1 2 0 2 a 0 8 1 1",
        Told::Garbled,
    ),
    (MAKE_A, Told::Garbled),
    // another tag
    (
        "80000030 4 1 0 0 0 0 2724 1 61000000 1 35 2724",
        Told::Garbled,
    ),
    // a result more than was asked for, and a prefix of what was asked for
    (
        "8000009c 4 1 0 0 0 0 0 0 5
        35 0 1 1 0 1 1 0 7 7 0 18 0 6 0 1 0 1 1 1 2 0 2 a 0 8 1 1 18 0",
        Told::Garbled,
    ),
    (
        "80000058 4 1 0 0 0 0 0 0 2 35 0 1 1 0 1 1 0 7 7 0 18 0",
        Told::Garbled,
    ),
    ("80000024 4 1 0 0 0 0 0 0 0", Told::Garbled),
    // another operation
    ("8000002c 4 1 0 0 0 0 2724 0 1 18 2724", Told::Garbled),
    // a refused result that is not the last
    (
        "80000060 4 1 0 0 0 0 11 0 3 35 0 1 1 0 1 1 0 7 7 0 18 14 6 11",
        Told::Garbled,
    ),
    // another status than the last result's
    (
        "80000060 4 1 0 0 0 0 0 0 3 35 0 1 1 0 1 1 0 7 7 0 18 0 6 11",
        Told::Garbled,
    ),
    // a number after the results
    ("80000030 4 1 0 0 0 0 2724 0 1 35 2724 0", Told::Garbled),
    // cut short, and in two fragments
    ("80000014 4 1 0 0 0", Told::Garbled),
    ("4 4 80000028 1 0 0 0 0 2724 0 1 35 2724", Told::Garbled),
];

/// What a client is asked for, or the reply that it gets, and what it reports.
#[derive(Clone, Copy)]
enum Step<'a> {
    Request(Ask, Told),
    Reply(&'a str, Told),
    /// The record that it keeps.
    Keeps(&'a str),
    KeepsNothing,
}

/// A client gets a session.
const SESSION: [Step<'static>; 6] = [
    Step::Request(Ask::ExchangeId, Told::Made),
    Step::Keeps(EXCHANGE_ID),
    Step::Reply(EXCHANGED, Told::Results(1)),
    Step::Request(Ask::CreateSession, Told::Made),
    Step::Keeps(CREATE_SESSION),
    Step::Reply(CREATED, Told::Results(1)),
];

/// Its records are the worked ones.
const RECORDS: [Step<'static>; 5] = [
    Step::Request(Ask::MakeA, Told::Made),
    Step::Keeps(MAKE_A),
    Step::Reply(A_MADE, Told::Results(4)),
    Step::Request(Ask::Root, Told::Made),
    Step::Keeps(NUMBER_2),
];

/// A record whose reply comes again is counted once.
const COUNTED_ONCE: [Step<'static>; 7] = [
    Step::Request(Ask::MakeA, Told::Made),
    Step::Reply(A_MADE, Told::Results(4)),
    Step::Keeps(MAKE_A),
    Step::Reply(A_MADE, Told::Results(4)),
    Step::Keeps(MAKE_A),
    Step::Request(Ask::Root, Told::Made),
    Step::Keeps(NUMBER_2),
];

/// It makes no record before it is known and has a session, and none while one waits.
const WAITS: [Step<'static>; 8] = [
    Step::KeepsNothing,
    Step::Request(Ask::MakeA, Told::Pending),
    Step::Reply(EXCHANGED, Told::Garbled),
    Step::Request(Ask::ExchangeId, Told::Made),
    Step::Request(Ask::ExchangeId, Told::Pending),
    Step::Keeps(EXCHANGE_ID),
    Step::Reply(EXCHANGED, Told::Results(1)),
    Step::Request(Ask::MakeA, Told::Pending),
];

fn is_told(alloc: Global, client: &mut Client, step: &Step<'_>) -> Result<bool, Fail> {
    Ok(match step {
        Step::Request(asked, told) => request(alloc, client, *asked) == *told,
        Step::Reply(words, told) => reply(client, &bytes_of(alloc, words)?) == *told,
        Step::Keeps(words) => kept(client) == Some(bytes_of(alloc, words)?.as_slice()),
        Step::KeepsNothing => kept(client).is_none(),
    })
}

fn are_told(
    alloc: Global,
    client: &mut Client,
    prefix: &[Step<'_>],
    rest: &[Step<'_>],
) -> Result<bool, Fail> {
    for step in prefix.iter().chain(rest) {
        if !is_told(alloc, client, step)? {
            return Ok(false);
        }
    }
    Ok(true)
}

/// Whether a new client reports this.
fn tells(alloc: Global, prefix: &[Step<'_>], rest: &[Step<'_>]) -> Result<bool, Fail> {
    let mut client = new_client(alloc)?;
    are_told(alloc, &mut client, prefix, rest)
}

#[test]
fn requests_are_the_worked_records(rt: HostRuntime) -> Result<(), Fail> {
    let is_so = tells(rt.alloc(), &SESSION, &RECORDS)?
        && tells(rt.alloc(), &SESSION, &COUNTED_ONCE)?;
    assert!(rt; is_so);
    Ok(())
}

#[test]
fn a_client_waits(rt: HostRuntime) -> Result<(), Fail> {
    let is_so = tells(rt.alloc(), &WAITS, &[])?;
    assert!(rt; is_so);
    Ok(())
}

/// Whether a reply with this report is accepted as the reply to a record.
fn is_answer(alloc: Global, words: &str, told: Told) -> Result<bool, Fail> {
    let steps = [
        Step::Request(Ask::MakeA, Told::Made),
        Step::Reply(words, told),
        Step::Request(Ask::Root, Told::Made),
    ];
    tells(alloc, &SESSION, &steps)
}

#[test]
fn replies_answer_a_record(rt: HostRuntime) -> Result<(), Fail> {
    for (words, told) in ANSWERS {
        let is_so = is_answer(rt.alloc(), words, told)?;
        assert!(rt; is_so, "{words}");
    }
    Ok(())
}

/// Whether bytes with this report leave a record waiting, which then gets its reply.
fn leave_it_waiting(alloc: Global, words: &str, told: Told) -> Result<bool, Fail> {
    let steps = [
        Step::Request(Ask::MakeA, Told::Made),
        Step::Reply(words, told),
        Step::Request(Ask::Root, Told::Pending),
        Step::Reply(A_MADE, Told::Results(4)),
    ];
    tells(alloc, &SESSION, &steps)
}

#[test]
fn other_bytes_leave_it_waiting(rt: HostRuntime) -> Result<(), Fail> {
    for (words, told) in OTHERS {
        let is_so = leave_it_waiting(rt.alloc(), words, told)?;
        assert!(rt; is_so, "{words}");
    }
    Ok(())
}
