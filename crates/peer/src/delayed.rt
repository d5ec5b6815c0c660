//! The operations that are refused with DELAY because a table of the server has no room.

use crate::ran::Ran;
use crate::session_news::{SessionNews, read_news};
use model_tree::status::Status;
use rpc::{MAX_AUTH_BYTES, MAX_TAG_BYTES, REPLY};
use std::fmt;
use std::fmt::{Display, Formatter, Write};
use wire::Operation;
use xdr::{Reader, Refusal};

/// The bytes of a refused operation's result, its number and its status.
const RESULT_BYTES: usize = 8;

/// A reply that is not denied, and a call that is accepted (RFC 5531, section 9).
const ACCEPTED: u32 = 0;

const SUCCESS: u32 = 0;

/// An operation that needs room in a table that all clients share.
#[derive(Clone, Copy, PartialEq, Eq)]
pub enum Delayed {
    ExchangeId,
    CreateSession,
    Open,
}

/// What there is to know of a reply.
#[derive(Clone, Copy)]
pub struct Answered {
    /// The operation that it refuses with DELAY.
    pub delayed: Option<Delayed>,
    /// The status of the COMPOUND, if it is the reply to one: that of the last result.
    pub status: Option<u32>,
    /// The first result, if there is one.
    pub first: Option<Ran>,
    /// What that says of a session.
    pub news: Option<SessionNews>,
}

impl Answered {
    /// What there is to know of the reply of this record.
    pub fn in_record(record: &[u8]) -> Answered {
        let mut reply = Reader::new(record);
        let first = read_first(&mut reply).ok();
        Answered {
            delayed: Delayed::in_record(record),
            status: compound_status(record),
            first,
            news: news_in(first, &mut reply),
        }
    }
}

impl Delayed {
    /// The operation that the reply of this record refuses with DELAY. It is the last one.
    fn in_record(record: &[u8]) -> Option<Delayed> {
        if compound_status(record)? != Status::Delay.code() {
            return None;
        }
        let last = record.len().checked_sub(RESULT_BYTES)?;
        let number = Reader::new(record.get(last..)?).read_u32().ok()?;
        match Operation::from_number(number)? {
            Operation::ExchangeId => Some(Delayed::ExchangeId),
            Operation::CreateSession => Some(Delayed::CreateSession),
            Operation::Open => Some(Delayed::Open),
            _ => None,
        }
    }
}

impl Display for Delayed {
    fn fmt<W: Write>(&self, f: &mut Formatter<W>) -> fmt::Result {
        f.write_str(match self {
            Delayed::ExchangeId => "EXCHANGE_ID",
            Delayed::CreateSession => "CREATE_SESSION",
            Delayed::Open => "OPEN",
        })
    }
}

/// The status of the COMPOUND that this record replies to, if it replies to one.
pub fn compound_status(record: &[u8]) -> Option<u32> {
    read_status(&mut Reader::new(record)).ok()
}

fn read_status(reply: &mut Reader<'_>) -> Result<u32, Refusal> {
    let _header = reply.read_u32()?;
    let _xid = reply.read_u32()?;
    reply.read_always(REPLY)?;
    reply.read_always(ACCEPTED)?;
    let _flavour = reply.read_u32()?;
    let _verifier = reply.read_opaque(MAX_AUTH_BYTES)?;
    reply.read_always(SUCCESS)?;
    reply.read_u32()
}

/// What the first result says of a session, given its bytes after its status.
fn news_in(first: Option<Ran>, body: &mut Reader<'_>) -> Option<SessionNews> {
    let first = first?;
    read_news(first.number, first.status, body).ok()?
}

/// The first result of a COMPOUND (RFC 8881, section 16.2.1).
fn read_first(reply: &mut Reader<'_>) -> Result<Ran, Refusal> {
    let _status = read_status(reply)?;
    let _tag = reply.read_opaque(MAX_TAG_BYTES)?;
    let _count = reply.read_u32()?;
    let number = reply.read_u32()?;
    let status = reply.read_u32()?;
    Ok(Ran { number, status })
}
