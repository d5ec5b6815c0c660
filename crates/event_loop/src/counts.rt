//! What is counted while a volume is served.

use crate::counted::Bytes;
use crate::operations::Operations;
use peer::{Answered, Delayed, Ran};
use std::time::Instant;

/// What was counted since the start.
#[derive(Clone, Copy)]
pub struct Counts {
    /// Connections that have had a place, that were refused, and that are gone.
    pub accepted: u64,
    pub refused: u64,
    pub closed: u64,
    /// Requests that were replied to, and among them those whose last operation is to come again.
    pub answered: u64,
    pub exchange_ids_delayed: u64,
    pub create_sessions_delayed: u64,
    pub opens_delayed: u64,
    /// Operations that ran.
    pub operations: Operations,
    /// Changes of the tree.
    pub changes: u64,
    /// Steps of peers, flushes and checkpoints in which the device was synced.
    pub flushes: u64,
    /// When a request was last replied to.
    pub last_answer: Option<Instant>,
    /// Bytes that came and went.
    pub bytes: Bytes,
}

impl Counts {
    pub fn new() -> Counts {
        Counts {
            accepted: 0,
            refused: 0,
            closed: 0,
            answered: 0,
            exchange_ids_delayed: 0,
            create_sessions_delayed: 0,
            opens_delayed: 0,
            operations: Operations::NONE,
            changes: 0,
            flushes: 0,
            last_answer: None,
            bytes: Bytes::NONE,
        }
    }

    pub fn accept(&mut self) {
        raise(&mut self.accepted);
    }

    pub fn refuse(&mut self) {
        raise(&mut self.refused);
    }

    pub fn close(&mut self) {
        raise(&mut self.closed);
    }

    /// Counts a flush, if the device's syncs have become more.
    pub fn sync(&mut self, before: u64, after: u64) {
        if before < after {
            raise(&mut self.flushes);
        }
    }

    /// Adds `count` changes.
    pub fn change(&mut self, count: u32) {
        self.changes = self.changes.saturating_add(u64::from(count));
    }

    pub fn run(&mut self, ran: Ran) {
        self.operations.count(ran);
    }

    pub fn answer(&mut self, answered: Answered, now: Instant) {
        raise(&mut self.answered);
        self.last_answer = Some(now);
        match answered.delayed {
            Some(Delayed::ExchangeId) => raise(&mut self.exchange_ids_delayed),
            Some(Delayed::CreateSession) => raise(&mut self.create_sessions_delayed),
            Some(Delayed::Open) => raise(&mut self.opens_delayed),
            None => {}
        }
    }
}

/// Counts one more.
pub fn raise(count: &mut u64) {
    *count = count.saturating_add(1);
}
