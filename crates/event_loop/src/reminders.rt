//! When the operator was last warned: what anybody may bring about is not printed again for a
//! minute.

use peer::Delayed;
use std::time::{Duration, Instant};

/// How long the same is not printed again.
const AGAIN_SECONDS: u64 = 60;

/// When something was printed last.
#[derive(Clone, Copy)]
pub struct Reminder {
    last: Option<Instant>,
}

impl Reminder {
    /// It was not printed.
    pub fn new() -> Reminder {
        Reminder { last: None }
    }

    /// Whether it is to be printed now: not within a minute after the last time that it was.
    pub fn is_due(&mut self, now: Instant) -> bool {
        let is_due = match self.last {
            Some(last) => now.duration_since(last) >= Duration::from_secs(AGAIN_SECONDS),
            None => true,
        };
        if is_due {
            self.last = Some(now);
        }
        is_due
    }
}

/// When each of these was printed last.
#[derive(Clone, Copy)]
pub struct Reminders {
    exchange_id: Reminder,
    create_session: Reminder,
    open: Reminder,
    pub not_allowed: Reminder,
    pub turned_away: Reminder,
    pub no_seat: Reminder,
    pub no_space: Reminder,
}

impl Reminders {
    /// Nothing was printed.
    pub fn new() -> Reminders {
        Reminders {
            exchange_id: Reminder::new(),
            create_session: Reminder::new(),
            open: Reminder::new(),
            not_allowed: Reminder::new(),
            turned_away: Reminder::new(),
            no_seat: Reminder::new(),
            no_space: Reminder::new(),
        }
    }

    /// When it was printed last that this operation is to come again.
    pub fn comes_again(&mut self, operation: Delayed) -> &mut Reminder {
        match operation {
            Delayed::ExchangeId => &mut self.exchange_id,
            Delayed::CreateSession => &mut self.create_session,
            Delayed::Open => &mut self.open,
        }
    }
}
