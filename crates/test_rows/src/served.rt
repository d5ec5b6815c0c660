//! A server as a row is played on it, and the calls that are repeated because memory ran out.

use crate::answer::Answer;
use crate::difference::Difference;
use crate::host::{Host, Unmounted};
use crate::player::{Patience, comes_again};
use crate::refusal::Refusal;
use crate::rows::Choices;
use crate::trials::TrialDevice;
use std::alloc::Global;

/// A server of the volume on a device.
#[derive(Drop)]
pub struct Served<H: Host> {
    host: H,
    patience: Patience,
    /// How many calls were repeated.
    again: u32,
}

impl<H: Host> Served<H> {
    /// Mounts a device. It comes back if that is refused.
    pub fn mount(
        alloc: Global,
        device: TrialDevice,
        choices: Choices,
        patience: Patience,
    ) -> Result<Served<H>, Unmounted> {
        match H::mount(alloc, device, choices) {
            Ok(host) => Ok(Served {
                host,
                patience,
                again: 0,
            }),
            Err(unmounted) => mount_again(alloc, unmounted, choices, patience),
        }
    }

    /// Mounts its device anew.
    pub fn mount_anew(self, alloc: Global, choices: Choices) -> Result<Served<H>, Difference> {
        let Served {
            host,
            patience,
            again,
        } = self;
        let mut served = Served::mount(alloc, host.into_device(), choices, patience)?;
        served.again = served.again.saturating_add(again);
        Ok(served)
    }

    /// Its device, as it is now.
    pub fn into_device(self) -> TrialDevice {
        self.host.into_device()
    }

    /// The number of this mount of the volume.
    pub fn run(&self) -> u32 {
        self.host.run()
    }

    /// How many calls were repeated.
    pub fn again(&self) -> u32 {
        self.again
    }

    pub fn connected(&mut self) -> Answer {
        let mut outcome = self.host.connect();
        if self.comes_again(outcome.err()) {
            outcome = self.host.connect();
        }
        match outcome {
            Ok(connection) => Answer::Connected(connection),
            Err(fault) => Answer::Refused(fault),
        }
    }

    pub fn hung_up(&mut self, connection: usize) -> Answer {
        let mut outcome = self.host.hang_up(connection);
        if self.comes_again(outcome.err()) {
            outcome = self.host.hang_up(connection);
        }
        match outcome {
            Ok(()) => Answer::HungUp,
            Err(fault) => Answer::Refused(fault),
        }
    }

    pub fn fed(&mut self, connection: usize, piece: &[u8]) -> Answer {
        let mut outcome = self.host.feed(connection, piece);
        if self.comes_again(outcome.err()) {
            outcome = self.host.feed(connection, piece);
        }
        match outcome {
            Ok(taken) => Answer::Took(taken),
            Err(fault) => Answer::Refused(fault),
        }
    }

    pub fn turned(&mut self, connection: usize) -> Answer {
        let mut outcome = self.host.turn(connection);
        if self.comes_again(outcome.err()) {
            outcome = self.host.turn(connection);
        }
        match outcome {
            Ok(done) => Answer::Turned(done),
            Err(fault) => Answer::Refused(fault),
        }
    }

    /// The same of a turn whose change may wait for a flush.
    pub fn turned_unflushed(&mut self, connection: usize) -> Answer {
        let mut outcome = self.host.turn_unflushed(connection);
        if self.comes_again(outcome.err()) {
            outcome = self.host.turn_unflushed(connection);
        }
        match outcome {
            Ok(done) => Answer::Turned(done),
            Err(fault) => Answer::Refused(fault),
        }
    }

    /// A flush, which takes no memory.
    pub fn flushed(&mut self) -> Answer {
        match self.host.flush() {
            Ok(()) => Answer::Flushed,
            Err(fault) => Answer::Refused(fault),
        }
    }

    /// The reply, which takes no memory.
    pub fn reply(&mut self, connection: usize) -> Result<Option<Vec<u8>>, Refusal> {
        self.host.take_reply(connection)
    }

    /// Whether a reply is given.
    pub fn replied(&mut self, connection: usize) -> Answer {
        match self.reply(connection) {
            Ok(Some(_)) => Answer::Reply,
            Ok(None) => Answer::NoReply,
            Err(fault) => Answer::Refused(fault),
        }
    }

    /// Whether a call that was refused with this fault is made once more.
    fn comes_again(&mut self, fault: Option<Refusal>) -> bool {
        let is_again = fault.is_some_and(|fault| comes_again(fault, self.patience));
        if is_again {
            self.again = self.again.saturating_add(1);
        }
        is_again
    }
}

/// Mounts a device once more, if that was refused because memory ran out, and is to be repeated.
fn mount_again<H: Host>(
    alloc: Global,
    unmounted: Unmounted,
    choices: Choices,
    patience: Patience,
) -> Result<Served<H>, Unmounted> {
    if !comes_again(unmounted.fault, patience) {
        return Err(unmounted);
    }
    Ok(Served {
        host: H::mount(alloc, unmounted.device, choices)?,
        patience,
        again: 1,
    })
}
