//! A life of a server on a device that may crash or fail.

use super::device::TrialDevice;
use crate::answer::{Answer, expect};
use crate::difference::{Difference, Differs, placed};
use crate::direct::{connect, feed, run_all, take, take_reply};
use crate::host::{Host, Unmounted};
use crate::player::{CONNECTIONS, Patience};
use crate::refusal::Refusal;
use crate::rows::{Call, Choices, Left, Placed, Step};
use crate::served::Served;
use std::alloc::Global;

/// How a life went.
#[derive(Drop)]
pub struct Life {
    /// What it left.
    pub left: Left,
    /// Whether the device failed.
    pub has_failed: bool,
    /// The device at its end.
    pub device: TrialDevice,
}

/// Mounts a device on which one of these states may be, and takes the steps up to its failure.
pub fn live<H: Host>(
    alloc: Global,
    steps: &[Placed],
    left: Left,
    device: TrialDevice,
) -> Result<Life, Differs> {
    match Served::<H>::mount(alloc, device, Choices::FIRST, Patience::None) {
        Ok(mut served) => {
            let went = live_on(alloc, steps, left, &mut served)?;
            Ok(Life {
                left: went.0,
                has_failed: went.1,
                device: served.into_device(),
            })
        }
        Err(unmounted) => placed(0, not_mounted(left, unmounted)),
    }
}

/// The life of a device that failed as it was mounted.
fn not_mounted(left: Left, unmounted: Unmounted) -> Result<Life, Difference> {
    let Unmounted { fault, device } = unmounted;
    if fault != Refusal::Device {
        return Err(Difference::Mount(fault));
    }
    Ok(Life {
        left: Left {
            end: left.end.max(1),
            ..left
        },
        has_failed: true,
        device,
    })
}

/// Takes the steps. Returns what they leave, and whether the device failed.
fn live_on<H: Host>(
    alloc: Global,
    steps: &[Placed],
    mut left: Left,
    served: &mut Served<H>,
) -> Result<(Left, bool), Differs> {
    placed(0, connect(served))?;
    let mut waits = None;
    for step in steps {
        if let Step::Leaves(call) = &step.step {
            waits = Some(call);
        }
        if placed(step.line, try_step(alloc, served, &step.step, &mut left))? {
            placed(0, expect_down(served))?;
            placed(step.line, expect_no_reply(served, &step.step))?;
            placed(0, end(alloc, served, waits))?;
            return Ok((left, true));
        }
    }
    placed(0, end(alloc, served, waits))?;
    Ok((left, false))
}

/// If the device fails while changes wait, no reply is handed out, on any connection.
fn expect_no_reply<H: Host>(served: &mut Served<H>, step: &Step) -> Result<(), Difference> {
    if matches!(step, Step::Defers { .. } | Step::Flushes) {
        for connection in 0..CONNECTIONS {
            expect(Answer::NoReply, served.replied(connection))?;
        }
    }
    Ok(())
}

/// Takes a step. Returns whether the device failed.
fn try_step<H: Host>(
    alloc: Global,
    served: &mut Served<H>,
    step: &Step,
    left: &mut Left,
) -> Result<bool, Difference> {
    let outcome = match step {
        Step::Marks(mark) => {
            left.mark(*mark);
            Ok(())
        }
        Step::Leaves(call) => leave(served, call),
        _ => take(alloc, served, step, 0),
    };
    Ok(unless_failed(outcome)?.is_none())
}

/// What a call returned; None if the device failed.
pub fn unless_failed<T: Drop>(outcome: Result<T, Difference>) -> Result<Option<T>, Difference> {
    match outcome {
        Ok(value) => Ok(Some(value)),
        Err(
            Difference::Answer {
                got: Answer::Refused(Refusal::Device),
                ..
            },
        ) => Ok(None),
        Err(difference) => Err(difference),
    }
}

/// Runs a request up to its reply, which stays.
fn leave<H: Host>(served: &mut Served<H>, call: &Call) -> Result<(), Difference> {
    feed(served, call.connection, &call.record)?;
    run_all(served, call.connection, call.turns)
}

/// A server whose device failed is down.
fn expect_down<H: Host>(served: &mut Served<H>) -> Result<(), Difference> {
    expect(Answer::Refused(Refusal::Device), served.turned(0))
}

/// A server still gives the reply that waits, even if its device failed.
fn end<H: Host>(
    alloc: Global,
    served: &mut Served<H>,
    waits: Option<&Call>,
) -> Result<(), Difference> {
    match waits {
        Some(call) => take_reply(alloc, served, call.connection, &call.reply),
        None => Ok(()),
    }
}
