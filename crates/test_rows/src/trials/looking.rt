//! What a mount finds on what a crash left.

use super::device::TrialDevice;
use crate::answer::Answer;
use crate::difference::{Difference, expect_reply};
use crate::direct::{connect, feed, run_to_reply};
use crate::host::Host;
use crate::player::Patience;
use crate::rows::{Aftermath, Choices, Left, Look};
use crate::served::Served;
use crate::shown::Answers;
use std::alloc::Global;

/// The number of the state, among those that may be left, that a mount of the device finds.
pub fn find<H: Host>(
    alloc: Global,
    aftermath: &Aftermath,
    left: Left,
    device: TrialDevice,
) -> Result<usize, Difference> {
    let mut served = Served::<H>::mount(alloc, device, Choices::FIRST, Patience::None)?;
    connect(&mut served)?;
    find_in(alloc, aftermath, left, &mut served)
}

/// The number of the state that a server shows.
pub fn find_in<H: Host>(
    alloc: Global,
    aftermath: &Aftermath,
    left: Left,
    served: &mut Served<H>,
) -> Result<usize, Difference> {
    let answers = look_all(alloc, &aftermath.looks, served)?;
    match number_of(alloc, aftermath, left, &answers, served.run())? {
        Some(number) => Ok(number),
        None => Err(Difference::State(Answers(answers))),
    }
}

/// Asks each look. Returns the replies that differ by state.
fn look_all<H: Host>(
    alloc: Global,
    looks: &[Look],
    served: &mut Served<H>,
) -> Result<Vec<Vec<u8>>, Difference> {
    let mut answers = Vec::new(alloc);
    for look in looks {
        if let Some(answer) = look_at(alloc, look, served)? {
            answers.push(answer)?;
        }
    }
    Ok(answers)
}

/// Asks a look. Returns the reply, unless each state has the same, which is then compared.
pub fn look_at<H: Host>(
    alloc: Global,
    look: &Look,
    served: &mut Served<H>,
) -> Result<Option<Vec<u8>>, Difference> {
    let run = served.run();
    let answer = ask(served, &look.record.spell(alloc, run)?)?;
    match &look.reply {
        Some(reply) => {
            expect_reply(alloc, &reply.spell(alloc, run)?, answer)?;
            Ok(None)
        }
        None => Ok(Some(answer)),
    }
}

/// The reply to a record over connection 0.
pub fn ask<H: Host>(served: &mut Served<H>, record: &[u8]) -> Result<Vec<u8>, Difference> {
    feed(served, 0, record)?;
    run_to_reply(served, 0)?;
    match served.reply(0) {
        Ok(Some(reply)) => Ok(reply),
        _ => Err(Difference::Answer {
            wanted: Answer::Reply,
            got: Answer::NoReply,
        }),
    }
}

fn number_of(
    alloc: Global,
    aftermath: &Aftermath,
    left: Left,
    answers: &[Vec<u8>],
    run: u32,
) -> Result<Option<usize>, Difference> {
    for (number, state) in aftermath.states.iter().enumerate() {
        if left.first <= number && number < left.end && state.is(alloc, answers, run)? {
            return Ok(Some(number));
        }
    }
    Ok(None)
}
