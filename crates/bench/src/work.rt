//! Work that is measured, and how.

use std::fmt;
use std::time::{Clock, Duration, Instant};

/// What work is asked for.
#[derive(Clone, Copy)]
pub enum Measure {
    /// How many things one turn does.
    Turn,
    /// How many things it does a second, in the best round.
    Rate,
}

impl fmt::Display for Measure {
    fn fmt<W: fmt::Write>(&self, f: &mut fmt::Formatter<W>) -> fmt::Result {
        f.write_str(match self {
            Measure::Turn => "in a turn",
            Measure::Rate => "a second",
        })
    }
}

/// Work of which a turn is done again and again.
pub trait Work {
    /// Does one turn, and returns how many things it did.
    fn turn(&mut self) -> anyhow::Result<u64>;
}

/// Work that is undone, so that it can be done again.
pub trait FailedStep: Work {
    /// Undoes the turn before, and returns how many things that took.
    fn undo(&mut self) -> anyhow::Result<u64>;
}

/// How often a figure is taken; the best one counts, since other programs take time of the
/// processor too.
const ROUNDS: usize = 10;
/// How long a round lasts, in milliseconds.
const ROUND_MILLISECONDS: u64 = 100;
/// The most turns of a round.
const MAX_TURNS: u32 = u32::MAX;

/// How many things the work does.
pub fn how_many<R: Clock, W: Work>(rt: &R, measure: Measure, work: &mut W) -> anyhow::Result<u64> {
    match measure {
        Measure::Turn => work.turn(),
        Measure::Rate => best_rate(rt, work),
    }
}

/// How many things the work does, and how many it undoes.
pub fn how_many_of_both<R: Clock, W: FailedStep>(
    rt: &R,
    measure: Measure,
    work: &mut W,
) -> anyhow::Result<(u64, u64)> {
    match measure {
        Measure::Turn => Ok((work.turn()?, work.undo()?)),
        Measure::Rate => best_rates(rt, work),
    }
}

fn best_rate<R: Clock, W: Work>(rt: &R, work: &mut W) -> anyhow::Result<u64> {
    let mut best = 0;
    for _ in 0..ROUNDS {
        best = round_rate(rt, work)?.max(best);
    }
    Ok(best)
}

/// The best rate of doing and the best of undoing, over all rounds.
fn best_rates<R: Clock, W: FailedStep>(rt: &R, work: &mut W) -> anyhow::Result<(u64, u64)> {
    let mut best = (0, 0);
    for _ in 0..ROUNDS {
        let (done, failed) = round_rates(rt, work)?;
        best = (done.max(best.0), failed.max(best.1));
    }
    Ok(best)
}

/// The shortest time of a turn.
pub fn shortest_turn<R: Clock, W: Work>(rt: &R, work: &mut W) -> anyhow::Result<Duration> {
    let mut shortest = Duration::MAX;
    for _ in 0..ROUNDS {
        let start = Instant::now(rt)?;
        work.turn()?;
        shortest = start.elapsed(rt)?.min(shortest);
    }
    Ok(shortest)
}

fn round_rates<R: Clock, W: FailedStep>(rt: &R, work: &mut W) -> anyhow::Result<(u64, u64)> {
    let round = Duration::from_millis(ROUND_MILLISECONDS);
    let (mut done, mut failed) = (0u64, 0u64);
    let (mut doing, mut undoing) = (Duration::ZERO, Duration::ZERO);
    for _ in 0..MAX_TURNS {
        let start = Instant::now(rt)?;
        done = done.saturating_add(work.turn()?);
        let middle = Instant::now(rt)?;
        failed = failed.saturating_add(work.undo()?);
        doing = doing.saturating_add(middle.duration_since(start));
        undoing = undoing.saturating_add(middle.elapsed(rt)?);
        if doing >= round {
            break;
        }
    }
    Ok((rate(done, doing), rate(failed, undoing)))
}

fn round_rate<R: Clock, W: Work>(rt: &R, work: &mut W) -> anyhow::Result<u64> {
    let round = Duration::from_millis(ROUND_MILLISECONDS);
    let start = Instant::now(rt)?;
    let mut done = 0u64;
    for _ in 0..MAX_TURNS {
        done = done.saturating_add(work.turn()?);
        if start.elapsed(rt)? >= round {
            break;
        }
    }
    Ok(rate(done, start.elapsed(rt)?))
}

/// How many things a second this is.
fn rate(done: u64, time: Duration) -> u64 {
    let nanoseconds = u64::try_from(time.as_nanos()).unwrap_or(u64::MAX);
    done.saturating_mul(1_000_000_000) / nanoseconds.max(1)
}
