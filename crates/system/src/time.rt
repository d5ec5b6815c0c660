//! The moment that the machine's clock shows.

ghost use Rattle.std.specs.Prelude.{◌≡◌, ◌≤◌, ◌^◌, IfOk, MatchOption};
ghost use Rattle.std.specs.Time.{system_time_nanos};
ghost use Rattle.system.specs.Moments.{IsMoment};

use crate::refused::Refused;
use std::io;
use std::time::{Clock, SystemTime, UNIX_EPOCH};

/// What shows the time of day.
pub trait WallClock {
    ghost use Rattle.std.specs.Prelude.{IfOk};
    ghost use Rattle.std.specs.declared.time.SystemTime.{SystemTime};

    // The times that it may show, if they are known.
    ghost shows: { Self → SystemTime → Type 0 } = { λ _ _. Unit {0} };

    /// The time of day.
    ///
    /// # Errors
    /// The clock cannot be read.
    fn read(&self) -> io::Result<SystemTime>
        ensures { IfOk result (shows self.now) };
}

impl<C: Clock> WallClock for C {
    fn read(&self) -> io::Result<SystemTime> {
        SystemTime::now(self)
    }
}

/// The moment, in nanoseconds since 1970.
///
/// # Errors
/// Io: the clock cannot be read, or shows 2^64 nanoseconds or more.
pub fn moment<C: WallClock>(clock: &C) -> Result<u64, Refused>
    ensures { IfOk result (IsMoment (C.shows clock.now)) }
{
    let time = clock.read()?;
    nanos_of(time).ok_or(Refused::Io)
}

/// The time in nanoseconds since 1970, if it is below 2^64.
fn nanos_of(time: SystemTime) -> Option<u64>
    ensures { MatchOption result (2 ^ 64 ≤ system_time_nanos time)
        (λ nanos. nanos ≡ system_time_nanos time) }
{
    match time.duration_since(UNIX_EPOCH) {
        Ok(since) => u64::try_from(since.as_nanos()).ok(),
        Err(_) => None,
    }
}
