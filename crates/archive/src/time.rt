//! The moments of a listing.

use std::fmt;
use std::fmt::{Display, Formatter, Write};

const NANOS: u64 = 1_000_000_000;

const DAY: u64 = 86_400;

/// A time in nanoseconds since 1970, printed as `2026-11-29 16:38:16`, in UTC.
#[derive(Clone, Copy)]
pub(crate) struct Moment(pub(crate) u64);

/// A day of the calendar.
#[derive(Clone, Copy)]
struct Date {
    year: u64,
    month: u64,
    day: u64,
}

/// The date of a day, counted from 1 January 1970: in years that begin in March, so that the day
/// of a leap year comes last.
fn date_of(day: u64) -> Date {
    let since = day.saturating_add(719_468);
    let era = since / 146_097;
    let in_era = since % 146_097;
    let leaps = in_era / 1_460 + in_era / 146_096 - in_era / 36_524;
    let year = in_era.saturating_sub(leaps) / 365;
    let in_year = in_era.saturating_sub(365 * year + year / 4 - year / 100);
    let month = (5 * in_year + 2) / 153;
    Date {
        year: year + era * 400 + u64::from(month >= 10),
        month: if month < 10 { month + 3 } else { month - 9 },
        day: in_year.saturating_sub((153 * month + 2) / 5) + 1,
    }
}

impl Display for Moment {
    fn fmt<W: Write>(&self, f: &mut Formatter<W>) -> fmt::Result {
        let seconds = self.0 / NANOS;
        let Date { year, month, day } = date_of(seconds / DAY);
        let hour = seconds % DAY / 3600;
        let minute = seconds % 3600 / 60;
        let second = seconds % 60;
        write!(
            f,
            "{year}-{month:02}-{day:02} {hour:02}:{minute:02}:{second:02}"
        )
    }
}
