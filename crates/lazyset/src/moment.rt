//! Moments, as a log has them.
use std::fmt;
use std::time::Clock;

const DAY: u64 = 86_400;

// The days of 400 years.
const ERA: u64 = 146_097;

// The days from 1 March of the year 0 to 1 January 1970.
const TO_1970: u64 = 719_468;

/// A moment in UTC, to the second.
#[derive(Clone, Copy)]
pub struct Moment {
    /// The seconds since 1970.
    seconds: u64,
}

impl Moment {
    pub fn now<R: Clock>(rt: &R) -> Moment {
        Moment {
            seconds: rt.since_1970().map_or(0, |now| now.as_secs()),
        }
    }
}

impl fmt::Display for Moment {
    fn fmt<W: fmt::Write>(&self, f: &mut fmt::Formatter<W>) -> fmt::Result {
        let (year, month, day) = date_of(self.seconds / DAY);
        let rest = self.seconds % DAY;
        let (hour, minute, second) = (rest / 3_600, rest / 60 % 60, rest % 60);
        write!(
            f,
            "{year:04}-{month:02}-{day:02}T{hour:02}:{minute:02}:{second:02}Z"
        )
    }
}

// The year, the month and the day so many days after 1 January 1970. Years are counted from 1 March on, so that a leap day is the last.
fn date_of(days: u64) -> (u64, u64, u64) {
    let days = days.saturating_add(TO_1970);
    let (era, day) = (days / ERA, days % ERA);
    let year = (day - day / 1_460 + day / 36_524 - day / 146_096) / 365;
    let day = day.saturating_sub(365 * year + year / 4 - year / 100);
    let month = (5 * day + 2) / 153;
    let day = day - (153 * month + 2) / 5 + 1;
    let year = 400 * era + year;
    if month < 10 {
        (year, month + 3, day)
    } else {
        (year + 1, month - 9, day)
    }
}
