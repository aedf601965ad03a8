//! The clock by which a crowd tells who was silent, and how long a reply took.
use std::time::Duration;

/// For how many milliseconds a turn counts at most: in a longer one the loop didn't listen, and no client was silent.
const LONGEST_TURN_MS: u64 = 1_000;

/// After how many milliseconds it is looked again which clients were silent for too long.
const TENTH_MS: u64 = 100;

/// A clock that goes on as the system's does, but not by more than a second at once.
#[derive(Drop)]
pub(crate) struct Clock {
    /// The time, and when it was looked last which clients were silent, in milliseconds.
    now: u64,
    looked: u64,
    /// The system's time, as it was noted last, in milliseconds.
    noted: Option<u64>,
    /// The system's time, as it was seen last.
    seen: Option<Duration>,
}

impl Clock {
    pub(crate) fn new() -> Clock {
        Clock {
            now: 0,
            looked: 0,
            noted: None,
            seen: None,
        }
    }

    /// The time in milliseconds.
    pub(crate) fn now(&self) -> u64 {
        self.now
    }

    /// Sees the system's time.
    pub(crate) fn see(&mut self, now: Duration) {
        self.seen = Some(now);
    }

    /// The system's time, as it was seen last.
    pub(crate) fn seen(&self) -> Option<Duration> {
        self.seen
    }

    /// Sees the system's time at the start of a turn.
    pub(crate) fn note(&mut self, now: Duration) {
        self.see(now);
        let now = millis(now);
        if let Some(passed) = self.noted.and_then(|noted| now.checked_sub(noted)) {
            self.now = self.now.saturating_add(passed.min(LONGEST_TURN_MS));
        }
        self.noted = Some(now);
    }

    /// Whether it is to be looked again which clients were silent: ten times in a second.
    pub(crate) fn ticks(&mut self) -> bool {
        if self.now.saturating_sub(self.looked) < TENTH_MS {
            return false;
        }
        self.looked = self.now;
        true
    }
}

/// A time in whole milliseconds.
pub(crate) fn millis(time: Duration) -> u64 {
    time.as_secs()
        .saturating_mul(1_000)
        .saturating_add(u64::from(time.subsec_millis()))
}
