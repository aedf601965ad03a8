//! A short wait before a sync, for clients that were just answered and may ask again.
use std::time::Duration;

/// A sync that took less than so many microseconds is over before a client asks again: none is held back after it.
const SHORTEST: u128 = 200;

/// For what part of the time that the last sync took the next one is held back at most, where no line waits.
const PART: u128 = 4;

/// How long the last sync took, and since when the next one is held back. Group commit gains by a short wait where a sync takes long
/// (Helland and others, "Group Commit Timers and High Volume Transaction Systems", 1987).
#[derive(Drop)]
pub(crate) struct Gathering {
    took: Duration,
    since: Option<Duration>,
}

impl Gathering {
    pub(crate) fn new() -> Gathering {
        Gathering {
            took: Duration::from_millis(0),
            since: None,
        }
    }

    /// Whether the next sync is held back at this time: for as long as the last one took at most where lines wait that can begin (`waits`).
    pub(crate) fn holds(&mut self, now: Duration, waits: bool) -> bool {
        let took = self.took.as_micros();
        let most = if waits { took } else { took / PART };
        if !waits && took < SHORTEST {
            return false;
        }
        let since = self.since.unwrap_or(now);
        self.since = Some(since);
        now.saturating_sub(since).as_micros() < most
    }

    /// A sync was played, and took so long, where the clock could tell.
    pub(crate) fn note_sync(&mut self, took: Option<Duration>) {
        self.took = took.unwrap_or(Duration::from_millis(0));
        self.since = None;
    }
}
