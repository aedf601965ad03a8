//! How much of a loop's time pages take from commands.
use std::time::Duration;

/// For how many times as long as pages took no further one is listed, while commands wait; and for how many milliseconds at most.
const REST: u32 = 16;

const MOST_REST_MS: u64 = 100;

/// When pages may be listed again, though commands wait.
#[derive(Drop)]
pub(crate) struct Pacing {
    next: Duration,
}

impl Pacing {
    pub(crate) fn new() -> Pacing {
        Pacing {
            next: Duration::from_millis(0),
        }
    }

    /// Whether pages wait at this time. Without a clock they never do.
    pub(crate) fn holds(&self, now: Option<Duration>) -> bool {
        now.is_some_and(|now| now < self.next)
    }

    /// Pages were listed from the one time to the other.
    pub(crate) fn note(&mut self, began: Option<Duration>, now: Option<Duration>) {
        if let (Some(began), Some(now)) = (began, now) {
            let rest = now.saturating_sub(began).saturating_mul(REST);
            self.next = now.saturating_add(rest.min(Duration::from_millis(MOST_REST_MS)));
        }
    }
}
