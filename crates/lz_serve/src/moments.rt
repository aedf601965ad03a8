//! What is done once a moment at most.
use std::time::Duration;

/// How many milliseconds a moment has.
pub(crate) const MOMENT_MS: u64 = 1;

/// When something was done last that is done once a moment at most.
#[derive(Drop)]
pub(crate) struct Moments {
    last: Option<Duration>,
}

impl Moments {
    pub(crate) fn new() -> Moments {
        Moments { last: None }
    }

    /// Whether a moment has passed since it said so last. Without a clock each call is a moment.
    pub(crate) fn pass(&mut self, now: Option<Duration>) -> bool {
        if let (Some(last), Some(now)) = (self.last, now) {
            if now.saturating_sub(last) < Duration::from_millis(MOMENT_MS) {
                return false;
            }
        }
        self.last = now;
        true
    }
}
