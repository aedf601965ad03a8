//! How many commands are answered in a second.
use std::sync::atomic::{AtomicUsize, Ordering};
use std::time::Duration;

// Over how many milliseconds it is taken, at least.
const LEAST_MS: usize = 1_000;

/// How many commands are answered in a second, between two times at which that was asked.
#[derive(Drop)]
pub struct Rate {
    /// When it was taken last, in milliseconds, how many had been answered then, and what it was.
    taken: AtomicUsize,
    answered: AtomicUsize,
    told: AtomicUsize,
}

impl Rate {
    pub fn new() -> Rate {
        Rate {
            taken: AtomicUsize::new(0),
            answered: AtomicUsize::new(0),
            told: AtomicUsize::new(0),
        }
    }

    /// The rate since it was taken last, where that is a second ago or longer, and else what it was then. The service is of this age, and
    /// has answered so many.
    pub fn at(&self, age: Duration, answered: usize) -> usize {
        let now = (age.as_secs() as usize)
            .saturating_mul(1_000)
            .saturating_add(age.subsec_millis() as usize);
        let passed = now.saturating_sub(self.taken.load(Ordering::SeqCst));
        if passed < LEAST_MS {
            return self.told.load(Ordering::SeqCst);
        }
        let before = self.answered.swap(answered, Ordering::SeqCst);
        let rate = answered.saturating_sub(before).saturating_mul(1_000) / passed;
        self.taken.store(now, Ordering::SeqCst);
        self.told.store(rate, Ordering::SeqCst);
        rate
    }
}
