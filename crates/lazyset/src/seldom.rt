//! What is told once a minute at most.
use std::sync::atomic::{AtomicU64, Ordering};

// How many seconds pass at least.
const PAUSE_S: u64 = 60;

/// Lets something be told once a minute at most.
#[derive(Drop)]
pub struct Seldom {
    /// From which second on it may be told again.
    next: AtomicU64,
}

impl Seldom {
    pub fn new() -> Seldom {
        Seldom {
            next: AtomicU64::new(0),
        }
    }

    /// Whether it may be told in this second.
    pub fn may(&self, second: u64) -> bool {
        if second < self.next.load(Ordering::SeqCst) {
            return false;
        }
        self.next
            .store(second.saturating_add(PAUSE_S), Ordering::SeqCst);
        true
    }

    /// It wasn't told in this second after all, and may be told in the next one.
    pub fn again(&self, second: u64) {
        self.next.store(second.saturating_add(1), Ordering::SeqCst);
    }
}
