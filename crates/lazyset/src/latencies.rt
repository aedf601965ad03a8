//! How long replies took.
use std::array::from_fn;
use std::sync::atomic::{AtomicUsize, Ordering};
use std::time::Duration;

// Four steps to a doubling, up to two hours: what is told is less than a quarter above what was measured.
const STEPS: usize = 128;

/// How many replies took how long.
#[derive(Drop)]
pub struct Latencies {
    counts: [AtomicUsize; STEPS],
}

impl Latencies {
    pub fn new() -> Latencies {
        Latencies {
            counts: from_fn(|_| AtomicUsize::new(0)),
        }
    }

    /// A reply took so long.
    pub fn count(&self, time: Duration) {
        let micros = time
            .as_secs()
            .saturating_mul(1_000_000)
            .saturating_add(u64::from(time.subsec_micros()));
        if let Some(count) = self.counts.get(step_of(micros)) {
            count.fetch_add(1, Ordering::SeqCst);
        }
    }

    /// Within how many microseconds so many of a hundred replies were given, by the end of a step; 0 where there was none.
    pub fn within(&self, percent: usize) -> usize {
        let mut left = self.all().saturating_mul(percent).div_ceil(100);
        for (step, count) in self.counts.iter().enumerate() {
            left = left.saturating_sub(count.load(Ordering::SeqCst));
            if left == 0 {
                return end_of(step);
            }
        }
        0
    }

    fn all(&self) -> usize {
        let mut all: usize = 0;
        for count in &self.counts {
            all = all.saturating_add(count.load(Ordering::SeqCst));
        }
        all
    }
}

// The step of a time: the first four are a microsecond each.
fn step_of(micros: u64) -> usize {
    if micros < 4 {
        return micros as usize;
    }
    let doubling = micros.ilog2().saturating_sub(1);
    let quarter = (micros >> doubling.saturating_sub(1).min(63)) & 3;
    (doubling as usize)
        .saturating_mul(4)
        .saturating_add(quarter as usize)
        .min(STEPS - 1)
}

// The longest time of a step, in microseconds.
fn end_of(step: usize) -> usize {
    if step < 4 {
        return step;
    }
    let doubling = (step / 4).saturating_sub(1).min(63);
    (step % 4 + 5).wrapping_shl(doubling as u32).wrapping_sub(1)
}
