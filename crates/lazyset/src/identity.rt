//! By which numbers a service is told from others.
use std::time::Clock;

// The nanoseconds of a second.
const SECOND: u64 = 1_000_000_000;

// An odd number, by which the numbers of moments are spread.
const SPREAD: u64 = 0x9e37_79b9_7f4a_7c15;

/// The number of this process.
pub fn process() -> usize {
    libc::getpid().unsigned_abs() as usize
}

/// A number that is another one at each start: no two moments give the same, and no two processes at one moment.
pub fn run_of<R: Clock>(rt: &R) -> usize {
    let moment = match rt.since_1970() {
        Ok(now) => now
            .as_secs()
            .wrapping_mul(SECOND)
            .wrapping_add(u64::from(now.subsec_nanos())),
        Err(_) => 0,
    };
    moment.wrapping_mul(SPREAD) as usize ^ process()
}
