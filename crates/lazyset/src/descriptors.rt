//! How many connections a process may have.
use libc::types::rlimit;
use libc::{RLIMIT_NOFILE, getrlimit};
use lz_serve::MOST_CONNECTIONS;

// The descriptors that a service has or may want beside those of its connections and of its loops, and how many a loop has.
const OTHERS: u64 = 62;

const OF_LOOP: u64 = 2;

// How many a process may have where the system doesn't tell.
const USUAL: u64 = 1_024;

/// As many connections as this process may have descriptors for beside so many loops, and no more than loops may serve.
pub fn connections_allowed(loops: usize) -> usize {
    let others = OTHERS.saturating_add(OF_LOOP.saturating_mul(loops as u64));
    let left = descriptors().saturating_sub(others);
    usize::try_from(left).map_or(MOST_CONNECTIONS, |left| left.clamp(1, MOST_CONNECTIONS))
}

// How many descriptors this process may have.
fn descriptors() -> u64 {
    let mut limit = rlimit {
        rlim_cur: USUAL,
        rlim_max: USUAL,
    };
    if getrlimit(RLIMIT_NOFILE, &mut limit) == 0 {
        limit.rlim_cur
    } else {
        USUAL
    }
}
