//! How full a set is.
use std::sync::atomic::{AtomicBool, AtomicUsize, Ordering};

// The shares, in percent, that are told once each when they are reached.
const SHARES: [usize; 3] = [80, 90, 95];

/// Which share has to be free again before a full set is news again, in percent.
const FREE_AGAIN: usize = 5;

/// How full a set is.
#[derive(Drop)]
pub struct Gauge {
    slots: AtomicUsize,
    members: AtomicUsize,
    /// With how many members the next share is reached.
    next: AtomicUsize,
    /// The greatest share that was reached.
    told: AtomicUsize,
    /// It was full, and hasn't had room since.
    is_full: AtomicBool,
}

impl Gauge {
    pub fn new() -> Gauge {
        Gauge {
            slots: AtomicUsize::new(0),
            members: AtomicUsize::new(0),
            next: AtomicUsize::new(0),
            told: AtomicUsize::new(0),
            is_full: AtomicBool::new(false),
        }
    }

    /// The set begins so.
    pub fn begin(&self, slots: usize, members: usize) {
        self.slots.store(slots, Ordering::SeqCst);
        self.members.store(members, Ordering::SeqCst);
        self.next.store(self.count_after(0), Ordering::SeqCst);
    }

    pub fn members(&self) -> usize {
        self.members.load(Ordering::SeqCst)
    }

    pub fn slots(&self) -> usize {
        self.slots.load(Ordering::SeqCst)
    }

    /// A key has come in, with which the members are so many; one more, where that isn't known. The share of the slots that it has reached,
    /// where that is news.
    pub fn came(&self, members: Option<usize>) -> Option<usize> {
        let members = match members {
            Some(members) => self.note(members),
            None => self.members.fetch_add(1, Ordering::SeqCst).wrapping_add(1),
        };
        if members < self.next.load(Ordering::SeqCst) {
            return None;
        }
        let share = self.reached(members)?;
        if share <= self.told.load(Ordering::SeqCst) {
            return None;
        }
        self.told.store(share, Ordering::SeqCst);
        self.next.store(self.count_after(share), Ordering::SeqCst);
        Some(share)
    }

    /// A key has left, without which the members are so many; one less, where that isn't known.
    pub fn left(&self, members: Option<usize>) {
        let members = match members {
            Some(members) => self.note(members),
            None => self
                .members
                .fetch_sub(1, Ordering::SeqCst)
                .saturating_sub(1),
        };
        let free = self.slots().saturating_sub(members);
        if free.saturating_mul(100) >= self.slots().saturating_mul(FREE_AGAIN) {
            self.is_full.store(false, Ordering::SeqCst);
        }
    }

    fn note(&self, members: usize) -> usize {
        self.members.store(members, Ordering::SeqCst);
        members
    }

    /// It is full now. Whether that is news.
    pub fn fills(&self) -> bool {
        !self.is_full.swap(true, Ordering::SeqCst)
    }

    // With how many members the first share after this one is reached.
    fn count_after(&self, told: usize) -> usize {
        for share in SHARES {
            if share > told {
                return self.slots().saturating_mul(share).div_ceil(100);
            }
        }
        usize::MAX
    }

    // The greatest of the shares that so many members have reached.
    fn reached(&self, members: usize) -> Option<usize> {
        let slots = self.slots();
        let full = members.saturating_mul(100);
        let mut reached = None;
        for share in SHARES {
            if full >= slots.saturating_mul(share) {
                reached = Some(share);
            }
        }
        reached
    }
}
