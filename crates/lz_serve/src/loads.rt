//! How many clients each of several loops has connections with.
use std::alloc::{AllocError, Global};
use std::sync::atomic::{AtomicUsize, Ordering};

/// How many connections each of several loops has, for all of them to see.
#[derive(Drop)]
pub struct Loads {
    counts: Vec<AtomicUsize>,
}

impl Loads {
    /// Of so many loops, none of which takes connections yet.
    pub fn new(alloc: Global, loops: usize) -> Result<Loads, AllocError> {
        let mut counts = Vec::with_capacity(alloc, loops)?;
        for _ in 0..loops {
            counts.push(AtomicUsize::new(usize::MAX))?;
        }
        Ok(Loads { counts })
    }

    /// This loop begins to take connections.
    pub(crate) fn begin(&self, index: usize) {
        self.note(index, 0);
    }

    /// This loop takes no more.
    pub(crate) fn end(&self, index: usize) {
        self.note(index, usize::MAX);
    }

    /// A connection was taken.
    pub(crate) fn add(&self, index: usize) {
        if let Some(count) = self.counts.get(index) {
            count.fetch_add(1, Ordering::SeqCst);
        }
    }

    /// A connection was closed.
    pub(crate) fn take_off(&self, index: usize) {
        if let Some(count) = self.counts.get(index) {
            count.fetch_sub(1, Ordering::SeqCst);
        }
    }

    /// Whether another loop that takes connections has fewer.
    pub(crate) fn is_more(&self, index: usize) -> bool {
        let Some(own) = self.counts.get(index) else {
            return false;
        };
        let own = own.load(Ordering::SeqCst);
        for count in &self.counts {
            if count.load(Ordering::SeqCst) < own {
                return true;
            }
        }
        false
    }

    /// Whether the loops have so many together.
    pub(crate) fn have(&self, connections: usize) -> bool {
        let mut all: usize = 0;
        for count in &self.counts {
            let own = count.load(Ordering::SeqCst);
            if own != usize::MAX {
                all = all.saturating_add(own);
            }
        }
        all >= connections
    }

    fn note(&self, index: usize, connections: usize) {
        if let Some(count) = self.counts.get(index) {
            count.store(connections, Ordering::SeqCst);
        }
    }
}
