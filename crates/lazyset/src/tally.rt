//! What a service has answered.
use lz_proto::Reply;
use lz_serve::Verb;
use std::sync::atomic::{AtomicUsize, Ordering};

/// How many requests a service has answered, each of which is counted once.
#[derive(Drop)]
pub struct Tally {
    adds: AtomicUsize,
    removes: AtomicUsize,
    lookups: AtomicUsize,
    full: AtomicUsize,
    /// Additions and removals that changed nothing, also since the device failed.
    others: AtomicUsize,
}

impl Tally {
    pub fn new() -> Tally {
        Tally {
            adds: AtomicUsize::new(0),
            removes: AtomicUsize::new(0),
            lookups: AtomicUsize::new(0),
            full: AtomicUsize::new(0),
            others: AtomicUsize::new(0),
        }
    }

    /// A request was replied to so.
    pub fn count(&self, verb: Verb, reply: Reply) {
        let counter = match (verb, reply) {
            (_, Reply::Full) => &self.full,
            (Verb::Add, Reply::Yes) => &self.adds,
            (Verb::Remove, Reply::Yes) => &self.removes,
            (Verb::Has, Reply::Yes | Reply::No) => &self.lookups,
            _ => &self.others,
        };
        counter.fetch_add(1, Ordering::SeqCst);
    }

    /// How many keys were added.
    pub fn adds(&self) -> usize {
        self.adds.load(Ordering::SeqCst)
    }

    /// How many keys were removed.
    pub fn removes(&self) -> usize {
        self.removes.load(Ordering::SeqCst)
    }

    /// How many keys were looked up.
    pub fn lookups(&self) -> usize {
        self.lookups.load(Ordering::SeqCst)
    }

    /// How many additions found no slot free.
    pub fn full(&self) -> usize {
        self.full.load(Ordering::SeqCst)
    }

    /// How many requests were answered.
    pub fn all(&self) -> usize {
        self.adds()
            .wrapping_add(self.removes())
            .wrapping_add(self.lookups())
            .wrapping_add(self.full())
            .wrapping_add(self.others.load(Ordering::SeqCst))
    }
}
