//! A gate that holds a caller between two of its events, and gives up in the end.
use lz_machine::Kind;
use lz_set::StepGate;
use std::sync::Wait;
use std::sync::atomic::{AtomicBool, AtomicU64, Ordering};
use std::thread;
use std::time::{Clock, Duration};

/// After how many turns a wait gives up, each a load and a sleep of one millisecond.
const TURNS: u64 = 10_000;

/// What a held caller and those beside it tell each other.
#[derive(Drop)]
pub struct Signals {
    // How many events the held caller has played.
    pub played: AtomicU64,
    pub is_held: AtomicBool,
    pub may_go_on: AtomicBool,
    // A wait gave up, or the event was of another kind.
    pub is_off: AtomicBool,
}

impl Signals {
    pub fn new() -> Signals {
        Signals {
            played: AtomicU64::new(0),
            is_held: AtomicBool::new(false),
            may_go_on: AtomicBool::new(false),
            is_off: AtomicBool::new(false),
        }
    }
}

/// Whether the signal came before the wait gave up.
pub fn wait_for(clock: &impl Clock, signal: &AtomicBool) -> bool {
    for _ in 0..TURNS {
        if signal.load(Ordering::SeqCst) {
            return true;
        }
        thread::sleep(clock, Duration::from_millis(1));
    }
    false
}

/// Holds a pass after its event of this number, counted from 0, which has to be of this kind.
#[derive(Drop)]
pub struct Gate<'a, C: Clock> {
    pub clock: &'a C,
    pub pass: usize,
    pub event: u64,
    pub kind: Kind,
    pub signals: &'a Signals,
}

impl<'a, C: Clock> StepGate for Gate<'a, C> {
    fn after<R: Wait>(&self, _rt: &R, pass: usize, kind: Kind) {
        if pass != self.pass || self.signals.played.fetch_add(1, Ordering::SeqCst) != self.event {
            return;
        }
        self.signals.is_held.store(true, Ordering::SeqCst);
        if kind != self.kind || !wait_for(self.clock, &self.signals.may_go_on) {
            self.signals.is_off.store(true, Ordering::SeqCst);
        }
    }
}
