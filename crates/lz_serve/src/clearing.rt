//! The clearing of a room, for all loops of a service to see.
use lz_resp::Cleared;
use std::sync::atomic::{AtomicUsize, Ordering};

/// No loop clears rooms.
const CLOSED: usize = 0;

/// Nobody has asked.
const FREE: usize = 1;

/// Somebody has asked for the room of this number more.
const ASKED: usize = 16;

/// A loop is at it.
const RUNS: usize = 2;

/// A loop is at it, and who asked has gone.
const LEFT: usize = 3;

/// It was done, and who asked wasn't told.
const DONE: usize = 4;

/// It stopped early, and who asked wasn't told.
const STOPPED: usize = 5;

/// The one clearing that a service is at, if it is at one: who asks for it awaits what comes of it, and a loop carries it out.
#[derive(Drop)]
pub struct Clearings {
    stage: AtomicUsize,
    removed: AtomicUsize,
}

impl Clearings {
    /// Those of a service whose loops haven't begun.
    pub fn new() -> Clearings {
        Clearings {
            stage: AtomicUsize::new(CLOSED),
            removed: AtomicUsize::new(0),
        }
    }

    /// A loop begins that clears rooms.
    pub(crate) fn open(&self) {
        self.turn(CLOSED, FREE);
    }

    /// Whether no loop clears rooms.
    pub fn is_closed(&self) -> bool {
        self.stage() == CLOSED
    }

    /// Asks for the clearing of this room, and says whether it was taken: then `outcome` tells what came of it, and `forget` is to be called if
    /// nobody will ask for that.
    pub fn ask(&self, room: u8) -> bool {
        self.turn(FREE, ASKED + usize::from(room))
    }

    /// What came of it, once that is known.
    pub fn outcome(&self) -> Option<Cleared> {
        let stage = self.stage();
        let removed = self.removed.load(Ordering::SeqCst);
        let cleared = match stage {
            DONE => Cleared::Removed(removed),
            STOPPED => Cleared::Stopped(removed),
            _ => return None,
        };
        self.stage.store(FREE, Ordering::SeqCst);
        Some(cleared)
    }

    /// Nobody awaits it any more. One that has begun goes on.
    pub fn forget(&self) {
        let stage = self.stage();
        if stage >= ASKED && self.turn(stage, FREE) || self.turn(RUNS, LEFT) {
            return;
        }
        self.stage.store(FREE, Ordering::SeqCst);
    }

    /// The room that is to be cleared, if one is. Who takes it clears it, and calls `end`.
    pub(crate) fn take(&self) -> Option<u8> {
        let stage = self.stage();
        let room = u8::try_from(stage.checked_sub(ASKED)?).ok()?;
        self.turn(stage, RUNS).then_some(room)
    }

    /// Whether one waits for a loop.
    pub(crate) fn is_asked(&self) -> bool {
        self.stage() >= ASKED
    }

    /// Whether one has ended, and who asked wasn't told.
    pub(crate) fn has_ended(&self) -> bool {
        matches!(self.stage(), DONE | STOPPED)
    }

    /// No loop has a place for its client.
    pub(crate) fn refuse(&self) {
        if self.take().is_some() {
            self.end(false, 0);
        }
    }

    /// It has ended so.
    pub(crate) fn end(&self, is_over: bool, removed: usize) {
        self.removed.store(removed, Ordering::SeqCst);
        let stage = if is_over { DONE } else { STOPPED };
        if !self.turn(RUNS, stage) {
            self.stage.store(FREE, Ordering::SeqCst);
        }
    }

    fn stage(&self) -> usize {
        self.stage.load(Ordering::SeqCst)
    }

    // Goes from one stage to another, and says whether it stood there.
    fn turn(&self, from: usize, to: usize) -> bool {
        self.stage
            .compare_exchange(from, to, Ordering::SeqCst, Ordering::SeqCst)
            .is_ok()
    }
}
