//! Which rooms are remembered, for all sessions to see.
ghost use Rattle.std.specs.Prelude.{◌≡◌, ◌+◌, ◌<◌, ◌%◌, ◌/◌, IfSome};
ghost use Rattle.lz_forget.specs.Lives.{IsLive};

use crate::live::{EPOCH_ROOMS, Live, MOST_EPOCHS};
use std::alloc::{AllocError, Global};
use std::sync::atomic::{AtomicU64, AtomicUsize, Ordering};

// A word has how many commands are under way, then the newest room, how many rooms are remembered, whether the newest takes no keys, and whether no
// command begins.
const NEWEST: u64 = 1 << 32;

const COUNT: u64 = 1 << 40;

const FULL: u64 = 1 << 47;

const CLOSED: u64 = 1 << 48;

/// Which rooms are remembered, and how many commands are under way that were told so: the one is read and the other counted in one step. An epoch
/// ends while none is, and none begins until the next one has.
#[derive(Drop)]
pub struct Turns {
    word: AtomicU64,
    /// Up to when each room is remembered, in milliseconds of the monotonic clock.
    ends: Vec<AtomicU64>,
    /// What time it is, by that clock and since 1970, and when the keeper of the epochs has something to do.
    now: AtomicU64,
    wall: AtomicU64,
    due: AtomicU64,
    /// How many marks the file has.
    marks: AtomicUsize,
}

impl Turns {
    /// Those of a set of which no room is remembered, and no command begins.
    pub fn new(alloc: Global) -> Result<Turns, AllocError> {
        let mut ends = Vec::with_capacity(alloc, usize::from(EPOCH_ROOMS))?;
        for _ in 0..EPOCH_ROOMS {
            ends.push(AtomicU64::new(0))?;
        }
        Ok(Turns {
            word: AtomicU64::new(CLOSED),
            ends,
            now: AtomicU64::new(0),
            wall: AtomicU64::new(0),
            due: AtomicU64::new(0),
            marks: AtomicUsize::new(0),
        })
    }

    /// The rooms that are remembered, for a command that begins and is counted; none while an epoch ends. `leave` is to be called after it.
    pub fn enter(&self) -> Option<Live>
        ensures { IfSome result IsLive }
    {
        'tries: for _ in 0..u64::MAX {
            let word = self.word.load(Ordering::SeqCst);
            let next = entered(word)?;
            if self.turn(word, next) {
                return Some(live_in(word));
            }
        }
        None
    }

    /// A command has ended.
    pub fn leave(&self) {
        self.word.fetch_sub(1, Ordering::SeqCst);
    }

    /// Whether no command begins.
    pub fn is_closed(&self) -> bool {
        entered(self.word.load(Ordering::SeqCst)).is_none()
    }

    /// For how many milliseconds each epoch of these is remembered yet, by its age.
    pub fn left(&self, live: Live) -> [u64; MOST_EPOCHS as usize]
        requires { IsLive live }
    {
        let now = self.now();
        let mut left = [0; MOST_EPOCHS as usize];
        for age in 0..live.count {
            left[usize::from(age)] = self.end(live.room(age)).saturating_sub(now);
        }
        left
    }

    /// The time in milliseconds, by the monotonic clock and since 1970.
    pub fn see(&self, now: u64, wall: u64) {
        self.now.store(now, Ordering::SeqCst);
        self.wall.store(wall, Ordering::SeqCst);
    }

    /// In how many milliseconds the keeper has something to do.
    pub fn patience(&self) -> u64 {
        self.due.load(Ordering::SeqCst).saturating_sub(self.now())
    }

    /// How many marks the file has.
    pub fn marks(&self) -> &AtomicUsize {
        &self.marks
    }

    pub(crate) fn note_marks(&self, count: usize) {
        self.marks.store(count, Ordering::SeqCst);
    }

    pub(crate) fn wait_until(&self, due: u64) {
        self.due.store(due, Ordering::SeqCst);
    }

    pub(crate) fn now(&self) -> u64 {
        self.now.load(Ordering::SeqCst)
    }

    pub(crate) fn wall(&self) -> u64 {
        self.wall.load(Ordering::SeqCst)
    }

    /// No command begins from now on.
    pub(crate) fn close(&self) {
        'tries: for _ in 0..u64::MAX {
            let word = self.word.load(Ordering::SeqCst);
            if word >= CLOSED || self.turn(word, word + CLOSED) {
                return;
            }
        }
    }

    /// Whether none is under way, while none begins.
    pub(crate) fn is_still(&self) -> bool {
        let word = self.word.load(Ordering::SeqCst);
        word >= CLOSED && word % NEWEST == 0
    }

    /// These rooms are remembered from now on, and commands begin. None is under way.
    pub(crate) fn open(&self, live: Live) {
        self.word.store(word_of(live), Ordering::SeqCst);
    }

    /// So many rooms are remembered from now on.
    pub(crate) fn keep(&self, count: u8) {
        'tries: for _ in 0..u64::MAX {
            let word = self.word.load(Ordering::SeqCst);
            if self.turn(word, with_count(word, count)) {
                return;
            }
        }
    }

    pub(crate) fn end(&self, room: u8) -> u64 {
        match self.ends.get(usize::from(room)) {
            Some(end) => end.load(Ordering::SeqCst),
            None => 0,
        }
    }

    pub(crate) fn set_end(&self, room: u8, end: u64) {
        if let Some(place) = self.ends.get(usize::from(room)) {
            place.store(end, Ordering::SeqCst);
        }
    }

    // Goes from one word to another, and says whether it stood there.
    fn turn(&self, from: u64, to: u64) -> bool {
        self.word
            .compare_exchange(from, to, Ordering::SeqCst, Ordering::SeqCst)
            .is_ok()
    }
}

// The word with a command more, where one may begin.
fn entered(word: u64) -> Option<u64>
    ensures { IfSome result (λ next. (next ≡ word + 1) × (word < 281474976710656) × (word % 4294967296 < 4294967295)) }
{
    let may = word < CLOSED && word % NEWEST < NEWEST - 1 && word / COUNT % 128 > 0;
    if may { Some(word + 1) } else { None }
}

// The rooms that a word has.
fn live_in(word: u64) -> Live
    ensures { IsLive result }
{
    let newest = (word / NEWEST % 256) as u8;
    let count = (word / COUNT % 128) as u8;
    Live {
        newest: newest % EPOCH_ROOMS,
        count: count.clamp(1, MOST_EPOCHS),
        takes: word / FULL % 2 == 0,
    }
}

// The word of these rooms, while no command is under way.
fn word_of(live: Live) -> u64 {
    let full = if live.takes { 0 } else { FULL };
    full + u64::from(live.count) * COUNT + u64::from(live.newest) * NEWEST
}

// The word with so many rooms.
fn with_count(word: u64, count: u8) -> u64 {
    word / FULL % 4 * FULL + u64::from(count) * COUNT + word % COUNT
}
