//! What the loops of a service share whose keys are forgotten.
ghost use Rattle.std.specs.Prelude.{◌≡◌, ◌≤◌};

mod kept;
mod spoken;

use crate::clearing::Clearings;
pub(crate) use kept::Kept;
use lz_forget::{Keeper, MOST_SECONDS, Session, Turns};
use lz_resp::Naming;
use lz_slot::Key;
pub(crate) use spoken::Spoken;
use std::alloc::{AllocError, Global};
use std::fmt;
use std::sync::atomic::{AtomicBool, AtomicUsize, Ordering};
use std::time::{Clock, Duration};

/// What the loops of a service share whose keys are forgotten: which rooms are remembered, and which is swept.
#[derive(Drop)]
pub struct Forgetting {
    seconds: u64,
    epochs: u8,
    naming: Naming,
    /// The keys of the last room at the start, and those that are to be there.
    found: Vec<Key>,
    marks: Vec<Key>,
    turns: Turns,
    sweeps: Clearings,
    /// A loop has the client that keeps the epochs.
    is_kept: AtomicBool,
}

impl Forgetting {
    /// That of a service that forgets after so many seconds, of which so many epochs are remembered. Its clients' texts are hashed as the naming says, and
    /// its file has these keys in its last room, where these marks are to be.
    pub fn new(
        alloc: Global,
        seconds: u64,
        epochs: u8,
        naming: Naming,
        found: Vec<Key>,
        marks: Vec<Key>,
    ) -> Result<Forgetting, AllocError> {
        Ok(Forgetting {
            seconds: seconds.min(MOST_SECONDS),
            epochs,
            naming,
            found,
            marks,
            turns: Turns::new(alloc)?,
            sweeps: Clearings::new(),
            is_kept: AtomicBool::new(false),
        })
    }

    /// Which rooms are remembered.
    pub(crate) fn turns(&self) -> &Turns {
        &self.turns
    }

    /// Which room is swept.
    pub(crate) fn sweeps(&self) -> &Clearings {
        &self.sweeps
    }

    /// How many marks its file has.
    pub fn marks(&self) -> &AtomicUsize {
        self.turns.marks()
    }

    /// A client's session.
    pub(crate) fn session(&self, alloc: Global) -> Session {
        Session::new(alloc, self.seconds.min(MOST_SECONDS), self.naming)
    }

    /// The keeper of the epochs, for the first that asks; for the next one where there was no memory.
    pub(crate) fn keeper(&self, alloc: Global) -> Option<Result<Keeper<'_>, AllocError>> {
        if self.is_kept.swap(true, Ordering::SeqCst) {
            return None;
        }
        let made = Keeper::new(
            alloc,
            &self.turns,
            self.seconds,
            self.epochs,
            self.found.as_slice(),
            self.marks.as_slice(),
        );
        if made.is_err() {
            self.is_kept.store(false, Ordering::SeqCst);
        }
        Some(made)
    }

    /// Sees what time it is, and says in how long the keeper has something to do.
    pub(crate) fn see_time<R: Clock>(&self, rt: &R) -> Duration {
        if let (Ok(now), Ok(wall)) = (rt.monotonic(), rt.since_1970()) {
            self.turns.see(millis_of(now), millis_of(wall));
        }
        Duration::from_millis(self.turns.patience())
    }
}

// A time in milliseconds.
fn millis_of(time: Duration) -> u64 {
    u64::try_from(time.as_millis()).unwrap_or(u64::MAX)
}

/// What it shares is shown to nobody.
impl fmt::Debug for Forgetting {
    fn fmt<W: fmt::Write>(&self, f: &mut fmt::Formatter<W>) -> fmt::Result {
        write!(
            f,
            "Forgetting {{ seconds: {}, epochs: {}, .. }}",
            self.seconds, self.epochs
        )
    }
}
