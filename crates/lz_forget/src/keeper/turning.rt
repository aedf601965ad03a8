//! The ends of epochs.
ghost use Rattle.std.specs.Prelude.{◌≡◌};

use super::{Keeper, MOMENT_MS, PATIENCE_MS, Stage};
use crate::live::{MOST_EPOCHS, after, before};
use crate::marks::{epoch_mark, epoch_of};
use lz_slot::Key;
use std::alloc::{AllocError, Global};

/// After how many milliseconds a mark is tried again for which no slot was free.
const RETRY_MS: u64 = 1_000;

const ADD: &[u8] = b"*3\r\n$4\r\nSADD\r\n";

const REMOVE: &[u8] = b"*3\r\n$4\r\nSREM\r\n";

impl<'t> Keeper<'t> {
    /// Does what is to be done by now, by the time that the turns have seen.
    pub fn tend(&mut self) -> Result<(), AllocError> {
        let now = self.turns.now();
        match self.stage {
            Stage::Rests => self.go_on(now)?,
            Stage::Closes if self.turns.is_still() => self.begin()?,
            _ => {}
        }
        let waits = if self.stage == Stage::Rests && self.sweeps.is_none() {
            PATIENCE_MS
        } else {
            MOMENT_MS
        };
        self.turns.wait_until(now.saturating_add(waits));
        Ok(())
    }

    // What comes first of what is to be done.
    fn go_on(&mut self, now: u64) -> Result<(), AllocError> {
        self.drop_old(now);
        if !self.opened && !self.full && self.count > 0 && now < self.until {
            self.opened = true;
            self.turns.open(self.live());
        }
        if now >= self.until {
            self.end_epoch();
        }
        if self.stage == Stage::Rests
            && let Some(room) = self.swept
        {
            self.swept = None;
            self.forget(room)?;
        }
        if self.sweeps.is_none() && self.swept.is_none() && self.stage == Stage::Rests {
            self.sweeps = self.unswept();
        }
        Ok(())
    }

    // The oldest epoch isn't remembered any more once its time is over.
    fn drop_old(&mut self, now: u64) {
        let Some(age) = self.count.checked_sub(1) else {
            return;
        };
        let room = before(self.newest, age);
        if (age > 0 || !self.opened) && self.turns.end(room) <= now {
            self.count = age;
            self.turns.keep(age);
        }
    }

    // The newest epoch has had its time. No command begins until the next one has begun, or it goes on.
    fn end_epoch(&mut self) {
        if self.opened || self.has_next() {
            self.turns.close();
            self.stage = Stage::Closes;
        }
    }

    // Whether the next room is swept, and the oldest isn't remembered any more.
    fn has_next(&self) -> bool {
        self.count < MOST_EPOCHS && !self.is_marked(after(self.newest))
    }

    // The time that a mark tells: later than that of any other.
    fn next_time(&self) -> u64 {
        self.turns.wall().max(self.last.saturating_add(1))
    }

    // Adds the mark of the next epoch, or, where that can't begin yet, one more of the newest.
    fn begin(&mut self) -> Result<(), AllocError> {
        let began = self.next_time();
        if self.has_next() {
            self.stage = Stage::Begins;
            self.mark(after(self.newest), began)
        } else {
            self.stage = Stage::Extends;
            self.mark(self.newest, began)
        }
    }

    // Adds a mark of this room.
    fn mark(&mut self, room: u8, began: u64) -> Result<(), AllocError> {
        let Some(mark) = epoch_mark(room, began) else {
            return Err(AllocError);
        };
        self.last = began;
        self.marks.push(mark)?;
        self.ask(ADD, mark)
    }

    // Removes the marks of a room that was swept.
    fn forget(&mut self, room: u8) -> Result<(), AllocError> {
        self.stage = Stage::Forgets(room);
        for mark in marks_of(self.alloc, self.marks.as_slice(), room)?.iter() {
            self.ask(REMOVE, *mark)?;
        }
        Ok(())
    }

    // All is answered that was asked.
    pub(super) fn complete(&mut self) -> Result<(), AllocError>
        ensures { self.new.heard ≡ self.old.heard }
    {
        if self.lacks {
            self.lacks = false;
            return self.go_without();
        }
        match self.stage {
            Stage::Begins => self.open_next(),
            Stage::Extends => {
                self.until = self.turns.now().saturating_add(self.length);
                self.turns.open(self.live());
            }
            Stage::Forgets(room) => self.drop_marks(room)?,
            Stage::Rests | Stage::Marks | Stage::Closes => {}
        }
        self.stage = Stage::Rests;
        self.tell_marks();
        Ok(())
    }

    // Tells how many marks there are.
    pub(super) fn tell_marks(&self) {
        self.turns
            .note_marks(self.own.saturating_add(self.marks.len()));
    }

    // No slot was free for a mark, which is tried again after a while. An epoch that should have ended takes no keys until then, so that it is known for
    // how long it is remembered.
    fn go_without(&mut self) -> Result<(), AllocError>
        ensures { self.new.heard ≡ self.old.heard }
    {
        let now = self.turns.now();
        let kept = self.seconds.saturating_mul(1_000);
        match self.stage {
            Stage::Marks => return Err(AllocError),
            Stage::Begins | Stage::Extends => {
                self.marks.pop();
                if self.opened {
                    self.turns.set_end(self.newest, now.saturating_add(kept));
                }
                self.opened = false;
                self.full = true;
                self.turns.open(self.live());
            }
            Stage::Rests | Stage::Closes | Stage::Forgets(_) => {}
        }
        self.until = now.saturating_add(RETRY_MS);
        self.stage = Stage::Rests;
        Ok(())
    }

    // The next epoch begins, and the one before is remembered from now on for its time.
    fn open_next(&mut self)
        ensures { self.new.heard ≡ self.old.heard }
    {
        let now = self.turns.now();
        let kept = self.seconds.saturating_mul(1_000);
        if self.opened {
            self.turns.set_end(self.newest, now.saturating_add(kept));
        }
        self.newest = after(self.newest);
        self.count = self.count.saturating_add(1).min(MOST_EPOCHS);
        self.until = now.saturating_add(self.length);
        self.turns
            .set_end(self.newest, self.until.saturating_add(kept));
        self.opened = true;
        self.full = false;
        self.turns.open(self.live());
    }

    // This room has no mark any more.
    fn drop_marks(&mut self, room: u8) -> Result<(), AllocError>
        ensures { self.new.heard ≡ self.old.heard }
    {
        self.marks = self
            .marks
            .iter()
            .filter(|mark| !is_of(**mark, room))
            .copied()
            .collect(self.alloc)?;
        Ok(())
    }
}

// Those of these marks that are of this room.
fn marks_of(alloc: Global, marks: &[Key], room: u8) -> Result<Vec<Key>, AllocError> {
    marks
        .iter()
        .filter(|mark| is_of(**mark, room))
        .copied()
        .collect(alloc)
}

// Whether this is a mark of this room.
fn is_of(mark: Key, room: u8) -> bool {
    matches!(epoch_of(mark), Some((its, _)) if its == room)
}
