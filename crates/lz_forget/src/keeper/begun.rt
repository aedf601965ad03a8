//! The epochs at a start, by the marks of the life before.

use super::{Keeper, Stage};
use crate::live::{EPOCH_ROOMS, MOST_EPOCHS, before};
use crate::marks::epoch_of;
use crate::past::Past;
use crate::turns::Turns;
use lz_slot::Key;
use std::alloc::{AllocError, Global};

/// For how many milliseconds more than two epochs keys are looked for of an epoch that no other followed: its last commands may have waited for a sync.
const SLACK_MS: u64 = 1_000;

// What an addition to the set is asked by.
const ADD: &[u8] = b"*3\r\n$4\r\nSADD\r\n";

impl<'t> Keeper<'t> {
    /// That of a set that forgets after so many seconds, of which so many epochs are remembered, at the time that the turns have seen. The file has these keys in its last room, and is to have these marks as well. No command begins before the first
    /// epoch has.
    pub fn new(
        alloc: Global,
        turns: &'t Turns,
        seconds: u64,
        epochs: u8,
        keys: &[Key],
        marks: &[Key],
    ) -> Result<Keeper<'t>, AllocError> {
        let (now, wall) = (turns.now(), turns.wall());
        let parts = u64::from(epochs).saturating_sub(1).max(1);
        let mut keeper = Keeper {
            alloc,
            turns,
            seconds,
            length: seconds.saturating_mul(1_000).div_ceil(parts),
            stage: Stage::Rests,
            awaits: 0,
            lacks: false,
            own: marks.len(),
            marks: epochs_of(alloc, keys)?,
            newest: EPOCH_ROOMS - 1,
            count: 0,
            opened: false,
            full: false,
            until: now,
            last: 0,
            sweeps: None,
            swept: None,
            asks: Vec::new(alloc),
            heard: Vec::new(alloc),
        };
        keeper.resume(Past::of(keys), now, wall);
        keeper.mark_file(keys, marks)?;
        keeper.tell_marks();
        Ok(keeper)
    }

    // Adds the file's own marks that it lacks, before any epoch begins.
    fn mark_file(&mut self, keys: &[Key], marks: &[Key]) -> Result<(), AllocError> {
        for mark in marks {
            if !keys.iter().any(|key| key == mark) {
                self.ask(ADD, *mark)?;
                self.stage = Stage::Marks;
            }
        }
        Ok(())
    }

    // Goes on with the epochs before. One that has had its time ends before any command begins.
    fn resume(&mut self, past: Past, now: u64, wall: u64) {
        let Some((newest, began)) = past.newest() else {
            return;
        };
        self.newest = newest;
        self.last = began;
        // A mark of the future counts as of now: the clock was wrong once.
        let began = began.min(wall);
        let age = wall.saturating_sub(began);
        let kept = self.seconds.saturating_mul(1_000);
        let bound = self
            .length
            .saturating_mul(2)
            .saturating_add(kept)
            .saturating_add(SLACK_MS);
        if age < self.length {
            self.until = now.saturating_add(self.length.saturating_sub(age));
            self.keep_one(newest, self.until.saturating_add(kept));
        } else if age < bound {
            self.keep_one(newest, now.saturating_add(bound.saturating_sub(age)));
        } else {
            return;
        }
        self.resume_older(&past, now, wall);
    }

    // The older epochs, each of which ended when the one after it began.
    fn resume_older(&mut self, past: &Past, now: u64, wall: u64) {
        let mut ended = self.last;
        for age in 1..MOST_EPOCHS {
            let room = before(self.newest, age);
            let Some(began) = past.began_in(room) else {
                return;
            };
            let end = ended
                .min(wall)
                .saturating_add(self.seconds.saturating_mul(1_000));
            if began >= ended || end <= wall {
                return;
            }
            self.keep_one(room, now.saturating_add(end.saturating_sub(wall)));
            ended = began;
        }
    }

    // One epoch more is remembered, up to then.
    fn keep_one(&mut self, room: u8, end: u64) {
        self.count = self.count.saturating_add(1).min(MOST_EPOCHS);
        self.turns.set_end(room, end);
    }
}

// The marks of epochs among these keys.
fn epochs_of(alloc: Global, keys: &[Key]) -> Result<Vec<Key>, AllocError> {
    let mut marks = Vec::new(alloc);
    for key in keys {
        if epoch_of(*key).is_some() {
            marks.push(*key)?;
        }
    }
    Ok(marks)
}
