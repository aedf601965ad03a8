//! The keeper of the epochs: a client in memory, which marks each epoch before its first key.
ghost use Rattle.std.specs.Prelude.{◌≡◌, ◌<◌, IfOk, OnOk, length, true};

mod begun;
mod turning;

use crate::answers::answer_on;
use crate::live::{Live, before};
use crate::marks::epoch_of;
use crate::turns::Turns;
use lz_proto::Reply;
use lz_resp::{Fault, Stop, push_decimal, read_line};
use lz_slot::{Key, LAST_ROOM};
use std::alloc::{AllocError, Global};

/// For how many milliseconds the keeper waits where something is under way.
const MOMENT_MS: u64 = 2;

/// The same where nothing is.
const PATIENCE_MS: u64 = 100;

// What is under way.
#[derive(Clone, Copy, Debug, PartialEq, Eq)]
enum Stage {
    Rests,
    /// The file's own marks are added.
    Marks,
    /// The last commands of an epoch are awaited.
    Closes,
    /// The mark of the next epoch is added.
    Begins,
    /// The epoch goes on, since the next room isn't swept: a mark more says so.
    Extends,
    /// The marks of this room are removed, which was swept.
    Forgets(u8),
}

/// Keeps the epochs: it ends each in its time, once no command of it is under way, and marks the next. A room that isn't remembered any more is to be
/// swept, and loses its marks then.
#[derive(Drop)]
pub struct Keeper<'t> {
    alloc: Global,
    turns: &'t Turns,
    seconds: u64,
    // for how many milliseconds an epoch takes keys
    length: u64,
    stage: Stage,
    awaits: usize,
    // no slot was free for one of them
    lacks: bool,
    // how many marks tell what the file is for, and the marks of epochs that stand
    own: usize,
    marks: Vec<Key>,
    // the newest room, and how many are remembered
    newest: u8,
    count: u8,
    // whether the newest epoch took keys in this life
    opened: bool,
    // no slot was free for the mark of the next one
    full: bool,
    // when the newest epoch is to end, by the monotonic clock, and the millisecond at which the last mark says that one begins
    until: u64,
    last: u64,
    sweeps: Option<u8>,
    swept: Option<u8>,
    asks: Vec<u8>,
    heard: Vec<u8>,
}

impl<'t> Keeper<'t> {
    /// What the service is to be sent.
    pub fn asks(&self) -> &[u8] {
        self.asks.as_slice()
    }

    /// So many bytes of it were sent.
    pub fn asked(&mut self, count: usize) {
        let count = count.min(self.asks.len());
        let left = self.asks.len() - count;
        self.asks.copy_within(count.., 0);
        self.asks.truncate(left);
    }

    /// The room that is to be swept, if one is.
    pub fn sweeps(&self) -> Option<u8> {
        self.sweeps
    }

    /// That room has no key any more.
    pub fn swept(&mut self) {
        self.swept = self.sweeps;
        self.sweeps = None;
    }

    /// The service has told a piece more. What is no reply to what was asked is a fault, after which no epoch begins.
    pub fn hear(&mut self, piece: &[u8]) -> Result<(), Stop> {
        self.heard.extend_from_slice(piece)?;
        'replies: while self.hear_one()? {}
        Ok(())
    }

    // Hears a reply, if a whole one has come, and says whether one has.
    fn hear_one(&mut self) -> Result<bool, Stop>
        ensures { IfOk result (λ whole. whole ≡ true → length self.new.heard.items < length self.old.heard.items) }
    {
        let Some((line, rest)) = read_line(Fault::Count, self.heard.as_slice())? else {
            return Ok(false);
        };
        let answer = answer_on(line);
        let count = self.heard.len() - rest.len();
        match answer {
            Some(Some(Reply::Yes | Reply::No)) => {}
            Some(Some(Reply::Full)) => self.lacks = true,
            _ => return Err(Stop::Faulty(Fault::Count)),
        }
        if count == 0 {
            return Err(Stop::Faulty(Fault::Count));
        }
        let left = self.heard.len() - count;
        self.heard.copy_within(count.., 0);
        self.heard.truncate(left);
        self.awaits = self.awaits.saturating_sub(1);
        if self.awaits == 0 {
            self.complete()?;
        }
        Ok(true)
    }

    // Asks the service to add this mark, or to remove it.
    fn ask(&mut self, words: &[u8], mark: Key) -> Result<(), AllocError>
        ensures { self.new.heard ≡ self.old.heard }
    {
        self.asks.extend_from_slice(words)?;
        push_decimal(&mut self.asks, u64::from(LAST_ROOM))?;
        push_decimal(&mut self.asks, mark.get())?;
        self.awaits = self.awaits.saturating_add(1);
        Ok(())
    }

    // The rooms that are remembered.
    fn live(&self) -> Live {
        Live {
            newest: self.newest,
            count: self.count,
            takes: !self.full,
        }
    }

    // Whether the keys of this room are remembered.
    fn is_live(&self, room: u8) -> bool {
        before(self.newest, room) < self.count
    }

    // The first room that has a mark and isn't remembered.
    fn unswept(&self) -> Option<u8> {
        for mark in self.marks.iter() {
            if let Some((room, _)) = epoch_of(*mark)
                && !self.is_live(room)
            {
                return Some(room);
            }
        }
        None
    }

    // Whether this room has a mark.
    fn is_marked(&self, room: u8) -> bool {
        self.marks.iter().any(|mark| matches!(epoch_of(*mark), Some((its, _)) if its == room))
    }
}
