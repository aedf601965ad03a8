//! What the marks of a file tell of the epochs before.
ghost use Rattle.std.specs.Prelude.{◌≡◌, ◌<◌, ◌≤◌};

use crate::live::EPOCH_ROOMS;
use crate::marks::epoch_of;
use lz_slot::Key;

/// When the epoch of each room began, in milliseconds since 1970, by the latest mark of it; none where it has no mark.
#[derive(Clone, Copy, Debug, PartialEq, Eq)]
pub struct Past {
    pub began: [Option<u64>; EPOCH_ROOMS as usize],
}

impl Past {
    /// That of these keys, whatever others are among them.
    pub fn of(keys: &[Key]) -> Past {
        let mut past = Past {
            began: [None; EPOCH_ROOMS as usize],
        };
        for key in keys {
            past.note(*key);
        }
        past
    }

    /// One more key.
    pub fn note(&mut self, key: Key) {
        let Some((room, its)) = epoch_of(key) else {
            return;
        };
        if let Some(began) = self.began.get_mut(usize::from(room)) {
            *began = Some(began.map_or(its, |other| other.max(its)));
        }
    }

    /// The room whose epoch began last, and when.
    pub(crate) fn newest(&self) -> Option<(u8, u64)> {
        let mut newest: Option<(u8, u64)> = None;
        for room in 0..EPOCH_ROOMS {
            let began = self.began_in(room).unwrap_or(0);
            if self.began_in(room).is_some() && newest.map_or(true, |(_, other)| began > other) {
                newest = Some((room, began));
            }
        }
        newest
    }

    /// When the epoch of this room began.
    pub(crate) fn began_in(&self, room: u8) -> Option<u64> {
        *self.began.get(usize::from(room))?
    }
}
