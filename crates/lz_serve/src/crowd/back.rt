//! Those that are to be tended to, and the keys that their connections seek.
ghost use Rattle.std.specs.Prelude.{◌≡◌, IfSome};
ghost use Rattle.lz_board.specs.Seats.{part};
ghost use Rattle.lz_serve.specs.Clients.{ChangesAt, HaveSeenIn, Keeps, OnlyLeave};

use crate::crowd::Crowd;
use crate::observer::Observer;
use crate::sight::Sight;
use crate::stream::Stream;
use lz_slot::Key;

impl<S: Stream> Crowd<S> {
    /// Does what needs no pass for those that were answered, had no line or are to be tended to in each turn.
    pub fn tend_back<O: Observer>(&mut self, observer: &O, buffer: &mut [u8])
        ensures kept { Keeps self.old self.new }
        ensures begun { self.new.begun ≡ self.old.begun }
    {
        for _ in 0..self.back.len() {
            let Some(token) = self.take_back() else {
                return;
            };
            self.tend(token, observer, buffer);
        }
    }

    // The next one that is to be tended to, which isn't any more.
    fn take_back(&mut self) -> Option<usize>
        ensures kept { Keeps self.old self.new }
        ensures begun { self.new.begun ≡ self.old.begun }
    {
        let token = self.back.pop_front()?;
        let Some(place) = self.places.get_mut(token) else {
            return Some(token);
        };
        place.take_back();
        Some(token)
    }

    // A client is to be tended to, if it wasn't. There is room for it.
    pub(super) fn put_back(&mut self, token: usize, is_back: bool)
        ensures leave { OnlyLeave self.old self.new }
        ensures others { ChangesAt token self.old self.new }
        ensures queue { self.new.queue ≡ self.old.queue }
        ensures scans { self.new.scans ≡ self.old.scans }
    {
        if is_back && self.back.push_back(token).is_err() {
            self.close(token);
        }
    }

    /// Whether the connection of one that is to be tended to seeks a key.
    pub(crate) fn seeks(&self) -> bool {
        for after in 0..self.back.len() {
            if self.sought(after).is_some() {
                return true;
            }
        }
        false
    }

    /// How many are to be tended to.
    pub(crate) fn backs(&self) -> usize {
        self.back.len()
    }

    /// The key that the connection seeks which is tended to after so many others, if it does.
    pub(crate) fn sought(&self, after: usize) -> Option<Key> {
        let token = self.back.get(after)?;
        self.places.get(*token)?.sought()
    }

    /// Hands on what was seen of that key, if it was, by a pass that had seen what those had that answered any of the clients.
    pub(crate) fn see<O: Observer>(&mut self, after: usize, sight: Option<Sight>, observer: &O)
        requires { IfSome sight (λ s. HaveSeenIn self.old (part s.before).known) }
        ensures kept { Keeps self.old self.new }
        ensures begun { self.new.begun ≡ self.old.begun }
    {
        let Some(token) = self.back.get(after).copied() else {
            return;
        };
        let Some(place) = self.places.get_mut(token) else {
            return;
        };
        place.see(sight, observer, &self.clock);
    }
}
