//! The keys that the connection of a place seeks.
ghost use Rattle.std.specs.Prelude.{IfSome};
ghost use Rattle.lz_list.specs.Traces.{Begins};
ghost use Rattle.lz_board.specs.Seats.{part};
ghost use Rattle.lz_serve.specs.Clients.{KeepsLinesOf};

use crate::clock::Clock;
use crate::observer::Observer;
use crate::place::Place;
use crate::sight::Sight;
use crate::stream::Stream;
use lz_slot::Key;

impl<S: Stream> Place<S> {
    /// The key that its client's connection seeks, if it does.
    pub(crate) fn sought(&self) -> Option<Key> {
        match &self.client {
            Some(client) => client.sought(),
            None => None,
        }
    }

    /// Hands on what was seen of that key, if it was, by a pass that had seen what those had that answered the client. The observer is told how long ago the connection was heard.
    pub(crate) fn see<O: Observer>(&mut self, sight: Option<Sight>, observer: &O, clock: &Clock)
        requires { IfSome self.old.client (λ client. IfSome sight (λ s. Begins client.seen (part s.before).known)) }
        ensures { KeepsLinesOf self.old.client self.new.client }
    {
        if sight.is_some() {
            self.tell_time(observer, clock);
        }
        if let Some(client) = &mut self.client {
            client.see(sight);
        }
    }

    // Tells the observer how long ago the connection was heard.
    pub(super) fn tell_time<O: Observer>(&self, observer: &O, clock: &Clock) {
        if let (Some(heard), Some(now)) = (self.heard, clock.seen()) {
            observer.took(now.saturating_sub(heard));
        }
    }
}
