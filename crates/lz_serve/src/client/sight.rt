//! The keys that a client's connection seeks.
ghost use Rattle.std.specs.Prelude.{IfSome};
ghost use Rattle.lz_list.specs.Traces.{Begins};
ghost use Rattle.lz_board.specs.Seats.{part};
ghost use Rattle.lz_serve.specs.Clients.{KeepsLines};

use crate::client::Client;
use crate::sight::Sight;
use crate::stream::Stream;
use lz_slot::Key;

impl<S: Stream> Client<S> {
    /// The key that its connection seeks, if it does.
    pub(crate) fn sought(&self) -> Option<Key> {
        if self.lost {
            return None;
        }
        self.stream.sought()
    }

    /// Hands on what was seen of that key, if it was, by a pass that had seen what those had that answered the client.
    pub(crate) fn see(&mut self, sight: Option<Sight>)
        requires { IfSome sight (λ s. Begins self.old.seen (part s.before).known) }
        ensures { KeepsLines self.old self.new }
    {
        if !self.stream.see(sight) {
            self.lost = true;
        }
    }
}
