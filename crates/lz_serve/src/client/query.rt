//! What a client asks of the service itself.
ghost use Rattle.std.specs.Prelude.{◌≡◌, ◌<◌, None, false, length, true};
ghost use Rattle.lz_resp.specs.Queries.{IsClear};
ghost use Rattle.lz_serve.specs.Clients.{HasNoQuery, KeepsLines};

use crate::client::Client;
use crate::observer::Observer;
use crate::stream::Stream;
use lz_resp::{Figures, Query};

impl<S: Stream> Client<S> {
    /// Whether it waits for a room to be cleared.
    pub(crate) fn clears(&self) -> bool {
        !self.lost && matches!(self.talk.query(), Some(Query::Clear(_)))
    }

    /// Tells the first exchange, if it asks the service itself, and says whether it did.
    #[inline(always)]
    #[tactic(auto, using(crate::proofs::QueryRows::stoppable))]
    pub(super) fn tell_query<O: Observer>(&mut self, observer: &O) -> bool
        ensures lines { KeepsLines self.old self.new }
        ensures lost { self.old.lost ≡ true → self.new ≡ self.old }
        ensures fewer { result ≡ true → length self.new.turns < length self.old.turns }
        ensures same { result ≡ false → self.new.turns ≡ self.old.turns }
        ensures rests { result ≡ false → self.new.lost ≡ false → (self.new ≡ self.old) × HasNoQuery self.old }
    {
        if self.lost {
            return false;
        }
        let Some(query) = self.talk.query() else {
            return false;
        };
        let Some(figures) = self.figures_for(query, observer) else {
            return false;
        };
        if query.ends_service(&figures) {
            observer.shut_down(&figures);
        }
        self.tell_figures(&figures)
    }

    // What is known of the service then: of a room that is to be cleared nothing yet, until it is.
    fn figures_for<O: Observer>(&mut self, query: Query, observer: &O) -> Option<Figures>
        ensures same { self.new ≡ self.old }
        ensures none { result ≡ None → IsClear query }
    {
        let Query::Clear(room) = query else {
            return Some(observer.figures());
        };
        let cleared = self.stream.clear(room)?;
        Some(Figures {
            cleared,
            ..observer.figures()
        })
    }

    // Tells the first exchange, if it asks the service itself, by what is known of that, and says whether it did.
    fn tell_figures(&mut self, figures: &Figures) -> bool
        ensures lines { KeepsLines self.old self.new }
        ensures lost { self.old.lost ≡ true → self.new ≡ self.old }
        ensures fewer { result ≡ true → length self.new.turns < length self.old.turns }
        ensures same { result ≡ false → self.new.turns ≡ self.old.turns }
        ensures rests { result ≡ false → self.new.lost ≡ false → (self.new ≡ self.old) × HasNoQuery self.old }
    {
        if self.lost {
            return false;
        }
        match self.talk.tell_query(figures) {
            Ok(told) => told,
            Err(_) => {
                self.lost = true;
                false
            }
        }
    }
}
