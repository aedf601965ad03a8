//! The clients of a service that stops.
ghost use Rattle.std.specs.Prelude.{ℕ};
ghost use Rattle.lz_serve.specs.Clients.{ChangesAt, Keeps, RefusesAt};

use crate::crowd::Crowd;
use crate::observer::Observer;
use crate::place::Place;
use crate::stream::Stream;

impl<S: Stream> Crowd<S> {
    /// The service stops: what each client has sent and wasn't begun is refused, and so is what it still sends.
    pub fn stop(&mut self)
        requires { S.asked }
        ensures kept { Keeps self.old self.new }
        ensures refused { (token : ℕ) → RefusesAt self.old token self.new }
    {
        for token in 0..self.places.len() {
            self.refuse(token);
        }
    }

    /// Tells each client what it was refused.
    pub fn tell_refused<O: Observer>(&mut self, observer: &O, buffer: &mut [u8])
        ensures { Keeps self.old self.new }
    {
        for token in 0..self.places.len() {
            // Also one that has yet to take other replies is told.
            self.read_last(token, observer, buffer);
            self.tend(token, observer, buffer);
        }
    }

    /// Whether a client has a line for a pass.
    pub(crate) fn has_lines(&self) -> bool {
        self.places.iter().any(Place::may_ask)
    }

    // The same of the client of this token, if it has one.
    fn refuse(&mut self, token: usize)
        requires { S.asked }
        ensures kept { Keeps self.old self.new }
        ensures refused { RefusesAt self.old token self.new }
        ensures others { ChangesAt token self.old self.new }
    {
        let Some(place) = self.places.get_mut(token) else {
            return;
        };
        place.stop();
    }
}
