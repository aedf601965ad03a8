//! A client whose service stops.
ghost use Rattle.lz_serve.specs.Clients.{KeepsLines, Refuses};

use crate::client::Client;
use crate::stream::Stream;

impl<S: Stream> Client<S> {
    /// The service stops: what has come and wasn't begun is refused. Of a frame with a member that was begun the others wait for their turn as ever.
    pub(crate) fn stop(&mut self)
        requires { S.asked }
        ensures lines { KeepsLines self.old self.new }
        ensures refused { Refuses self.old self.new }
    {
        self.held = false;
        match self.talk.stop() {
            Ok(()) => {}
            Err(_) => self.lost = true,
        }
    }
}
