//! What a client's connection asks by itself.
ghost use Rattle.lz_serve.specs.Clients.{KeepsLines};

use crate::client::Client;
use crate::stream::Stream;

impl<S: Stream> Client<S> {
    // Takes the requests that its connection hands over, until there is none.
    pub(super) fn take_requests(&mut self)
        ensures { KeepsLines self.old self.new }
    {
        'requests: for _ in 0..u64::MAX {
            if !self.take_request() {
                return;
            }
        }
    }

    // Takes one of them, and says whether it did. Where memory runs out the client is lost.
    fn take_request(&mut self) -> bool
        ensures { KeepsLines self.old self.new }
    {
        if self.lost {
            return false;
        }
        let Some(request) = self.stream.next_request() else {
            return false;
        };
        match self.talk.ask_alone(request) {
            Ok(()) => true,
            Err(_) => {
                self.lost = true;
                false
            }
        }
    }
}
