//! Requests that come to a conversation without a text.
ghost use Rattle.std.specs.Prelude.{◌≡◌, ◌≢◌, OnOk};
ghost use Rattle.lz_serve.specs.Conversations.{AskedAlone};

use crate::conversation::Conversation;
use lz_proto::Request;
use std::alloc::AllocError;

impl Conversation {
    /// A request has come by itself. Its reply is worded as that of a frame with this key alone, and it is refused once the service stops. Where memory
    /// runs out it may be lost.
    pub fn ask_alone(&mut self, request: Request) -> Result<(), AllocError>
        requires { request ≢ Request.Quit }
        ensures ok { OnOk result (AskedAlone request self.old self.new) }
        ensures others { self.new ≡ record self.old { turns = self.new.turns; waiting = self.new.waiting } }
    {
        self.exchanges.put_alone(request)
    }
}
