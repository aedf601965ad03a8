//! The end of a conversation whose service stops.
ghost use Rattle.std.specs.Prelude.{◌≡◌, OnOk, true};
ghost use Rattle.lz_serve.specs.Conversations.{stopped};

use crate::conversation::Conversation;
use std::alloc::AllocError;

impl Conversation {
    /// The service stops. Each exchange of which nothing was begun is refused, and so is what still comes. The requests of the others are handed out as
    /// ever. Where memory runs out some exchanges may be lost.
    pub fn stop(&mut self) -> Result<(), AllocError>
        ensures ok { OnOk result (self.new ≡ stopped self.old) }
        ensures others { self.new ≡ record self.old { turns = self.new.turns; waiting = self.new.waiting; stops = true } }
    {
        self.exchanges.stop(self.under.len())
    }
}
