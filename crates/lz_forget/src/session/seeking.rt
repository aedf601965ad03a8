//! Keys of which it is to be seen whether the service has them, and what the service is asked without a text.
ghost use Rattle.std.specs.Prelude.{◌≡◌, ◌≢◌, ◌∷◌, ◌↔◌, [], IfSome, IsTrue, None, OnOk, drop};
ghost use Rattle.lz_forget.specs.Sessions.{asking_all, asking_sought, seeing, seen_as};

use super::Session;
use crate::answers::Answer;
use crate::asking::{Ask, push_requests};
use lz_proto::{Reply, Request};
use lz_slot::Key;
use std::alloc::AllocError;

impl Session {
    /// The key that is sought next, in its room.
    pub fn sought(&self) -> Option<Key>
        ensures some { IfSome result (λ key. self.now.seeks ≡ key ∷ drop 1 self.now.seeks) }
        ensures none { result ≡ None → self.now.seeks ≡ [] }
    {
        self.seeks.front().copied()
    }

    /// The service has this key, or hasn't, since the command began. It counts where the key is the one that is sought next.
    pub fn see(&mut self, key: Key, is_member: bool) -> Result<(), AllocError>
        ensures { OnOk result (self.new ≡ seeing key is_member self.old) }
    {
        let Some(first) = self.sought() else {
            return Ok(());
        };
        if first != key {
            return Ok(());
        }
        self.seeks.pop_front();
        self.note(seen_as(is_member))
    }

    /// Asks the service for each key that is still sought: one of them couldn't be seen.
    pub fn ask_sought(&mut self) -> Result<(), AllocError>
        ensures { OnOk result (self.new ≡ asking_sought self.old) }
    {
        self.ask_all(Ask::Has)
    }

    // Asks the service so of each key that is sought.
    pub(super) fn ask_all(&mut self, ask: Ask) -> Result<(), AllocError>
        ensures its { OnOk result (self.new ≡ asking_all ask self.old) }
        ensures heard { self.new.heard ≡ self.old.heard }
    {
        push_requests(&mut self.requests, ask, &mut self.seeks)
    }

    /// The next request to the service, which is to be given it then.
    pub fn next_request(&mut self) -> Option<Request>
        ensures some { IfSome result (λ request. (self.old.requests ≡ request ∷ drop 1 self.old.requests) × (self.new ≡ record self.old { requests = drop 1 self.old.requests })) }
        ensures asks { IfSome result (λ request. request ≢ Request.Quit) }
        ensures none { result ≡ None → (self.old.requests ≡ []) × (self.new ≡ self.old) }
    {
        self.requests.pop_front()
    }

    /// Whether there is one.
    pub fn has_requests(&self) -> bool
        ensures { IsTrue result ↔ (self.now.requests ≢ []) }
    {
        !self.requests.is_empty()
    }
}

// The answer that a key is there, or isn't.
fn seen_as(is_member: bool) -> Answer
    ensures { result ≡ seen_as is_member }
{
    Some(if is_member { Reply::Yes } else { Reply::No })
}
