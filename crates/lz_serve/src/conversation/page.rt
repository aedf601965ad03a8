//! The pages for which a conversation asks.
ghost use Rattle.std.specs.Prelude.{◌≡◌, ◌∷◌, drop, None, true, false, IfOk, IfSome, OnErr};
ghost use Rattle.lz_resp.specs.declared.scan.Scan.{Scan as AScan};
ghost use Rattle.lz_serve.specs.declared.turn.Turn.{Turn as ATurn};
ghost use Rattle.lz_serve.specs.Conversations.{Paged};
ghost use Rattle.lz_serve.specs.Listings.{IsListing};

use crate::conversation::Conversation;
use crate::listed::Listed;
use crate::turn::Turn;
use lz_proto::End;
use lz_resp::Scan;
use lz_set::Named;
use std::alloc::AllocError;

impl Conversation {
    /// The page for which the first exchange asks that wasn't told, if it does.
    pub fn scan(&self) -> Option<Scan>
        ensures some { IfSome result (λ scan. (self.now.ended ≡ End.Done) × (self.now.turns ≡ ATurn.Lists scan ∷ drop 1 self.now.turns)) }
        ensures none { result ≡ None → self.now.ended ≡ End.Done → (scan : AScan) → self.now.turns ≡ ATurn.Lists scan ∷ drop 1 self.now.turns → ⊥ }
    {
        match (self.ended, self.exchanges.first()) {
            (End::Done, Some(Turn::Lists(scan))) => Some(*scan),
            _ => None,
        }
    }

    /// Tells that exchange, if this was listed for it, and says whether it was. A service that has halted ends the conversation.
    pub fn tell_page<N: Named>(&mut self, listed: &Listed<N>) -> Result<bool, AllocError>
        ensures told { IfOk result (λ told. told ≡ true → (self.old.turns ≡ ATurn.Lists listed.now.scan ∷ drop 1 self.old.turns) × (self.old.ended ≡ End.Done) × Paged listed.now self.old self.new) }
        ensures none { IfOk result (λ told. told ≡ false → self.new ≡ self.old) }
        ensures rests { IfOk result (λ told. told ≡ false → self.old.ended ≡ End.Done → self.old.turns ≡ ATurn.Lists listed.now.scan ∷ drop 1 self.old.turns → ⊥) }
        ensures err { OnErr result (self.new ≡ self.old) }
        ensures listed { IsListing N.board listed.now }
        ensures others { self.new ≡ record self.old { turns = self.new.turns; unsent = self.new.unsent; ended = self.new.ended } }
    {
        let its = listed.scan();
        match self.scan() {
            Some(scan) if scan == its => {}
            _ => return Ok(false),
        }
        let text = listed.text(*self.text.allocator())?;
        self.text.extend_from_slice(text.as_bytes())?;
        self.exchanges.pass();
        self.ended = listed.end();
        Ok(true)
    }
}
