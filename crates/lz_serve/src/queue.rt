//! Those that wait for their turn.
ghost use Rattle.std.specs.Prelude.{◌≡◌, ◌↔◌, [], ◌∷◌, IfOk, IfSome, IsTrue, None, false, length, true};
ghost use Rattle.lz_serve.specs.Queues.{is_in, queued};

use std::alloc::{AllocError, Global};
use std::collections::VecDeque;
use std::marker::Model;

/// The tokens of those that wait for their turn, the first one first, each once. Contracts see their list.
#[derive(Drop)]
pub(crate) struct Queue {
    tokens: VecDeque<usize>,
    /// Which tokens stand in it.
    flags: Vec<bool>,
}

impl Model for Queue {
    ghost use Rattle.std.specs.Prelude.{List, ℕ};
    ghost use Rattle.lz_serve.specs.Queues.{IsQueue};

    ghost Value = { List ℕ };

    ghost view = { λ q. q.tokens.items };

    ghost invariant = { λ q. IsQueue q.tokens.items q.flags.items };
}

impl Queue {
    /// Room for so many tokens, from 0 on.
    pub(crate) fn new(alloc: Global, most: usize) -> Result<Queue, AllocError>
        ensures { IfOk result (λ queue. queue ≡ []) }
    {
        let tokens = VecDeque::with_capacity(alloc, most)?;
        let flags = vec![in alloc; false; most]?;
        Ok(Queue { tokens, flags })
    }

    /// How many stand in it.
    pub(crate) fn len(&self) -> usize
        ensures { result ≡ length self.now }
    {
        self.tokens.len()
    }

    /// Whether none does.
    pub(crate) fn is_empty(&self) -> bool
        ensures { IsTrue result ↔ (self.now ≡ []) }
    {
        self.tokens.is_empty()
    }

    /// Whether this one does.
    pub(crate) fn has(&self, token: usize) -> bool
        ensures { result ≡ is_in token self.now }
    {
        token < self.flags.len() && self.flags[token]
    }

    /// Puts a token behind the others, unless it stands there, and says whether there was room.
    pub(crate) fn put(&mut self, token: usize) -> bool
        ensures put { result ≡ true → self.new ≡ queued token self.old }
        ensures none { result ≡ false → self.new ≡ self.old }
    {
        if self.has(token) {
            return true;
        }
        if token >= self.flags.len() {
            return false;
        }
        let Ok(()) = self.tokens.push_back(token) else {
            return false;
        };
        self.flags[token] = true;
        true
    }

    /// Takes the first one out.
    pub(crate) fn pop(&mut self) -> Option<usize>
        ensures some { IfSome result (λ token. (self.old ≡ token ∷ self.new) × (is_in token self.new ≡ false)) }
        ensures none { result ≡ None → (self.old ≡ []) × (self.new ≡ self.old) }
    {
        let token = self.tokens.pop_front()?;
        self.flags[token] = false;
        Some(token)
    }
}
