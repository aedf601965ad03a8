// Writes that wait to be made as one.
ghost use Rattle.std.specs.Prelude.{◌≡◌, ◌+◌, [], IfOk, IfSome, None, false, length, true};
ghost use Rattle.lz_disk.specs.Gathers.{Joined};

use std::alloc::{AllocError, Global};
use std::marker::Model;

// How many bytes are gathered, at most.
const MOST_GATHERED: usize = 65_536;

// The bytes of writes side by side, which are to be made as one.
#[derive(Drop)]
pub(crate) struct Gathered {
    at: u64,
    bytes: Vec<u8>,
}

impl Model for Gathered {
    ghost use Rattle.lz_disk.specs.Gathers.{Waiting};

    ghost Value = { Waiting };

    ghost view = { λ g. record { at = g.at; bytes = g.bytes.items } };
}

impl Gathered {
    pub(crate) fn new(alloc: Global) -> Result<Gathered, AllocError>
        ensures { IfOk result (λ gathered. gathered ≡ record { at = 0; bytes = [] }) }
    {
        Ok(Gathered {
            at: 0,
            bytes: Vec::with_capacity(alloc, MOST_GATHERED)?,
        })
    }

    // Adds a write that begins where the others end, and says whether it did: there may be no room for it.
    pub(crate) fn add(&mut self, at: u64, bytes: &[u8]) -> bool
        ensures joined { result ≡ true → Joined at bytes.now self.old self.new }
        ensures none { result ≡ false → self.new ≡ self.old }
    {
        let count = self.bytes.len();
        if count.saturating_add(bytes.len()) > MOST_GATHERED {
            return false;
        }
        if count != 0 && !self.ends_at(at) {
            return false;
        }
        if self.bytes.extend_from_slice(bytes).is_err() {
            return false;
        }
        if count == 0 {
            self.at = at;
        }
        true
    }

    // Whether a write at this offset would begin where they end.
    fn ends_at(&self, at: u64) -> bool
        ensures { result ≡ true → at ≡ self.now.at + length self.now.bytes }
    {
        match self.at.checked_add(self.bytes.len() as u64) {
            Some(end) => end == at,
            None => false,
        }
    }

    // From which offset on which bytes are to be written, if any are.
    pub(crate) fn next(&self) -> Option<(u64, &[u8])>
        ensures all { IfSome result (λ write. (write.0 ≡ self.now.at) × (write.1.now ≡ self.now.bytes)) }
        ensures none { result ≡ None → self.now.bytes ≡ [] }
    {
        if self.bytes.is_empty() {
            return None;
        }
        Some((self.at, self.bytes.as_slice()))
    }

    // They were made.
    pub(crate) fn clear(&mut self)
        ensures { self.new ≡ record self.old { bytes = [] } }
    {
        self.bytes.clear();
    }
}
