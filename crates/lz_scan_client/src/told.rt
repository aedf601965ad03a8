//! The keys that were told, each once.
ghost use Rattle.std.specs.Prelude.{◌≡◌, ◌++◌, [], ℕ, List, OnOk, Some, map};
ghost use Rattle.lz_judge.specs.Places.{IsTable};
ghost use Rattle.lz_scan_client.specs.Told.{AddsOnce, AreOnce};

use crate::fault::ScanFault;
use lz_judge::Places;
use lz_slot::Key;
use std::alloc::Global;

/// The keys that were told so far, each once, and the table of them.
#[derive(Drop)]
pub(crate) struct Told {
    pub(crate) keys: Vec<Key>,
    seen: Places,
}

impl Told {
    pub(crate) fn new(alloc: Global) -> Told
        ensures seen { IsTable (map Some result.keys.items) result.seen }
        ensures none { result.keys.items ≡ [] }
    {
        Told {
            keys: Vec::new(alloc),
            seen: Places::new(alloc),
        }
    }

    /// Adds the keys of these ranks.
    pub(crate) fn add_all(&mut self, ranks: &[u64]) -> Result<(), ScanFault>
        requires { IsTable (map Some self.old.keys.items) self.old.seen }
        ensures seen { OnOk result (IsTable (map Some self.new.keys.items) self.new.seen) }
        ensures once { OnOk result ((told : List ℕ) → AreOnce told self.old.keys.items → AreOnce (told ++ ranks.now) self.new.keys.items) }
    {
        for rank in ranks {
            let Some(key) = Key::of_rank(*rank) else {
                return Err(ScanFault::Reply);
            };
            if let Err(fault) = self.add(key) {
                return Err(fault);
            }
        }
        Ok(())
    }

    // Adds a key, unless it was told before.
    fn add(&mut self, key: Key) -> Result<(), ScanFault>
        requires { IsTable (map Some self.old.keys.items) self.old.seen }
        ensures seen { OnOk result (IsTable (map Some self.new.keys.items) self.new.seen) }
        ensures once { OnOk result (AddsOnce key self.old.keys.items self.new.keys.items) }
    {
        if self.seen.find(self.keys.as_slice(), key.rank()).is_some() {
            return Ok(());
        }
        let Ok(()) = self.keys.push(key) else {
            return Err(ScanFault::Memory);
        };
        let Ok(()) = self.seen.add(self.keys.as_slice()) else {
            return Err(ScanFault::Memory);
        };
        Ok(())
    }
}
