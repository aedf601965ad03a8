//! The lock, from one hold to the next.
ghost use Rattle.std.specs.Prelude.{◌≡◌, None, Some, option_map};
ghost use Rattle.std.specs.Sync.Mutex.{mutex_guard_value};
ghost use Rattle.lz_vault.specs.Opens.{open_count};

use crate::gate::StepGate;
use crate::group_commit::Stay;
use crate::set::Set;
use lz_disk::Disk;
use lz_machine::Kind;
use lz_refinement::{Locked, Named};
use std::marker::Model;
use std::sync::{MutexGuard, Wait};

pub(crate) type Held<'a, N, D> = MutexGuard<'a, Locked<N, D>>;

/// The set's lock, as one thread keeps it from a hold of one call to a hold of the next. Calls that are handed the same one take
/// the lock only where it isn't kept already. A load gives it back, and so does whoever drops this; where a gate watches, so does
/// each event.
///
/// Whoever has one may have the set to themselves, so they wait for nothing but the device: before they send, read, log or sleep,
/// make a second one, or make a call by `add`, `remove`, `has` or `call`, they give it back.
#[derive(Drop)]
pub struct HeldLock<'a, D: Disk, N: Named> {
    guard: Option<Held<'a, N, D>>,
}

impl<'a, D: Disk, N: Named> Model for HeldLock<'a, D, N> {
    ghost use Rattle.std.specs.Prelude.{Option, option_map};
    ghost use Rattle.std.specs.Sync.Mutex.{mutex_guard_value};
    ghost use Rattle.lz_refinement.specs.Holds.{LockedOver};

    // What lies under the lock, where it is kept.
    ghost Value = { Option (LockedOver D) };

    ghost view = { λ k. option_map (λ g. mutex_guard_value g) k.guard };
}

impl<'a, D: Disk, N: Named> HeldLock<'a, D, N> {
    /// Gives the lock back, where it is kept.
    pub fn give_back(&mut self)
        ensures { self.new ≡ None }
    {
        self.guard = None;
    }

    /// How many members are durable now, where the lock is kept: those are none whose addition or removal is under way.
    pub fn opened(&self) -> Option<usize>
        ensures { result ≡ option_map (λ locked. open_count locked.yard.vault.cells) self.now }
    {
        self.guard.as_ref().map(|locked| locked.opened())
    }

    pub(crate) fn keep(&mut self, locked: Held<'a, N, D>)
        ensures { self.new ≡ Some (mutex_guard_value locked.entry) }
    {
        self.guard = Some(locked);
    }
}

impl<D: Disk, G: StepGate, N: Named> Set<D, G, N> {
    /// With nothing kept yet.
    pub fn keep(&self) -> HeldLock<'_, D, N>
        ensures { result ≡ None }
    {
        HeldLock { guard: None }
    }

    // The lock, taken where it wasn't kept. A call that a gate may hold runs only while it waits for the lock or has it.
    #[inline(always)]
    pub(crate) fn lock<'a, R: Wait>(
        &'a self,
        rt: &R,
        kept: &mut HeldLock<'a, D, N>,
        stay: &mut Stay,
    ) -> Held<'a, N, D> {
        match kept.guard.take() {
            Some(locked) => locked,
            None => {
                if self.gate.watches() {
                    self.commits.run(stay);
                }
                self.locked.lock(rt)
            }
        }
    }

    // Keeps the lock after an event of this kind. Where a gate watches it is given back, and the gate is told.
    #[inline(always)]
    pub(crate) fn leave<'a, R: Wait>(
        &'a self,
        rt: &R,
        kept: &mut HeldLock<'a, D, N>,
        pass: usize,
        kind: Kind,
        locked: Held<'a, N, D>,
        stay: &mut Stay,
    ) {
        if !self.gate.watches() {
            kept.keep(locked);
            return;
        }
        self.commits.rest(stay);
        drop(locked);
        self.commits.wake(stay);
        self.gate.after(rt, pass, kind);
    }
}
