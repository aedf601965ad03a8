//! Which mark may come next in a history.
ghost use Rattle.std.specs.Prelude.{◌≡◌, ◌≢◌, ℕ, IfOk, OnOk, IsTrue, true, false, None, Some, [], ◌∷◌, List};
ghost use Rattle.std.specs.BTreeMap as tree;
ghost use Rattle.std.specs.BTreeSet as set;
ghost use Rattle.lz_slot.specs.declared.history.HistoryEvent.{HistoryEvent as AMark};
ghost use Rattle.lz_slot.specs.declared.command.Command.{Command as ACommand};
ghost use Rattle.lz_judge.specs.Records.{IsMade, IsOpen, MayFollow, actor_of, is_living};
ghost use Rattle.lz_judge.specs.Ledgers.{Ends, IsLedger};

use lz_slot::HistoryEvent;
use std::alloc::{AllocError, Global};
use std::collections::{BTreeMap, BTreeSet};

/// The calls of a history so far: all of them, and those of the life that goes on that haven't ended.
#[derive(Drop)]
pub struct Ledger {
    calls: BTreeSet<u64>,
    /// The actor of each open call, and the open call of each actor.
    actors: BTreeMap<u64, usize>,
    busy: BTreeMap<usize, u64>,
    is_living: bool,
}

impl Ledger {
    /// Nothing has come, and the first life goes on.
    pub fn new(alloc: Global) -> Ledger
        ensures { IsLedger [] result.calls result.actors result.busy result.is_living }
    {
        Ledger {
            calls: BTreeSet::new(alloc),
            actors: BTreeMap::new(alloc),
            busy: BTreeMap::new(alloc),
            is_living: true,
        }
    }

    /// Takes the next mark, and tells whether it may come. The ledger is of no use after one that may not.
    pub fn follow(&mut self, mark: &HistoryEvent) -> Result<bool, AllocError>
        ensures follows { (M : List AMark) → IsLedger M self.old.calls self.old.actors self.old.busy self.old.is_living
            → IfOk result (λ may. IsTrue may → MayFollow mark.now M × IsLedger (mark.now ∷ M) self.new.calls self.new.actors self.new.busy self.new.is_living) }
        ensures refuses { (M : List AMark) → IsLedger M self.old.calls self.old.actors self.old.busy self.old.is_living
            → IfOk result (λ may. may ≡ false → ¬ MayFollow mark.now M) }
    {
        match mark {
            HistoryEvent::Call(call, actor, _) => self.begin(*call, *actor),
            HistoryEvent::Answer(call, _) => Ok(self.end(*call)),
            HistoryEvent::Refused(call, _) => Ok(self.end(*call)),
            HistoryEvent::Cut(call, _) => Ok(self.end(*call)),
            HistoryEvent::Stop => {
                self.turn(false);
                Ok(true)
            }
            HistoryEvent::Crash => {
                self.turn(false);
                Ok(true)
            }
            HistoryEvent::Opened(_) => {
                let may = !self.is_living;
                self.turn(true);
                Ok(may)
            }
            HistoryEvent::OpenFailed(_) => Ok(true),
        }
    }

    // A call begins, where it may.
    fn begin(&mut self, call: u64, actor: usize) -> Result<bool, AllocError>
        ensures follows { (M : List AMark) (c : ACommand) → IsLedger M self.old.calls self.old.actors self.old.busy self.old.is_living
            → IfOk result (λ may. IsTrue may → MayFollow (AMark.Call call actor c) M × IsLedger (AMark.Call call actor c ∷ M) self.new.calls self.new.actors self.new.busy self.new.is_living) }
        ensures refuses { (M : List AMark) (c : ACommand) → IsLedger M self.old.calls self.old.actors self.old.busy self.old.is_living
            → IfOk result (λ may. may ≡ false → ¬ MayFollow (AMark.Call call actor c) M) }
    {
        if !self.is_living {
            return Ok(false);
        }
        if self.busy.contains_key(&actor) {
            return Ok(false);
        }
        if !self.calls.insert(call)? {
            return Ok(false);
        }
        self.actors.insert(call, actor)?;
        self.busy.insert(actor, call)?;
        Ok(true)
    }

    // A call ends, if it is open.
    fn end(&mut self, call: u64) -> bool
        ensures ends { (M : List AMark) → IsLedger M self.old.calls self.old.actors self.old.busy self.old.is_living
            → IsTrue result → IsOpen M call × Ends M call self.new.calls self.new.actors self.new.busy self.new.is_living }
        ensures refuses { (M : List AMark) → IsLedger M self.old.calls self.old.actors self.old.busy self.old.is_living → result ≡ false → ¬ IsOpen M call }
    {
        match self.actors.remove(&call) {
            Some(actor) => {
                let _ = self.busy.remove(&actor);
                true
            }
            None => false,
        }
    }

    // A life ends, or begins.
    fn turn(&mut self, is_living: bool)
        ensures calls { self.new.calls ≡ self.old.calls }
        ensures actors { tree.IsEmpty self.new.actors }
        ensures busy { tree.IsEmpty self.new.busy }
        ensures living { self.new.is_living ≡ is_living }
    {
        self.actors.clear();
        self.busy.clear();
        self.is_living = is_living;
    }
}
