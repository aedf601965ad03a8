//! Whether the points keep the order of the calls.
ghost use Rattle.std.specs.Prelude.{◌≡◌, ◌≢◌, ◌≤◌, ◌<◌, ◌+◌, ◌⊎◌, ℕ, IfOk, OnOk, IsTrue, true, false, reverse, [], ◌∷◌, List, Some, max};
ghost use Rattle.std.specs.BTreeMap as tree;
ghost use Rattle.std.specs.Ordering.{nat_cmp};
ghost use Rattle.lz_slot.specs.declared.command.Command.{Command as ACommand};
ghost use Rattle.lz_slot.specs.declared.history.HistoryEvent.{HistoryEvent as AMark};
ghost use Rattle.lz_judge.specs.Limits.{largest_place};
ghost use Rattle.lz_judge.specs.Records.{IsLawful};
ghost use Rattle.lz_judge.specs.Readings.{AreLow, Floored, IsAt, Ordered};

use crate::listing::lesser;
use lz_slot::HistoryEvent;
use std::alloc::{AllocError, Global};
use std::collections::{BTreeMap, BTreeSet};

/// The least call whose point an earlier call of the text forbids.
pub fn misordered(
    alloc: Global,
    marks: &[HistoryEvent],
    places: &BTreeMap<u64, u64>,
) -> Result<Option<u64>, AllocError>
    requires lawful { IsLawful (reverse marks.now) }
    requires low { AreLow places.now }
    ensures { IfOk result (λ least. Ordered (reverse marks.now) places.now least) }
{
    let mut floor = Floor::new(alloc);
    for mark in marks {
        floor.note(mark, places)?;
    }
    Ok(floor.least)
}

// Where the next call may lie, and the least call that lies where it may not.
#[derive(Drop)]
struct Floor {
    // One above the greatest point of a call that was answered, or made in an earlier life.
    floor: u64,
    // One above the greatest point.
    top: u64,
    used: BTreeSet<u64>,
    least: Option<u64>,
}

impl Floor {
    fn new(alloc: Global) -> Floor
        ensures { (places : tree.BTreeMap ℕ ℕ) → Floored [] places result.floor result.top result.used result.least }
    {
        Floor {
            floor: 0,
            top: 0,
            used: BTreeSet::new(alloc),
            least: None,
        }
    }

    fn note(&mut self, mark: &HistoryEvent, places: &BTreeMap<u64, u64>) -> Result<(), AllocError>
        requires { AreLow places.now }
        ensures { (M : List AMark) → IsLawful (mark.now ∷ M) → Floored M places.now self.old.floor self.old.top self.old.used self.old.least
            → OnOk result (Floored (mark.now ∷ M) places.now self.new.floor self.new.top self.new.used self.new.least) }
    {
        match mark {
            HistoryEvent::Call(call, _, _) => {
                if let Some(place) = places.get(call) {
                    self.list(*call, *place)?;
                }
            }
            HistoryEvent::Answer(call, _) => {
                if let Some(place) = places.get(call) {
                    self.floor = self.floor.max(*place + 1);
                }
            }
            HistoryEvent::Opened(_) => self.floor = self.floor.max(self.top),
            _ => {}
        }
        Ok(())
    }

    // Takes a call with its place.
    fn list(&mut self, call: u64, place: u64) -> Result<(), AllocError>
        requires { place ≤ largest_place }
        ensures { (M : List AMark) (places : tree.BTreeMap ℕ ℕ) (actor : ℕ) (c : ACommand) → IsAt places call place
            → Floored M places self.old.floor self.old.top self.old.used self.old.least
            → OnOk result (Floored (AMark.Call call actor c ∷ M) places self.new.floor self.new.top self.new.used self.new.least) }
    {
        let is_new = self.used.insert(place)?;
        self.top = self.top.max(place + 1);
        if !is_new || place < self.floor {
            self.least = lesser(self.least, call);
        }
        Ok(())
    }
}
