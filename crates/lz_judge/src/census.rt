//! The calls that were made, how they were answered, and where they stand in the order.
ghost use Rattle.std.specs.Prelude.{◌≡◌, ℕ, OnOk, IfOk, ◌∷◌, [], reverse, List};
ghost use Rattle.std.specs.BTreeMap as tree;
ghost use Rattle.std.specs.Ordering.{nat_cmp};
ghost use Rattle.lz_slot.specs.declared.history.HistoryEvent.{HistoryEvent as AMark};
ghost use Rattle.lz_judge.specs.Readings.{IsCensus, HasPlaces};
ghost use Rattle.lz_judge.specs.declared.history.Point.{Point as APoint};

use crate::history::Point;
use lz_slot::HistoryEvent;
use std::alloc::{AllocError, Global};
use std::collections::{BTreeMap, BTreeSet};

/// The numbers of the calls that were made, and the answers of those that were answered.
#[derive(Drop)]
pub struct Census {
    pub calls: BTreeSet<u64>,
    pub answers: BTreeMap<u64, bool>,
}

/// Counts the calls of a history.
pub fn take_census(alloc: Global, marks: &[HistoryEvent]) -> Result<Census, AllocError>
    ensures { IfOk result (λ census. IsCensus (reverse marks.now) census.calls census.answers) }
{
    let mut census = Census {
        calls: BTreeSet::new(alloc),
        answers: BTreeMap::new(alloc),
    };
    for mark in marks {
        census.note(mark)?;
    }
    Ok(census)
}

impl Census {
    fn note(&mut self, mark: &HistoryEvent) -> Result<(), AllocError>
        ensures { (M : List AMark) → IsCensus M self.old.calls self.old.answers → OnOk result (IsCensus (mark.now ∷ M) self.new.calls self.new.answers) }
    {
        match mark {
            HistoryEvent::Call(number, _, _) => {
                self.calls.insert(*number)?;
            }
            HistoryEvent::Answer(number, answer) => {
                self.answers.insert(*number, *answer)?;
            }
            _ => {}
        }
        Ok(())
    }
}

/// The place of each call that has a point. Where it has more than one, the last stands.
pub fn read_places(alloc: Global, points: &[Point]) -> Result<BTreeMap<u64, u64>, AllocError>
    ensures { IfOk result (λ places. HasPlaces (reverse points.now) places) }
{
    let mut places = BTreeMap::new(alloc);
    for point in points {
        place(&mut places, *point)?;
    }
    Ok(places)
}

fn place(places: &mut BTreeMap<u64, u64>, point: Point) -> Result<(), AllocError>
    ensures { (points : List APoint) → HasPlaces points places.old → OnOk result (HasPlaces (point ∷ points) places.new) }
{
    places.insert(point.call, point.place)?;
    Ok(())
}
