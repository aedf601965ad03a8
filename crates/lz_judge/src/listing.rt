//! Which calls have points, and which must.
ghost use Rattle.std.specs.Prelude.{◌≡◌, ◌⊎◌, ◌≤◌, ℕ, IfOk, IfSome, IsSome, OnOk, None, Some, reverse, ◌∷◌, List, map, Bool, true, false, Option};
ghost use Rattle.std.specs.BTreeMap as tree;
ghost use Rattle.std.specs.BTreeSet as set;
ghost use Rattle.std.specs.BTreeMap.{BTreeMap as Tree};
ghost use Rattle.std.specs.BTreeSet.{BTreeSet as TreeSet};
ghost use Rattle.std.specs.Ordering.{nat_cmp};
ghost use Rattle.lz_slot.specs.declared.history.HistoryEvent.{HistoryEvent as AMark};
ghost use Rattle.lz_judge.specs.declared.history.Point.{Point as APoint};
ghost use Rattle.lz_judge.specs.Readings.{Strangers, Twice, RefusedOnes, UnlistedOnes};

use crate::history::Point;
use lz_slot::HistoryEvent;
use std::alloc::{AllocError, Global};
use std::collections::{BTreeMap, BTreeSet};

/// The lesser of two numbers, one of which may be missing.
pub fn lesser(least: Option<u64>, number: u64) -> Option<u64>
    ensures one { (result ≡ Some number) ⊎ ((result ≡ least) × IsSome result) }
    ensures low { IfSome result (λ i. i ≤ number) }
    ensures least { IfSome least (λ j. IfSome result (λ i. i ≤ j)) }
{
    match least {
        Some(other) if other < number => Some(other),
        _ => Some(number),
    }
}

/// The least number that has a point and is no call's.
pub fn stranger(points: &[Point], calls: &BTreeSet<u64>) -> Option<u64>
    ensures { Strangers (reverse points.now) calls.now result }
{
    let mut least = None;
    for point in points {
        least = with_stranger(least, point.call, calls);
    }
    least
}

fn with_stranger(least: Option<u64>, call: u64, calls: &BTreeSet<u64>) -> Option<u64>
    ensures { (points : List APoint) (point : APoint) → point.call ≡ call → Strangers points calls.now least → Strangers (point ∷ points) calls.now result }
{
    if calls.contains(&call) {
        least
    } else {
        lesser(least, call)
    }
}

/// The least call that has two points.
pub fn listed_twice(alloc: Global, points: &[Point]) -> Result<Option<u64>, AllocError>
    ensures { IfOk result (λ least. (seen : TreeSet ℕ) × Twice (reverse points.now) seen least) }
{
    let mut seen = BTreeSet::new(alloc);
    let mut least = None;
    for point in points {
        least = with_point(&mut seen, least, point.call)?;
    }
    Ok(least)
}

fn with_point(
    seen: &mut BTreeSet<u64>,
    least: Option<u64>,
    call: u64,
) -> Result<Option<u64>, AllocError>
    ensures { (points : List APoint) (point : APoint) → point.call ≡ call → Twice points seen.old least → IfOk result (λ least. Twice (point ∷ points) seen.new least) }
{
    if seen.insert(call)? {
        Ok(least)
    } else {
        Ok(lesser(least, call))
    }
}

/// The least refused call that has a point.
pub fn refused_listed(marks: &[HistoryEvent], places: &BTreeMap<u64, u64>) -> Option<u64>
    ensures { RefusedOnes (reverse marks.now) places.now result }
{
    let mut least = None;
    for mark in marks {
        least = with_refused(least, mark, places);
    }
    least
}

fn with_refused(least: Option<u64>, mark: &HistoryEvent, places: &BTreeMap<u64, u64>) -> Option<u64>
    ensures { (M : List AMark) → RefusedOnes M places.now least → RefusedOnes (mark.now ∷ M) places.now result }
{
    match mark {
        HistoryEvent::Refused(call, _) => {
            if places.contains_key(call) {
                lesser(least, *call)
            } else {
                least
            }
        }
        _ => least,
    }
}

/// The least answered call that has no point.
pub fn unlisted(marks: &[HistoryEvent], places: &BTreeMap<u64, u64>) -> Option<u64>
    ensures { UnlistedOnes (reverse marks.now) places.now result }
{
    let mut least = None;
    for mark in marks {
        least = with_answered(least, mark, places);
    }
    least
}

fn with_answered(
    least: Option<u64>,
    mark: &HistoryEvent,
    places: &BTreeMap<u64, u64>,
) -> Option<u64>
    ensures { (M : List AMark) → UnlistedOnes M places.now least → UnlistedOnes (mark.now ∷ M) places.now result }
{
    match mark {
        HistoryEvent::Answer(call, _) => {
            if places.contains_key(call) {
                least
            } else {
                lesser(least, *call)
            }
        }
        _ => least,
    }
}
