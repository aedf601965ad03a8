//! The judge of a history.
ghost use Rattle.std.specs.Prelude.{◌≡◌, ◌≢◌, ℕ, Bool, IfOk, IfErr, IfSome, OnOk, None, Some, reverse, []};
ghost use Rattle.lz_slot.specs.Sets.{Keys, members};
ghost use Rattle.lz_slot.specs.Histories.{AreChain, lives};
ghost use Rattle.lz_judge.specs.Records.{ArePlaces, IsLawful, IsPoint};
ghost use Rattle.lz_judge.specs.Flaws.{IsFirstKind, IsFlaw, OrderedChain};
ghost use Rattle.lz_judge.specs.Readings.{HasPlaces, IsCensus, Ordered};
ghost use Rattle.lz_judge.specs.Verdicts.{AreCalled, AreListed};
ghost use Rattle.lz_judge.specs.declared.flaw.Flaw.{Flaw as AFlaw};

use crate::census::{Census, read_places, take_census};
use crate::flaw::Flaw;
use crate::history::{History, Point};
use crate::listing::{listed_twice, refused_listed, stranger, unlisted};
use crate::ordering::misordered;
use crate::playing::play_lives;
use lz_slot::HistoryEvent;
use std::alloc::{AllocError, Global};
use std::collections::BTreeMap;

/// Judges a history by the points of its calls: whether the calls with points, in the order of their points, are one that
/// the history allows. The flaws are looked for in this order: NeverCalled, ListedTwice, RefusedListed, Unlisted,
/// Misordered, WrongReply, WrongSet. Of one kind the least is told.
pub fn judge(alloc: Global, history: &History) -> Result<Result<(), Flaw>, AllocError>
    ensures ordered { IfOk result (λ verdict. OnOk verdict ((T : Keys) × OrderedChain (IsPoint history.now.points) (lives (members []) history.now.marks) T)) }
    ensures chain { IfOk result (λ verdict. OnOk verdict (AreChain (members []) history.now.marks)) }
    ensures flaw { IfOk result (λ verdict. IfErr verdict (IsFlaw history.now)) }
    ensures first { IfOk result (λ verdict. IfErr verdict (IsFirstKind history.now)) }
    ensures flawless { IfOk result (λ verdict. OnOk verdict ((flaw : AFlaw) → ¬ IsFlaw history.now flaw)) }
{
    let marks = history.marks();
    let points = history.points();
    let census = take_census(alloc, marks)?;
    let places = read_places(alloc, points)?;
    if let Some(flaw) = first_flaw(alloc, marks, points, &census, &places)? {
        return Ok(Err(flaw));
    }
    Ok(Ok(()))
}

// The flaw that is told, if there is one.
fn first_flaw(
    alloc: Global,
    marks: &[HistoryEvent],
    points: &[Point],
    census: &Census,
    places: &BTreeMap<u64, u64>,
) -> Result<Option<Flaw>, AllocError>
    requires lawful { IsLawful (reverse marks.now) }
    requires low { ArePlaces (reverse points.now) }
    requires census { IsCensus (reverse marks.now) census.now.calls census.now.answers }
    requires places { HasPlaces (reverse points.now) places.now }
    ensures ordered { IfOk result (λ found. found ≡ None → (T : Keys) × OrderedChain (IsPoint (reverse points.now)) (lives (members []) (reverse marks.now)) T) }
    ensures flaw { IfOk result (λ found. IfSome found (λ flaw. IsFlaw (record { marks = reverse marks.now; points = reverse points.now }) flaw)) }
    ensures first { IfOk result (λ found. IfSome found (IsFirstKind (record { marks = reverse marks.now; points = reverse points.now }))) }
    ensures flawless { IfOk result (λ found. found ≡ None → (flaw : AFlaw) → ¬ IsFlaw (record { marks = reverse marks.now; points = reverse points.now }) flaw) }
{
    if let Some(flaw) = flaw_of_points(alloc, marks, points, census, places)? {
        return Ok(Some(flaw));
    }
    if let Some(call) = misordered(alloc, marks, places)? {
        return Ok(Some(Flaw::Misordered(call)));
    }
    let play = play_lives(alloc, marks, places, &census.answers)?;
    if let Some(call) = play.wrong_reply {
        return Ok(Some(Flaw::WrongReply(call)));
    }
    if let Some(open) = play.wrong_set {
        return Ok(Some(Flaw::WrongSet(open)));
    }
    Ok(None)
}

// What is wrong with which calls have points.
fn flaw_of_points(
    alloc: Global,
    marks: &[HistoryEvent],
    points: &[Point],
    census: &Census,
    places: &BTreeMap<u64, u64>,
) -> Result<Option<Flaw>, AllocError>
    requires census { IsCensus (reverse marks.now) census.now.calls census.now.answers }
    requires places { HasPlaces (reverse points.now) places.now }
    ensures flaw { IfOk result (λ found. IfSome found (λ flaw. IsFlaw (record { marks = reverse marks.now; points = reverse points.now }) flaw)) }
    ensures first { IfOk result (λ found. IfSome found (IsFirstKind (record { marks = reverse marks.now; points = reverse points.now }))) }
    ensures none { IfOk result (λ found. found ≡ None → AreListed (reverse marks.now) (reverse points.now) places.now) }
    ensures called { IfOk result (λ found. found ≡ None → AreCalled (reverse marks.now) (reverse points.now)) }
{
    if let Some(call) = stranger(points, &census.calls) {
        return Ok(Some(Flaw::NeverCalled(call)));
    }
    if let Some(call) = listed_twice(alloc, points)? {
        return Ok(Some(Flaw::ListedTwice(call)));
    }
    if let Some(call) = refused_listed(marks, places) {
        return Ok(Some(Flaw::RefusedListed(call)));
    }
    if let Some(call) = unlisted(marks, places) {
        return Ok(Some(Flaw::Unlisted(call)));
    }
    Ok(None)
}
