//! The run of the calls in the order of their points, life by life.
ghost use Rattle.std.specs.Prelude.{◌≡◌, ◌≢◌, ◌⊎◌, ◌≤◌, ◌<◌, ◌+◌, ◌-◌, ◌^◌, min, IsTrue, ℕ, IfOk, OnOk, [], ◌∷◌, List, Bool, Option, None, Some, reverse, length};
ghost use Rattle.std.specs.BTreeMap as tree;
ghost use Rattle.std.specs.BTreeSet as set;
ghost use Rattle.std.specs.Ordering.{nat_cmp};
ghost use Rattle.lz_slot.specs.Sets.{Keys, after, key_of, members, reply, Same};
ghost use Rattle.lz_slot.specs.declared.history.HistoryEvent.{HistoryEvent as AMark};
ghost use Rattle.lz_slot.specs.declared.command.Command.{Command as ACommand};
ghost use Rattle.lz_judge.specs.Flaws.{IsWrongSet, OrderedChain, opens};
ghost use Rattle.lz_judge.specs.Readings.{IsAt};
ghost use Rattle.lz_judge.specs.Plays.{Compared, Finds, Finishes, IsKnown, IsLife, IsSet, IsWrong, Played, Plays, Ran, this_life};
ghost use Rattle.lz_slot.specs.Histories.{lives};

use crate::listing::lesser;
use lz_slot::{Command, HistoryEvent, Key};
use std::alloc::{AllocError, Global};
use std::collections::{BTreeMap, BTreeSet};
use std::mem;

/// A call that has a point.
#[derive(Clone, Copy)]
pub struct Listed {
    pub call: u64,
    pub command: Command,
}

/// What a run of the calls came to.
#[derive(Drop)]
pub struct Play {
    // The set after the lives that have ended.
    set: BTreeSet<u64>,
    // The calls of the life that goes on, by their points.
    life: BTreeMap<u64, Listed>,
    opens: u64,
    /// The least call that was answered otherwise.
    pub wrong_reply: Option<u64>,
    /// The first open that found another set.
    pub wrong_set: Option<u64>,
}

/// Runs the calls of each life after those of the lives before it.
pub fn play_lives(
    alloc: Global,
    marks: &[HistoryEvent],
    places: &BTreeMap<u64, u64>,
    answers: &BTreeMap<u64, bool>,
) -> Result<Play, AllocError>
    requires { IsKnown places.now answers.now (reverse marks.now) }
    ensures wrong_set { IfOk result (λ play. (n : ℕ) → play.wrong_set ≡ Some n → IsWrongSet (IsAt places.now) (reverse marks.now) n) }
    ensures wrong { IfOk result (λ play. (i : ℕ) → play.wrong_reply ≡ Some i → IsWrong places.now answers.now (reverse marks.now) i) }
    ensures chain { IfOk result (λ play. play.wrong_reply ≡ None → play.wrong_set ≡ None
        → (T : Keys) × OrderedChain (IsAt places.now) (lives (members []) (reverse marks.now)) T) }
{
    let mut play = Play::new(alloc);
    for mark in marks {
        play.note(alloc, mark, places, answers)?;
    }
    play.finish(alloc, answers)?;
    Ok(play)
}

impl Play {
    fn new(alloc: Global) -> Play
        ensures compared { (places : tree.BTreeMap ℕ ℕ) → Compared places [] result.opens result.wrong_set }
        ensures ran { (places : tree.BTreeMap ℕ ℕ) (answers : tree.BTreeMap ℕ Bool) → Ran places answers [] result.set result.wrong_reply }
        ensures played { (places : tree.BTreeMap ℕ ℕ) → Played places [] result.set result.life result.wrong_reply result.wrong_set }
    {
        Play {
            set: BTreeSet::new(alloc),
            life: BTreeMap::new(alloc),
            opens: 0,
            wrong_reply: None,
            wrong_set: None,
        }
    }

    fn note(
        &mut self,
        alloc: Global,
        mark: &HistoryEvent,
        places: &BTreeMap<u64, u64>,
        answers: &BTreeMap<u64, bool>,
    ) -> Result<(), AllocError>
        ensures compared { (M : List AMark) → IsKnown places.now answers.now (mark.now ∷ M) → Played places.now M self.old.set self.old.life self.old.wrong_reply self.old.wrong_set
            → Ran places.now answers.now M self.old.set self.old.wrong_reply → Compared places.now M self.old.opens self.old.wrong_set → opens M + 1 < 2 ^ 64
            → OnOk result (Compared places.now (mark.now ∷ M) self.new.opens self.new.wrong_set) }
        ensures ran { (M : List AMark) → IsKnown places.now answers.now (mark.now ∷ M) → Played places.now M self.old.set self.old.life self.old.wrong_reply self.old.wrong_set
            → Ran places.now answers.now M self.old.set self.old.wrong_reply → OnOk result (Ran places.now answers.now (mark.now ∷ M) self.new.set self.new.wrong_reply) }
        ensures played { (M : List AMark) → IsKnown places.now answers.now (mark.now ∷ M) → Played places.now M self.old.set self.old.life self.old.wrong_reply self.old.wrong_set
            → OnOk result (Played places.now (mark.now ∷ M) self.new.set self.new.life self.new.wrong_reply self.new.wrong_set) }
    {
        match mark {
            HistoryEvent::Call(call, _, command) => self.list(*call, *command, places),
            HistoryEvent::Opened(found) => {
                self.finish(alloc, answers)?;
                self.compare(alloc, found.keys())?;
                Ok(())
            }
            _ => Ok(()),
        }
    }

    // Takes a call of the life that goes on.
    fn list(
        &mut self,
        call: u64,
        command: Command,
        places: &BTreeMap<u64, u64>,
    ) -> Result<(), AllocError>
        ensures set { self.new.set ≡ self.old.set }
        ensures wrong_reply { self.new.wrong_reply ≡ self.old.wrong_reply }
        ensures wrong_set { self.new.wrong_set ≡ self.old.wrong_set }
        ensures opens { self.new.opens ≡ self.old.opens }
        ensures played { (M : List AMark) (actor : ℕ) (answers : tree.BTreeMap ℕ Bool) → IsKnown places.now answers (AMark.Call call actor command ∷ M)
            → Played places.now M self.old.set self.old.life self.old.wrong_reply self.old.wrong_set
            → OnOk result (Played places.now (AMark.Call call actor command ∷ M) self.new.set self.new.life self.new.wrong_reply self.new.wrong_set) }
    {
        if let Some(place) = places.get(&call) {
            self.life.insert(*place, Listed { call, command })?;
        }
        Ok(())
    }

    // Runs the calls of the life, which has ended.
    fn finish(&mut self, alloc: Global, answers: &BTreeMap<u64, bool>) -> Result<(), AllocError>
        ensures runs { (S : Keys) → IsSet self.old.set S → OnOk result (Finishes answers.now (tree.values self.old.life) S self.new.set self.old.wrong_reply self.new.wrong_reply) }
        ensures finds { (S : Keys) → IsSet self.old.set S → OnOk result (Finds answers.now (tree.values self.old.life) S self.new.set self.old.wrong_reply self.new.wrong_reply) }
        ensures ordered { tree.IsOrdered nat_cmp self.old.life }
        ensures life { OnOk result (tree.IsEmpty self.new.life) }
        ensures wrong_set { self.new.wrong_set ≡ self.old.wrong_set }
        ensures opens { self.new.opens ≡ self.old.opens }
    {
        let life = mem::replace(&mut self.life, BTreeMap::new(alloc));
        for listed in life.values() {
            self.wrong_reply = answer(&mut self.set, self.wrong_reply, *listed, answers)?;
        }
        Ok(())
    }

    // Takes what the next open found.
    fn compare(&mut self, alloc: Global, keys: &[Key]) -> Result<(), AllocError>
        ensures same { (S : Keys) → IsSet self.old.set S → OnOk result (self.new.wrong_set ≡ None → (self.old.wrong_set ≡ None) × Same S (members keys.now)) }
        ensures finds { (S : Keys) → IsSet self.old.set S → OnOk result ((n : ℕ) → self.new.wrong_set ≡ Some n → (self.old.wrong_set ≡ Some n) ⊎ ((n ≡ self.new.opens) × (¬ Same S (members keys.now)))) }
        ensures opens { self.new.opens ≡ min (self.old.opens + 1) (2 ^ 64 - 1) }
        ensures set { self.new.set ≡ self.old.set }
        ensures life { self.new.life ≡ self.old.life }
        ensures wrong_reply { self.new.wrong_reply ≡ self.old.wrong_reply }
    {
        self.opens = self.opens.saturating_add(1);
        let found = set_of(alloc, keys)?;
        if self.wrong_set.is_none() && !is_same(&found, &self.set) {
            self.wrong_set = Some(self.opens);
        }
        Ok(())
    }
}

// Runs one call: the least wrong one then.
fn answer(
    set: &mut BTreeSet<u64>,
    wrong: Option<u64>,
    listed: Listed,
    answers: &BTreeMap<u64, bool>,
) -> Result<Option<u64>, AllocError>
    ensures finds { (S : Keys) → IsSet set.old S → IfOk result (λ least. (i : ℕ) → least ≡ Some i → (wrong ≡ Some i)
        ⊎ ((listed.call ≡ i) × ((told : Bool) × (tree.get nat_cmp answers.now listed.call ≡ Some told) × (reply listed.command (S (key_of listed.command)) ≢ told)))) }
    ensures plays { (S : Keys) → IsSet set.old S → IfOk result (λ least. IsSet set.new (after listed.command S)
        × (least ≡ None → (wrong ≡ None) × ((answer : Bool) → tree.get nat_cmp answers.now listed.call ≡ Some answer → reply listed.command (S (key_of listed.command)) ≡ answer))) }
{
    let reply = apply(set, listed.command)?;
    match answers.get(&listed.call) {
        Some(told) => {
            if *told == reply {
                Ok(wrong)
            } else {
                Ok(lesser(wrong, listed.call))
            }
        }
        None => Ok(wrong),
    }
}

fn is_same(one: &BTreeSet<u64>, other: &BTreeSet<u64>) -> bool
    ensures same { IsTrue result → (k : ℕ) → set.contains nat_cmp one.now k ≡ set.contains nat_cmp other.now k }
    ensures apart { ((k : ℕ) → set.contains nat_cmp one.now k ≡ set.contains nat_cmp other.now k) → IsTrue result }
{
    if !one.is_subset(other) {
        return false;
    }
    other.is_subset(one)
}

// The command's reply.
fn apply(set: &mut BTreeSet<u64>, command: Command) -> Result<bool, AllocError>
    ensures { (S : Keys) → IsSet set.old S → IfOk result (λ yes. (yes ≡ reply command (S (key_of command))) × IsSet set.new (after command S)) }
{
    match command {
        Command::Add(key) => Ok(set.insert(key.rank())?),
        Command::Remove(key) => Ok(set.remove(&key.rank())),
        Command::Has(key) => Ok(set.contains(&key.rank())),
    }
}

fn set_of(alloc: Global, keys: &[Key]) -> Result<BTreeSet<u64>, AllocError>
    ensures { IfOk result (λ found. IsSet found (members keys.now)) }
{
    let mut found = BTreeSet::new(alloc);
    for key in keys {
        found.insert(key.rank())?;
    }
    Ok(found)
}
