//! Passes that meet: afterwards each has seen what either had.
ghost use Rattle.std.specs.Prelude.{◌≡◌, All};
ghost use Rattle.lz_set.specs.Names.{MayCall};
ghost use Rattle.lz_set.specs.Blanks.{MayBeNamed};
ghost use Rattle.lz_disk.specs.Records.{device_of};

use crate::partners::two_passes;
use lz_disk::MemoryDisk;
use lz_set::{Blank, Fault, Glance, GlanceFault, Named, NoGate, Pass, Set};
use lz_slot::Key;
use std::alloc::Global;
use std::marker::Brand;
use std::sync::Wait;
use std::test::Fail;
use test_support::{keys_in, made};

/// What two passes were answered that took turns with a key.
#[derive(Clone, Copy)]
struct Turns {
    added: Result<bool, Fault>,
    seen: Result<Glance, GlanceFault>,
    removed: Result<bool, Fault>,
    missed: Result<Glance, GlanceFault>,
}

// The first pass adds the key and the second one removes it. After each change they meet, and the other one glances.
fn take_turns<N: Named, R: Wait>(
    rt: &R,
    set: &Set<MemoryDisk, NoGate, N>,
    passes: Vec<Pass>,
    key: Key,
) -> Option<Turns>
    requires { All (MayCall N.board) passes.items }
{
    let mut passes = passes;
    let (mut first, mut second) = two_passes::<N>(&mut passes)?;
    let added = set.add(rt, &mut first, key);
    set.meet(&mut first, &mut second);
    let seen = set.glance(&mut second, key);
    let removed = set.remove(rt, &mut second, key);
    set.meet(&mut first, &mut second);
    let missed = set.glance(&mut first, key);
    Some(Turns {
        added,
        seen,
        removed,
        missed,
    })
}

// The same with the passes of a set that was opened for two.
fn start_turns<N: Named, R: Wait>(
    rt: &R,
    blank: Blank<MemoryDisk, NoGate>,
    key: Key,
) -> Option<Turns>
    requires { MayBeNamed device_of N.board N.first N.format blank }
{
    let (set, passes) = blank.start::<N>();
    take_turns(rt, &set, passes, key)
}

// The same on a new set of two slots.
fn turns_of<R: Wait>(rt: &R, alloc: Global, key: Key) -> Option<Turns> {
    match Set::open(alloc, made(alloc, 2)?, NoGate, 1, 2) {
        Ok(blank) => start_turns::<Brand, _>(rt, blank, key),
        Err(_) => None,
    }
}

// A pass that met the one that changed the key sees the change, and sees it settled.
#[test]
fn two_passes_take_turns(rt: HostRuntime) -> Result<(), Fail> {
    let turns = Key::new(9).and_then(|nine| turns_of(&rt, rt.alloc(), nine));
    let Some(turns) = turns else {
        panic!(rt; "no set")
    };
    assert_eq!(rt; turns.added, Ok(true));
    assert_eq!(rt; turns.seen, Ok(Glance::Yes));
    assert_eq!(rt; turns.removed, Ok(true));
    assert_eq!(rt; turns.missed, Ok(Glance::No));
    Ok(())
}

// Ends the set's life after the calls of two passes.
fn close_with_both<N: Named>(
    set: Set<MemoryDisk, NoGate, N>,
    first: Pass,
    second: Pass,
) -> MemoryDisk
    requires first { MayCall N.board first }
    requires second { MayCall N.board second }
{
    let mut passes = [first, second];
    set.close_with(&mut passes)
}

// Two passes add a key each, and one removes what the other one added. None where a call had another answer than true.
fn take_part<N: Named, R: Wait>(
    rt: &R,
    set: &Set<MemoryDisk, NoGate, N>,
    first: &mut Pass,
    second: &mut Pass,
) -> Option<()>
    requires first { MayCall N.board first.old }
    requires second { MayCall N.board second.old }
    ensures first { MayCall N.board first.new }
    ensures second { MayCall N.board second.new }
{
    let (nine, four, large) = (Key::new(9)?, Key::new(4)?, Key::new(17)?);
    let answers = [
        set.add(rt, first, nine),
        set.add(rt, second, four),
        set.add(rt, first, large),
        set.remove(rt, first, four),
    ];
    if answers.iter().any(|answer| *answer != Ok(true)) {
        return None;
    }
    Some(())
}

// The same on a set that is then closed with both.
fn leave<N: Named, R: Wait>(
    rt: &R,
    set: Set<MemoryDisk, NoGate, N>,
    first: Pass,
    second: Pass,
) -> Option<MemoryDisk>
    requires first { MayCall N.board first }
    requires second { MayCall N.board second }
{
    let (mut first, mut second) = (first, second);
    take_part(rt, &set, &mut first, &mut second)?;
    Some(close_with_both(set, first, second))
}

// The same with the passes of a set that was opened for two.
fn start_leaving<N: Named, R: Wait>(rt: &R, blank: Blank<MemoryDisk, NoGate>) -> Option<MemoryDisk>
    requires { MayBeNamed device_of N.board N.first N.format blank }
{
    let (set, mut passes) = blank.start::<N>();
    let (first, second) = two_passes::<N>(&mut passes)?;
    leave(rt, set, first, second)
}

// The same on a new set of four slots.
fn left_by_two<R: Wait>(rt: &R, alloc: Global) -> Option<MemoryDisk> {
    match Set::open(alloc, made(alloc, 4)?, NoGate, 1, 2) {
        Ok(blank) => start_leaving::<Brand, _>(rt, blank),
        Err(_) => None,
    }
}

// A set that is closed with its passes leaves the members that their calls left.
#[test]
fn a_set_is_closed_with_its_passes(rt: HostRuntime) -> Result<(), Fail> {
    let disk = left_by_two(&rt, rt.alloc());
    let keys = disk.and_then(|disk| keys_in(rt.alloc(), disk));
    assert!(rt; keys.is_some_and(|keys| keys.as_slice() == [9, 17].as_slice()));
    Ok(())
}
