//! How many members a set tells of itself, beside a call that is under way.
ghost use Rattle.std.specs.Prelude.{All};
ghost use Rattle.lz_set.specs.Names.{MayCall};
ghost use Rattle.lz_set.specs.Blanks.{MayBeNamed};
ghost use Rattle.lz_disk.specs.Records.{device_of};
ghost use Rattle.test_threads.specs.Plays.{IsPlay};

use crate::partners::{fill, two_passes};
use crate::values::{Lock, Play, Shared, answer, begin, comes_to, syncs};
use lz_disk::MemoryDisk;
use lz_set::{Blank, Blocked, Named, NoGate, Pass, Set};
use lz_slot::{Command, Key};
use std::alloc::Global;
use std::marker::Brand;
use std::sync::Wait;
use std::test::Fail;
use test_support::made;

/// How many members a set told of itself: at first, with 10, 20 and 30, and without 20; then before and after each sync of an addition of 40
/// and of a removal of 10.
#[derive(Drop)]
struct Counted {
    settled: [usize; 3],
    under_way: [(usize, usize); 3],
}

// How many members there are once a call has come to its next Sync, and once that Sync was played: under the lock that this kept, and by a
// pass. Once the lock was given back it tells none.
fn count_around_sync<'a, N: Named, R: Wait>(
    rt: &R,
    set: &'a Shared<N>,
    kept: &mut Lock<'a, N>,
    own: &mut Pass,
    play: &mut Play,
) -> Option<(usize, usize)>
    requires own { MayCall N.board own.old }
    requires play { IsPlay N.board play.old.pass play.old.call }
    ensures own { MayCall N.board own.new }
    ensures play { IsPlay N.board play.new.pass play.new.call }
{
    let comes = comes_to(rt, set, kept, play, Blocked::Syncs);
    kept.give_back();
    let before = set.count(rt, own);
    let played = syncs(rt, set, kept, play);
    let told = kept.opened();
    kept.give_back();
    let after = set.count(rt, own);
    let agree = told == Some(after) && kept.opened().is_none();
    (comes && played && agree).then_some((before, after))
}

// The addition has two syncs, its key's and its gate's, and the removal one.
fn count_steps<N: Named, R: Wait>(rt: &R, set: &Shared<N>, passes: Vec<Pass>) -> Option<Counted>
    requires { All (MayCall N.board) passes.items }
{
    let mut passes = passes;
    let (mut own, other) = two_passes::<N>(&mut passes)?;
    let none = set.count(rt, &mut own);
    fill(rt, set, &mut own)?;
    let all = set.count(rt, &mut own);
    let _ = set.remove(rt, &mut own, Key::new(20)?);
    let fewer = set.count(rt, &mut own);
    let mut kept = set.keep();
    let mut addition = begin(rt, set, &mut kept, other, Command::Add(Key::new(40)?));
    let keyed = count_around_sync(rt, set, &mut kept, &mut own, &mut addition)?;
    let opened = count_around_sync(rt, set, &mut kept, &mut own, &mut addition)?;
    let (other, _) = answer(rt, set, &mut kept, addition)?;
    let mut removal = begin(rt, set, &mut kept, other, Command::Remove(Key::new(10)?));
    let closed = count_around_sync(rt, set, &mut kept, &mut own, &mut removal)?;
    let _ = answer(rt, set, &mut kept, removal)?;
    Some(Counted {
        settled: [none, all, fewer],
        under_way: [keyed, opened, closed],
    })
}

fn start_counting<N: Named, R: Wait>(rt: &R, blank: Blank<MemoryDisk, NoGate>) -> Option<Counted>
    requires { MayBeNamed device_of N.board N.first N.format blank }
{
    let (set, passes) = blank.start::<N>();
    count_steps(rt, &set, passes)
}

fn open_counting<R: Wait>(rt: &R, alloc: Global) -> Option<Counted> {
    let disk = made(alloc, 8)?;
    match Set::open(alloc, disk, NoGate, 1, 2) {
        Ok(blank) => start_counting::<Brand, _>(rt, blank),
        Err(_) => None,
    }
}

// A member counts from the sync on that makes its gate durable, and no more once its gate is being closed.
#[test]
fn a_set_counts_its_durable_members(rt: HostRuntime) -> Result<(), Fail> {
    let Some(counted) = open_counting(&rt, rt.alloc()) else {
        panic!(rt; "no set, or a call stopped elsewhere")
    };
    assert_eq!(rt; counted.settled, [0, 3, 2]);
    assert_eq!(rt; counted.under_way, [(2, 2), (2, 3), (2, 2)]);
    Ok(())
}
