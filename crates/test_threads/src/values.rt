//! One thread that plays several calls at once, each as a value.
ghost use Rattle.std.specs.Prelude.{All, IfSome};
ghost use Rattle.lz_set.specs.Names.{MayCall};
ghost use Rattle.lz_set.specs.Blanks.{MayBeNamed};
ghost use Rattle.lz_disk.specs.Records.{device_of};
ghost use Rattle.test_threads.specs.Plays.{IsPlay};

use crate::partners::two_passes;
use lz_disk::MemoryDisk;
use lz_set::{Blank, Blocked, Fault, HeldLock, Named, NoGate, Pass, Set, Underway};
use lz_slot::{Command, Key};
use std::alloc::Global;
use std::marker::Brand;
use std::sync::Wait;
use std::test::Fail;
use test_support::{keys_in, made};

pub type Shared<N> = Set<MemoryDisk, NoGate, N>;

pub type Lock<'a, N> = HeldLock<'a, MemoryDisk, N>;

pub type Answer = Result<bool, Fault>;

/// A pass with its call.
#[derive(Drop)]
pub struct Play {
    pass: Pass,
    call: Underway,
}

/// Begins a call.
pub fn begin<'a, N: Named, R: Wait>(
    rt: &R,
    set: &'a Shared<N>,
    kept: &mut Lock<'a, N>,
    pass: Pass,
    command: Command,
) -> Play
    requires { MayCall N.board pass }
    ensures { IsPlay N.board result.pass result.call }
{
    let mut pass = pass;
    let call = set.begin(rt, kept, &mut pass, command);
    Play { pass, call }
}

/// Whether the call comes to a stop at this stage.
pub fn comes_to<'a, N: Named, R: Wait>(
    rt: &R,
    set: &'a Shared<N>,
    kept: &mut Lock<'a, N>,
    play: &mut Play,
    stage: Blocked,
) -> bool
    requires { IsPlay N.board play.old.pass play.old.call }
    ensures { IsPlay N.board play.new.pass play.new.call }
{
    set.go_on(rt, kept, &mut play.pass, &mut play.call) == stage
}

/// Whether the call comes to a Sync, which it plays then.
pub fn syncs<'a, N: Named, R: Wait>(
    rt: &R,
    set: &'a Shared<N>,
    kept: &mut Lock<'a, N>,
    play: &mut Play,
) -> bool
    requires { IsPlay N.board play.old.pass play.old.call }
    ensures { IsPlay N.board play.new.pass play.new.call }
{
    match set.go_on(rt, kept, &mut play.pass, &mut play.call) {
        Blocked::Syncs => {
            set.sync(rt, kept, &mut play.pass, &mut play.call);
            true
        }
        _ => false,
    }
}

/// The answer of a call that comes to it.
pub fn answer<'a, N: Named, R: Wait>(
    rt: &R,
    set: &'a Shared<N>,
    kept: &mut Lock<'a, N>,
    play: Play,
) -> Option<(Pass, Answer)>
    requires { IsPlay N.board play.pass play.call }
    ensures { IfSome result (λ r. MayCall N.board r.0) }
{
    let Play { mut pass, mut call } = play;
    match set.go_on(rt, kept, &mut pass, &mut call) {
        Blocked::Answers => {
            let answer = set.answer(rt, kept, &mut pass, call);
            Some((pass, answer))
        }
        _ => None,
    }
}

// Whether each of the three comes to a Sync, before any of them is played.
fn all_come<'a, N: Named, R: Wait>(
    rt: &R,
    set: &'a Shared<N>,
    kept: &mut Lock<'a, N>,
    one: &mut Play,
    two: &mut Play,
    three: &mut Play,
) -> bool
    requires one { IsPlay N.board one.old.pass one.old.call }
    requires two { IsPlay N.board two.old.pass two.old.call }
    requires three { IsPlay N.board three.old.pass three.old.call }
    ensures one { IsPlay N.board one.new.pass one.new.call }
    ensures two { IsPlay N.board two.new.pass two.new.call }
    ensures three { IsPlay N.board three.new.pass three.new.call }
{
    let one = comes_to(rt, set, kept, one, Blocked::Syncs);
    let two = comes_to(rt, set, kept, two, Blocked::Syncs);
    let three = comes_to(rt, set, kept, three, Blocked::Syncs);
    one && two && three
}

// Three additions that overlap from their beginning to their end, and a lookup of the first one's key before that is durable. One sync
// of the keys covers all three, and the lookup's all gates: none of the other calls stops before its own.
fn overlap<N: Named, R: Wait>(rt: &R, set: &Shared<N>, passes: Vec<Pass>) -> Option<[Answer; 4]>
    requires { All (MayCall N.board) passes.items }
{
    let mut passes = passes;
    let mut kept = set.keep();
    let (first, second) = two_passes::<N>(&mut passes)?;
    let (third, fourth) = two_passes::<N>(&mut passes)?;
    let twenty = Key::new(20)?;
    let mut one = begin(rt, set, &mut kept, first, Command::Add(twenty));
    let mut two = begin(rt, set, &mut kept, second, Command::Add(Key::new(10)?));
    let mut three = begin(rt, set, &mut kept, third, Command::Add(Key::new(30)?));
    let written = all_come(rt, set, &mut kept, &mut one, &mut two, &mut three);
    let sure = syncs(rt, set, &mut kept, &mut one);
    let linked = all_come(rt, set, &mut kept, &mut one, &mut two, &mut three);
    let mut look = begin(rt, set, &mut kept, fourth, Command::Has(twenty));
    let looked = syncs(rt, set, &mut kept, &mut look);
    if !(written && sure && linked && looked) {
        return None;
    }
    let (_, three) = answer(rt, set, &mut kept, three)?;
    let (_, look) = answer(rt, set, &mut kept, look)?;
    let (_, one) = answer(rt, set, &mut kept, one)?;
    let (_, two) = answer(rt, set, &mut kept, two)?;
    Some([one, two, three, look])
}

// A removal of 10 keeps its nodes up to its sync. An addition of 5, which comes to them, finds them taken until it has ended. The
// addition's sync of its key covers the removal's gate.
fn meet_at_a_node<N: Named, R: Wait>(
    rt: &R,
    set: &Shared<N>,
    passes: Vec<Pass>,
) -> Option<[Answer; 4]>
    requires { All (MayCall N.board) passes.items }
{
    let mut passes = passes;
    let (mut first, second) = two_passes::<N>(&mut passes)?;
    let (five, ten) = (Key::new(5)?, Key::new(10)?);
    let was_added = set.add(rt, &mut first, ten);
    let mut kept = set.keep();
    let mut removal = begin(rt, set, &mut kept, first, Command::Remove(ten));
    let mut addition = begin(rt, set, &mut kept, second, Command::Add(five));
    let closed = comes_to(rt, set, &mut kept, &mut removal, Blocked::Syncs);
    let written = syncs(rt, set, &mut kept, &mut addition);
    let busy = comes_to(rt, set, &mut kept, &mut addition, Blocked::Busy);
    let still_busy = comes_to(rt, set, &mut kept, &mut addition, Blocked::Busy);
    if !(closed && written && busy && still_busy) {
        return None;
    }
    let (mut first, removed) = answer(rt, set, &mut kept, removal)?;
    if !syncs(rt, set, &mut kept, &mut addition) {
        return None;
    }
    let (_, added) = answer(rt, set, &mut kept, addition)?;
    kept.give_back();
    Some([was_added, removed, added, set.has(rt, &mut first, ten)])
}

/// What the calls were answered, how often they called the device, and the keys that are left.
#[derive(Drop)]
struct Scene {
    answers: [Answer; 4],
    calls: u64,
    keys: Vec<u64>,
}

#[derive(Clone, Copy)]
enum Plot {
    Overlap,
    Meet,
}

fn start_scene<N: Named, R: Wait>(
    rt: &R,
    alloc: Global,
    blank: Blank<MemoryDisk, NoGate>,
    plot: Plot,
) -> Option<Scene>
    requires { MayBeNamed device_of N.board N.first N.format blank }
{
    let (set, passes) = blank.start::<N>();
    let answers = match plot {
        Plot::Overlap => overlap(rt, &set, passes)?,
        Plot::Meet => meet_at_a_node(rt, &set, passes)?,
    };
    let disk = set.close();
    Some(Scene {
        answers,
        calls: disk.calls(),
        keys: keys_in(alloc, disk)?,
    })
}

// The same on a new set of eight slots. An open calls the device four times: a sync, the size, the head, the slots.
fn scene_of<R: Wait>(rt: &R, alloc: Global, plot: Plot) -> Option<Scene> {
    let disk = made(alloc, 8)?;
    let before = disk.calls();
    let scene = match Set::open(alloc, disk, NoGate, 1, 4) {
        Ok(blank) => start_scene::<Brand, _>(rt, alloc, blank, plot)?,
        Err(_) => return None,
    };
    Some(Scene {
        calls: scene.calls.wrapping_sub(before).wrapping_sub(4),
        ..scene
    })
}

// Three keys and three gates are written. One sync makes the keys durable, and the lookup's makes the gates so.
#[test]
fn additions_that_overlap_share_their_syncs(rt: HostRuntime) -> Result<(), Fail> {
    let Some(scene) = scene_of(&rt, rt.alloc(), Plot::Overlap) else {
        panic!(rt; "no set, or a call stopped elsewhere")
    };
    assert_eq!(rt; scene.answers, [Ok(true); 4]);
    assert_eq!(rt; scene.calls, 8);
    assert_eq!(rt; scene.keys.as_slice(), [10, 20, 30].as_slice());
    Ok(())
}

// The first addition takes two writes and two syncs. Then a gate, a key and a gate are written; the first of two syncs is the removal's
// too.
#[test]
fn a_call_that_is_busy_goes_on_after_the_other(rt: HostRuntime) -> Result<(), Fail> {
    let Some(scene) = scene_of(&rt, rt.alloc(), Plot::Meet) else {
        panic!(rt; "no set, or a call stopped elsewhere")
    };
    assert_eq!(rt; scene.answers, [Ok(true), Ok(true), Ok(true), Ok(false)]);
    assert_eq!(rt; scene.calls, 9);
    assert_eq!(rt; scene.keys.as_slice(), [5].as_slice());
    Ok(())
}
