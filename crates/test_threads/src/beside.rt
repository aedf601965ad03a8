//! What passes see of a call of another one that is held between two of its events, at a gate that gives up in the end.
ghost use Rattle.std.specs.Prelude.{◌≡◌, ◌≤◌, All, IfSome};
ghost use Rattle.lz_set.specs.Names.{MayCall};
ghost use Rattle.lz_set.specs.Blanks.{MayBeNamed};
ghost use Rattle.lz_disk.specs.Records.{device_of};

use crate::gates::{Gate, Signals, wait_for};
use crate::partners::{call_once, fill, two_passes};
use crate::plots::{Asked, Phase, Plot, addition, removal};
use lz_disk::MemoryDisk;
use lz_machine::Kind;
use lz_set::{Blank, Fault, Glance, GlanceFault, Named, Pass, Set};
use std::alloc::Global;
use std::marker::Brand;
use std::process::Abort;
use std::sync::Wait;
use std::sync::atomic::Ordering;
use std::test::Fail;
use std::thread;
use std::thread::Threads;
use std::time::Clock;
use test_support::{keys_in, last_pass, made};

/// What was answered and seen while the first pass was held: the second one calls, and it or a third one glances.
#[derive(Clone, Copy, Debug, PartialEq)]
struct Beside {
    // A glance at the held call's key, before anything was heard of the call.
    early: Result<Glance, GlanceFault>,
    added: Result<bool, Fault>,
    // The key again, and the added one, after an addition that saw all that the held call has done.
    glanced: Result<Glance, GlanceFault>,
    fresh: Result<Glance, GlanceFault>,
    looked: Result<bool, Fault>,
    // And after a look, which made certain of what it found.
    settled: Result<Glance, GlanceFault>,
    absent: Result<Glance, GlanceFault>,
}

// While the first pass is held the second one adds a key, looks for the first one's, and glances.
fn visit<N: Named, R: Wait + Clock>(
    rt: &R,
    set: &Set<MemoryDisk, Gate<'_, R>, N>,
    pass: Pass,
    asked: Asked,
) -> Beside
    requires { MayCall N.board pass }
{
    let mut pass = pass;
    let key = asked.command.key();
    let early = set.glance(&mut pass, key);
    let added = set.add(rt, &mut pass, asked.added);
    let glanced = set.glance(&mut pass, key);
    let fresh = set.glance(&mut pass, asked.added);
    let looked = set.has(rt, &mut pass, key);
    let settled = set.glance(&mut pass, key);
    let absent = set.glance(&mut pass, asked.absent);
    Beside {
        early,
        added,
        glanced,
        fresh,
        looked,
        settled,
        absent,
    }
}

// The same, where a third pass does nothing but glance, and the second one tells it what it has seen.
fn look_on<N: Named, R: Wait + Clock>(
    rt: &R,
    set: &Set<MemoryDisk, Gate<'_, R>, N>,
    second: Pass,
    third: Pass,
    asked: Asked,
) -> Beside
    requires second { MayCall N.board second }
    requires third { MayCall N.board third }
{
    let (mut second, mut third) = (second, third);
    let key = asked.command.key();
    set.meet(&mut second, &mut third);
    let early = set.glance(&mut third, key);
    let added = set.add(rt, &mut second, asked.added);
    set.meet(&mut second, &mut third);
    let glanced = set.glance(&mut third, key);
    let fresh = set.glance(&mut third, asked.added);
    let looked = set.has(rt, &mut second, key);
    set.meet(&mut third, &mut second);
    let settled = set.glance(&mut third, key);
    let absent = set.glance(&mut third, asked.absent);
    Beside {
        early,
        added,
        glanced,
        fresh,
        looked,
        settled,
        absent,
    }
}

// One of the two, as there is a third pass or not. None where the first pass isn't held.
fn stand_beside<N: Named, R: Wait + Clock>(
    rt: &R,
    set: &Set<MemoryDisk, Gate<'_, R>, N>,
    second: Pass,
    third: Option<Pass>,
    signals: &Signals,
    asked: Asked,
) -> Option<Beside>
    requires second { MayCall N.board second }
    requires third { IfSome third (λ pass. MayCall N.board pass) }
{
    if !wait_for(rt, &signals.is_held) {
        return None;
    }
    let beside = match third {
        Some(third) => look_on(rt, set, second, third, asked),
        None => visit(rt, set, second, asked),
    };
    signals.may_go_on.store(true, Ordering::SeqCst);
    Some(beside)
}

// The first pass calls, and is held; the others are beside it. None where its call had another answer than true.
fn hold<N: Named + Send + Sync, R: Threads + Wait + Clock + Sync>(
    rt: &R,
    set: &Set<MemoryDisk, Gate<'_, R>, N>,
    first: Pass,
    second: Pass,
    third: Option<Pass>,
    signals: &Signals,
    asked: Asked,
) -> Option<Beside>
    requires first { MayCall N.board first }
    requires second { MayCall N.board second }
    requires third { IfSome third (λ pass. MayCall N.board pass) }
{
    thread::scope(
        thread::scope_env(),
        rt,
        move |scope| -> Option<Beside>
            requires { MayCall N.board first × MayCall N.board second × IfSome third (λ pass. MayCall N.board pass) }
        {
            let thread = scope.spawn(
                move || -> Result<bool, Fault>
                    requires { MayCall N.board first }
                { call_once(rt, set, first, asked.command) },
            );
            let Ok(thread) = thread else {
                return None;
            };
            let beside = stand_beside(rt, set, second, third, signals, asked);
            if thread.join(rt) == Ok(true) {
                beside
            } else {
                None
            }
        },
    )
}

/// What was answered and seen, and the disk that was left.
#[derive(Drop)]
struct Scene {
    beside: Beside,
    disk: MemoryDisk,
}

// The second pass fills the set, and then it is beside the first one, with a third one where there is one.
fn fill_and_hold<N: Named + Send + Sync, R: Threads + Wait + Clock + Sync>(
    rt: &R,
    set: &Set<MemoryDisk, Gate<'_, R>, N>,
    passes: Vec<Pass>,
    signals: &Signals,
    asked: Asked,
) -> Option<Beside>
    requires { All (MayCall N.board) passes.items }
{
    let mut passes = passes;
    let (first, mut second) = two_passes::<N>(&mut passes)?;
    let third = last_pass::<N>(&mut passes);
    fill(rt, set, &mut second)?;
    hold(rt, set, first, second, third, signals, asked)
}

// The same on a set that was opened.
fn play<N: Named + Send + Sync, R: Threads + Wait + Clock + Sync>(
    rt: &R,
    blank: Blank<MemoryDisk, Gate<'_, R>>,
    signals: &Signals,
    asked: Asked,
) -> Option<Scene>
    requires { MayBeNamed device_of N.board N.first N.format blank }
{
    let (set, passes) = blank.start::<N>();
    let beside = fill_and_hold(rt, &set, passes, signals, asked)?;
    Some(Scene {
        beside,
        disk: set.close(),
    })
}

// The same on a new set of eight slots and so many passes.
fn play_on<R: Threads + Wait + Clock + Sync>(
    rt: &R,
    alloc: Global,
    passes: usize,
    gate: Gate<'_, R>,
    signals: &Signals,
    asked: Asked,
) -> Option<Scene>
    requires { (2 ≤ passes) × (passes ≤ 3) }
{
    match Set::open(alloc, made(alloc, 8)?, gate, 1, passes) {
        Ok(blank) => play::<Brand, _>(rt, blank, signals, asked),
        Err(_) => None,
    }
}

// The scene of a call that is held after its event of this number and kind, where there are so many passes. None where a wait gave
// up, or the event was another.
fn scene_of<R: Threads + Wait + Clock + Sync>(
    rt: &R,
    alloc: Global,
    passes: usize,
    event: u64,
    kind: Kind,
    asked: Asked,
) -> Option<Scene>
    requires { (2 ≤ passes) × (passes ≤ 3) }
{
    let signals = Signals::new();
    let gate = Gate {
        clock: rt,
        pass: passes - 1,
        event,
        kind,
        signals: &signals,
    };
    let scene = play_on(rt, alloc, passes, gate, &signals, asked);
    if signals.is_off.load(Ordering::SeqCst) {
        return None;
    }
    scene
}

// What the passes beside the call have to be answered at this phase, of which the first glance saw this.
fn wanted(plot: &Plot, phase: Phase, early: Result<Glance, GlanceFault>) -> Beside {
    Beside {
        early,
        added: Ok(true),
        glanced: Ok(plot.sight(phase)),
        fresh: Ok(Glance::Yes),
        looked: Ok(plot.is_member(phase != Phase::Before)),
        settled: Ok(plot.settled_sight(phase)),
        absent: Ok(Glance::No),
    }
}

// What was answered and seen beside the call has to be what is wanted after its event of this number.
fn compare(rt: &impl Abort, plot: &Plot, event: u64, step: (Kind, Phase), beside: Beside) {
    let (kind, phase) = step;
    assert!(rt;
        plot.may_be_seen(phase, beside.early),
        "event {event}, {kind:?}: {beside:?}"
    );
    assert_eq!(rt;
        beside,
        wanted(plot, phase, beside.early),
        "event {event}, {kind:?}"
    );
}

// Holds the call after each of its events in turn, on a set of so many passes.
fn hold_after_each<R: Threads + Wait + Clock + Sync + Abort>(
    rt: &R,
    alloc: Global,
    passes: usize,
    plot: &Plot,
) -> Result<(), Fail>
    requires { (2 ≤ passes) × (passes ≤ 3) }
{
    let mut event = 0u64;
    for step in plot.events.iter().take(plot.length) {
        let (kind, _) = *step;
        let Some(scene) = scene_of(rt, alloc, passes, event, kind, plot.asked) else {
            panic!(rt;
                "event {event}, {kind:?}: no set, another answer or event, or a wait that gave up"
            )
        };
        let Scene { beside, disk } = scene;
        compare(rt, plot, event, *step, beside);
        let keys = keys_in(alloc, disk);
        assert!(rt;
            keys.is_some_and(|keys| plot.leaves(keys.as_slice())),
            "event {event}, {kind:?}"
        );
        event = event.wrapping_add(1);
    }
    Ok(())
}

#[test]
fn an_addition_is_held_after_each_event(rt: HostRuntime) -> Result<(), Fail> {
    hold_after_each(&rt, rt.alloc(), 2, &addition(&rt))?;
    hold_after_each(&rt, rt.alloc(), 3, &addition(&rt))
}

#[test]
fn a_removal_is_held_after_each_event(rt: HostRuntime) -> Result<(), Fail> {
    hold_after_each(&rt, rt.alloc(), 2, &removal(&rt))?;
    hold_after_each(&rt, rt.alloc(), 3, &removal(&rt))
}
