//! A seat that asks for a slot while a call of another pass, which is held, holds up the only one.
ghost use Rattle.std.specs.Prelude.{All};
ghost use Rattle.lz_set.specs.Names.{MayCall};
ghost use Rattle.lz_set.specs.Blanks.{MayBeNamed};
ghost use Rattle.lz_disk.specs.Records.{device_of};

use crate::gates::wait_for;
use crate::partners::{call_once, two_passes};
use lz_disk::MemoryDisk;
use lz_machine::Kind;
use lz_proto::{Reply, Request, Service};
use lz_serve::Seated;
use lz_set::{Blank, Fault, Named, Pass, Set, StepGate};
use lz_slot::{Command, Key};
use std::alloc::Global;
use std::marker::Brand;
use std::sync::Wait;
use std::sync::atomic::{AtomicBool, Ordering};
use std::test::Fail;
use std::thread;
use std::thread::Threads;
use std::time::{Clock, Duration};
use test_support::made;

/// For how many milliseconds the first event of the first pass is held.
const NAP: u64 = 30;

/// Holds the first pass after its first event, for a while.
#[derive(Drop)]
struct Nap<'a, C: Clock> {
    clock: &'a C,
    is_held: &'a AtomicBool,
}

impl<'a, C: Clock> StepGate for Nap<'a, C> {
    fn after<R: Wait>(&self, _rt: &R, pass: usize, _kind: Kind) {
        if pass == 1 && !self.is_held.swap(true, Ordering::SeqCst) {
            thread::sleep(self.clock, Duration::from_millis(NAP));
        }
    }
}

type Told = [Reply; 3];

// Once the first pass is held, the second one adds a key, removes it, and adds another one.
fn talk<N: Named, R: Wait + Clock>(
    rt: &R,
    set: &Set<MemoryDisk, Nap<'_, R>, N>,
    second: Pass,
    is_held: &AtomicBool,
    key: Key,
    other: Key,
) -> Option<Told>
    requires { MayCall N.board second }
{
    if !wait_for(rt, is_held) {
        return None;
    }
    let mut seated = Seated::new(rt, set, second);
    let added = seated.ask(Request::Add(key));
    let removed = seated.ask(Request::Remove(key));
    Some([added, removed, seated.ask(Request::Add(other))])
}

// What the second pass is told beside a lookup of the first one.
fn talk_beside<N: Named + Send + Sync, R: Threads + Wait + Clock + Sync>(
    rt: &R,
    set: &Set<MemoryDisk, Nap<'_, R>, N>,
    passes: Vec<Pass>,
    is_held: &AtomicBool,
) -> Option<Told>
    requires { All (MayCall N.board) passes.items }
{
    let mut passes = passes;
    let (first, second) = two_passes::<N>(&mut passes)?;
    let (key, other) = (Key::new(1)?, Key::new(2)?);
    thread::scope(
        thread::scope_env(),
        rt,
        move |scope| -> Option<Told>
            requires { MayCall N.board first × MayCall N.board second }
        {
            let thread = scope.spawn(
                move || -> Result<bool, Fault>
                    requires { MayCall N.board first }
                { call_once(rt, set, first, Command::Has(key)) },
            );
            let Ok(thread) = thread else {
                return None;
            };
            let told = talk(rt, set, second, is_held, key, other);
            let _ = thread.join(rt);
            told
        },
    )
}

// The same on a set that was opened.
fn talk_on<N: Named + Send + Sync, R: Threads + Wait + Clock + Sync>(
    rt: &R,
    blank: Blank<MemoryDisk, Nap<'_, R>>,
    is_held: &AtomicBool,
) -> Option<Told>
    requires { MayBeNamed device_of N.board N.first N.format blank }
{
    let (set, passes) = blank.start::<N>();
    talk_beside(rt, &set, passes, is_held)
}

// The same on a new set of one slot and two passes.
fn talk_on_new<R: Threads + Wait + Clock + Sync>(rt: &R, alloc: Global) -> Option<Told> {
    let is_held = AtomicBool::new(false);
    let gate = Nap {
        clock: rt,
        is_held: &is_held,
    };
    match Set::open(alloc, made(alloc, 1)?, gate, 1, 2) {
        Ok(blank) => talk_on::<Brand, _>(rt, blank, &is_held),
        Err(_) => None,
    }
}

#[test]
fn a_slot_is_waited_for_that_a_held_call_holds_up(rt: HostRuntime) -> Result<(), Fail> {
    let told = talk_on_new(&rt, rt.alloc());
    assert_eq!(rt; told, Some([Reply::Yes, Reply::Yes, Reply::Yes]));
    Ok(())
}
