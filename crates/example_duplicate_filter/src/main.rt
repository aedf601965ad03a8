//! A duplicate filter inside a program, to be copied: threads that share one set over a file, and handle each event at most once,
//! over restarts too. `docs/IN_PROCESS.md` tells what that rests on.
#![tactic(auto)]

ghost use Rattle.std.specs.Prelude.{◌≡◌, ◌↔◌, true, All, IsTrue, List, Ok};
ghost use Rattle.lz_vault.specs.Opens.{MayOpen};
ghost use Rattle.lz_board.specs.Seats.{part};
ghost use Rattle.lz_board.specs.declared.view.Note.{Note};
ghost use Rattle.lz_set.specs.Blanks.{MayBeNamed};
ghost use Rattle.lz_set.specs.Left.{IsLeft};
ghost use Rattle.lz_set.specs.Names.{MayCall};
ghost use Rattle.example_duplicate_filter.specs.Filters.{Filters};

use lz_disk::{Disk, FileDisk};
use lz_set::{Blank, Fault, Glance, Named, NoGate, Pass, Set};
use lz_slot::{Format, Key};
use lz_vault::make;
use std::marker::Brand;
use std::sync::Wait;
use std::thread::Threads;
use std::{io, thread};

/// How many keys the file has room for.
const SLOTS: u64 = 1_000;

/// Over how many lists they are spread: about as many as there will be members.
const BUCKETS: usize = 256;

const THREADS: usize = 4;

/// How many events each thread meets. The next thread meets half of them too.
const EVENTS: u64 = 100;

/// Whether the event is new: by a glance and at most one adding after it, and no other call. `Ok(true)` is answered only where that
/// adding made it a member, durably, and `Ok(false)` only where it was one, durably, at the glance or at the adding. `Err` is the
/// adding's.
fn is_new<D: Disk, N: Named, R: Wait>(
    rt: &R,
    set: &Set<D, NoGate, N>,
    pass: &mut Pass,
    event: Key,
) -> Result<bool, Fault>
    requires { MayCall N.board pass.old }
    ensures pass { MayCall N.board pass.new }
    ensures filters { Filters N.format event result (part pass.old) (part pass.new) }
{
    match set.glance(pass, event) {
        Ok(Glance::Yes) => Ok(false),
        _ => set.add(rt, pass, event),
    }
}

/// Whether what `is_new` answered lets the event be handled: only where it was new. After an `Err` it may be known or not.
fn may_handle(answer: Result<bool, Fault>) -> bool
    ensures { IsTrue result ↔ (answer ≡ Ok true) }
{
    matches!(answer, Ok(true))
}

// Meets so many events from the first one on, and says how many of them were new.
fn handle<D: Disk, N: Named, R: Wait>(
    rt: &R,
    set: &Set<D, NoGate, N>,
    pass: Pass,
    first: u64,
) -> u64
    requires { MayCall N.board pass }
{
    let mut pass = pass;
    let mut new = 0u64;
    for number in first..first.saturating_add(EVENTS) {
        if let Some(event) = Key::new(number)
            && may_handle(is_new(rt, set, &mut pass, event))
        {
            // Here the event is handled: at most once.
            new = new.wrapping_add(1);
        }
    }
    new
}

// Handles events by a thread for each pass, and says how many were new.
fn handle_all<D, N, R>(rt: &R, set: &Set<D, NoGate, N>, passes: Vec<Pass>) -> u64
where
    D: Disk + Send,
    N: Named + Send + Sync,
    R: Threads + Wait + AllocGlobal + Sync,
    requires { All (MayCall N.board) passes.items }
{
    thread::scope(
        thread::scope_env(),
        rt,
        move |scope| -> u64
            requires { All (MayCall N.board) passes.items }
        {
            let mut threads = Vec::new(rt.alloc());
            let mut first = 0u64;
            for pass in passes {
                let thread = scope.spawn(
                    move || -> u64
                        requires { MayCall N.board pass }
                    { handle(rt, set, pass, first) },
                );
                if let Ok(thread) = thread {
                    let _ = threads.push(thread);
                }
                first = first.wrapping_add(EVENTS / 2);
            }
            let mut new = 0u64;
            for thread in threads {
                new = new.wrapping_add(thread.join(rt));
            }
            new
        },
    )
}

// Starts the set, and hands its disk back at the end.
fn filter<D, N, R>(rt: &R, blank: Blank<D, NoGate>) -> (u64, D)
where
    D: Disk + Send,
    N: Named + Send + Sync,
    R: Threads + Wait + AllocGlobal + Sync,
    requires { MayBeNamed D.device N.board N.first N.format blank }
    ensures { (ns : List Note) × IsLeft N.board N.first ns (D.device result.1) }
{
    let (set, passes) = blank.start::<N>();
    let new = handle_all(rt, &set, passes);
    (new, set.close())
}

// Opens the file's set, as after a restart, and says how many events were new.
fn filter_events<D, R>(rt: &R, disk: D) -> io::Result<D>
where
    D: Disk + Send + Drop,
    R: Threads + Wait + Print + AllocGlobal + Sync,
    requires { MayOpen (D.device disk) }
{
    match Set::open(rt.alloc(), disk, NoGate, BUCKETS, THREADS) {
        Ok(blank) => {
            let (new, disk) = filter::<D, Brand, R>(rt, blank);
            let met = (THREADS as u64) * EVENTS;
            println!(rt; "{new} of {met} events were new")?;
            Ok(disk)
        }
        Err(_) => Err(io::Error::other("the file holds no set")),
    }
}

fn main(rt: HostRuntime) -> io::Result<()> {
    let Ok(mut disk) = FileDisk::open(&rt, "seen", true) else {
        return Err(io::Error::other("the file can't be opened"));
    };
    // A set that is there already is refused, and stays.
    let _ = make(&mut disk, Format::Two, SLOTS);
    let disk = filter_events(&rt, disk)?;
    filter_events(&rt, disk)?;
    Ok(())
}
