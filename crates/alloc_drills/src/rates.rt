//! How often threads look at a set by glances, alone and beside one that changes it. `tools/bench/glances` measures it so.
ghost use Rattle.std.specs.Prelude.{◌≡◌, ◌≤◌, All, IfSome};
ghost use Rattle.lz_disk.specs.Records.{device_of};
ghost use Rattle.lz_set.specs.Blanks.{MayBeNamed};
ghost use Rattle.lz_set.specs.Names.{MayCall};

use lz_disk::MemoryDisk;
use lz_set::{Blank, Glance, Named, NoGate, Pass, Set};
use lz_slot::{Format, Key, OPEN_GATE, header_body, slot_body};
use lz_vault::suit;
use std::alloc::{AllocError, Global};
use std::io::{self, ErrorKind};
use std::marker::Brand;
use std::rt::Env;
use std::sync::Wait;
use std::sync::atomic::{AtomicBool, Ordering};
use std::thread::{JoinHandle, Threads};
use std::time::{Clock, Duration, Instant};
use std::{env, thread};

/// How many looks come between two looks at the clock.
const ROUND: u64 = 2000;

/// How many slots are free: one that was used is free again once every pass was seen to have left it.
const SPARE: usize = 8;

/// What is measured: how many members there are, and for how long it is looked.
#[derive(Clone, Copy)]
struct Course {
    members: u64,
    time: Duration,
}

/// How many looks found a member, and how often the set was changed meanwhile.
#[derive(Clone, Copy)]
struct Seen {
    found: u64,
    changes: u64,
}

// A file that holds the even numbers below twice the number of members, so that neighbours in a list lie far from one another.
fn file_of(alloc: Global, members: u64) -> Result<Vec<u8>, AllocError> {
    let mut bytes = vec![in alloc; OPEN_GATE]?;
    bytes.extend_from_slice(&header_body(Format::Two, members.wrapping_add(SPARE as u64)))?;
    for slot in 0..members {
        let place = slot.wrapping_mul(389).checked_rem(members).unwrap_or(0);
        if let Some(key) = Key::new(place.wrapping_mul(2)) {
            bytes.push(OPEN_GATE)?;
            bytes.extend_from_slice(&slot_body(key))?;
        }
    }
    bytes.extend_from_slice(&[0; 16 * SPARE])?;
    Ok(bytes)
}

// Looks for each number below twice the number of members in turn, in whole rounds, until the time is up.
fn look_for<R: Clock, N: Named>(
    rt: &R,
    set: &Set<MemoryDisk, NoGate, N>,
    pass: Pass,
    course: Course,
) -> io::Result<u64>
    requires { MayCall N.board pass }
{
    let mut pass = pass;
    let mut found = 0u64;
    let start = Instant::now(rt)?;
    for look in 0..u64::MAX {
        if look % ROUND == 0 && start.elapsed(rt)? >= course.time {
            break;
        }
        let number = look
            .wrapping_mul(1201)
            .checked_rem(course.members.wrapping_mul(2))
            .unwrap_or(0);
        if let Some(key) = Key::new(number)
            && set.glance(&mut pass, key) == Ok(Glance::Yes)
        {
            found = found.wrapping_add(1);
        }
    }
    Ok(found)
}

// Adds and removes a key that nobody looks for, until it is told to stop.
fn change_until<R: Wait, N: Named>(
    rt: &R,
    set: &Set<MemoryDisk, NoGate, N>,
    pass: Pass,
    key: Key,
    stop: &AtomicBool,
) -> u64
    requires { MayCall N.board pass }
{
    let mut pass = pass;
    let mut changes = 0u64;
    for _ in 0..u64::MAX {
        if stop.load(Ordering::SeqCst)
            || set.add(rt, &mut pass, key) != Ok(true)
            || set.remove(rt, &mut pass, key) != Ok(true)
        {
            break;
        }
        changes = changes.wrapping_add(2);
    }
    changes
}

// How many members all of them found.
fn join_all<R: Threads>(rt: &R, threads: Vec<JoinHandle<io::Result<u64>>>) -> io::Result<u64> {
    let mut found = 0u64;
    for thread in threads {
        found = found.wrapping_add(thread.join(rt)?);
    }
    Ok(found)
}

// Looks by a thread for each pass, beside one that makes changes by the writer's pass where there is one.
fn look_by_threads<R: Threads + Wait + Clock + Sync, N: Named + Send + Sync>(
    rt: &R,
    alloc: Global,
    set: &Set<MemoryDisk, NoGate, N>,
    passes: Vec<Pass>,
    writer: Option<Pass>,
    course: Course,
) -> io::Result<Seen>
    requires passes { All (MayCall N.board) passes.items }
    requires writer { IfSome writer (λ pass. MayCall N.board pass) }
{
    let stop = AtomicBool::new(false);
    let stopped = &stop;
    let last = Key::new(course.members.wrapping_mul(2));
    thread::scope(
        thread::scope_env(),
        rt,
        move |scope| -> io::Result<Seen>
            requires { All (MayCall N.board) passes.items × IfSome writer (λ pass. MayCall N.board pass) }
        {
            let mut threads = Vec::new(alloc);
            threads.reserve(passes.len())?;
            let changing = match (writer, last) {
                (Some(pass), Some(key)) => scope
                    .spawn(
                        move || -> u64
                            requires { MayCall N.board pass }
                        { change_until(rt, set, pass, key, stopped) },
                    )
                    .ok(),
                _ => None,
            };
            for pass in passes {
                let thread = scope.spawn(
                    move || -> io::Result<u64>
                        requires { MayCall N.board pass }
                    { look_for(rt, set, pass, course) },
                );
                if let Ok(thread) = thread {
                    let _ = threads.push(thread);
                }
            }
            let found = join_all(rt, threads);
            stopped.store(true, Ordering::SeqCst);
            let changes = changing.map_or(0, |thread| thread.join(rt));
            Ok(Seen {
                found: found?,
                changes,
            })
        },
    )
}

// The pass of a writer, where there is to be one.
fn take_writer<N: Named>(passes: &mut Vec<Pass>, writes: bool) -> Option<Pass>
    requires may { All (MayCall N.board) passes.old.items }
    ensures rest { All (MayCall N.board) passes.new.items }
    ensures last { IfSome result (λ pass. MayCall N.board pass) }
{
    if !writes {
        return None;
    }
    passes.pop()
}

// Looks at the set, all passes but the writer's being for threads that look.
fn look_at<R, N>(
    rt: &R,
    blank: Blank<MemoryDisk, NoGate>,
    writes: bool,
    course: Course,
) -> io::Result<Seen>
where
    R: Threads + Wait + Clock + AllocGlobal + Sync,
    N: Named + Send + Sync,
    requires { MayBeNamed device_of N.board N.first N.format blank }
{
    let (set, mut passes) = blank.start::<N>();
    let writer = take_writer::<N>(&mut passes, writes);
    look_by_threads(rt, rt.alloc(), &set, passes, writer, course)
}

fn measure<R>(rt: &R, numbers: &[u64]) -> io::Result<Seen>
where
    R: Threads + Wait + Clock + AllocGlobal + Sync,
{
    let [members, buckets, threads, writers, milliseconds] = numbers else {
        return Err(io::Error::from(ErrorKind::InvalidInput));
    };
    let course = Course {
        members: *members,
        time: Duration::from_millis(*milliseconds),
    };
    let mut disk = MemoryDisk::new(rt.alloc(), file_of(rt.alloc(), *members)?)?;
    suit(&mut disk);
    let buckets = (*buckets).clamp(1, 4096) as usize;
    let passes = threads.saturating_add(*writers).clamp(1, 64) as usize;
    match Set::open(rt.alloc(), disk, NoGate, buckets, passes) {
        Ok(blank) => look_at::<R, Brand>(rt, blank, *writers == 1, course),
        Err(_) => Err(io::Error::from(ErrorKind::OutOfMemory)),
    }
}

/// Tells how many looks found a member, and how many changes were made, where the words are the numbers of members, of buckets, of
/// threads that look, of threads that change (0 or 1), and of milliseconds.
pub fn tell_rates<R>(rt: &R) -> io::Result<()>
where
    R: Env + Threads + Wait + Clock + Print + AllocGlobal + Sync,
{
    let mut numbers = Vec::new(rt.alloc());
    for word in env::args(rt)?.skip(1) {
        numbers.push(word.as_str().parse::<u64>().unwrap_or(0))?;
    }
    let Seen { found, changes } = measure(rt, numbers.as_slice())?;
    println!(rt; "{found} {changes}")
}
