//! Lists of a set: page by page, and beside threads that change it.
ghost use Rattle.std.specs.Prelude.{◌≤◌, All};
ghost use Rattle.lz_set.specs.Names.{MayCall};
ghost use Rattle.lz_set.specs.Blanks.{MayBeNamed};
ghost use Rattle.lz_disk.specs.Records.{device_of};

use crate::threads::churn;
use lz_disk::MemoryDisk;
use lz_set::{Blank, Named, NoGate, Page, Pass, Set};
use lz_slot::{Key, Slot};
use std::alloc::Global;
use std::marker::Brand;
use std::sync::Wait;
use std::sync::atomic::{AtomicU64, Ordering};
use std::test::Fail;
use std::thread;
use std::thread::Threads;
use test_support::{last_pass, made};

// How many slots the sets have.
const SLOTS: u32 = 64;

// The keys that stay; those that come and go are below 5.
const STAYING: [u64; 6] = [10, 11, 12, 13, 14, 15];

// Adds the keys that stay.
fn settle_in<N: Named, R: Wait>(
    rt: &R,
    set: &Set<MemoryDisk, NoGate, N>,
    pass: &mut Pass,
) -> Option<()>
    requires { MayCall N.board pass.old }
    ensures { MayCall N.board pass.new }
{
    for number in STAYING {
        set.add(rt, pass, Key::new(number)?).ok()?;
    }
    Some(())
}

// Whether a page has no more keys than were asked for, and goes on from a later slot.
fn is_fair(page: &Page, from: Slot, most: usize) -> bool {
    let is_further = match page.next {
        Some(next) => from.index() < next.index() && next.index() < SLOTS,
        None => true,
    };
    is_further && page.keys.len() <= most
}

// The keys that a scan tells from a slot on, by pages of so many.
fn scan<N: Named>(
    alloc: Global,
    set: &Set<MemoryDisk, NoGate, N>,
    pass: &mut Pass,
    from: Slot,
    most: usize,
) -> Option<Vec<u64>>
    requires pass { MayCall N.board pass.old }
    requires most { 1 ≤ most }
    ensures { MayCall N.board pass.new }
{
    let mut told = Vec::new(alloc);
    let mut from = from;
    for _ in 0..u64::MAX {
        let page = set.list(alloc, pass, from, most).ok()?;
        if !is_fair(&page, from, most) {
            return None;
        }
        for key in page.keys.iter() {
            told.push(key.get()).ok()?;
        }
        let Some(next) = page.next else {
            return Some(told);
        };
        from = next;
    }
    None
}

// Whether a scan tells each key that stays, and besides only such as come and go.
fn is_lawful(told: &[u64]) -> bool {
    STAYING.iter().all(|key| told.contains(key))
        && told.iter().all(|key| *key < 5 || STAYING.contains(key))
}

// Scans by pages of several sizes until so many threads are done. Says whether each scan was lawful.
fn scan_on<N: Named>(
    alloc: Global,
    set: &Set<MemoryDisk, NoGate, N>,
    pass: Pass,
    done: &AtomicU64,
    threads: u64,
) -> bool
    requires { MayCall N.board pass }
{
    let mut pass = pass;
    for round in 0..u64::MAX {
        let is_last = done.load(Ordering::SeqCst) >= threads;
        let most = [1, 3, 100][(round % 3) as usize];
        match scan(alloc, set, &mut pass, Slot::new(0), most) {
            Some(told) if is_lawful(&told) => {}
            _ => return false,
        }
        if is_last {
            return true;
        }
    }
    false
}

// Adds and removes the keys that come and go, and tells that it is done.
fn change<N: Named, R: Wait>(rt: &R, set: &Set<MemoryDisk, NoGate, N>, pass: Pass, done: &AtomicU64)
    requires { MayCall N.board pass }
{
    churn(rt, set, pass, 5_000);
    done.fetch_add(1, Ordering::SeqCst);
}

// Scans beside a thread for each of the other passes. Says whether all was lawful.
fn scan_beside<N: Named + Send + Sync, R: Threads + Wait + Sync>(
    rt: &R,
    alloc: Global,
    set: &Set<MemoryDisk, NoGate, N>,
    own: Pass,
    passes: Vec<Pass>,
    done: &AtomicU64,
) -> bool
    requires own { MayCall N.board own }
    requires passes { All (MayCall N.board) passes.items }
{
    thread::scope(
        thread::scope_env(),
        rt,
        move |scope| -> bool
            requires own { MayCall N.board own }
            requires passes { All (MayCall N.board) passes.items }
        {
            let mut threads = Vec::new(alloc);
            for pass in passes {
                let thread = scope.spawn(
                    move ||
                        requires { MayCall N.board pass }
                    { change(rt, set, pass, done) },
                );
                if let Ok(thread) = thread {
                    let _ = threads.push(thread);
                }
            }
            let count = threads.len() as u64;
            let is_lawful = scan_on(alloc, set, own, done, count);
            for thread in threads {
                thread.join(rt);
            }
            is_lawful && count == 2
        },
    )
}

fn scan_busy<N: Named + Send + Sync, R: Threads + Wait + Sync>(
    rt: &R,
    alloc: Global,
    blank: Blank<MemoryDisk, NoGate>,
) -> Option<bool>
    requires { MayBeNamed device_of N.board N.first N.format blank }
{
    let (set, mut passes) = blank.start::<N>();
    let mut own = last_pass::<N>(&mut passes)?;
    settle_in(rt, &set, &mut own)?;
    let done = AtomicU64::new(0);
    Some(scan_beside(rt, alloc, &set, own, passes, &done))
}

/// What scans of a set tell that nobody changes meanwhile.
#[derive(Drop)]
struct Quiet {
    // Before there is a member.
    empty: Vec<u64>,
    // All, by pages of one key.
    full: Vec<u64>,
    // From the last slot, and from one past it.
    last: Vec<u64>,
    past: Vec<u64>,
}

fn scan_quiet<N: Named, R: Wait>(
    rt: &R,
    alloc: Global,
    blank: Blank<MemoryDisk, NoGate>,
) -> Option<Quiet>
    requires { MayBeNamed device_of N.board N.first N.format blank }
{
    let (set, mut passes) = blank.start::<N>();
    let mut own = last_pass::<N>(&mut passes)?;
    let empty = scan(alloc, &set, &mut own, Slot::new(0), 9)?;
    settle_in(rt, &set, &mut own)?;
    Some(Quiet {
        empty,
        full: scan(alloc, &set, &mut own, Slot::new(0), 1)?,
        last: scan(alloc, &set, &mut own, Slot::new(SLOTS - 1), 9)?,
        past: scan(alloc, &set, &mut own, Slot::new(SLOTS), 9)?,
    })
}

fn open_busy<R: Threads + Wait + Sync>(rt: &R, alloc: Global) -> Option<bool> {
    let disk = made(alloc, u64::from(SLOTS))?;
    match Set::open(alloc, disk, NoGate, 3, 3) {
        Ok(blank) => scan_busy::<Brand, _>(rt, alloc, blank),
        Err(_) => None,
    }
}

fn open_quiet<R: Wait>(rt: &R, alloc: Global) -> Option<Quiet> {
    let disk = made(alloc, u64::from(SLOTS))?;
    match Set::open(alloc, disk, NoGate, 3, 1) {
        Ok(blank) => scan_quiet::<Brand, _>(rt, alloc, blank),
        Err(_) => None,
    }
}

#[test]
fn a_scan_beside_threads_tells_the_keys_that_stay(rt: HostRuntime) -> Result<(), Fail> {
    assert_eq!(rt; open_busy(&rt, rt.alloc()), Some(true));
    Ok(())
}

#[test]
fn a_scan_tells_all_members_of_its_slots(rt: HostRuntime) -> Result<(), Fail> {
    let Some(quiet) = open_quiet(&rt, rt.alloc()) else {
        panic!(rt; "no scan")
    };
    assert!(rt; quiet.empty.is_empty() && quiet.last.is_empty() && quiet.past.is_empty());
    assert_eq!(rt; quiet.full.as_slice(), STAYING.as_slice());
    Ok(())
}
