//! Threads that share a set.
ghost use Rattle.std.specs.Prelude.{◌≡◌, ◌≤◌, All};
ghost use Rattle.lz_slot.specs.Limits.{most_buckets, most_passes};
ghost use Rattle.lz_set.specs.Names.{MayCall};
ghost use Rattle.lz_set.specs.Blanks.{MayBeNamed};
ghost use Rattle.lz_disk.specs.Records.{device_of};

use lz_disk::{MemoryDisk, Pick};
use lz_set::{Blank, Fault, Named, NoGate, Pass, Set, StepGate};
use lz_slot::{Command, Key};
use lz_vault::suit;
use std::alloc::Global;
use std::marker::Brand;
use std::process::Abort;
use std::sync::Wait;
use std::test::Fail;
use std::thread;
use std::thread::Threads;
use test_support::{ENDS, FAILINGS, Failing, end_life, keys_in, made, set_failing};

/// What a thread was answered.
#[derive(Drop)]
pub struct Tally {
    // How often each key was added, less how often it was removed.
    gains: [i64; 5],
    // The first call that a fault cut off.
    cut_off: Option<Command>,
    devices: u64,
    halts: u64,
    others: u64,
}

impl Tally {
    fn new() -> Tally {
        Tally {
            gains: [0; 5],
            cut_off: None,
            devices: 0,
            halts: 0,
            others: 0,
        }
    }

    fn note(&mut self, command: Command, answer: Result<bool, Fault>) {
        match (answer, command) {
            (Ok(true), Command::Add(key)) => self.gain(key, 1),
            (Ok(true), Command::Remove(key)) => self.gain(key, -1),
            (Ok(_), _) => {}
            // Such a call counts as not made: slots of removed keys wait for the other threads to go on.
            (Err(Fault::Full(_)), _) => {}
            (Err(fault), _) => {
                self.note_fault(fault);
                if self.cut_off.is_none() {
                    self.cut_off = Some(command);
                }
            }
        }
    }

    fn note_fault(&mut self, fault: Fault) {
        let count = match fault {
            Fault::Device => &mut self.devices,
            Fault::Halted => &mut self.halts,
            Fault::Full(_) | Fault::Worn | Fault::OldFile => &mut self.others,
        };
        *count = count.wrapping_add(1);
    }

    fn gain(&mut self, key: Key, more: i64) {
        if let Some(gain) = self.gains.get_mut(key.get() as usize) {
            *gain = gain.wrapping_add(more);
        }
    }
}

// Whether what all threads were answered leads to these keys: each key as often added as removed, and once more where it is
// a member, but for the call that each thread may have had cut off.
fn leads_to(tallies: &[Tally], keys: &[u64]) -> bool {
    (0..5).all(|key| {
        let mut low = if keys.contains(&key) { -1i64 } else { 0 };
        let mut high = low;
        for tally in tallies {
            let gain = tally.gains.get(key as usize).copied().unwrap_or(0);
            low = low.wrapping_add(gain);
            high = high.wrapping_add(gain);
            match tally.cut_off {
                Some(Command::Add(cut)) if cut.get() == key => high = high.wrapping_add(1),
                Some(Command::Remove(cut)) if cut.get() == key => low = low.wrapping_sub(1),
                _ => {}
            }
        }
        low <= 0 && 0 <= high
    })
}

/// Asks a set for what the command says.
pub fn ask<G: StepGate, N: Named, R: Wait>(
    rt: &R,
    set: &Set<MemoryDisk, G, N>,
    pass: &mut Pass,
    command: Command,
) -> Result<bool, Fault>
    requires { MayCall N.board pass.old }
    ensures { MayCall N.board pass.new }
{
    match command {
        Command::Add(key) => set.add(rt, pass, key),
        Command::Remove(key) => set.remove(rt, pass, key),
        Command::Has(key) => set.has(rt, pass, key),
    }
}

/// Adds and removes the same few keys as every other thread does, over and over.
pub fn churn<N: Named, R: Wait>(
    rt: &R,
    set: &Set<MemoryDisk, NoGate, N>,
    pass: Pass,
    rounds: u64,
) -> Tally
    requires { MayCall N.board pass }
{
    let mut pass = pass;
    let mut tally = Tally::new();
    for round in 0..rounds {
        if let Some(key) = Key::new(round % 5) {
            let added = set.add(rt, &mut pass, key);
            tally.note(Command::Add(key), added);
        }
        if let Some(key) = Key::new(round % 7 % 5) {
            let removed = set.remove(rt, &mut pass, key);
            tally.note(Command::Remove(key), removed);
        }
    }
    tally
}

// A thread for each pass, and what each was answered.
fn churn_all<N: Named + Send + Sync, R: Threads + Wait + Sync>(
    rt: &R,
    alloc: Global,
    set: &Set<MemoryDisk, NoGate, N>,
    passes: Vec<Pass>,
    rounds: u64,
) -> Vec<Tally>
    requires { All (MayCall N.board) passes.items }
{
    thread::scope(
        thread::scope_env(),
        rt,
        move |scope| -> Vec<Tally>
            requires { All (MayCall N.board) passes.items }
        {
            let mut threads = Vec::new(alloc);
            for pass in passes {
                let thread = scope.spawn(
                    move || -> Tally
                        requires { MayCall N.board pass }
                    { churn(rt, set, pass, rounds) },
                );
                if let Ok(thread) = thread {
                    let _ = threads.push(thread);
                }
            }
            let mut tallies = Vec::new(alloc);
            for thread in threads {
                let _ = tallies.push(thread.join(rt));
            }
            tallies
        },
    )
}

// What threads were answered that shared a set, and the disk that they left.
#[derive(Drop)]
struct Shared {
    tallies: Vec<Tally>,
    disk: MemoryDisk,
}

fn share<N: Named + Send + Sync, R: Threads + Wait + Sync>(
    rt: &R,
    alloc: Global,
    blank: Blank<MemoryDisk, NoGate>,
    rounds: u64,
) -> Shared
    requires { MayBeNamed device_of N.board N.first N.format blank }
{
    let (set, passes) = blank.start::<N>();
    let tallies = churn_all(rt, alloc, &set, passes, rounds);
    Shared {
        tallies,
        disk: set.close(),
    }
}

// Opens the set of a disk for so many threads, which share it.
fn run<R: Threads + Wait + Sync + Abort>(
    rt: &R,
    alloc: Global,
    disk: MemoryDisk,
    buckets: usize,
    threads: usize,
    rounds: u64,
) -> Shared
    requires buckets { (1 ≤ buckets) × (buckets ≤ most_buckets) }
    requires threads { (1 ≤ threads) × (threads ≤ most_passes) }
{
    let mut disk = disk;
    suit(&mut disk);
    match Set::open(alloc, disk, NoGate, buckets, threads) {
        Ok(blank) => share::<Brand, _>(rt, alloc, blank, rounds),
        Err(_) => panic!(rt; "no set"),
    }
}

// A disk with a new file.
fn new_disk(rt: &impl Abort, alloc: Global) -> MemoryDisk {
    let Some(disk) = made(alloc, 64) else {
        panic!(rt; "no disk")
    };
    disk
}

// The keys that a disk's file holds.
fn keys_left(rt: &impl Abort, alloc: Global, disk: MemoryDisk) -> Vec<u64> {
    let Some(keys) = keys_in(alloc, disk) else {
        panic!(rt; "no file")
    };
    keys
}

// Two threads share a new set of so many buckets.
fn add_up<R: Threads + Wait + Sync + Abort>(rt: &R, alloc: Global, buckets: usize)
    requires { (1 ≤ buckets) × (buckets ≤ most_buckets) }
{
    let disk = new_disk(rt, alloc);
    let Shared { tallies, mut disk } = run(rt, alloc, disk, buckets, 2, 10_000);
    assert!(rt; tallies.len() == 2 && tallies.iter().all(|tally| tally.cut_off.is_none()));
    disk.stop();
    let keys = keys_left(rt, alloc, disk);
    assert!(rt; leads_to(&tallies, &keys), "{buckets} buckets: {keys:?}");
}

#[test]
fn two_threads_add_up_to_a_set(rt: HostRuntime) -> Result<(), Fail> {
    for buckets in [1, 7] {
        add_up(&rt, rt.alloc(), buckets);
    }
    Ok(())
}

// Four threads share a new set whose device fails.
fn share_failing<R: Threads + Wait + Sync + Abort>(
    rt: &R,
    alloc: Global,
    failing: Failing,
) -> Shared {
    let mut disk = new_disk(rt, alloc);
    set_failing(&mut disk, failing, 400);
    run(rt, alloc, disk, 1, 4, 300)
}

// How many calls were told that their device call failed.
fn devices_of(tallies: &[Tally]) -> u64 {
    tallies
        .iter()
        .fold(0u64, |sum, tally| sum.wrapping_add(tally.devices))
}

// The call whose device call failed is told, and all others that come then are halted. What was answered is there, whatever the
// crash or the stop after it leaves.
fn end_failed(
    rt: &impl Abort,
    alloc: Global,
    shared: Shared,
    failing: Failing,
    end: Option<Pick>,
) -> Result<(), Fail> {
    let Shared { tallies, mut disk } = shared;
    assert_eq!(rt; devices_of(&tallies), 1);
    assert!(rt; tallies.iter().all(|tally| tally.others == 0));
    end_life(&mut disk, end)?;
    let keys = keys_left(rt, alloc, disk);
    assert!(rt;
        tallies.len() == 4 && leads_to(&tallies, &keys),
        "{failing:?} {end:?}: {keys:?}"
    );
    Ok(())
}

#[test]
fn a_device_fails_under_four_threads(rt: HostRuntime) -> Result<(), Fail> {
    for failing in FAILINGS {
        for end in ENDS {
            let shared = share_failing(&rt, rt.alloc(), failing);
            end_failed(&rt, rt.alloc(), shared, failing, end)?;
        }
    }
    Ok(())
}
