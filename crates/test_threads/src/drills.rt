//! Each device call of a set's commands fails in turn, and each kind of crash follows.
ghost use Rattle.std.specs.Prelude.{◌≡◌, All};
ghost use Rattle.lz_set.specs.Names.{MayCall};
ghost use Rattle.lz_set.specs.Blanks.{MayBeNamed};
ghost use Rattle.lz_disk.specs.Records.{device_of};

use crate::talks::{Talked, talk_on};
use crate::threads::ask;
use lz_disk::MemoryDisk;
use lz_proto::End;
use lz_set::{Blank, Fault, Named, NoGate, Pass, Set};
use lz_slot::{Command, Key};
use lz_vault::suit;
use std::alloc::Global;
use std::marker::Brand;
use std::process::Abort;
use std::sync::Wait;
use std::test::Fail;
use std::time::Clock;
use test_support::{ENDS, FAILINGS, Failing, keys_in, last_pass, made, set_failing};

/// How many device calls an open makes.
const OPENING: u64 = 4;

/// The members before the first of the commands, and after each.
const STATES: [&[u64]; 5] = [&[], &[1], &[1, 2], &[2], &[2]];

// The commands that are asked.
fn commands(alloc: Global) -> Option<Vec<Command>> {
    let (one, two) = (Key::new(1)?, Key::new(2)?);
    let commands = [
        Command::Add(one),
        Command::Add(two),
        Command::Remove(one),
        Command::Has(two),
    ];
    commands.to_vec(alloc).ok()
}

/// What commands were answered, and the disk that they left.
#[derive(Drop)]
struct Played {
    answers: Vec<Result<bool, Fault>>,
    disk: MemoryDisk,
}

// Asks the first so many of the commands.
fn ask_all<N: Named, R: Wait>(
    rt: &R,
    alloc: Global,
    set: &Set<MemoryDisk, NoGate, N>,
    passes: Vec<Pass>,
    count: usize,
) -> Option<Vec<Result<bool, Fault>>>
    requires { All (MayCall N.board) passes.items }
{
    let mut passes = passes;
    let mut pass = last_pass::<N>(&mut passes)?;
    let mut answers = Vec::new(alloc);
    for command in commands(alloc)?.into_iter().take(count) {
        answers.push(ask(rt, set, &mut pass, command)).ok()?;
    }
    Some(answers)
}

// The same on a set that was opened.
fn play<N: Named, R: Wait>(
    rt: &R,
    alloc: Global,
    blank: Blank<MemoryDisk, NoGate>,
    count: usize,
) -> Option<Played>
    requires { MayBeNamed device_of N.board N.first N.format blank }
{
    let (set, passes) = blank.start::<N>();
    let answers = ask_all(rt, alloc, &set, passes, count)?;
    Some(Played {
        answers,
        disk: set.close(),
    })
}

// The same on a set that the disk holds.
fn play_on<R: Wait>(rt: &R, alloc: Global, disk: MemoryDisk, count: usize) -> Option<Played> {
    let mut disk = disk;
    suit(&mut disk);
    match Set::open(alloc, disk, NoGate, 1, 1) {
        Ok(blank) => play::<Brand, _>(rt, alloc, blank, count),
        Err(_) => None,
    }
}

// What the commands are answered where the one of this number, from 0, meets the fault.
fn wanted(failed: usize, at: usize) -> Result<bool, Fault> {
    if at < failed {
        Ok(true)
    } else if at == failed {
        Err(Fault::Device)
    } else {
        Err(Fault::Halted)
    }
}

// Whether the disk holds the members from before this command or from after it.
fn holds(alloc: Global, disk: MemoryDisk, failed: usize) -> bool {
    let Some(keys) = keys_in(alloc, disk) else {
        return false;
    };
    let mut states = STATES.iter().skip(failed).take(2);
    states.any(|state| *state == keys.as_slice())
}

// A device failed at the command of this number. What a stop or a crash leaves holds what was answered, with that one or without it.
fn end_each_way(
    rt: &impl Abort,
    alloc: Global,
    disk: MemoryDisk,
    failing: Failing,
    passes: u64,
    failed: usize,
) -> Result<(), Fail> {
    let mut disk = disk;
    for pick in ENDS.iter().flatten() {
        let crashed = disk.crashed(*pick)?;
        assert!(rt;
            holds(alloc, crashed, failed),
            "{failing:?} {passes} {pick:?}"
        );
    }
    disk.stop();
    assert!(rt; holds(alloc, disk, failed), "{failing:?} {passes}");
    Ok(())
}

// The commands on a new set of two slots whose device fails after so many calls: the one of this number meets the fault, and
// no call follows it. What is left holds what was answered, with that one or without it, whatever a stop or a crash leaves.
fn drill<R: Wait + Abort>(
    rt: &R,
    alloc: Global,
    failing: Failing,
    passes: u64,
    failed: usize,
) -> Result<(), Fail> {
    let Some(mut disk) = made(alloc, 2) else {
        panic!(rt; "no disk")
    };
    let before = disk.calls().wrapping_add(OPENING);
    set_failing(&mut disk, failing, passes.wrapping_add(OPENING));
    let Some(played) = play_on(rt, alloc, disk, 4) else {
        panic!(rt; "no set")
    };
    let Played { answers, disk } = played;
    let is_told = answers
        .iter()
        .enumerate()
        .all(|(at, answer)| *answer == wanted(failed, at));
    assert!(rt;
        answers.len() == 4 && is_told,
        "{failing:?} {passes}: {answers:?}"
    );
    assert!(rt; disk.calls().wrapping_sub(before) == passes.wrapping_add(1));
    end_each_way(rt, alloc, disk, failing, passes, failed)
}

// The additions make four device calls each, the removal two, and the look none; each of these calls fails in turn.
#[test]
fn each_device_call_fails(rt: HostRuntime) -> Result<(), Fail> {
    for failing in FAILINGS {
        for (failed, calls) in [(0usize, 0u64..4), (1, 4..8), (2, 8..10)] {
            for passes in calls {
                drill(&rt, rt.alloc(), failing, passes, failed)?;
            }
        }
    }
    Ok(())
}

// The same commands in a session of the service.
const LINES: &[u8] = b"add 1\nadd 2\nremove 1\nhas 2\n";

// What the session is told where the command of this number meets the fault.
const TOLD: [&[u8]; 3] = [b"halted\n", b"yes\nhalted\n", b"yes\nyes\nhalted\n"];

// A session on a new set of two slots whose device fails after so many calls.
fn talk_failing<R: Wait + Clock + Abort>(
    rt: &R,
    alloc: Global,
    failing: Failing,
    passes: u64,
    output: &mut Vec<u8>,
) -> Talked {
    let Some(mut disk) = made(alloc, 2) else {
        panic!(rt; "no disk")
    };
    set_failing(&mut disk, failing, passes.wrapping_add(OPENING));
    let mut reader = LINES;
    let Some(talked) = talk_on(rt, alloc, disk, &mut reader, output) else {
        panic!(rt; "no set")
    };
    talked
}

// The session ends there, and another one of the set with its first command. The disk is left as above.
fn drill_session<R: Wait + Clock + Abort>(
    rt: &R,
    alloc: Global,
    failing: Failing,
    passes: u64,
    failed: usize,
) -> Result<(), Fail> {
    let mut output: Vec<u8> = Vec::new(alloc);
    let Talked { ended, told, disk } = talk_failing(rt, alloc, failing, passes, &mut output);
    let is_halted = ended == Ok(End::Halted) && told.as_slice() == b"halted\n".as_slice();
    let is_told = TOLD.get(failed).copied() == Some(output.as_slice());
    assert!(rt; is_halted && is_told, "{failing:?} {passes}");
    end_each_way(rt, alloc, disk, failing, passes, failed)
}

#[test]
fn each_device_call_of_a_session_fails(rt: HostRuntime) -> Result<(), Fail> {
    for failing in FAILINGS {
        for (failed, calls) in [(0usize, 0u64..4), (1, 4..8), (2, 8..10)] {
            for passes in calls {
                drill_session(&rt, rt.alloc(), failing, passes, failed)?;
            }
        }
    }
    Ok(())
}

// Without a fault the commands make these device calls, counted from the first one on.
#[test]
fn commands_make_ten_device_calls(rt: HostRuntime) -> Result<(), Fail> {
    for (count, calls) in [(0, 0u64), (1, 4), (2, 8), (3, 10), (4, 10)] {
        let Some(disk) = made(rt.alloc(), 2) else {
            panic!(rt; "no disk")
        };
        let before = disk.calls().wrapping_add(OPENING);
        let Some(played) = play_on(&rt, rt.alloc(), disk, count) else {
            panic!(rt; "no set")
        };
        let Played { answers, disk } = played;
        assert!(rt; answers.len() == count && answers.iter().all(|answer| *answer == Ok(true)));
        assert_eq!(rt; disk.calls().wrapping_sub(before), calls);
        assert!(rt; holds(rt.alloc(), disk, count));
    }
    Ok(())
}
