//! Each device call of a making, of an open and of a short run fails in turn, and each kind of end follows.
use crate::commands::{HELD, Ran, TWO_SLOTS, disk_with, make, run};
use lz_disk::{Disk, MemoryDisk, Pick};
use lz_slot::Format;
use std::alloc::{AllocError, Global};
use std::sync::Wait;
use std::test::Fail;
use std::time::Clock;
use test_support::{ENDS, FAILINGS, Failing, end_life, set_failing};

// What a fresh run answers to whether 17 and 18 are members, once a life has ended so.
fn found<R: Wait + Clock + AllocGlobal>(
    rt: &R,
    disk: &MemoryDisk,
    end: Option<Pick>,
) -> Result<Vec<u8>, AllocError> {
    let disk = match end {
        Some(pick) => disk.crashed(pick)?,
        None => disk_with(rt.alloc(), disk.bytes())?,
    };
    Ok(run(rt, disk, b"has 17\nhas 18\n").printed)
}

// Whether each end leaves one of the two.
fn leaves<R: Wait + Clock + AllocGlobal>(
    rt: &R,
    disk: &MemoryDisk,
    before: &[u8],
    after: &[u8],
) -> Result<bool, AllocError> {
    for end in ENDS {
        let found = found(rt, disk, end)?;
        if found.as_slice() != before && found.as_slice() != after {
            return Ok(false);
        }
    }
    Ok(true)
}

/// What a run prints whose device fails, and what is found then of 17 and 18: without the command under way, or with it.
#[derive(Clone, Copy)]
struct Left {
    printed: &'static [u8],
    before: &'static [u8],
    after: &'static [u8],
}

// Where the fault is met: at the open, at one of the first three commands, or nowhere. The last command asks the device for
// nothing.
const LEFT: [Left; 5] = [
    Left {
        printed: b"refused 7\n",
        before: b"no\nno\n",
        after: b"no\nno\n",
    },
    Left {
        printed: b"halted\n",
        before: b"no\nno\n",
        after: b"yes\nno\n",
    },
    Left {
        printed: b"yes\nhalted\n",
        before: b"yes\nno\n",
        after: b"yes\nyes\n",
    },
    Left {
        printed: b"yes\nyes\nhalted\n",
        before: b"yes\nyes\n",
        after: b"no\nyes\n",
    },
    Left {
        printed: b"yes\nyes\nyes\nyes\n",
        before: b"no\nyes\n",
        after: b"no\nyes\n",
    },
];

const LINES: &[u8] = b"add 17\nadd 18\nremove 17\nhas 18\n";

// Whether a run whose device fails after so many calls prints and leaves this.
fn is_as_wanted<R: Wait + Clock + AllocGlobal>(
    rt: &R,
    failing: Failing,
    passes: u64,
    left: Left,
) -> Result<bool, AllocError> {
    let mut disk = disk_with(rt.alloc(), &TWO_SLOTS)?;
    set_failing(&mut disk, failing, passes);
    let Ran {
        code,
        printed,
        disk,
    } = run(rt, disk, LINES);
    let (status, calls) = if passes < 14 {
        (1, passes.wrapping_add(1))
    } else {
        (0, 14)
    };
    let is_told = code == status && printed.as_slice() == left.printed && disk.calls() == calls;
    Ok(is_told && leaves(rt, &disk, left.before, left.after)?)
}

// The open makes four device calls, an addition four and the removal two: the call that fails is the last one. What was answered
// lasts, and the command under way may.
#[test]
fn each_device_call_of_a_run_fails(rt: HostRuntime) -> Result<(), Fail> {
    for failing in FAILINGS {
        for (left, calls) in LEFT.iter().zip([0u64..4, 4..8, 8..12, 12..14, 14..15]) {
            for passes in calls {
                let is_left = is_as_wanted(&rt, failing, passes, *left)?;
                assert!(rt; is_left, "{failing:?} after {passes} calls");
            }
        }
    }
    Ok(())
}

// An open whose device call fails leaves the members as they were, whatever comes after it.
#[test]
fn each_device_call_of_an_open_fails(rt: HostRuntime) -> Result<(), Fail> {
    for failing in FAILINGS {
        for passes in 0..4 {
            let mut disk = disk_with(rt.alloc(), &HELD)?;
            set_failing(&mut disk, failing, passes);
            let ran = run(&rt, disk, b"remove 17\n");
            assert!(rt; ran.tells(1, b"refused 7\n"), "after {passes} calls");
            let is_left = leaves(&rt, &ran.disk, b"yes\nno\n", b"yes\nno\n")?;
            assert!(rt; is_left, "after {passes} calls");
        }
    }
    Ok(())
}

// A making whose device's call number `passes` fails.
fn make_until(alloc: Global, failing: Failing, passes: u64) -> Result<Ran, AllocError> {
    let mut disk = disk_with(alloc, &[])?;
    set_failing(&mut disk, failing, passes);
    Ok(make(alloc, disk, Format::One))
}

// A making that was not acknowledged leaves no made file, or the empty set, whatever comes after it.
#[test]
fn each_device_call_of_a_making_fails(rt: HostRuntime) -> Result<(), Fail> {
    for failing in FAILINGS {
        for passes in 0..10 {
            let made = make_until(rt.alloc(), failing, passes)?;
            assert!(rt; made.tells(1, b"refused 3\n"), "after {passes} calls");
            let is_left = leaves(&rt, &made.disk, b"refused 1\n", b"no\nno\n")?;
            assert!(rt; is_left, "after {passes} calls");
        }
    }
    Ok(())
}

// Before its last sync has succeeded, a making is done or not done, as the crash picks.
#[test]
fn a_making_that_fails_at_its_last_sync(rt: HostRuntime) -> Result<(), Fail> {
    let mut disk = make_until(rt.alloc(), Failing::ForGood, 9)?.disk;
    let found = found(&rt, &disk, Some(Pick::Old))?;
    assert_eq!(rt; found.as_slice(), b"refused 1\n".as_slice());
    disk.crash(Pick::New)?;
    assert_eq!(rt; disk.bytes(), TWO_SLOTS.as_slice());
    Ok(())
}

// A write that is made to fail leaves its bytes loose: the crash picks what they are, and an open gate is found. The open makes
// four calls, and the writing of the key two; the next one writes the gate.
#[test]
fn a_failed_write_is_loose(rt: HostRuntime) -> Result<(), Fail> {
    let mut disk = disk_with(rt.alloc(), &TWO_SLOTS)?;
    disk.trip_after(6);
    let ran = run(&rt, disk, b"add 17\n");
    assert!(rt;
        matches!(ran.disk.bytes().get(16), Some(0)),
        "it reads as before"
    );
    let found = found(&rt, &ran.disk, Some(Pick::Byte(0xa5)))?;
    assert_eq!(rt; found.as_slice(), b"yes\nno\n".as_slice());
    Ok(())
}

// A stop and a crash take a trip away.
#[test]
fn a_trip_fails_one_call(rt: HostRuntime) -> Result<(), Fail> {
    let mut disk = MemoryDisk::new(rt.alloc(), Vec::new(rt.alloc()))?;
    disk.trip();
    disk.trip();
    assert!(rt; disk.sync().is_err());
    assert!(rt; disk.sync().is_ok());
    for end in ENDS {
        disk.trip();
        end_life(&mut disk, end)?;
        assert!(rt; disk.sync().is_ok(), "{end:?}");
    }
    assert_eq!(rt; disk.calls(), 9);
    Ok(())
}
