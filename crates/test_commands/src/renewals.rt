//! A renewal whose device calls fail in turn.
use crate::commands::disk_with;
use lazyset_set_commands::{Shown, renew_on, survey_on};
use lz_disk::MemoryDisk;
use lz_slot::Format;
use std::alloc::{AllocError, Global};
use std::test::Fail;
use test_support::{ENDS, FAILINGS, Failing, set_failing};

// A file of format 1 with three slots, which held 4 between 17 and 5.
const OLD: [u8; 64] = [
    0xa5, 0x4c, 0x5a, 0x59, 0x53, 0x45, 0x54, 0x31, 0, 0, 0, 0, 0, 0, 0, 3, //
    0xa5, 0, 0, 0, 0, 0, 0, 0, 0, 0, 0, 0, 0, 0, 0, 17, //
    0, 0, 0, 0, 0, 0, 0, 0, 0, 0, 0, 0, 0, 0, 0, 4, //
    0xa5, 0, 0, 0, 0, 0, 0, 0, 0, 0, 0, 0, 0, 0, 0, 5,
];

// A file of format 2 with two slots that hold 17 and 5.
const RENEWED: [u8; 48] = [
    0xa5, 0x4c, 0x5a, 0x59, 0x53, 0x45, 0x54, 0x32, 0, 0, 0, 0, 0, 0, 0, 2, //
    0xa5, 0, 0, 0, 0, 0, 0, 0, 0, 0, 0, 0, 0, 0, 0, 17, //
    0xa5, 0, 0, 0, 0, 0, 0, 0, 0, 0, 0, 0, 0, 0, 0, 5,
];

/// What a renewal into two slots ended with and printed, and both disks.
#[derive(Drop)]
struct Renewed {
    code: u8,
    printed: Vec<u8>,
    old: MemoryDisk,
    new: MemoryDisk,
}

fn renew(alloc: Global, old: MemoryDisk, new: MemoryDisk) -> Renewed {
    let mut old = old;
    let mut new = new;
    let mut printed: Vec<u8> = Vec::new(alloc);
    let status = renew_on(alloc, &mut printed, &mut old, &mut new, Format::Two, 2);
    Renewed {
        code: status.code(),
        printed,
        old,
        new,
    }
}

impl Renewed {
    fn tells(&self, code: u8, printed: &[u8]) -> bool {
        self.code == code && self.printed.as_slice() == printed
    }
}

#[test]
fn moves_the_members_by_ten_device_calls(rt: HostRuntime) -> Result<(), Fail> {
    let old = disk_with(rt.alloc(), &OLD)?;
    let done = renew(rt.alloc(), old, disk_with(rt.alloc(), &[])?);
    assert!(rt; done.tells(0, b"renewed 2\n"));
    assert_eq!(rt; done.new.bytes(), RENEWED.as_slice());
    assert_eq!(rt; done.new.calls(), 10);
    assert_eq!(rt; done.old.bytes(), OLD.as_slice());
    Ok(())
}

// Whether each end leaves a new file that isn't made, or holds exactly the members.
fn is_unmade_or_whole(alloc: Global, disk: &MemoryDisk) -> Result<bool, AllocError> {
    for end in ENDS {
        let disk = match end {
            Some(pick) => disk.crashed(pick)?,
            None => disk_with(alloc, disk.bytes())?,
        };
        let mut told: Vec<u8> = Vec::new(alloc);
        let mut bytes = disk.bytes();
        let code = survey_on(alloc, &mut bytes, &mut told, Shown::Findings).code();
        let is_unmade = code == 3 && told.as_slice() == b"refused 1\n".as_slice();
        let is_whole = code == 0
            && told.as_slice() == b"slot 0 key 17\nslot 1 key 5\ngood\n".as_slice();
        if !is_unmade && !is_whole {
            return Ok(false);
        }
    }
    Ok(true)
}

// Whether each end leaves the old file as it was.
fn is_as_before(disk: &MemoryDisk) -> Result<bool, AllocError> {
    for pick in ENDS.iter().flatten() {
        if disk.crashed(*pick)?.bytes() != OLD.as_slice() {
            return Ok(false);
        }
    }
    Ok(disk.bytes() == OLD.as_slice())
}

// A renewal of a disk onto an empty one, of which one or the other fails after so many calls.
fn renew_failing(
    alloc: Global,
    fails_new: bool,
    failing: Failing,
    passes: u64,
) -> Result<Renewed, AllocError> {
    let mut old = disk_with(alloc, &OLD)?;
    let mut new = disk_with(alloc, &[])?;
    let failed = if fails_new { &mut new } else { &mut old };
    set_failing(failed, failing, passes);
    Ok(renew(alloc, old, new))
}

#[test]
fn a_failed_call_on_the_new_file(rt: HostRuntime) -> Result<(), Fail> {
    for failing in FAILINGS {
        for passes in 0..10 {
            let done = renew_failing(rt.alloc(), true, failing, passes)?;
            let is_told = done.tells(1, b"refused new 3\n");
            assert!(rt; is_told && done.new.calls() == passes.wrapping_add(1));
            let is_left = is_unmade_or_whole(rt.alloc(), &done.new)?;
            assert!(rt; is_left, "after {passes} calls");
            assert!(rt; is_as_before(&done.old)?, "after {passes} calls");
        }
    }
    Ok(())
}

// An open asks four times: a sync, the size, the head, and the slots. Nothing is asked of the new file then, and the old one is
// as before.
#[test]
fn a_failed_call_on_the_old_file(rt: HostRuntime) -> Result<(), Fail> {
    for failing in FAILINGS {
        for passes in 0..4 {
            let done = renew_failing(rt.alloc(), false, failing, passes)?;
            let is_told = done.tells(1, b"refused old 7\n");
            assert!(rt; is_told && done.new.calls() == 0, "after {passes} calls");
            assert!(rt; is_as_before(&done.old)?, "after {passes} calls");
        }
    }
    Ok(())
}
