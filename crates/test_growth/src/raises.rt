//! Raises that are cut short at each of their calls, what each crash leaves of them, and their second run.
use crate::files::{beyond, disk_with, file_with, slot_with, slots_holding};
use lz_disk::{Disk, MemoryDisk, Pick};
use lz_growth::{RaiseFault, next_count, raise, slots_of};
use std::alloc::{AllocError, Global};
use std::process::Abort;
use std::test::Fail;

const SLOTS: [Option<u64>; 3] = [Some(17), None, Some(5)];

// What these hold, in ascending order.
const NUMBERS: [u64; 2] = [5, 17];

// A raise of which so many calls pass.
#[derive(Clone, Copy, Debug)]
struct Cut {
    passes: u64,
    told: Result<(), RaiseFault>,
    /// How many slots are read after it where nothing crashes.
    read: u64,
    /// How many a crash leaves at least and at most.
    least: u64,
    most: u64,
}

// The calls of a raise from three slots to five: a sync, the zeros, a sync, the byte, a sync. A byte that couldn't be written may be
// found after a crash.
const CUTS: [Cut; 6] = [
    Cut {
        passes: 0,
        told: Err(RaiseFault::Device),
        read: 3,
        least: 3,
        most: 3,
    },
    Cut {
        passes: 1,
        told: Err(RaiseFault::Room),
        read: 3,
        least: 3,
        most: 3,
    },
    Cut {
        passes: 2,
        told: Err(RaiseFault::Device),
        read: 3,
        least: 3,
        most: 3,
    },
    Cut {
        passes: 3,
        told: Err(RaiseFault::Device),
        read: 3,
        least: 3,
        most: 5,
    },
    Cut {
        passes: 4,
        told: Err(RaiseFault::Device),
        read: 5,
        least: 3,
        most: 5,
    },
    Cut {
        passes: 5,
        told: Ok(()),
        read: 5,
        least: 5,
        most: 5,
    },
];

// Raises a file of three slots to so many at most, where so many calls of the raise pass. None where it can't be begun.
#[tactic(auto, using(lz_disk::proofs::GrownRecords::flag_after))]
fn raise_by(disk: &mut MemoryDisk, most: u64, passes: u64) -> Option<Result<(), RaiseFault>> {
    disk.set_bytewise();
    let slots = slots_of(disk).ok()?;
    let to = next_count(slots, most)?;
    disk.fuse(passes);
    Some(raise(disk, slots, to))
}

// A disk on which a raise was cut so.
fn cut_disk(rt: &impl Abort, alloc: Global, cut: Cut) -> Result<MemoryDisk, Fail> {
    let bytes = file_with(alloc, &SLOTS, &beyond()?)?;
    let mut disk = disk_with(alloc, &bytes)?;
    let told = raise_by(&mut disk, 5, cut.passes);
    assert_eq!(rt; told, Some(cut.told), "{cut:?}");
    disk.stop();
    Ok(disk)
}

// What a crash is tried to make of the bytes that aren't durable.
fn picks(alloc: Global) -> Result<Vec<Pick>, AllocError> {
    let mut picks = vec![in alloc;
        Pick::Old,
        Pick::New,
        Pick::Nth(0),
        Pick::Nth(1),
        Pick::Nth(2),
    ]?;
    add_parts(&mut picks)?;
    add_masks(&mut picks)?;
    Ok(picks)
}

fn add_parts(picks: &mut Vec<Pick>) -> Result<(), AllocError> {
    for count in 0..41 {
        picks.push(Pick::Part(count))?;
    }
    Ok(())
}

// Each bit alone, and all but that one.
fn add_masks(picks: &mut Vec<Pick>) -> Result<(), AllocError> {
    for place in 0u32..16 {
        let one = 0x8000 >> place;
        picks.push(Pick::Mask(one))?;
        picks.push(Pick::Mask(!one))?;
    }
    Ok(())
}

#[test]
fn each_crash_of_a_raise_leaves_the_set(rt: HostRuntime) -> Result<(), Fail> {
    let picks = picks(rt.alloc())?;
    for cut in CUTS {
        let disk = cut_disk(&rt, rt.alloc(), cut)?;
        crash_by_each(&rt, rt.alloc(), &disk, cut, &picks)?;
    }
    Ok(())
}

fn crash_by_each(
    rt: &impl Abort,
    alloc: Global,
    disk: &MemoryDisk,
    cut: Cut,
    picks: &[Pick],
) -> Result<(), Fail> {
    for pick in picks {
        let slots = slots_holding(alloc, disk.crashed(*pick)?, &NUMBERS).unwrap_or(0);
        assert!(rt;
            slots == cut.least || slots == cut.most,
            "{cut:?}, {pick:?}: {slots}"
        );
    }
    Ok(())
}

#[test]
fn what_a_raise_leaves_can_be_read_at_once(rt: HostRuntime) -> Result<(), Fail> {
    for cut in CUTS {
        let disk = cut_disk(&rt, rt.alloc(), cut)?;
        let slots = slots_holding(rt.alloc(), disk, &NUMBERS);
        assert_eq!(rt; slots, Some(cut.read), "{cut:?}");
    }
    Ok(())
}

// The byte of the number is loose, and a crash leaves the old one or the new one.
#[test]
fn a_crash_at_the_byte_picks_the_old_number_or_the_new_one(rt: HostRuntime) -> Result<(), Fail> {
    for (cut, pick, slots) in [
        (CUTS[3], Pick::Old, 3),
        (CUTS[3], Pick::New, 3),
        (CUTS[3], Pick::Nth(0), 5),
        (CUTS[4], Pick::Old, 3),
        (CUTS[4], Pick::New, 5),
        (CUTS[4], Pick::Part(0), 3),
        (CUTS[4], Pick::Part(1), 5),
        (CUTS[4], Pick::Mask(0x8000), 5),
        (CUTS[4], Pick::Mask(0x7fff), 3),
    ] {
        let disk = cut_disk(&rt, rt.alloc(), cut)?.crashed(pick)?;
        let found = slots_holding(rt.alloc(), disk, &NUMBERS);
        assert_eq!(rt; found, Some(slots), "{cut:?}, {pick:?}");
    }
    Ok(())
}

#[test]
fn a_raise_that_is_run_again_ends(rt: HostRuntime) -> Result<(), Fail> {
    let picks = picks(rt.alloc())?;
    for cut in CUTS {
        let disk = cut_disk(&rt, rt.alloc(), cut)?;
        run_again_after_each(&rt, rt.alloc(), &disk, &picks)?;
    }
    Ok(())
}

fn run_again_after_each(
    rt: &impl Abort,
    alloc: Global,
    disk: &MemoryDisk,
    picks: &[Pick],
) -> Result<(), Fail> {
    for pick in picks {
        let mut left = disk.crashed(*pick)?;
        assert!(rt; end_raise(&mut left), "{pick:?}");
        assert!(rt; are_new_slots_zero(left.bytes()), "{pick:?}");
        assert_eq!(rt; slots_holding(alloc, left, &NUMBERS), Some(5), "{pick:?}");
    }
    Ok(())
}

// Raises a file that may have been raised already.
#[tactic(auto, using(lz_disk::proofs::GrownRecords::flag_after))]
fn end_raise(disk: &mut MemoryDisk) -> bool {
    disk.set_bytewise();
    let Ok(slots) = slots_of(disk) else {
        return false;
    };
    match next_count(slots, 5) {
        Some(to) => raise(disk, slots, to).is_ok(),
        None => true,
    }
}

// The slots 3 and 4 are the bytes from 64 up to 96.
fn are_new_slots_zero(bytes: &[u8]) -> bool {
    bytes.len() >= 96 && bytes[64..96] == [0; 32]
}

// Raises a file of three slots to five, where so many calls of the raise pass, after slot 1 was written and not made durable.
#[tactic(auto, using(lz_disk::proofs::GrownRecords::flag_after))]
fn raise_after_write(
    disk: &mut MemoryDisk,
    member: &[u8; 16],
    passes: u64,
) -> Option<Result<(), RaiseFault>> {
    disk.set_bytewise();
    let Ok(slots) = slots_of(disk) else {
        return None;
    };
    let to = next_count(slots, 5)?;
    if slots < 2 {
        return None;
    }
    let Ok(()) = disk.write(32, member) else {
        return None;
    };
    disk.fuse(passes);
    Some(raise(disk, slots, to))
}

// The first call of a raise makes durable what was written before it.
#[test]
fn a_raise_keeps_what_was_written_before_it(rt: HostRuntime) -> Result<(), Fail> {
    for (passes, told, slots) in [(1, Err(RaiseFault::Room), 3), (5, Ok(()), 5)] {
        let bytes = file_with(rt.alloc(), &SLOTS, &beyond()?)?;
        let mut disk = disk_with(rt.alloc(), &bytes)?;
        let raised = raise_after_write(&mut disk, &slot_with(Some(9))?, passes);
        assert_eq!(rt; raised, Some(told), "{passes} calls");
        let left = slots_holding(rt.alloc(), disk.crashed(Pick::Old)?, &[5, 9, 17]);
        assert_eq!(rt; left, Some(slots), "{passes} calls");
    }
    Ok(())
}

// Three more slots lie there, which hold 9. Two are cleared, and the last one stays.
#[test]
fn a_raise_clears_what_lies_in_its_new_slots(rt: HostRuntime) -> Result<(), Fail> {
    let nine = slot_with(Some(9))?;
    let mut bytes = file_with(rt.alloc(), &SLOTS, &nine)?;
    bytes.extend_from_slice(&nine)?;
    bytes.extend_from_slice(&nine)?;
    let mut disk = disk_with(rt.alloc(), &bytes)?;
    assert_eq!(rt; raise_by(&mut disk, 5, 5), Some(Ok(())));
    let raised = [Some(17), None, Some(5), None, None];
    let wanted = file_with(rt.alloc(), &raised, &nine)?;
    assert_eq!(rt; disk.bytes(), wanted.as_slice());
    Ok(())
}

#[test]
fn a_raise_by_one_slot_clears_it(rt: HostRuntime) -> Result<(), Fail> {
    let bytes = file_with(rt.alloc(), &SLOTS, &slot_with(Some(9))?)?;
    let mut disk = disk_with(rt.alloc(), &bytes)?;
    assert_eq!(rt; raise_by(&mut disk, 4, 5), Some(Ok(())));
    let wanted = file_with(rt.alloc(), &[Some(17), None, Some(5), None], &[])?;
    assert_eq!(rt; disk.bytes(), wanted.as_slice());
    Ok(())
}
