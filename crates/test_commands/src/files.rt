//! A device over a file that keeps its promises, and to which each end may come: a making that gathers its writes, and runs after it.
ghost use Rattle.std.specs.Prelude.{◌⊎◌, IsTrue, List, ℕ, []};
ghost use Rattle.lz_slot.specs.Sets.{members};
ghost use Rattle.lz_disk.specs.Images.{IsImage};
ghost use Rattle.lz_vault.specs.Makes.{IsUnmadeOrHolds};

use crate::commands::{HELD, Ran, TWO_SLOTS, disk_with};
use lazyset_set_commands::{NoHeed, Status, make_on, run_on};
use lz_disk::{Disk, FileDisk, MemoryDisk, Pick};
use lz_slot::Format;
use lz_vault::suit;
use std::alloc::{AllocError, Global};
use std::sync::Wait;
use std::test::Fail;
use std::time::Clock;
use test_support::{ENDS, FAILINGS, Failing, set_failing};

// Makes a file of two slots on the device over this one, and hands the file back.
fn make_over<F: Disk>(alloc: Global, printed: &mut Vec<u8>, file: F) -> (Status, F)
    ensures { IsTrue (F.device file).honest
        → (t : List ℕ) → (F.device result.1).left_since (F.device file).moment t → IsImage (F.device file).medium t ⊎ IsUnmadeOrHolds Format.One 2 (members []) t }
{
    let mut disk = FileDisk::over(file);
    disk.gather(alloc);
    let status = make_on(printed, &mut disk, 2, Format::One);
    (status, disk.into_file())
}

fn make(alloc: Global, file: MemoryDisk) -> Ran {
    let mut printed: Vec<u8> = Vec::new(alloc);
    let (status, disk) = make_over(alloc, &mut printed, file);
    Ran {
        code: status.code(),
        printed,
        disk,
    }
}

fn run<R: Wait + Clock + AllocGlobal>(rt: &R, file: MemoryDisk, lines: &[u8]) -> Ran {
    let mut input = lines;
    let mut printed: Vec<u8> = Vec::new(rt.alloc());
    let mut file = file;
    suit(&mut file);
    let (status, disk) = run_on(
        rt,
        &mut input,
        &mut printed,
        &NoHeed,
        FileDisk::over(file),
        1,
    );
    Ran {
        code: status.code(),
        printed,
        disk: disk.into_file(),
    }
}

// What a fresh run answers to whether 17 is a member, once a life has ended so.
fn found<R: Wait + Clock + AllocGlobal>(
    rt: &R,
    file: &MemoryDisk,
    end: Option<Pick>,
) -> Result<Vec<u8>, AllocError> {
    let file = match end {
        Some(pick) => file.crashed(pick)?,
        None => disk_with(rt.alloc(), file.bytes())?,
    };
    Ok(run(rt, file, b"has 17\n").printed)
}

// Whether each end leaves one of the two.
fn leaves<R: Wait + Clock + AllocGlobal>(
    rt: &R,
    file: &MemoryDisk,
    before: &[u8],
    after: &[u8],
) -> Result<bool, AllocError> {
    for end in ENDS {
        let found = found(rt, file, end)?;
        if found.as_slice() != before && found.as_slice() != after {
            return Ok(false);
        }
    }
    Ok(true)
}

// Of its ten calls the three writes side by side are made as one.
#[test]
fn a_making_is_durable(rt: HostRuntime) -> Result<(), Fail> {
    let made = make(rt.alloc(), disk_with(rt.alloc(), &[])?);
    assert!(rt; made.tells(0, b"made 2\n"));
    assert_eq!(rt; made.disk.crashed(Pick::Old)?.bytes(), TWO_SLOTS.as_slice());
    assert_eq!(rt; made.disk.calls(), 8);
    Ok(())
}

#[test]
fn what_was_added_outlives_a_loss_of_power(rt: HostRuntime) -> Result<(), Fail> {
    let made = make(rt.alloc(), disk_with(rt.alloc(), &[])?);
    let added = run(&rt, made.disk, b"add 17\n");
    assert!(rt; added.tells(0, b"yes\n"));
    assert_eq!(rt; added.disk.crashed(Pick::Old)?.bytes(), HELD.as_slice());
    assert!(rt; leaves(&rt, &added.disk, b"yes\n", b"yes\n")?);
    Ok(())
}

#[test]
fn each_call_of_the_file_fails(rt: HostRuntime) -> Result<(), Fail> {
    for failing in FAILINGS {
        for passes in 0..8 {
            let mut file = disk_with(rt.alloc(), &[])?;
            set_failing(&mut file, failing, passes);
            let made = make(rt.alloc(), file);
            assert!(rt; made.tells(1, b"refused 3\n"), "after {passes} calls");
            let is_left = leaves(&rt, &made.disk, b"refused 1\n", b"no\n")?;
            assert!(rt; is_left, "after {passes} calls");
        }
    }
    Ok(())
}

// What waits is lost with the process, and where the file fails it waits on.
#[test]
fn a_write_waits_until_the_file_takes_it(rt: HostRuntime) -> Result<(), Fail> {
    let mut disk = FileDisk::over(disk_with(rt.alloc(), &[])?);
    disk.gather(rt.alloc());
    assert!(rt; disk.write(0, b"abcd").is_ok());
    let mut file = disk.into_file();
    assert_eq!(rt; file.bytes().len(), 0);
    set_failing(&mut file, Failing::Once, 0);
    let mut disk = FileDisk::over(file);
    disk.gather(rt.alloc());
    assert!(rt; disk.write(0, b"abcd").is_ok());
    assert!(rt; disk.sync().is_err());
    assert!(rt; matches!(disk.size(), Ok(4)));
    assert!(rt; disk.sync().is_ok());
    assert_eq!(rt;
        disk.into_file().crashed(Pick::Old)?.bytes(),
        b"abcd".as_slice()
    );
    Ok(())
}
