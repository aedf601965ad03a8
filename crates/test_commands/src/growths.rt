//! A growth whose device calls fail in turn, and whose new file isn't put: the name's file holds the set after each end.
ghost use Rattle.std.specs.Prelude.{◌≡◌};

use crate::commands::disk_with;
use lazyset_set_commands::{Shelf, Shown, Standing, grow_on, survey_on};
use lz_disk::{DeviceFault, Disk, MemoryDisk};
use lz_slot::{Format, Header};
use std::alloc::{AllocError, Global};
use std::test::Fail;
use test_support::{ENDS, FAILINGS, Failing, set_failing};

// A file of format 1 with three slots, which held 4 between 17 and 5.
const OLD: [u8; 64] = [
    0xa5, 0x4c, 0x5a, 0x59, 0x53, 0x45, 0x54, 0x31, 0, 0, 0, 0, 0, 0, 0, 3, //
    0xa5, 0, 0, 0, 0, 0, 0, 0, 0, 0, 0, 0, 0, 0, 0, 17, //
    0, 0, 0, 0, 0, 0, 0, 0, 0, 0, 0, 0, 0, 0, 0, 4, //
    0xa5, 0, 0, 0, 0, 0, 0, 0, 0, 0, 0, 0, 0, 0, 0, 5,
];

// A file of format 2 with four slots, of which the first hold 17 and 5.
const GROWN: [u8; 80] = [
    0xa5, 0x4c, 0x5a, 0x59, 0x53, 0x45, 0x54, 0x32, 0, 0, 0, 0, 0, 0, 0, 4, //
    0xa5, 0, 0, 0, 0, 0, 0, 0, 0, 0, 0, 0, 0, 0, 0, 17, //
    0xa5, 0, 0, 0, 0, 0, 0, 0, 0, 0, 0, 0, 0, 0, 0, 5, //
    0, 0, 0, 0, 0, 0, 0, 0, 0, 0, 0, 0, 0, 0, 0, 0, //
    0, 0, 0, 0, 0, 0, 0, 0, 0, 0, 0, 0, 0, 0, 0, 0,
];

/// A name, and whether it can be given to another file.
#[derive(Drop)]
struct Name {
    stands: Standing,
    fails: bool,
}

impl Name {
    fn new(fails: bool) -> Name
        ensures { result.stands ≡ Standing.Old }
    {
        Name {
            stands: Standing::Old,
            fails,
        }
    }
}

impl Shelf for Name {
    ghost stands = { λ name. name.stands };

    fn put<O: Disk, N: Disk>(&mut self, _old: &O, _new: &N) -> Result<(), DeviceFault> {
        if self.fails {
            self.stands = Standing::Either;
            return Err(DeviceFault);
        }
        self.stands = Standing::New;
        Ok(())
    }
}

/// What a growth ended with and printed, which file has the name, and both disks.
#[derive(Drop)]
struct Grown {
    code: u8,
    printed: Vec<u8>,
    stands: Standing,
    old: MemoryDisk,
    new: MemoryDisk,
}

fn grow(alloc: Global, old: MemoryDisk, new: MemoryDisk, fails: bool, slots: u64) -> Grown {
    let mut old = old;
    let mut new = new;
    let mut name = Name::new(fails);
    let mut printed: Vec<u8> = Vec::new(alloc);
    let status = grow_on(
        alloc,
        &mut printed,
        &mut old,
        &mut new,
        &mut name,
        Header {
            format: Format::Two,
            slots,
        },
    );
    Grown {
        code: status.code(),
        printed,
        stands: name.stands,
        old,
        new,
    }
}

impl Grown {
    fn tells(&self, code: u8, printed: &[u8], stands: Standing) -> bool {
        self.code == code && self.printed.as_slice() == printed && self.stands == stands
    }

    // Whether the name's file holds the set at each end, whichever of the two that is.
    fn holds_the_set(&self, alloc: Global) -> Result<bool, AllocError> {
        let is_old = self.stands == Standing::New || holds_at_each_end(alloc, &self.old)?;
        let is_new = self.stands == Standing::Old || holds_at_each_end(alloc, &self.new)?;
        Ok(is_old && is_new)
    }
}

// Whether each end leaves a file of 17 and 5.
fn holds_at_each_end(alloc: Global, disk: &MemoryDisk) -> Result<bool, AllocError> {
    for end in ENDS {
        let disk = match end {
            Some(pick) => disk.crashed(pick)?,
            None => disk_with(alloc, disk.bytes())?,
        };
        let mut told: Vec<u8> = Vec::new(alloc);
        let mut bytes = disk.bytes();
        let code = survey_on(alloc, &mut bytes, &mut told, Shown::Keys).code();
        if code != 0 || told.as_slice() != b"17\n5\n".as_slice() {
            return Ok(false);
        }
    }
    Ok(true)
}

// A new file of four slots takes twelve calls, and the old one four; each is read again by four.
#[test]
fn reads_both_files_again_and_puts_the_new_one(rt: HostRuntime) -> Result<(), Fail> {
    let old = disk_with(rt.alloc(), &OLD)?;
    let new = disk_with(rt.alloc(), &[])?;
    let done = grow(rt.alloc(), old, new, false, 4);
    assert!(rt; done.tells(0, b"grown 2\n", Standing::New));
    assert_eq!(rt; done.new.bytes(), GROWN.as_slice());
    assert_eq!(rt; done.old.bytes(), OLD.as_slice());
    assert_eq!(rt; (done.old.calls(), done.new.calls()), (8, 16));
    assert!(rt; done.holds_the_set(rt.alloc())?);
    Ok(())
}

// A growth onto an empty disk, of which the new one or the old one fails after so many calls.
fn grow_failing(
    alloc: Global,
    fails_new: bool,
    failing: Failing,
    passes: u64,
) -> Result<Grown, AllocError> {
    let mut old = disk_with(alloc, &OLD)?;
    let mut new = disk_with(alloc, &[])?;
    let failed = if fails_new { &mut new } else { &mut old };
    set_failing(failed, failing, passes);
    Ok(grow(alloc, old, new, false, 4))
}

#[test]
fn a_failed_call_on_the_new_file_puts_nothing(rt: HostRuntime) -> Result<(), Fail> {
    for failing in FAILINGS {
        for passes in 0..16 {
            let done = grow_failing(rt.alloc(), true, failing, passes)?;
            let is_told = done.tells(1, b"refused new 3\n", Standing::Old);
            assert!(rt; is_told, "after {passes} calls");
            assert!(rt; done.holds_the_set(rt.alloc())?, "after {passes} calls");
        }
    }
    Ok(())
}

#[test]
fn a_failed_call_on_the_old_file_puts_nothing(rt: HostRuntime) -> Result<(), Fail> {
    for failing in FAILINGS {
        for passes in 0..8 {
            let done = grow_failing(rt.alloc(), false, failing, passes)?;
            let is_told = done.tells(1, b"refused old 7\n", Standing::Old);
            assert!(rt; is_told, "after {passes} calls");
            assert!(rt; done.holds_the_set(rt.alloc())?, "after {passes} calls");
        }
    }
    Ok(())
}

// Then a crash may leave either file under the name, and each holds the set.
#[test]
fn a_failed_put_leaves_one_of_two_whole_files(rt: HostRuntime) -> Result<(), Fail> {
    let old = disk_with(rt.alloc(), &OLD)?;
    let new = disk_with(rt.alloc(), &[])?;
    let done = grow(rt.alloc(), old, new, true, 4);
    assert!(rt; done.tells(1, b"refused new 3\n", Standing::Either));
    assert!(rt; done.holds_the_set(rt.alloc())?);
    Ok(())
}

// The new file would have too few slots, none at all, or is a set already; or the old one is no set.
#[test]
fn what_is_refused_is_not_put(rt: HostRuntime) -> Result<(), Fail> {
    let rows: [(&[u8], &[u8], u64, &[u8]); 4] = [
        (&OLD, &[], 1, b"refused 9 2 1\n"),
        (&OLD, &[], 0, b"refused new 2\n"),
        (&OLD, &GROWN, 4, b"refused new 1\n"),
        (&[], &[], 4, b"refused old 1\n"),
    ];
    for (old, new, slots, told) in rows {
        let old = disk_with(rt.alloc(), old)?;
        let done = grow(rt.alloc(), old, disk_with(rt.alloc(), new)?, false, slots);
        assert!(rt; done.tells(3, told, Standing::Old));
    }
    Ok(())
}

/// A disk that gives back one byte otherwise than it was written, where it is asked for 32 or more.
#[derive(Drop)]
struct Forgetful {
    disk: MemoryDisk,
}

impl Disk for Forgetful {
    ghost use Rattle.std.specs.Prelude.{None};
    ghost use Rattle.lz_disk.specs.Files.{file_device, file_timely};

    ghost device = { λ it. file_device it.disk.calls it.disk.failures None };

    ghost timely = { λ it honest. file_timely it.disk.calls it.disk.failures None honest };

    fn size(&mut self) -> Result<u64, DeviceFault> {
        self.disk.size()
    }

    fn read(&mut self, at: u64, buffer: &mut [u8]) -> Result<(), DeviceFault> {
        if let Err(fault) = self.disk.size() {
            return Err(fault);
        }
        for (place, byte) in buffer.iter_mut().enumerate() {
            let from = (at as usize).saturating_add(place);
            *byte = self.disk.bytes().get(from).copied().unwrap_or(0);
        }
        if let Some(byte) = buffer.get_mut(31) {
            *byte = 6;
        }
        Ok(())
    }

    fn write(&mut self, at: u64, bytes: &[u8]) -> Result<(), DeviceFault> {
        if at <= self.disk.bytes().len() as u64 {
            return self.disk.write(at, bytes);
        }
        match self.disk.size() {
            Ok(_) => Ok(()),
            Err(fault) => Err(fault),
        }
    }

    fn sync(&mut self) -> Result<(), DeviceFault> {
        self.disk.sync()
    }
}

#[test]
fn a_new_file_that_reads_otherwise_than_it_was_written_is_not_put(
    rt: HostRuntime,
) -> Result<(), Fail> {
    let mut old = disk_with(rt.alloc(), &OLD)?;
    let mut new = Forgetful {
        disk: disk_with(rt.alloc(), &[])?,
    };
    let mut name = Name::new(false);
    let mut printed: Vec<u8> = Vec::new(rt.alloc());
    let status = grow_on(
        rt.alloc(),
        &mut printed,
        &mut old,
        &mut new,
        &mut name,
        Header {
            format: Format::Two,
            slots: 4,
        },
    );
    assert_eq!(rt; status.code(), 1);
    assert_eq!(rt; printed.as_slice(), b"refused new 3\n".as_slice());
    assert!(rt; name.stands == Standing::Old);
    Ok(())
}
