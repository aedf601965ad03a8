//! The commands over a disk in memory.
ghost use Rattle.std.specs.Prelude.{IfOk};
ghost use Rattle.lz_disk.specs.Records.{device_of};
ghost use Rattle.lz_vault.specs.Opens.{MayOpen};

use lazyset_set_commands::{NoHeed, make_on, run_on};
use lz_disk::MemoryDisk;
use lz_slot::Format;
use lz_vault::suit;
use std::alloc::{AllocError, Global};
use std::sync::Wait;
use std::test::Fail;
use std::time::Clock;

/// A made file of two slots, as format 1 says.
pub const TWO_SLOTS: [u8; 48] = [
    0xa5, 0x4c, 0x5a, 0x59, 0x53, 0x45, 0x54, 0x31, 0, 0, 0, 0, 0, 0, 0, 2, //
    0, 0, 0, 0, 0, 0, 0, 0, 0, 0, 0, 0, 0, 0, 0, 0, //
    0, 0, 0, 0, 0, 0, 0, 0, 0, 0, 0, 0, 0, 0, 0, 0,
];

/// The same file with 17 in its first slot.
pub const HELD: [u8; 48] = [
    0xa5, 0x4c, 0x5a, 0x59, 0x53, 0x45, 0x54, 0x31, 0, 0, 0, 0, 0, 0, 0, 2, //
    0xa5, 0, 0, 0, 0, 0, 0, 0, 0, 0, 0, 0, 0, 0, 0, 17, //
    0, 0, 0, 0, 0, 0, 0, 0, 0, 0, 0, 0, 0, 0, 0, 0,
];

/// A disk in memory with these bytes.
pub fn disk_with(alloc: Global, bytes: &[u8]) -> Result<MemoryDisk, AllocError>
    ensures { IfOk result (λ disk. MayOpen (device_of disk)) }
{
    let mut disk = MemoryDisk::new(alloc, bytes.to_vec(alloc)?)?;
    suit(&mut disk);
    Ok(disk)
}

/// What a command ended with and printed, and the disk that it left.
#[derive(Drop)]
pub struct Ran {
    pub code: u8,
    pub printed: Vec<u8>,
    pub disk: MemoryDisk,
}

/// A run over a disk, with these lines.
pub fn run<R: Wait + Clock + AllocGlobal>(rt: &R, disk: MemoryDisk, lines: &[u8]) -> Ran {
    let mut input = lines;
    let mut printed: Vec<u8> = Vec::new(rt.alloc());
    let mut disk = disk;
    suit(&mut disk);
    let (status, disk) = run_on(rt, &mut input, &mut printed, &NoHeed, disk, 1);
    Ran {
        code: status.code(),
        printed,
        disk,
    }
}

/// A making on a disk, of two slots, in this format.
pub fn make(alloc: Global, disk: MemoryDisk, format: Format) -> Ran {
    let mut disk = disk;
    let mut printed: Vec<u8> = Vec::new(alloc);
    let status = make_on(&mut printed, &mut disk, 2, format);
    Ran {
        code: status.code(),
        printed,
        disk,
    }
}

impl Ran {
    /// Whether it ended with this code and printed this.
    pub fn tells(&self, code: u8, printed: &[u8]) -> bool {
        self.code == code && self.printed.as_slice() == printed
    }
}

// A file of format 2 names it in byte 7, and is else as one of format 1.
#[test]
fn makes_a_file_by_ten_device_calls(rt: HostRuntime) -> Result<(), Fail> {
    for (format, name) in [(Format::One, 0x31), (Format::Two, 0x32)] {
        let mut bytes = TWO_SLOTS;
        bytes[7] = name;
        let made = make(rt.alloc(), disk_with(rt.alloc(), &[])?, format);
        assert!(rt; made.tells(0, b"made 2\n"));
        assert_eq!(rt; made.disk.bytes(), bytes.as_slice());
        assert_eq!(rt; made.disk.calls(), 10);
    }
    Ok(())
}
