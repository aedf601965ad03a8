//! The file of which the drills are made.
ghost use Rattle.std.specs.Prelude.{IfOk};
ghost use Rattle.lz_disk.specs.Records.{device_of};
ghost use Rattle.lz_vault.specs.Opens.{MayOpen};

use lz_disk::MemoryDisk;
use lz_vault::{OpenFault, suit};
use std::alloc::{AllocError, Global};

/// A file of three slots, in format 2: 17 in slot 0, and 9 of room 3 in slot 2.
pub const FILE: [u8; 64] = [
    0xa5, 0x4c, 0x5a, 0x59, 0x53, 0x45, 0x54, 0x32, 0, 0, 0, 0, 0, 0, 0, 3, //
    0xa5, 0, 0, 0, 0, 0, 0, 0, 0, 0, 0, 0, 0, 0, 0, 17, //
    0, 0, 0, 0, 0, 0, 0, 0, 0, 0, 0, 0, 0, 0, 0, 0, //
    0xa5, 3, 0, 0, 0, 0, 0, 0, 0, 0, 0, 0, 0, 0, 0, 9,
];

/// A disk in memory with this file.
pub fn disk(alloc: Global) -> Result<MemoryDisk, AllocError>
    ensures { IfOk result (λ disk. MayOpen (device_of disk)) }
{
    let mut disk = MemoryDisk::new(alloc, FILE.to_vec(alloc)?)?;
    suit(&mut disk);
    Ok(disk)
}

/// Whether an open was refused for lack of memory, its own or the device's, and left the file.
pub fn is_as_before(fault: OpenFault, disk: &MemoryDisk) -> bool {
    matches!(fault, OpenFault::Memory | OpenFault::Device) && disk.bytes() == FILE.as_slice()
}
