//! Files on disks in memory.
ghost use Rattle.std.specs.Prelude.{IfSome};
ghost use Rattle.lz_disk.specs.Records.{device_of};
ghost use Rattle.lz_vault.specs.Opens.{MayOpen};

use lz_disk::MemoryDisk;
use lz_slot::{Format, Key};
use lz_vault::{OneThread, Vault, make, suit};
use std::alloc::Global;

/// A disk in memory with a new file of so many slots.
pub fn made(alloc: Global, slots: u64) -> Option<MemoryDisk>
    ensures { IfSome result (λ disk. MayOpen (device_of disk)) }
{
    let Ok(mut disk) = MemoryDisk::new(alloc, Vec::new(alloc)) else {
        return None;
    };
    match make(&mut disk, Format::Two, slots) {
        Ok(()) => {
            suit(&mut disk);
            Some(disk)
        }
        Err(_) => None,
    }
}

/// The keys of the members that a disk's file holds, ascending.
pub fn keys_in(alloc: Global, disk: MemoryDisk) -> Option<Vec<u64>> {
    let mut disk = disk;
    suit(&mut disk);
    let Ok(opened) = Vault::open_with_members(alloc, disk, &OneThread) else {
        return None;
    };
    let mut keys = Vec::new(alloc);
    for index in 0..opened.members.len() {
        let (rank, _) = opened.members[index];
        keys.push(Key::of_rank(rank)?.get()).ok()?;
    }
    keys.sort().ok()?;
    Some(keys)
}
