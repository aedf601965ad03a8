//! A disk that is opened again.
ghost use Rattle.std.specs.Prelude.{◌≡◌, ◌≤◌, IfOk, IfErr};
ghost use Rattle.lz_disk.specs.Records.{device_of};
ghost use Rattle.lz_slot.specs.Limits.{most_buckets};
ghost use Rattle.lz_vault.specs.Opens.{IsRefusedFor, MayOpen};
ghost use Rattle.lz_yard.specs.Filling.{OpensYard};
ghost use Rattle.lz_machine.specs.Runs.{keys_found};
ghost use Rattle.lz_judge.specs.MarkLines.{AscendFrom};
ghost use Rattle.lz_core.specs.Worlds.{fault_told};

use crate::shown::members_of;
use crate::world::ACTORS;
use lz_disk::MemoryDisk;
use lz_slot::Key;
use lz_vault::{OpenFault, Refused};
use lz_yard::Yard;
use std::alloc::Global;

// A yard that was opened, with the keys that it found.
#[derive(Drop)]
pub(crate) struct Opened {
    pub(crate) yard: Yard<MemoryDisk>,
    pub(crate) keys: Vec<Key>,
}

// Where there is no room for the keys that were found, the open is refused.
pub(crate) fn open_again(
    alloc: Global,
    disk: MemoryDisk,
    buckets: usize,
) -> Result<Opened, Refused<MemoryDisk>>
    requires buckets { (1 ≤ buckets) × (buckets ≤ most_buckets) }
    requires disk { MayOpen (device_of disk) }
    ensures ok { IfOk result (λ opened. OpensYard (device_of disk) (device_of opened.yard.disk) buckets 64 opened.yard.yard) }
    ensures keys { IfOk result (λ opened. opened.keys.items ≡ keys_found (device_of disk).medium.seen opened.yard.yard.shape.slots) }
    ensures ascending { IfOk result (λ opened. AscendFrom 0 opened.keys.items) }
    ensures err { IfErr result (λ refused. IsRefusedFor (device_of disk) (device_of refused.disk) refused.fault) }
{
    let yard = Yard::open(alloc, disk, buckets, ACTORS)?;
    match members_of(alloc, &yard) {
        Ok(keys) => Ok(Opened { yard, keys }),
        Err(_) => Err(Refused {
            disk: yard.close(),
            fault: OpenFault::Memory,
        }),
    }
}

// The number with which a refused open is told. Lack of memory isn't, and a device that wasn't tripped fails for nothing else.
pub(crate) fn fault_told(fault: OpenFault, tripped: bool) -> Option<u8>
    ensures { result ≡ fault_told fault tripped }
{
    match fault {
        OpenFault::Memory => None,
        OpenFault::Device if !tripped => None,
        fault => Some(fault.number()),
    }
}
