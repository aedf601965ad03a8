//! The disk of a world, under an open service or by itself.
ghost use Rattle.std.specs.Prelude.{◌≡◌, IfOk, OnOk, OnErr};
ghost use Rattle.lz_disk.specs.Images.{IsImage, at_rest};
ghost use Rattle.lz_disk.specs.Picks.{left_by};
ghost use Rattle.lz_disk.specs.Records.{device_of};
ghost use Rattle.lz_vault.specs.Makes.{IsFresh};
ghost use Rattle.lz_vault.specs.Opens.{MayOpen};
ghost use Rattle.lz_machine.specs.Runs.{Down};
ghost use Rattle.lz_core.specs.Worlds.{HasOne, armed, armed_yard, disk_shown, state_shown};

use lz_disk::{MemoryDisk, Pick};
use lz_slot::Format;
use lz_vault::{make, suit};
use lz_yard::Yard;
use std::alloc::{AllocError, Global};

// A disk on which a file of this format was made: a bytewise one, where the format asks for it.
pub(crate) fn made_disk(
    alloc: Global,
    format: Format,
    slots: usize,
) -> Result<MemoryDisk, AllocError>
    ensures { IfOk result (λ disk. IsFresh (device_of disk).medium format slots × MayOpen (device_of disk)) }
{
    let mut disk = MemoryDisk::new(alloc, Vec::new(alloc))?;
    if make(&mut disk, format, slots as u64).is_err() {
        return Err(AllocError);
    }
    suit(&mut disk);
    Ok(disk)
}

// Where the disk of an open yard was tripped, its next call is to fail.
pub(crate) fn arm_yard(yard: &mut Option<Yard<MemoryDisk>>, tripped: bool)
    ensures { yard.new ≡ armed_yard tripped yard.old }
{
    if let Some(yard) = yard {
        if tripped {
            yard.trip();
        }
    }
}

// The same of a disk by itself.
pub(crate) fn armed(disk: MemoryDisk, tripped: bool) -> MemoryDisk
    ensures { result ≡ armed tripped disk }
{
    let mut disk = disk;
    if tripped {
        disk.trip();
    }
    disk
}

// Ends the service, if there is one, and keeps its disk.
pub(crate) fn stop_disk(yard: &mut Option<Yard<MemoryDisk>>, disk: &mut Option<MemoryDisk>)
    requires { HasOne yard.old disk.old }
    ensures one { HasOne yard.new disk.new }
    ensures down { (shape : _) (callers : _) → state_shown shape yard.new disk.new callers ≡ Down shape (disk_shown yard.old disk.old) }
{
    if let Some(yard) = yard.take() {
        let mut left = yard.close();
        left.stop();
        *disk = Some(left);
    } else if let Some(disk) = disk {
        disk.stop();
    }
}

// Ends the service, if there is one, with a crash of its disk.
#[tactic(auto, using(lz_disk::proofs::GrownRecords::flag_after))]
pub(crate) fn crash_disk(
    yard: &mut Option<Yard<MemoryDisk>>,
    disk: &mut Option<MemoryDisk>,
    pick: Pick,
) -> Result<(), AllocError>
    requires { HasOne yard.old disk.old }
    ensures one { HasOne yard.new disk.new }
    ensures down { OnOk result ((shape : _) (callers : _) → state_shown shape yard.new disk.new callers ≡ Down shape (at_rest (disk_shown yard.old disk.old).bytewise (left_by pick (disk_shown yard.old disk.old)))) }
    ensures image { OnOk result (IsImage (disk_shown yard.old disk.old) (left_by pick (disk_shown yard.old disk.old))) }
    ensures err { OnErr result ((yard.new ≡ yard.old) × (disk.new ≡ disk.old)) }
{
    match yard {
        Some(old) => {
            let left = old.disk().crashed(pick)?;
            *disk = Some(left);
            *yard = None;
            Ok(())
        }
        None => match disk {
            Some(disk) => disk.crash(pick),
            None => Ok(()),
        },
    }
}
