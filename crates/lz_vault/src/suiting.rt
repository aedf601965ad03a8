//! Disks in memory that suit the format of their file.
ghost use Rattle.std.specs.Prelude.{◌≡◌, ◌⊎◌, true};
ghost use Rattle.lz_disk.specs.Records.{device_of};
ghost use Rattle.lz_vault.specs.Opens.{MayOpen};

use lz_disk::MemoryDisk;

// Where a head names its format, and what it says in format 4.
const PLACE: usize = 7;

const FOUR: u8 = b'4';

/// Makes a disk bytewise where its file is of format 4, so that it may be opened. A crash leaves no byte then that nobody wrote.
#[tactic(auto, using(lz_disk::proofs::GrownRecords::flag_after))]
pub fn suit(disk: &mut MemoryDisk)
    ensures may { MayOpen (device_of disk.new) }
    ensures disk { (disk.new ≡ disk.old) ⊎ (disk.new ≡ record disk.old { bytewise = true }) }
{
    if disk.bytes().get(PLACE) == Some(&FOUR) {
        disk.set_bytewise();
    }
}
