//! More slots for a file that grows, in place.
ghost use Rattle.std.specs.Prelude.{◌≡◌, ◌⊎◌, ◌≤◌, ◌<◌, ℕ, true, take, slice_set, IsErr, IsErrOf, IsTrue, OnOk};
ghost use Rattle.byteorder.specs.Endian.{big_bytes};
ghost use Rattle.lz_slot.specs.Limits.{most_slots};
ghost use Rattle.lz_disk.specs.Images.{IsImage};
ghost use Rattle.lz_disk.specs.Devices.{LeavesOnly};
ghost use Rattle.lz_vault.specs.Makes.{IsPart};
ghost use Rattle.lz_growth.specs.Growths.{IsAlikeBut, IsNotRaised, IsRaisable, IsRaise, IsRaised, IsRaisedOrNot, growing_head, room_for};
ghost use Rattle.lz_growth.specs.Raises.{BeginsAs, IsCleared, IsFirm, StaysFirm};

use lz_disk::{DeviceFault, Disk};

/// Why a file was not raised.
#[derive(Clone, Copy, Debug, PartialEq, Eq)]
pub enum RaiseFault {
    /// The new slots couldn't be written, as where no room is left. The file has as many slots as before.
    Room,
    /// The device failed. The file has as many slots as before, or all of the new ones.
    Device,
}

/// Gives a file that grows more slots. The new ones are zeros, all of them written, whatever was there; once these are durable, one byte
/// of the head's number is written. So a crash leaves all of the file, with as many slots as before or with the new ones.
pub fn raise<D: Disk>(disk: &mut D, from: u64, to: u64) -> Result<(), RaiseFault>
    requires raise { IsRaise from to }
    requires bytewise { IsTrue (D.device disk.old).honest → (D.device disk.old).medium.bytewise ≡ true }
    requires raisable { IsTrue (D.device disk.old).honest → IsRaisable (D.device disk.old).medium.seen from }
    ensures raised { IsTrue (D.device disk.old).honest → OnOk result (IsRaised (D.device disk.old).medium.seen from to (D.device disk.new).medium) }
    ensures room { IsTrue (D.device disk.old).honest → IsErrOf result RaiseFault.Room → IsNotRaised (D.device disk.old).medium.seen from (D.device disk.new).medium }
    ensures device { IsErr result → (D.device disk.old).faults < (D.device disk.new).faults }
    ensures faults { (D.device disk.old).faults ≤ (D.device disk.new).faults }
    ensures honest { (D.device disk.new).honest ≡ (D.device disk.old).honest }

    // A crash at any moment leaves what it might have left before, or the same set as is read.
    ensures any_moment { IsTrue (D.device disk.old).honest → LeavesOnly (D.device disk.old) (D.device disk.new)
        (λ t. IsImage (D.device disk.old).medium t ⊎ IsRaisedOrNot from to (D.device disk.old).medium.seen t) }
{
    let Ok(()) = disk.sync() else {
        return Err(RaiseFault::Device);
    };
    let Ok(()) = write_zeros(disk, from, to) else {
        return Err(RaiseFault::Room);
    };
    let Ok(()) = write_count(disk, from, to) else {
        return Err(RaiseFault::Device);
    };
    Ok(())
}

// As many slots are cleared by one write.
const SLOTS_AT_ONCE: u64 = 4_096;

// Clears the slots from this one up to that one, all of their bytes. What is there already is no reason to leave one out: a crash
// may have left it, and it may not be durable.
fn write_zeros<D: Disk>(disk: &mut D, from: u64, to: u64) -> Result<(), DeviceFault>
    requires more { from ≤ to }
    requires few { to ≤ most_slots }
    requires firm { IsTrue (D.device disk.old).honest → IsFirm (room_for from) (D.device disk.old).medium }
    ensures part { IsPart (BeginsAs (D.device disk.old).medium.seen (room_for from)) (D.device disk.old) (D.device disk.new) (IsErr result) }
    ensures firm { IsTrue (D.device disk.old).honest → StaysFirm (room_for from) (D.device disk.old).medium (D.device disk.new).medium }
    ensures cleared { IsTrue (D.device disk.old).honest → OnOk result (IsCleared from to (D.device disk.new).medium.seen) }
{
    let zeros = [0; 16 * SLOTS_AT_ONCE as usize];
    let mut slot = from;
    while slot < to {
        let count = SLOTS_AT_ONCE.min(to - slot);
        disk.write(16 + 16 * slot, &zeros[..16 * count as usize])?;
        slot += count;
    }
    Ok(())
}

// Writes the head's number, once the zeros are durable: by one byte, so that a crash leaves the one number or the other.
fn write_count<D: Disk>(disk: &mut D, from: u64, to: u64) -> Result<(), DeviceFault>
    requires raise { IsRaise from to }
    requires bytewise { IsTrue (D.device disk.old).honest → (D.device disk.old).medium.bytewise ≡ true }
    requires firm { IsTrue (D.device disk.old).honest → IsFirm (room_for from) (D.device disk.old).medium }
    requires head { IsTrue (D.device disk.old).honest → take 16 (D.device disk.old).medium.seen ≡ growing_head from }
    requires cleared { IsTrue (D.device disk.old).honest → IsCleared from to (D.device disk.old).medium.seen }
    ensures part { IsPart (IsRaisedOrNot from to (D.device disk.old).medium.seen) (D.device disk.old) (D.device disk.new) (IsErr result) }
    ensures raised { IsTrue (D.device disk.old).honest → OnOk result (IsRaised (D.device disk.old).medium.seen from to (D.device disk.new).medium) }
{
    let (index, byte) = changed_byte(from, to);
    disk.sync()?;
    disk.write(8 + index, &[byte])?;
    disk.sync()
}

// Where the bytes of two numbers differ that differ in one byte, and the byte of the second one there.
fn changed_byte(from: u64, to: u64) -> (u64, u8)
    requires { (byte : ℕ) × (byte < 8) × IsAlikeBut byte from to }
    ensures place { result.0 < 8 }
    ensures bytes { slice_set (big_bytes 8 from) result.0 result.1 ≡ big_bytes 8 to }
{
    let old = from.to_be_bytes();
    let new = to.to_be_bytes();
    for i in 0..7 {
        if old[i] != new[i] {
            return (i as u64, new[i]);
        }
    }
    (7, new[7])
}
