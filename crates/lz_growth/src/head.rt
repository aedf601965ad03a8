//! The head of a file that grows.
ghost use Rattle.std.specs.Prelude.{◌≡◌, ◌⊎◌, ◌≢◌, ◌≤◌, ◌<◌, ◌+◌, ℕ, List, length, take, Ok, Err, IsErr, IsErrOf, IsTrue, IfOk, IfErr, OnOk, MatchResult};
ghost use Rattle.lz_slot.specs.Limits.{most_slots};
ghost use Rattle.lz_disk.specs.Images.{AreBytes, IsImage, synced};
ghost use Rattle.lz_vault.specs.Makes.{IsPart};
ghost use Rattle.lz_growth.specs.Fronts.{IsFronted};
ghost use Rattle.lz_growth.specs.Growths.{IsRaisable};
ghost use Rattle.lz_growth.specs.Heads.{IsHeadFaultOf};

use byteorder::{BigEndian, ByteOrder};
use lz_disk::{DeviceFault, Disk};
use lz_slot::{Gate, MOST_SLOTS, gate_of};

// Bytes 1 to 7 of the head.
const NAME: [u8; 7] = *b"LZYSET5";

/// Why a file is refused by its head.
#[derive(Clone, Copy, Debug, PartialEq, Eq)]
pub enum HeadFault {
    /// The file is shorter than a head, or its gate is closed.
    NotMade,
    /// Bytes 1 to 7 are not `LZYSET5`.
    WrongMagic,
    /// The number of slots is not from 1 to the most.
    BadCount,
    /// The file is shorter than its slots.
    WrongLength,
    /// The device failed.
    Device,
}

/// Makes durable what is read, and tells the number of slots of a file that grows, or the first fault in the order NotMade,
/// WrongMagic, BadCount, WrongLength. Nothing is written.
pub fn slots_of<D: Disk>(disk: &mut D) -> Result<u64, HeadFault>
    ensures part { IsPart (IsImage (D.device disk.old).medium) (D.device disk.old) (D.device disk.new) (IsErrOf result HeadFault.Device) }
    ensures read { IsTrue (D.device disk.old).honest → ((D.device disk.new).medium ≡ (D.device disk.old).medium) ⊎ ((D.device disk.new).medium ≡ synced (D.device disk.old).medium) }
    ensures synced_first { IsTrue (D.device disk.old).honest → result ≢ Err HeadFault.Device → (D.device disk.new).medium ≡ synced (D.device disk.old).medium }
    ensures count { IfOk result (λ n. (1 ≤ n) × (n ≤ most_slots)) }
    ensures fronted { IsTrue (D.device disk.old).honest → IfOk result (λ n. IsFronted n (D.device disk.new).medium) }
    ensures refused { IsTrue (D.device disk.old).honest → IfErr result (IsHeadFaultOf (D.device disk.old).medium.seen) }

    // Where a file that grows is read, its number of slots is told, unless the device fails.
    ensures taken { IsTrue (D.device disk.old).honest → result ≢ Err HeadFault.Device
        → (n : ℕ) → 1 ≤ n → n ≤ most_slots → IsRaisable (D.device disk.old).medium.seen n → result ≡ Ok n }
    ensures calls { OnOk result ((D.device disk.new).calls ≡ (D.device disk.old).calls + 3) }
    ensures must { (D.device disk.old).must_fail → IsErrOf result HeadFault.Device }
{
    let mut head = [0; 16];
    let Ok(size) = look(disk, &mut head) else {
        return Err(HeadFault::Device);
    };
    told(&head, size)
}

// Makes durable what is read, and tells its size. Where there are so many, the first 16 bytes are put there.
fn look<D: Disk>(disk: &mut D, head: &mut [u8; 16]) -> Result<u64, DeviceFault>
    ensures part { IsPart (IsImage (D.device disk.old).medium) (D.device disk.old) (D.device disk.new) (IsErr result) }
    ensures read { IsTrue (D.device disk.old).honest → ((D.device disk.new).medium ≡ (D.device disk.old).medium) ⊎ ((D.device disk.new).medium ≡ synced (D.device disk.old).medium) }
    ensures medium { IsTrue (D.device disk.old).honest → OnOk result ((D.device disk.new).medium ≡ synced (D.device disk.old).medium) }
    ensures bytes { IsTrue (D.device disk.old).honest → OnOk result (AreBytes (D.device disk.old).medium.seen) }
    ensures size { IsTrue (D.device disk.old).honest → IfOk result (λ size. size ≡ length (D.device disk.old).medium.seen) }
    ensures head { IsTrue (D.device disk.old).honest → IfOk result (λ size. 16 ≤ size → head.new ≡ take 16 (D.device disk.old).medium.seen) }
    ensures calls { IfOk result (λ size. 16 ≤ size → (D.device disk.new).calls ≡ (D.device disk.old).calls + 3) }
    ensures must { (D.device disk.old).must_fail → IsErr result }
{
    disk.sync()?;
    let size = disk.size()?;
    if size >= 16 {
        disk.read(0, head)?;
    }
    Ok(size)
}

// What the head of a file of this size says.
fn told(head: &[u8], size: u64) -> Result<u64, HeadFault>
    requires { length head.now ≡ 16 }
    ensures count { IfOk result (λ n. (1 ≤ n) × (n ≤ most_slots)) }
    ensures long { OnOk result (16 ≤ size) }
    ensures told { (t : List ℕ) → size ≡ length t → (16 ≤ size → head.now ≡ take 16 t)
        → MatchResult result (λ n. IsRaisable t n) (IsHeadFaultOf t) }
    ensures device { result ≢ Err HeadFault.Device }
{
    if size < 16 || gate_of(head[0]) == Gate::Closed {
        return Err(HeadFault::NotMade);
    }
    if &head[1..8] != NAME.as_slice() {
        return Err(HeadFault::WrongMagic);
    }
    let slots = BigEndian::read_u64(&head[8..]);
    if slots == 0 || slots > MOST_SLOTS {
        return Err(HeadFault::BadCount);
    }
    if size < 16 + 16 * slots {
        return Err(HeadFault::WrongLength);
    }
    Ok(slots)
}
