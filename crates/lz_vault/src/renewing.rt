//! Renewal: the members of a file in a new one, with room for more or for fewer.
ghost use Rattle.std.specs.Prelude.{◌≡◌, ◌⊎◌, ◌↔◌, ◌≤◌, ◌+◌, ℕ, length, IsErrOf, IsTrue, OnOk, IfErr, IfOk};
ghost use Rattle.lz_slot.specs.Limits.{last_room};
ghost use Rattle.lz_slot.specs.Rooms.{last_room_of};
ghost use Rattle.lz_slot.specs.Sets.{Keys};
ghost use Rattle.lz_slot.specs.Bytes.{Holds};
ghost use Rattle.lz_disk.specs.Images.{IsImage, synced};
ghost use Rattle.lz_disk.specs.Devices.{LeavesOnly};
ghost use Rattle.lz_vault.specs.Opens.{IsRefusedFor};
ghost use Rattle.lz_vault.specs.Makes.{IsBadCount, IsUnmadeOrHolds, MayBeMade, MayBeMembers, WritesNothing, calls_of_making};
ghost use Rattle.lz_vault.specs.Scans.{calls_of_reading};
ghost use Rattle.lz_vault.specs.Renewals.{AreHeldBy, IsRenewFaultOf, IsToldFirst, OnlySyncs, Renews, renew_fault_number};

use crate::making::{MakeFault, make_with};
use crate::opening::{OpenFault, scan_file};
use crate::sorter::OneThread;
use lz_disk::Disk;
use lz_slot::{Format, Key};
use std::alloc::Global;

/// Why a file was not renewed.
#[derive(Clone, Copy, Debug, PartialEq, Eq)]
pub enum RenewFault {
    /// The old file was not opened, or there was no room for its keys.
    Old(OpenFault),
    /// The new file was not made.
    New(MakeFault),
    /// The old file has so many members, and the new one would have only so many slots.
    TooSmall(u64, u64),
}

impl RenewFault {
    /// The number by which a program tells the fault: of an old or a new file's fault its own.
    pub fn number(self) -> u8
        ensures { result ≡ renew_fault_number self }
    {
        match self {
            RenewFault::Old(fault) => fault.number(),
            RenewFault::New(fault) => fault.number(),
            RenewFault::TooSmall(_, _) => 9,
        }
    }
}

/// Makes a new file of this format with n slots that hold the members of an old one, in the order of its slots, and says how many
/// they are. The new format has all rooms; the old file, of any format, is read and not written. Like a making, it opens the head's
/// gate last.
///
/// The faults are looked for in the order New(BadCount), those of the old file as an open tells them, TooSmall, and the others of
/// a making. The new device is first called once the members are known and there is room for them.
pub fn renew<O: Disk, N: Disk>(
    alloc: Global,
    old: &mut O,
    new: &mut N,
    format: Format,
    n: u64,
) -> Result<u64, RenewFault>
    requires rooms { last_room_of format ≡ last_room }
    ensures renewed { IfOk result (Renews (O.device old.old) (N.device new.old) (N.device new.new) format n) }
    ensures refused { IfErr result (IsRenewFaultOf (O.device old.old) (O.device old.new) (N.device new.old) (N.device new.new) format n) }
    ensures count { IsErrOf result (RenewFault.New MakeFault.BadCount) ↔ IsBadCount format n }
    ensures uncalled { IsErrOf result (RenewFault.New MakeFault.BadCount) → old.new ≡ old.old }
    ensures untouched { IfErr result (λ fault. IsToldFirst fault → new.new ≡ new.old) }
    ensures calls { IsTrue (N.device new.old).honest → OnOk result ((N.device new.new).calls ≡ (N.device new.old).calls + calls_of_making (N.device new.old).medium.seen n) }

    // The old file is read, and what is read of it is made durable; it is called for nothing else.
    ensures old_calls { IsTrue (O.device old.old).honest → OnOk result ((O.device old.new).calls ≡ (O.device old.old).calls + calls_of_reading (O.device old.old).medium.seen) }
    ensures reads { OnlySyncs (O.device old.old) (O.device old.new) }
    ensures sure { IsTrue (O.device old.old).honest → OnOk result ((O.device old.new).medium ≡ synced (O.device old.old).medium) }

    // Where no file can be made, as over a made one, nothing is written at any moment.
    ensures safe { IsTrue (N.device new.old).honest → (MayBeMade (N.device new.old).medium.seen n → ⊥) → WritesNothing (N.device new.old) (N.device new.new) }

    // A crash at any moment leaves of the new file what it might have left before, or nothing that is made, or exactly the old one's
    // members in n slots of this format.
    ensures any_moment { IsTrue (O.device old.old).honest → IsTrue (N.device new.old).honest → (slots : ℕ) (S : Keys) → Holds (O.device old.old).medium.seen slots S
        → LeavesOnly (N.device new.old) (N.device new.new) (λ t. IsImage (N.device new.old).medium t ⊎ IsUnmadeOrHolds format n S t) }
    ensures faults { (N.device new.old).faults ≤ (N.device new.new).faults }
    ensures honest { (N.device new.new).honest ≡ (N.device new.old).honest }
{
    if n == 0 || n > format.most_slots() {
        return Err(RenewFault::New(MakeFault::BadCount));
    }
    let keys = match read_members(alloc, old) {
        Ok(keys) => keys,
        Err(fault) => return Err(RenewFault::Old(fault)),
    };
    let members = keys.len() as u64;
    if n < members {
        return Err(RenewFault::TooSmall(members, n));
    }
    match make_with(new, format, n, &keys) {
        Ok(()) => Ok(members),
        Err(fault) => Err(RenewFault::New(fault)),
    }
}

/// The keys of a file's members, in the order of its slots. It is opened as a vault is, and not written.
pub fn read_members<D: Disk>(alloc: Global, disk: &mut D) -> Result<Vec<Key>, OpenFault>
    ensures reads { OnlySyncs (D.device disk.old) (D.device disk.new) }
    ensures sure { IsTrue (D.device disk.old).honest → OnOk result ((D.device disk.new).medium ≡ synced (D.device disk.old).medium) }
    ensures held { IsTrue (D.device disk.old).honest → IfOk result (λ keys. AreHeldBy (D.device disk.old).medium.seen keys.items) }
    ensures members { IfOk result (λ keys. MayBeMembers Format.Three (length keys.items) keys.items) }
    ensures err { IfErr result (IsRefusedFor (D.device disk.old) (D.device disk.new)) }
    ensures calls { IsTrue (D.device disk.old).honest → OnOk result ((D.device disk.new).calls ≡ (D.device disk.old).calls + calls_of_reading (D.device disk.old).medium.seen) }
{
    let scan = scan_file(alloc, disk, &OneThread, true)?;
    Ok(scan.keys)
}
