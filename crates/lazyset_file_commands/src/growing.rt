//! The command that puts a file with room for more, or fewer, in the place of another.
ghost use Rattle.std.specs.Prelude.{◌≡◌, ◌⊎◌, ◌↔◌, ◌+◌, ◌≤◌, ℕ, List, Result as Answer, Err, IfErr, IfOk, IsErrOf, IsTrue, OnErr, OnOk};
ghost use Rattle.lz_proto.specs.Steps.{SendTells};
ghost use Rattle.lz_slot.specs.Bytes.{Holds};
ghost use Rattle.lz_slot.specs.Limits.{last_room};
ghost use Rattle.lz_slot.specs.Rooms.{last_room_of};
ghost use Rattle.lz_slot.specs.Sets.{Keys};
ghost use Rattle.lz_disk.specs.Images.{IsImage, synced};
ghost use Rattle.lz_disk.specs.Devices.{LeavesOnly};
ghost use Rattle.lz_vault.specs.Makes.{IsBadCount, IsUnmadeOrHolds, MayBeMade, WritesNothing};
ghost use Rattle.lz_vault.specs.Renewals.{AreHeldBy, OnlySyncs};
ghost use Rattle.lz_vault.specs.Scans.{calls_of_reading};
ghost use Rattle.lazyset_file_commands.specs.Growths.{HoldOneSetAtRest, IsGrowth, IsLeftOrHolds, IsUnread, MayBeLeft, growth_text, new_fault};
ghost use Rattle.lazyset_file_commands.specs.Renewals.{renewal_status};
ghost use Rattle.lazyset_file_commands.specs.Tellings.{Tells};

use crate::refusal::send_line;
use crate::renewing::{send_fault, status_of};
use crate::status::Status;
use crate::telling::status_sent;
use lz_disk::{DeviceFault, Disk};
use lz_proto::SessionFault;
use lz_slot::{Format, Header};
use lz_vault::{MakeFault, OpenFault, RenewFault, read_members, renew};
use std::alloc::Global;
use std::io::Write;

/// Which of two files a crash leaves under a name.
#[derive(Clone, Copy, Debug, PartialEq, Eq)]
pub enum Standing {
    Old,
    /// One of the two.
    Either,
    New,
}

/// The name of the old file, which the new one can take.
pub trait Shelf {
    ghost use Rattle.lazyset_file_commands.specs.declared.growing.Standing.{Standing};

    ghost stands: { Self → Standing };

    /// Gives the name to the new file, durably. A crash at any moment of it leaves the name with one of the two, and they hold one
    /// set: so each crash leaves one or the other, whole.
    fn put<O: Disk, N: Disk>(&mut self, old: &O, new: &N) -> Result<(), DeviceFault>
        requires once { stands self.old ≡ Standing.Old }
        requires files { HoldOneSetAtRest (O.device old.now) (N.device new.now) }
        ensures done { OnOk result (stands self.new ≡ Standing.New) }
        ensures failed { OnErr result (stands self.new ≡ Standing.Either) };
}

/// Makes a new file with this head that holds the members of the old one, reads both again, puts the new one in
/// the old one's place, and says so: `grown M`, or else what `renew_on` would. Where the new file can't be read again, or isn't put,
/// that is `refused new 3`. Failed where a device failed or there was no memory, and where the line could not be written.
pub fn grow_on<W: Write + Drop, O: Disk, N: Disk, P: Shelf>(
    alloc: Global,
    writer: &mut W,
    old: &mut O,
    new: &mut N,
    shelf: &mut P,
    header: Header,
) -> Status
    requires rooms { last_room_of header.format ≡ last_room }
    requires stands { P.stands shelf.old ≡ Standing.Old }
    ensures told { (answer : Answer ℕ RenewFault)
        × IsGrowth (O.device old.old) (O.device old.new) (N.device new.old) (N.device new.new) (new.new ≡ new.old) (P.stands shelf.new) header.format header.slots answer
        × Tells (W.contents writer.old) (W.contents writer.new) (growth_text answer) (renewal_status answer) result }
    ensures uncalled { IsBadCount header.format header.slots → (old.new ≡ old.old) × (new.new ≡ new.old) × (shelf.new ≡ shelf.old) }
    ensures reads { OnlySyncs (O.device old.old) (O.device old.new) }
    ensures safe { IsTrue (N.device new.old).honest → (MayBeMade (N.device new.old).medium.seen header.slots → ⊥) → WritesNothing (N.device new.old) (N.device new.new) }

    // A crash at any moment leaves under the name what it might have left of the old file before, or a file of its set with this head.
    ensures named { IsTrue (O.device old.old).honest → IsTrue (N.device new.old).honest → (n : ℕ) (S : Keys) → Holds (O.device old.old).medium.seen n S
        → (t : List ℕ) → MayBeLeft (O.device old.old) (O.device old.new) (N.device new.new) (P.stands shelf.new) t → IsLeftOrHolds (O.device old.old) header.format header.slots S t }

    // And of the new file what it might have left before, or nothing that is made, or exactly the old one's members.
    ensures any_moment { IsTrue (O.device old.old).honest → IsTrue (N.device new.old).honest → (n : ℕ) (S : Keys) → Holds (O.device old.old).medium.seen n S
        → LeavesOnly (N.device new.old) (N.device new.new) (λ t. IsImage (N.device new.old).medium t ⊎ IsUnmadeOrHolds header.format header.slots S t) }
    ensures faults { (N.device new.old).faults ≤ (N.device new.new).faults }
    ensures honest { (N.device new.new).honest ≡ (N.device new.old).honest }
{
    let answer = grow(alloc, old, new, shelf, header.format, header.slots);
    tell_answer(writer, &answer)
}

// Renews the old file into the new one, reads both again, and puts the new one in the old one's place.
fn grow<O: Disk, N: Disk, P: Shelf>(
    alloc: Global,
    old: &mut O,
    new: &mut N,
    shelf: &mut P,
    format: Format,
    n: u64,
) -> Result<u64, RenewFault>
    requires rooms { last_room_of format ≡ last_room }
    requires stands { P.stands shelf.old ≡ Standing.Old }
    ensures growth { IsGrowth (O.device old.old) (O.device old.new) (N.device new.old) (N.device new.new) (new.new ≡ new.old) (P.stands shelf.new) format n result }
    ensures uncalled { IsBadCount format n → (old.new ≡ old.old) × (new.new ≡ new.old) × (shelf.new ≡ shelf.old) }
    ensures reads { OnlySyncs (O.device old.old) (O.device old.new) }
    ensures safe { IsTrue (N.device new.old).honest → (MayBeMade (N.device new.old).medium.seen n → ⊥) → WritesNothing (N.device new.old) (N.device new.new) }
    ensures named { IsTrue (O.device old.old).honest → IsTrue (N.device new.old).honest → (slots : ℕ) (S : Keys) → Holds (O.device old.old).medium.seen slots S
        → (t : List ℕ) → MayBeLeft (O.device old.old) (O.device old.new) (N.device new.new) (P.stands shelf.new) t → IsLeftOrHolds (O.device old.old) format n S t }
    ensures any_moment { IsTrue (O.device old.old).honest → IsTrue (N.device new.old).honest → (slots : ℕ) (S : Keys) → Holds (O.device old.old).medium.seen slots S
        → LeavesOnly (N.device new.old) (N.device new.new) (λ t. IsImage (N.device new.old).medium t ⊎ IsUnmadeOrHolds format n S t) }
    ensures faults { (N.device new.old).faults ≤ (N.device new.new).faults }
    ensures honest { (N.device new.new).honest ≡ (N.device new.old).honest }
{
    let members = renew(alloc, old, new, format, n)?;
    read_again(alloc, old, new)?;
    match shelf.put(old, new) {
        Ok(()) => Ok(members),
        Err(DeviceFault) => Err(RenewFault::New(MakeFault::Device)),
    }
}

// Reads both files, which hold one list of members, and fails unless they are read so.
fn read_again<O: Disk, N: Disk>(alloc: Global, old: &mut O, new: &mut N) -> Result<(), RenewFault>
    ensures reads { OnlySyncs (O.device old.old) (O.device old.new) }
    ensures reads_new { OnlySyncs (N.device new.old) (N.device new.new) }
    ensures same { OnOk result (HoldOneSetAtRest (O.device old.new) (N.device new.new)) }
    ensures calls { IsTrue (O.device old.old).honest → OnOk result ((O.device old.new).calls ≡ (O.device old.old).calls + calls_of_reading (O.device old.old).medium.seen) }
    ensures new_calls { IsTrue (N.device new.old).honest → OnOk result ((N.device new.new).calls ≡ (N.device new.old).calls + calls_of_reading (N.device new.old).medium.seen) }
    ensures unread { (ks : List ℕ) → (IsTrue (O.device old.old).honest → AreHeldBy (O.device old.old).medium.seen ks)
        → (IsTrue (O.device old.old).honest → IsTrue (N.device new.old).honest → AreHeldBy (N.device new.old).medium.seen ks)
        → IfErr result (IsUnread (O.device old.old) (O.device old.new) (N.device new.old) (N.device new.new)) }
{
    let kept = match read_members(alloc, old) {
        Ok(keys) => keys,
        Err(fault) => return Err(RenewFault::Old(fault)),
    };
    let given = match read_members(alloc, new) {
        Ok(keys) => keys,
        Err(fault) => return Err(fault_of_new(fault)),
    };
    if kept.as_slice() != given.as_slice() {
        return Err(RenewFault::New(MakeFault::Device));
    }
    Ok(())
}

// How it is told that the new file couldn't be read again.
fn fault_of_new(fault: OpenFault) -> RenewFault
    ensures { result ≡ new_fault fault }
{
    match fault {
        OpenFault::Memory => RenewFault::Old(fault),
        _ => RenewFault::New(MakeFault::Device),
    }
}

// Says how a growth went.
fn tell_answer<W: Write + Drop>(writer: &mut W, answer: &Result<u64, RenewFault>) -> Status
    ensures { Tells (W.contents writer.old) (W.contents writer.new) (growth_text answer.now) (renewal_status answer.now) result }
{
    status_sent(send_answer(writer, answer), status_of(answer))
}

fn send_answer<W: Write>(
    writer: &mut W,
    answer: &Result<u64, RenewFault>,
) -> Result<(), SessionFault>
    ensures { SendTells (W.contents writer.old) (W.contents writer.new) (growth_text answer.now) result }
{
    match answer {
        Ok(members) => send_line(writer, b"grown ", *members),
        Err(fault) => send_fault(writer, *fault),
    }
}
