//! The command that renews a file into another capacity.
ghost use Rattle.std.specs.Prelude.{◌≡◌, ◌⊎◌, ◌≤◌, ℕ, Result as Answer, Ok, Err, IfErr, IsTrue};
ghost use Rattle.lz_proto.specs.Steps.{SendTells};
ghost use Rattle.lz_slot.specs.Bytes.{Holds};
ghost use Rattle.lz_slot.specs.Limits.{last_room};
ghost use Rattle.lz_slot.specs.Rooms.{last_room_of};
ghost use Rattle.lz_slot.specs.Sets.{Keys};
ghost use Rattle.lz_disk.specs.Images.{IsImage};
ghost use Rattle.lz_disk.specs.Devices.{LeavesOnly};
ghost use Rattle.lz_vault.specs.Makes.{IsBadCount, IsUnmadeOrHolds, MayBeMade, WritesNothing, make_fault_number};
ghost use Rattle.lz_vault.specs.Renewals.{IsToldFirst, OnlySyncs};
ghost use Rattle.lazyset_file_commands.specs.Renewals.{IsRenewal, new_number_text, old_text, renewal_status, renewal_text};
ghost use Rattle.lazyset_file_commands.specs.Tellings.{Tells};

use crate::refusal::{send_line, send_slots, send_two};
use crate::status::Status;
use crate::telling::status_sent;
use crate::{making, refusal};
use lz_disk::Disk;
use lz_proto::SessionFault;
use lz_slot::Format;
use lz_vault::{MakeFault, OpenFault, RenewFault, renew};
use std::alloc::Global;
use std::io::Write;

/// Makes a file of this format with so many slots that holds the members of the old one, and says so: `renewed M`, `refused old N`
/// with the fault of an open and its slots where it has any, `refused new N` with the fault of a making, or `refused 9 M S`
/// where M members have no room in S slots. Failed where a device failed or there was no memory, and where the line could not
/// be written.
pub fn renew_on<W: Write + Drop, O: Disk, N: Disk>(
    alloc: Global,
    writer: &mut W,
    old: &mut O,
    new: &mut N,
    format: Format,
    slots: u64,
) -> Status
    requires rooms { last_room_of format ≡ last_room }
    ensures told { (answer : Answer ℕ RenewFault) × IsRenewal (O.device old.old) (O.device old.new) (N.device new.old) (N.device new.new) format slots answer
        × IfErr answer (λ fault. IsToldFirst fault → new.new ≡ new.old)
        × Tells (W.contents writer.old) (W.contents writer.new) (renewal_text answer) (renewal_status answer) result }
    ensures uncalled { IsBadCount format slots → (old.new ≡ old.old) × (new.new ≡ new.old) }
    ensures reads { OnlySyncs (O.device old.old) (O.device old.new) }
    ensures safe { IsTrue (N.device new.old).honest → (MayBeMade (N.device new.old).medium.seen slots → ⊥) → WritesNothing (N.device new.old) (N.device new.new) }

    // A crash at any moment leaves of the new file what it might have left before, or nothing that is made, or exactly the old one's
    // members in so many slots of this format.
    ensures any_moment { IsTrue (O.device old.old).honest → IsTrue (N.device new.old).honest → (n : ℕ) (S : Keys) → Holds (O.device old.old).medium.seen n S
        → LeavesOnly (N.device new.old) (N.device new.new) (λ t. IsImage (N.device new.old).medium t ⊎ IsUnmadeOrHolds format slots S t) }
    ensures faults { (N.device new.old).faults ≤ (N.device new.new).faults }
    ensures honest { (N.device new.new).honest ≡ (N.device new.old).honest }
{
    let answer = renew(alloc, old, new, format, slots);
    tell_answer(writer, &answer)
}

// Says how a renewal went.
fn tell_answer<W: Write + Drop>(writer: &mut W, answer: &Result<u64, RenewFault>) -> Status
    ensures { Tells (W.contents writer.old) (W.contents writer.new) (renewal_text answer.now) (renewal_status answer.now) result }
{
    status_sent(send_answer(writer, answer), status_of(answer))
}

// The status of a renewal whose line was written.
pub(crate) fn status_of(answer: &Result<u64, RenewFault>) -> Status
    ensures { result ≡ renewal_status answer.now }
{
    match answer {
        Ok(_) => Status::Done,
        Err(RenewFault::Old(fault)) => refusal::status_of(*fault),
        Err(RenewFault::New(fault)) => making::status_of(*fault),
        Err(RenewFault::TooSmall(_, _)) => Status::Refused,
    }
}

fn send_answer<W: Write>(
    writer: &mut W,
    answer: &Result<u64, RenewFault>,
) -> Result<(), SessionFault>
    ensures { SendTells (W.contents writer.old) (W.contents writer.new) (renewal_text answer.now) result }
{
    match answer {
        Ok(members) => send_line(writer, b"renewed ", *members),
        Err(fault) => send_fault(writer, *fault),
    }
}

pub(crate) fn send_fault<W: Write>(writer: &mut W, fault: RenewFault) -> Result<(), SessionFault>
    ensures { SendTells (W.contents writer.old) (W.contents writer.new) (renewal_text (Err fault)) result }
{
    match fault {
        RenewFault::Old(fault) => send_old(writer, fault),
        RenewFault::New(fault) => send_new(writer, fault),
        RenewFault::TooSmall(members, slots) => send_two(writer, b"refused 9 ", members, slots),
    }
}

fn send_old<W: Write>(writer: &mut W, fault: OpenFault) -> Result<(), SessionFault>
    ensures { SendTells (W.contents writer.old) (W.contents writer.new) (old_text fault) result }
{
    let numbered = fault;
    match fault {
        OpenFault::BadKey(slot) => send_line(writer, b"refused old 5 ", u64::from(slot.index())),
        OpenFault::Twice(first, second) => send_slots(writer, b"refused old 6 ", first, second),
        _ => send_line(writer, b"refused old ", u64::from(numbered.number())),
    }
}

fn send_new<W: Write>(writer: &mut W, fault: MakeFault) -> Result<(), SessionFault>
    ensures { SendTells (W.contents writer.old) (W.contents writer.new) (new_number_text (make_fault_number fault)) result }
{
    send_line(writer, b"refused new ", u64::from(fault.number()))
}
