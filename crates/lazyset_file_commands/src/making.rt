//! The command that makes a file.
ghost use Rattle.std.specs.Prelude.{◌≡◌, ◌⊎◌, ◌≤◌, [], IsTrue};
ghost use Rattle.lz_slot.specs.Sets.{members};
ghost use Rattle.lz_disk.specs.Images.{IsImage};
ghost use Rattle.lz_disk.specs.Devices.{LeavesOnly};
ghost use Rattle.lz_vault.specs.Makes.{IsBadCount, IsUnmadeOrHolds, MayBeMade, WritesNothing, make_fault_number};
ghost use Rattle.lazyset_file_commands.specs.Ends.{make_status};
ghost use Rattle.lazyset_file_commands.specs.Makings.{MadeFile, RefusedMaking, made_text, refused_text};
ghost use Rattle.lazyset_file_commands.specs.Tellings.{Tells};

use crate::refusal::send_line;
use crate::status::Status;
use crate::telling::status_sent;
use lz_disk::Disk;
use lz_slot::Format;
use lz_vault::{MakeFault, make_with};
use std::io::Write;

/// Makes a file of this format with so many slots, and says so: `made N`, or `refused N` with the fault's number. Failed also where the
/// line could not be written.
pub fn make_on<W: Write + Drop, D: Disk>(
    writer: &mut W,
    disk: &mut D,
    slots: u64,
    format: Format,
) -> Status
    // Either the file was made, or there was a fault; which of the two, and the status by it, is what was told.
    ensures made { MadeFile format slots result (W.contents writer.old) (W.contents writer.new) (D.device disk.old) (D.device disk.new)
        ⊎ RefusedMaking format slots result (W.contents writer.old) (W.contents writer.new) (D.device disk.old) (D.device disk.new) }

    ensures uncalled { IsBadCount format slots → disk.new ≡ disk.old }

    // Where no file can be made, as over a made one, nothing is written at any moment.
    ensures safe { IsTrue (D.device disk.old).honest → (MayBeMade (D.device disk.old).medium.seen slots → ⊥) → WritesNothing (D.device disk.old) (D.device disk.new) }
    ensures faults { (D.device disk.old).faults ≤ (D.device disk.new).faults }
    ensures honest { (D.device disk.new).honest ≡ (D.device disk.old).honest }

    // A crash at any moment leaves what it might have left before, or nothing that is made, or all of this file.
    ensures any_moment { IsTrue (D.device disk.old).honest
        → LeavesOnly (D.device disk.old) (D.device disk.new) (λ t. IsImage (D.device disk.old).medium t ⊎ IsUnmadeOrHolds format slots (members []) t) }
{
    match make_with(disk, format, slots, &[]) {
        Ok(()) => tell_made(writer, slots),
        Err(fault) => tell_fault(writer, fault),
    }
}

// Says that a file was made.
pub(crate) fn tell_made<W: Write + Drop>(writer: &mut W, slots: u64) -> Status
    ensures { Tells (W.contents writer.old) (W.contents writer.new) (made_text slots) Status.Done result }
{
    status_sent(send_line(writer, b"made ", slots), Status::Done)
}

// Says why none was.
pub(crate) fn tell_fault<W: Write + Drop>(writer: &mut W, fault: MakeFault) -> Status
    ensures { Tells (W.contents writer.old) (W.contents writer.new) (refused_text (make_fault_number fault)) (make_status fault) result }
{
    let told = fault;
    let number = u64::from(told.number());
    status_sent(send_line(writer, b"refused ", number), status_of(fault))
}

// The status after a making that made no file.
pub(crate) fn status_of(fault: MakeFault) -> Status
    ensures { result ≡ make_status fault }
{
    match fault {
        MakeFault::Device => Status::Failed,
        _ => Status::Refused,
    }
}
