//! The command that makes a file of the keys that a running service tells.
ghost use Rattle.std.specs.Prelude.{◌≡◌, ◌↔◌, ◌≤◌, ℕ, Result as Answer, Err, IfErr, IfOk, IsErrOf, IsTrue, OnOk};
ghost use Rattle.lz_slot.specs.Limits.{last_room};
ghost use Rattle.lz_slot.specs.Rooms.{last_room_of};
ghost use Rattle.lz_scan_client.specs.Shapes.{IsShape};
ghost use Rattle.lz_scan_client.specs.declared.fault.ScanFault.{ScanFault as Why};
ghost use Rattle.lz_vault.specs.Makes.{IsBadCount, MayBeMade, WritesNothing};
ghost use Rattle.lazyset_file_commands.specs.Copies.{IsCopy, IsCopyFaultOf, IsToldFirst, LeavesCopy, MakesCopy, copy_status, copy_text, scan_status, scan_text};
ghost use Rattle.lazyset_file_commands.specs.Tellings.{Tells};

use crate::listing::tell_too_many;
use crate::making::tell_fault;
use crate::refusal::send_line;
use crate::status::Status;
use crate::telling::{NO_MEMORY, NO_READ, status_sent, tell};
use lz_disk::Disk;
use lz_scan_client::{ScanFault, Shape, ToldKeys, ask_shape, scan_rooms};
use lz_slot::{Format, Header};
use lz_vault::{MakeFault, make_with};
use std::alloc::Global;
use std::io::{Read, Write};

// What is said of a reply that is no page of keys.
const NO_REPLY: &[u8] = b"noreply\n";

/// Why no copy was made.
#[derive(Clone, Copy)]
pub enum CopyFault {
    OfScan(ScanFault),
    /// There are so many keys, or more, and the file would have only so many slots.
    TooMany(u64, u64),
    OfMaking(MakeFault),
}

/// Makes a file with this head, of whose slots the first hold the keys that a service tells to a scan of all its rooms, and
/// says so: `copied M`, or why not, by the first of these: `refused 2` where no file has so many slots, before anything is asked;
/// `noread` where the connection failed or ended, `noreply` where a reply is no page of keys; `refused 9 M S` where M keys or more have no room
/// in S slots; and `refused N` with the fault of a making. Failed where a device failed or the connection did, or there was no
/// memory, with `nomemory`, and where the line could not be written. The connection is one that is read from and asked over.
pub fn copy_on<R: Read, A: Write, W: Write + Drop, D: Disk>(
    alloc: Global,
    reader: &mut R,
    asker: &mut A,
    writer: &mut W,
    disk: &mut D,
    header: Header,
) -> Status
    requires rooms { last_room_of header.format ≡ last_room }
    ensures told { (answer : Answer ℕ CopyFault)
        × IsCopy header.format header.slots (record { input = R.remaining reader.old; before = A.contents asker.old; after = A.contents asker.new }) (D.device disk.old) (D.device disk.new) answer
        × IfErr answer (λ fault. IsToldFirst fault → disk.new ≡ disk.old)
        × Tells (W.contents writer.old) (W.contents writer.new) (copy_text answer) (copy_status answer) result }
    ensures uncalled { IsBadCount header.format header.slots → (reader.new ≡ reader.old) × (asker.new ≡ asker.old) × (disk.new ≡ disk.old) }
    ensures safe { IsTrue (D.device disk.old).honest → (MayBeMade (D.device disk.old).medium.seen header.slots → ⊥) → WritesNothing (D.device disk.old) (D.device disk.new) }
    ensures any_moment { IsTrue (D.device disk.old).honest
        → LeavesCopy header.format header.slots (record { input = R.remaining reader.old; before = A.contents asker.old; after = A.contents asker.new }) (D.device disk.old) (D.device disk.new) }
    ensures faults { (D.device disk.old).faults ≤ (D.device disk.new).faults }
    ensures honest { (D.device disk.new).honest ≡ (D.device disk.old).honest }
{
    let answer = make_copy(alloc, reader, asker, disk, header.slots, header.format);
    tell_answer(writer, answer)
}

/// Asks a service for the format and the slots of its file, over a connection that is read from and asked over. Where they aren't told it
/// says why, `noread`, `noreply` or `nomemory`, and gives the status of a copy that ends so.
pub fn ask_shape_on<R: Read, A: Write, W: Write + Drop>(
    alloc: Global,
    reader: &mut R,
    asker: &mut A,
    writer: &mut W,
) -> Result<Shape, Status>
    ensures shape { IfOk result (IsShape (R.remaining reader.old) (R.remaining reader.new) (A.contents asker.old) (A.contents asker.new)) }
    ensures untold { OnOk result (W.contents writer.new ≡ W.contents writer.old) }
    ensures err { IfErr result (λ status. (fault : Why) × Tells (W.contents writer.old) (W.contents writer.new) (scan_text fault) (scan_status fault) status) }
{
    match ask_shape(alloc, reader, asker) {
        Ok(shape) => Ok(shape),
        Err(fault) => Err(tell_scan_fault(writer, fault)),
    }
}

// Makes the file, and gives the number of its keys.
fn make_copy<R: Read, A: Write, D: Disk>(
    alloc: Global,
    reader: &mut R,
    asker: &mut A,
    disk: &mut D,
    slots: u64,
    format: Format,
) -> Result<u64, CopyFault>
    requires rooms { last_room_of format ≡ last_room }
    ensures made { IfOk result (MakesCopy format slots (record { input = R.remaining reader.old; before = A.contents asker.old; after = A.contents asker.new }) (D.device disk.old) (D.device disk.new)) }
    ensures refused { IfErr result (IsCopyFaultOf format slots (record { input = R.remaining reader.old; before = A.contents asker.old; after = A.contents asker.new }) (D.device disk.old) (D.device disk.new)) }
    ensures count { IsErrOf result (CopyFault.OfMaking MakeFault.BadCount) ↔ IsBadCount format slots }
    ensures unread { IsBadCount format slots → (reader.new ≡ reader.old) × (asker.new ≡ asker.old) }
    ensures untouched { IfErr result (λ fault. IsToldFirst fault → disk.new ≡ disk.old) }
    ensures safe { IsTrue (D.device disk.old).honest → (MayBeMade (D.device disk.old).medium.seen slots → ⊥) → WritesNothing (D.device disk.old) (D.device disk.new) }
    ensures any_moment { IsTrue (D.device disk.old).honest
        → LeavesCopy format slots (record { input = R.remaining reader.old; before = A.contents asker.old; after = A.contents asker.new }) (D.device disk.old) (D.device disk.new) }
    ensures faults { (D.device disk.old).faults ≤ (D.device disk.new).faults }
    ensures honest { (D.device disk.new).honest ≡ (D.device disk.old).honest }
{
    if slots == 0 || slots > format.most_slots() {
        return Err(CopyFault::OfMaking(MakeFault::BadCount));
    }
    let keys = match scan_rooms(alloc, reader, asker, slots) {
        Ok(ToldKeys::All(keys)) => keys,
        Ok(ToldKeys::More(count)) => return Err(CopyFault::TooMany(count, slots)),
        Err(fault) => return Err(CopyFault::OfScan(fault)),
    };
    let count = keys.len() as u64;
    match make_with(disk, format, slots, &keys) {
        Ok(()) => Ok(count),
        Err(fault) => Err(CopyFault::OfMaking(fault)),
    }
}

// Says how a copy went.
fn tell_answer<W: Write + Drop>(writer: &mut W, answer: Result<u64, CopyFault>) -> Status
    ensures { Tells (W.contents writer.old) (W.contents writer.new) (copy_text answer) (copy_status answer) result }
{
    match answer {
        Ok(keys) => status_sent(send_line(writer, b"copied ", keys), Status::Done),
        Err(CopyFault::OfScan(fault)) => tell_scan_fault(writer, fault),
        Err(CopyFault::TooMany(count, room)) => tell_too_many(writer, count, room),
        Err(CopyFault::OfMaking(fault)) => tell_fault(writer, fault),
    }
}

fn tell_scan_fault<W: Write + Drop>(writer: &mut W, fault: ScanFault) -> Status
    ensures { Tells (W.contents writer.old) (W.contents writer.new) (scan_text fault) (scan_status fault) result }
{
    match fault {
        ScanFault::Connection => tell(writer, Status::Failed, NO_READ),
        ScanFault::Reply => tell(writer, Status::Refused, NO_REPLY),
        ScanFault::Memory => tell(writer, Status::Failed, NO_MEMORY),
    }
}
