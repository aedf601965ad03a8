//! The command that makes a file with the keys of a list.
ghost use Rattle.std.specs.Prelude.{◌≡◌, ◌↔◌, ◌≤◌, ℕ, List, Result as Answer, Err, IfErr, IsErrOf, IsTrue, OnOk};
ghost use Rattle.lz_vault.specs.Makes.{IsBadCount, MayBeMade, WritesNothing};
ghost use Rattle.lazyset_file_commands.specs.Lists.{HasPlaceFor, named_by};
ghost use Rattle.lazyset_file_commands.specs.Listings.{IsListing, IsListingFaultOf, IsToldFirst, LeavesListed, MakesListed, list_status, list_text, listing_status, listing_text};
ghost use Rattle.lazyset_file_commands.specs.Makings.{room_text};
ghost use Rattle.lazyset_file_commands.specs.Tellings.{Tells};

use crate::lines::Lines;
use crate::list::{ListFault, read_list};
use crate::making::{tell_fault, tell_made};
use crate::refusal::{refuse_line, send_line, send_two};
use crate::status::Status;
use crate::telling::{NO_MEMORY, NO_READ, status_sent, tell};
use lz_disk::Disk;
use lz_slot::{Format, Header};
use lz_vault::{MakeFault, make_with};
use std::alloc::Global;
use std::io::{Read, Write};

/// Why no file was made of a list.
#[derive(Clone, Copy)]
pub enum ListingFault {
    OfList(ListFault),
    /// There are so many keys, and the file would have only so many slots.
    TooMany(u64, u64),
    OfMaking(MakeFault),
}

/// Makes a file with this head, of whose slots the first hold the keys that the reader's lines name, after the mark of texts
/// where they are texts, and after that of their secret too where there is one. It says so: `made N`, or why not, by the first of these:
/// `refused 2` where no file has so many slots, before anything is read; `line L` with the first line at fault where it names no key of
/// the format or doesn't end, `twice L` where its key stands in a line above; `refused 9 M S` where M keys have no room in S slots; and
/// `refused N` with the fault of a making. Failed where a device failed or a read, with `noread`, or there was no memory, with
/// `nomemory`, and where the line could not be written.
pub fn make_keys_on<R: Read, W: Write + Drop, D: Disk>(
    alloc: Global,
    reader: &mut R,
    writer: &mut W,
    disk: &mut D,
    header: Header,
    lines: Lines<'_>,
) -> Status
    requires { HasPlaceFor header.format lines }
    ensures told { (answer : Answer (Unit {0}) ListingFault) × IsListing header.format (named_by header.format lines.entry) header.slots (R.remaining reader.old) (D.device disk.old) (D.device disk.new) answer
        × IfErr answer (λ fault. IsToldFirst fault → disk.new ≡ disk.old)
        × Tells (W.contents writer.old) (W.contents writer.new) (listing_text header.slots answer) (listing_status answer) result }
    ensures uncalled { IsBadCount header.format header.slots → (reader.new ≡ reader.old) × (disk.new ≡ disk.old) }
    ensures safe { IsTrue (D.device disk.old).honest → (MayBeMade (D.device disk.old).medium.seen header.slots → ⊥) → WritesNothing (D.device disk.old) (D.device disk.new) }
    ensures any_moment { IsTrue (D.device disk.old).honest → LeavesListed header.format (named_by header.format lines.entry) header.slots (R.remaining reader.old) (D.device disk.old) (D.device disk.new) }
    ensures faults { (D.device disk.old).faults ≤ (D.device disk.new).faults }
    ensures honest { (D.device disk.new).honest ≡ (D.device disk.old).honest }
{
    let answer = make_listed(alloc, reader, disk, header.slots, header.format, lines);
    tell_answer(writer, header.slots, answer)
}

// Makes the file.
fn make_listed<R: Read, D: Disk>(
    alloc: Global,
    reader: &mut R,
    disk: &mut D,
    slots: u64,
    format: Format,
    lines: Lines<'_>,
) -> Result<(), ListingFault>
    requires { HasPlaceFor format lines }
    ensures made { OnOk result (MakesListed format (named_by format lines.entry) slots (R.remaining reader.old) (D.device disk.old) (D.device disk.new)) }
    ensures refused { IfErr result (IsListingFaultOf format (named_by format lines.entry) slots (R.remaining reader.old) (D.device disk.old) (D.device disk.new)) }
    ensures count { IsErrOf result (ListingFault.OfMaking MakeFault.BadCount) ↔ IsBadCount format slots }
    ensures unread { IsBadCount format slots → reader.new ≡ reader.old }
    ensures untouched { IfErr result (λ fault. IsToldFirst fault → disk.new ≡ disk.old) }
    ensures safe { IsTrue (D.device disk.old).honest → (MayBeMade (D.device disk.old).medium.seen slots → ⊥) → WritesNothing (D.device disk.old) (D.device disk.new) }
    ensures any_moment { IsTrue (D.device disk.old).honest → LeavesListed format (named_by format lines.entry) slots (R.remaining reader.old) (D.device disk.old) (D.device disk.new) }
    ensures faults { (D.device disk.old).faults ≤ (D.device disk.new).faults }
    ensures honest { (D.device disk.new).honest ≡ (D.device disk.old).honest }
{
    if slots == 0 || slots > format.most_slots() {
        return Err(ListingFault::OfMaking(MakeFault::BadCount));
    }
    let keys = match read_list(alloc, reader, format, lines) {
        Ok(keys) => keys,
        Err(fault) => return Err(ListingFault::OfList(fault)),
    };
    let count = keys.len() as u64;
    if slots < count {
        return Err(ListingFault::TooMany(count, slots));
    }
    match make_with(disk, format, slots, &keys) {
        Ok(()) => Ok(()),
        Err(fault) => Err(ListingFault::OfMaking(fault)),
    }
}

// Says how a making of a file with so many slots went.
fn tell_answer<W: Write + Drop>(
    writer: &mut W,
    slots: u64,
    answer: Result<(), ListingFault>,
) -> Status
    ensures { Tells (W.contents writer.old) (W.contents writer.new) (listing_text slots answer) (listing_status answer) result }
{
    match answer {
        Ok(()) => tell_made(writer, slots),
        Err(ListingFault::OfList(fault)) => tell_list_fault(writer, fault),
        Err(ListingFault::TooMany(count, room)) => tell_too_many(writer, count, room),
        Err(ListingFault::OfMaking(fault)) => tell_fault(writer, fault),
    }
}

fn tell_list_fault<W: Write + Drop>(writer: &mut W, fault: ListFault) -> Status
    ensures { Tells (W.contents writer.old) (W.contents writer.new) (list_text fault) (list_status fault) result }
{
    match fault {
        ListFault::Line(number) => refuse_line(writer, number),
        ListFault::Twice(number) => {
            status_sent(send_line(writer, b"twice ", number), Status::Refused)
        }
        ListFault::Read => tell(writer, Status::Failed, NO_READ),
        ListFault::Memory => tell(writer, Status::Failed, NO_MEMORY),
    }
}

// Says that so many keys have no room in so many slots.
pub(crate) fn tell_too_many<W: Write + Drop>(writer: &mut W, count: u64, room: u64) -> Status
    ensures { Tells (W.contents writer.old) (W.contents writer.new) (room_text count room) Status.Refused result }
{
    status_sent(
        send_two(writer, b"refused 9 ", count, room),
        Status::Refused,
    )
}
