//! What the program does to a disk that it has opened, whichever disk that is: so of an honest one it is promised what a crash leaves.
//! Its own (`FileDisk`) is honest where the file beneath it is.
ghost use Rattle.std.specs.Prelude.{◌≡◌, ◌⊎◌, ◌+◌, ◌≤◌, ℕ, List, [], true, IfOk, IsTrue, OnOk};
ghost use Rattle.lz_slot.specs.Bytes.{Holds, format_of};
ghost use Rattle.lz_slot.specs.Limits.{last_room, most_buckets};
ghost use Rattle.lz_slot.specs.Rooms.{last_room_of};
ghost use Rattle.lz_slot.specs.Sets.{Keys, members};
ghost use Rattle.lz_disk.specs.Images.{IsImage, synced};
ghost use Rattle.lz_disk.specs.Devices.{LeavesOnly};
ghost use Rattle.lz_vault.specs.Makes.{IsUnmadeOrHolds, WritesNothing};
ghost use Rattle.lz_vault.specs.Opens.{MayOpen};
ghost use Rattle.lazyset_file_commands.specs.Copies.{LeavesCopy};
ghost use Rattle.lazyset_file_commands.specs.Growths.{IsLeftOrHolds, MayBeLeft};
ghost use Rattle.lazyset_file_commands.specs.Listings.{LeavesListed};
ghost use Rattle.lazyset_file_commands.specs.Lists.{HasPlaceFor, named_by};
ghost use Rattle.lazyset_file_commands.specs.Refusals.{FailedOpen};
ghost use Rattle.lazyset_file_commands.specs.Rewritings.{IsWholeFour, calls_of_rewriting};
ghost use Rattle.lazyset_set_commands.specs.PlainReplies.{PassMayAnswer};
ghost use Rattle.lazyset_set_commands.specs.Runs.{SessionOfSet};

use crate::files::{bytes_of, shown};
use lazyset_arguments::New;
use lazyset_file_commands::{RewriteFault, rewrite};
use lazyset_set_commands::{
    Heed, Lines, Shelf, Standing, Status, copy_on, grow_on, make_keys_on, make_on, renew_on, run_on,
};
use lz_disk::Disk;
use lz_slot::Header;
use std::fs::File;
use std::io::{Read, Write};
use std::rt::Files;
use std::sync::Wait;
use std::time::Clock;

/// A file that was opened.
pub struct Opened<'a, D> {
    pub path: &'a str,
    pub disk: D,
}

/// Makes the file on its disk, and hands the disk back.
pub fn make_over<R, W, D>(rt: &R, writer: &mut W, new: New<'_>, disk: D) -> (Status, D)
where
    R: Files<File = File> + Eprint + Clock,
    W: Write + Drop,
    D: Disk,
    ensures { IsTrue (D.device disk).honest
        → LeavesOnly (D.device disk) (D.device result.1) (λ t. IsImage (D.device disk).medium t ⊎ IsUnmadeOrHolds new.entry.format new.entry.slots (members []) t) }
{
    let mut disk = shown(rt, new.file, disk, bytes_of(new.slots));
    let status = make_on(writer, &mut disk, new.slots, new.format);
    (status, disk.end())
}

/// Makes the file of the keys that the reader's lines name on its disk, and hands the disk back.
pub fn make_keys_over<R, I, W, D>(
    rt: &R,
    reader: &mut I,
    writer: &mut W,
    new: New<'_>,
    disk: D,
    lines: Lines<'_>,
) -> (Status, D)
where
    R: Files<File = File> + Eprint + Clock + AllocGlobal,
    I: Read,
    W: Write + Drop,
    D: Disk,
    requires { HasPlaceFor new.format lines }
    ensures { IsTrue (D.device disk).honest → LeavesListed new.entry.format (named_by new.entry.format lines.entry) new.entry.slots (I.remaining reader.old) (D.device disk) (D.device result.1) }
{
    let mut disk = shown(rt, new.file, disk, bytes_of(new.slots));
    let header = Header {
        format: new.format,
        slots: new.slots,
    };
    let status = make_keys_on(rt.alloc(), reader, writer, &mut disk, header, lines);
    (status, disk.end())
}

/// Makes the file of the keys that a service tells on its disk, and hands the disk back.
pub fn copy_over<R, I, A, W, D>(
    rt: &R,
    reader: &mut I,
    asker: &mut A,
    writer: &mut W,
    new: New<'_>,
    disk: D,
) -> (Status, D)
where
    R: Files<File = File> + Eprint + Clock + AllocGlobal,
    I: Read,
    A: Write,
    W: Write + Drop,
    D: Disk,
    requires { last_room_of new.format ≡ last_room }
    ensures { IsTrue (D.device disk).honest
        → LeavesCopy new.entry.format new.entry.slots (record { input = I.remaining reader.old; before = A.contents asker.old; after = A.contents asker.new }) (D.device disk) (D.device result.1) }
{
    let mut disk = shown(rt, new.file, disk, bytes_of(new.slots));
    let header = Header {
        format: new.format,
        slots: new.slots,
    };
    let status = copy_on(rt.alloc(), reader, asker, writer, &mut disk, header);
    (status, disk.end())
}

/// Renews the file on the disk of this path into another one on its disk, and hands both disks back.
pub fn renew_over<R, W, O, N>(
    rt: &R,
    writer: &mut W,
    old_path: &str,
    old: O,
    made: New<'_>,
    new: N,
) -> (Status, O, N)
where
    R: Files<File = File> + Eprint + Clock + AllocGlobal,
    W: Write + Drop,
    O: Disk,
    N: Disk,
    requires { last_room_of made.format ≡ last_room }
    ensures { IsTrue (O.device old).honest → IsTrue (N.device new).honest → (n : ℕ) (S : Keys) → Holds (O.device old).medium.seen n S
        → LeavesOnly (N.device new) (N.device result.2) (λ t. IsImage (N.device new).medium t ⊎ IsUnmadeOrHolds made.entry.format made.entry.slots S t) }
{
    let mut old = shown(rt, old_path, old, None);
    let mut new = shown(rt, made.file, new, bytes_of(made.slots));
    let (slots, format) = (made.slots, made.format);
    let status = renew_on(rt.alloc(), writer, &mut old, &mut new, format, slots);
    (status, old.end(), new.end())
}

/// Writes the file on the disk of this path anew in its own place, and hands the disk back.
pub fn rewrite_over<R, D>(rt: &R, path: &str, disk: D) -> (Result<u64, RewriteFault>, D)
where
    R: Files<File = File> + Eprint + Clock,
    D: Disk,
    ensures same { IsTrue (D.device disk).honest → OnOk result.0 ((D.device result.1).medium ≡ synced (D.device disk).medium) }
    ensures any_moment { IsTrue (D.device disk).honest → (D.device disk).medium.bytewise ≡ true → LeavesOnly (D.device disk) (D.device result.1) (IsImage (D.device disk).medium) }
    ensures safe { IsTrue (D.device disk).honest → ((n : ℕ) → ¬ IsWholeFour (D.device disk).medium.seen n) → WritesNothing (D.device disk) (D.device result.1) }
    ensures calls { IfOk result.0 (λ n. (D.device result.1).calls ≡ (D.device disk).calls + calls_of_rewriting n) }
{
    let mut disk = shown(rt, path, disk, bytes_rewritten(rt, path));
    let answer = rewrite(&mut disk);
    (answer, disk.end())
}

// All bytes of the file are read, and written.
fn bytes_rewritten<R: Files<File = File>>(rt: &R, path: &str) -> Option<u64> {
    let length = rt.metadata(path).ok()?.len();
    Some(length.saturating_mul(2))
}

/// Grows this file into another one on its disk, which takes the name that the shelf has, and hands both disks back.
pub fn grow_over<R, W, O, N, P>(
    rt: &R,
    writer: &mut W,
    old: Opened<'_, O>,
    made: New<'_>,
    new: N,
    shelf: &mut P,
) -> (Status, O, N)
where
    R: Files<File = File> + Eprint + Clock + AllocGlobal,
    W: Write + Drop,
    O: Disk,
    N: Disk,
    P: Shelf,
    requires rooms { last_room_of made.format ≡ last_room }
    requires stands { P.stands shelf.old ≡ Standing.Old }
    ensures { IsTrue (O.device old.entry.disk).honest → IsTrue (N.device new).honest → (n : ℕ) (S : Keys) → Holds (O.device old.entry.disk).medium.seen n S
        → (t : List ℕ) → MayBeLeft (O.device old.entry.disk) (O.device result.1) (N.device result.2) (P.stands shelf.new) t → IsLeftOrHolds (O.device old.entry.disk) made.entry.format made.entry.slots S t }
{
    let Opened { path, disk } = old;
    let mut old = shown(rt, path, disk, None);
    let mut new = shown(rt, made.file, new, bytes_of(made.slots));
    let header = Header {
        format: made.format,
        slots: made.slots,
    };
    let status = grow_on(rt.alloc(), writer, &mut old, &mut new, shelf, header);
    (status, old.end(), new.end())
}

/// Serves a session over the disk of this file, and hands the disk back.
pub fn run_over<R, I, W, H, D>(
    rt: &R,
    reader: &mut I,
    writer: &mut W,
    heed: &H,
    file: Opened<'_, D>,
    buckets: usize,
) -> (Status, D)
where
    R: Files<File = File> + Eprint + AllocGlobal + Wait + Clock,
    I: Read + Drop,
    W: Write + Drop,
    H: Heed,
    D: Disk,
    requires buckets { (1 ≤ buckets) × (buckets ≤ most_buckets) }
    requires medium { MayOpen (D.device file.disk) }
    ensures { (N : ℕ) (S : Keys) → IsTrue (D.device file.entry.disk).honest → Holds (D.device file.entry.disk).medium.seen N S
        → SessionOfSet (PassMayAnswer (format_of (D.device file.entry.disk).medium.seen) N) N S result.0 (I.remaining reader.old) (I.remaining reader.new) (W.contents writer.old) (W.contents writer.new) (D.device file.entry.disk) (D.device result.1)
        ⊎ FailedOpen result.0 (W.contents writer.old) (W.contents writer.new) (D.device file.entry.disk) (D.device result.1) }
{
    let Opened { path, disk } = file;
    let disk = shown(rt, path, disk, None);
    let (status, disk) = run_on(rt, reader, writer, heed, disk, buckets);
    (status, disk.end())
}
