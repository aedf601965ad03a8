//! The count of the slots that a crash has torn.
ghost use Rattle.std.specs.Prelude.{◌≡◌, ◌+◌, ◌/◌, ◌%◌, ◌≤◌, ℕ, List, IfOk, length, Option};
ghost use Rattle.std.specs.Io.KnownBytes.{Consumes};
ghost use Rattle.lz_slot.specs.Bytes.{format_of, slot_at, slot_read};
ghost use Rattle.lz_slot.specs.Limits.{most_slots};
ghost use Rattle.lz_judge.specs.Scans.{IsPieceAt};
ghost use Rattle.lz_judge.specs.Surveys.{OfText};
ghost use Rattle.lazyset_file_commands.specs.Torn.{CountsTorn, HasTorn, is_torn, torn_below};

use lz_slot::{Format, SlotRead, read_head, read_slot};
use std::io;
use std::io::Read;

// The slots that are read at once.
const SLOTS_AT_ONCE: u64 = 1_024;

/// How many slots of the file are torn whose bytes the reader gives, where its head is that of a set. A torn slot was being written at a
/// crash: it holds no key, is no damage, and is free. Format 4 alone has such slots: of other files no more is read than the head.
pub fn torn_slots<R: Read>(reader: &mut R) -> io::Result<u64>
    ensures { IfOk result (λ count. OfText (λ t. HasTorn t count) (R.remaining reader.old)) }
{
    let mut head = [0; 16];
    reader.read_exact(&mut head)?;
    let Ok(header) = read_head(&head) else {
        return Ok(0);
    };
    match header.format {
        Format::Four => torn_slots_behind(reader, header.slots),
        Format::One | Format::Two | Format::Three => Ok(0),
    }
}

// How many of so many slots are torn that follow a head of format 4.
fn torn_slots_behind<R: Read>(reader: &mut R, slots: u64) -> io::Result<u64>
    requires { slots ≤ most_slots }
    ensures { (input : Option (List ℕ)) (head : List ℕ) → length head ≡ 16 → format_of head ≡ Format.Four → Consumes input (R.remaining reader.old) head
        → IfOk result (λ count. OfText (λ t. CountsTorn head slots count t) input) }
{
    let mut piece = [0; 16 * SLOTS_AT_ONCE as usize];
    let mut count = 0;
    let mut done = 0;
    while done < slots {
        let more = SLOTS_AT_ONCE.min(slots - done);
        let bytes = &mut piece[..16 * more as usize];
        reader.read_exact(bytes)?;
        count += torn_slots_among(bytes);
        done += more;
    }
    Ok(count)
}

// How many of these slots of a file of format 4 are torn.
fn torn_slots_among(piece: &[u8]) -> u64
    requires { length piece.now % 16 ≡ 0 }
    ensures bound { result ≤ length piece.now / 16 }
    ensures torn { (t : List ℕ) (first : ℕ) → format_of t ≡ Format.Four → IsPieceAt t first piece.now
        → torn_below (slot_at t) (first + length piece.now / 16) ≡ torn_below (slot_at t) first + result }
{
    let mut count = 0;
    for index in 0..piece.len() / 16 {
        let mut bytes = [0; 16];
        bytes.copy_from_slice(&piece[16 * index..16 * index + 16]);
        if is_torn(&bytes) {
            count += 1;
        }
    }
    count
}

fn is_torn(bytes: &[u8; 16]) -> bool
    ensures { result ≡ is_torn (slot_read Format.Four bytes.now) }
{
    matches!(read_slot(Format::Four, bytes), SlotRead::Torn)
}
