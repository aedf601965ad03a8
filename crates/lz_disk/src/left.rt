// What a crash leaves of a disk in memory, where a mask or the writes' numbers pick it.
ghost use Rattle.std.specs.Prelude.{◌≡◌, ◌+◌, ◌-◌, ◌<◌, ◌^◌, Bool, true, false, nat_le, List, ℕ, IfOk, if◌then◌else◌, slice_index};
ghost use Rattle.lz_disk.specs.Picks.{covers, is_taken, nth_written, with_mask, with_nth};
ghost use Rattle.lz_disk.specs.Records.{after};

use crate::memory::Record;
use std::alloc::{AllocError, Global};

// The durable text with the bytes as read that the mask takes.
pub(crate) fn left_by_mask(
    alloc: Global,
    mask: u16,
    sure: &[u8],
    seen: &[u8],
) -> Result<Vec<u8>, AllocError>
    ensures { IfOk result (λ text. text.items ≡ with_mask mask 0 sure.now seen.now) }
{
    let mut text = sure.to_vec(alloc)?;
    let mut at = 0;
    while at < seen.len() && (at < text.len() || is_taken(mask, at)) {
        let byte = seen[at];
        if at >= text.len() {
            text.push(byte)?;
        } else if is_taken(mask, at) {
            text[at] = byte;
        }
        at += 1;
    }
    Ok(text)
}

// Whether a mask takes the byte at this place as it is read.
fn is_taken(mask: u16, at: usize) -> bool
    ensures { result ≡ is_taken mask at }
{
    (mask >> (at % 16)) % 2 == 1
}

// The text as read with the byte of the write with this number at each loose position.
pub(crate) fn left_at_nth(
    alloc: Global,
    number: u16,
    seen: &[u8],
    changes: &[Record],
) -> Result<Vec<u8>, AllocError>
    ensures { IfOk result (λ text. (bytewise : Bool) (start : List ℕ) → text.items ≡ with_nth (after bytewise start changes.now).loose number 0 seen.now) }
{
    let mut text = seen.to_vec(alloc)?;
    let mut at = 0;
    while at < text.len() {
        text[at] = nth_written(changes, number, at, text[at]);
        at += 1;
    }
    Ok(text)
}

// What the writes of one place have come to since the last sync: how many there were, and which byte is picked of theirs.
#[derive(Clone, Copy)]
struct Choice {
    times: usize,
    byte: u8,
}

impl Choice {
    // Adds a write of these bytes from this offset on, where it put one there.
    fn add(&mut self, number: u16, start: u64, bytes: &[u8], at: usize)
        requires { self.old.times < 2 ^ 63 }
        ensures passed { covers (start, bytes.now) at ≡ false → self.new ≡ self.old }
        ensures counted { covers (start, bytes.now) at ≡ true → self.new.times ≡ self.old.times + 1 }
        ensures picked { covers (start, bytes.now) at ≡ true → self.new.byte ≡ (if nat_le self.old.times number then slice_index bytes.now (at - start) else self.old.byte) }
    {
        let Some(place) = (at as u64).checked_sub(start) else {
            return;
        };
        let Some(byte) = bytes.get(place as usize) else {
            return;
        };
        if self.times <= number as usize {
            self.byte = *byte;
        }
        self.times += 1;
    }
}

// The byte that the write with this number put there, of those since the last sync, or the last one where there are fewer, or else the one
// that is given.
fn nth_written(changes: &[Record], number: u16, at: usize, byte: u8) -> u8
    ensures { (bytewise : Bool) (start : List ℕ) → result ≡ nth_written (after bytewise start changes.now).loose number at byte }
{
    let mut choice = Choice { times: 0, byte };
    let mut index = 0;
    while index < changes.len() {
        match &changes[index] {
            Record::Wrote(start, bytes) => choice.add(number, *start, bytes, at),
            Record::Failed(start, bytes) => choice.add(number, *start, bytes, at),
            Record::Synced => choice = Choice { times: 0, byte },
        }
        index += 1;
    }
    choice.byte
}
