// Bytes that a disk in memory keeps: writes over them, and the loose ones among them.
ghost use Rattle.std.specs.Prelude.{◌≡◌, ◌≤◌, Bool, length, ℕ, List, ◌∷◌, OnOk, OnErr, vec_len};
ghost use Rattle.lz_disk.specs.Images.{AreBytes, overwritten};
ghost use Rattle.lz_disk.specs.Picks.{with_loose};
ghost use Rattle.lz_disk.specs.Records.{after};

use crate::memory::Record;
use std::alloc::AllocError;

// The items of a slice of bytes are bytes.
pub(crate) fn known_bytes(bytes: &[u8])
    ensures { AreBytes bytes.now }
{
    let _ = bytes;
}

pub(crate) fn overwrite(text: &mut Vec<u8>, at: usize, bytes: &[u8]) -> Result<(), AllocError>
    requires { at ≤ vec_len text.old }
    ensures ok { OnOk result (text.new.items ≡ overwritten text.old.items at bytes.now) }
    ensures err { OnErr result (text.new.items ≡ text.old.items) }
{
    let within = bytes.len().min(text.len() - at);
    text.extend_from_slice(&bytes[within..])?;
    text[at..at + within].copy_from_slice(&bytes[..within]);
    Ok(())
}

// Puts the byte at each loose position. The ranges since the last sync are loose.
pub(crate) fn fill_loose(text: &mut [u8], changes: &[Record], byte: u8)
    ensures { (bytewise : Bool) (start : List ℕ) → text.new ≡ with_loose (after bytewise start changes.now).loose byte 0 text.old }
{
    let mut left = changes.len();
    while left > 0 {
        left -= 1;
        match &changes[left] {
            Record::Wrote(at, bytes) => fill_range(text, *at, bytes.len() as u64, byte),
            Record::Failed(at, bytes) => fill_range(text, *at, bytes.len() as u64, byte),
            Record::Synced => return,
        }
    }
}

fn fill_range(text: &mut [u8], at: u64, count: u64, byte: u8)
    ensures { (writes : List (ℕ × List ℕ)) (bytes : List ℕ) → length bytes ≡ count → with_loose writes byte 0 text.new ≡ with_loose ((at, bytes) ∷ writes) byte 0 text.old }
{
    let len = text.len() as u64;
    let low = at.min(len) as usize;
    let high = at.saturating_add(count).min(len) as usize;
    text[low..high].fill(byte);
}
