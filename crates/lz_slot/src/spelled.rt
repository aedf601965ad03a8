//! The slots of format 4: each byte is four bits of the key's rank and, below them, their complement, so that none is zero.
ghost use Rattle.std.specs.Prelude.{◌≡◌, ◌+◌, ◌*◌, ◌/◌, ◌%◌, length};
ghost use Rattle.std.specs.List.{list_all};
ghost use Rattle.byteorder.specs.Endian.{big_number};
ghost use Rattle.lz_slot.specs.Whole.{is_paired, is_shut, spells, whole_read, whole_slot};

use crate::key::Key;
use crate::slot::{SlotRead, are_zero};
use byteorder::{BigEndian, ByteOrder};

/// The sixteen bytes of a slot that holds the key of this rank.
pub fn whole_slot(rank: u64) -> [u8; 16]
    ensures { result ≡ whole_slot rank }
{
    let mut bytes = [0; 8];
    BigEndian::write_u64(&mut bytes, rank);
    let [a, b, c, d, e, f, g, h] = bytes;
    [
        high(a),
        low(a),
        high(b),
        low(b),
        high(c),
        low(c),
        high(d),
        low(d),
        high(e),
        low(e),
        high(f),
        low(f),
        high(g),
        low(g),
        high(h),
        low(h),
    ]
}

// The high four bits of a byte and, below them, their complement.
fn high(byte: u8) -> u8
    ensures { result ≡ 15 * (byte / 16 + 1) }
{
    15 * (byte / 16 + 1)
}

// The low four bits, in the same way.
fn low(byte: u8) -> u8
    ensures { result ≡ 15 * (byte % 16 + 1) }
{
    15 * (byte % 16 + 1)
}

/// What the bytes of a slot say.
pub(crate) fn read_whole_slot(bytes: &[u8; 16]) -> SlotRead
    ensures { result ≡ whole_read bytes.now }
{
    if is_shut(bytes) {
        return if are_zero(bytes) {
            SlotRead::Closed
        } else {
            SlotRead::Torn
        };
    }
    match Key::of_rank(spelled_number(bytes)) {
        Some(key) if are_paired(bytes) => SlotRead::Member(key),
        _ => SlotRead::BadKey,
    }
}

fn is_shut(bytes: &[u8]) -> bool
    ensures { result ≡ is_shut bytes.now }
{
    bytes.iter().any(|byte| *byte == 0)
}

fn are_paired(bytes: &[u8]) -> bool
    ensures { result ≡ list_all is_paired bytes.now }
{
    bytes.iter().all(|byte| byte / 16 + byte % 16 == 15)
}

// The number whose halves of bytes these spell.
fn spelled_number(bytes: &[u8; 16]) -> u64
    ensures { result ≡ big_number 8 (spells bytes.now) }
{
    let halves = [
        joined(bytes[0], bytes[1]),
        joined(bytes[2], bytes[3]),
        joined(bytes[4], bytes[5]),
        joined(bytes[6], bytes[7]),
        joined(bytes[8], bytes[9]),
        joined(bytes[10], bytes[11]),
        joined(bytes[12], bytes[13]),
        joined(bytes[14], bytes[15]),
    ];
    BigEndian::read_u64(&halves)
}

fn joined(high: u8, low: u8) -> u8
    ensures { result ≡ 16 * (high / 16) + low / 16 }
{
    16 * (high / 16) + low / 16
}
