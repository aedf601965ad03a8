//! Keys as texts.
ghost use Rattle.std.specs.Prelude.{◌≡◌, ◌≤◌, IfSome, Ok};
ghost use Rattle.lz_slot.specs.Limits.{largest_number, last_room};
ghost use Rattle.lz_slot.specs.Numerals.{number_in};
ghost use Rattle.lz_slot.specs.Rooms.{rank};
ghost use Rattle.lz_slot.specs.Texts.{key_in, key_read};

use crate::key::{Key, LAST_ROOM, MAX_NUMBER};
use crate::numeral::{is_number, read_number};
use memchr::memchr;
use std::fmt;

/// Why a text spells no key, by the first test that it fails.
#[derive(Clone, Copy, Debug, PartialEq, Eq)]
pub enum KeyFault {
    /// What stands before the first `:` is no room.
    NoRoom,
    /// What follows, or the whole text where it has no `:`, is no plain decimal.
    NoNumber,
    /// The number is above `MAX_NUMBER`.
    TooLarge,
}

/// The key that a text spells: its number, after its room and a `:` or, in room 0, alone. Both are plain decimals.
pub fn read_key(text: &[u8]) -> Result<Key, KeyFault>
    ensures { result ≡ key_read text.now }
{
    // Most texts are a number alone, which has no `:`.
    match read_number(text, 0, MAX_NUMBER) {
        Some(number) => key_of_number(0, number),
        None => read_parts(text),
    }
}

// The same, whatever the text is: cut at its first `:`.
fn read_parts(text: &[u8]) -> Result<Key, KeyFault>
    ensures { result ≡ key_read text.now }
{
    match memchr(b':', text) {
        Some(end) => match read_room(&text[..end]) {
            Some(room) => read_key_in(room, &text[end + 1..]),
            None => Err(KeyFault::NoRoom),
        },
        None => read_key_in(0, text),
    }
}

fn read_room(text: &[u8]) -> Option<u8>
    ensures room { result ≡ number_in 0 last_room text.now }
    ensures range { IfSome result (λ room. room ≤ last_room) }
{
    let room = read_number(text, 0, u64::from(LAST_ROOM))?;
    Some(room as u8)
}

// The key of this room whose number the text is.
fn read_key_in(room: u8, text: &[u8]) -> Result<Key, KeyFault>
    requires { room ≤ last_room }
    ensures { result ≡ key_in room text.now }
{
    if !is_number(text) {
        return Err(KeyFault::NoNumber);
    }
    match read_number(text, 0, MAX_NUMBER) {
        Some(number) => key_of_number(room, number),
        None => Err(KeyFault::TooLarge),
    }
}

// The key with this number in this room.
fn key_of_number(room: u8, number: u64) -> Result<Key, KeyFault>
    requires { (room ≤ last_room) × (number ≤ largest_number) }
    ensures { result ≡ Ok (rank room number) }
{
    match Key::in_room(room, number) {
        Some(key) => Ok(key),
        None => Err(KeyFault::TooLarge),
    }
}

impl fmt::Display for Key {
    ghost use Rattle.std.specs.Prelude.{Some};
    ghost use Rattle.lz_slot.specs.Texts.{key_text};

    ghost output = { λ key. Some (key_text key) };

    fn fmt<W: fmt::Write>(&self, f: &mut fmt::Formatter<W>) -> fmt::Result {
        let room = self.room();
        let number = self.get();
        if room == 0 {
            write!(f, "{number}")
        } else {
            write!(f, "{room}:{number}")
        }
    }
}
