//! Pages of the members of a room, or of all rooms.
ghost use Rattle.std.specs.Prelude.{◌≡◌, ◌++◌, IfOk, OnOk, count_by, decimal};
ghost use Rattle.std.specs.List.{flat_map};
ghost use Rattle.lz_resp.specs.Frames.{bulk};
ghost use Rattle.lz_resp.specs.Scans.{cursor_of, is_in, member_text, page_text, told_of};

use crate::text::{Text, push_bulk, push_number};
use itoa::Buffer;
use lz_slot::{Key, Slot};
use std::alloc::{AllocError, Global};

/// A page of members that is asked for.
#[derive(Clone, Copy, Debug, PartialEq, Eq)]
pub struct Scan {
    /// Of which room they are; none for all rooms, whose keys are told by their ranks.
    pub room: Option<u8>,
    /// The slot from which it goes on.
    pub from: Slot,
    /// How many keys it has at most, those of other rooms counted.
    pub most: usize,
}

impl Scan {
    /// The reply where the page has these keys, and this is the slot to go on from.
    pub fn text(self, alloc: Global, keys: &[Key], next: Option<Slot>) -> Result<Text, AllocError>
        ensures { IfOk result (λ text. text ≡ page_text self.room keys.now next) }
    {
        let mut text = Vec::from_slice(alloc, b"*2\r\n")?;
        push_decimal(&mut text, cursor_of(next))?;
        text.extend_from_slice(b"*")?;
        push_number(&mut text, count_in(self.room, keys))?;
        text.extend_from_slice(b"\r\n")?;
        push_members(&mut text, self.room, keys)?;
        Ok(Text::new(text))
    }
}

// What a client is to send for the next page: 0 begins again.
fn cursor_of(next: Option<Slot>) -> u64
    ensures { result ≡ cursor_of next }
{
    match next {
        Some(slot) => u64::from(slot.index()),
        None => 0,
    }
}

fn count_in(room: Option<u8>, keys: &[Key]) -> usize
    ensures { result ≡ count_by (is_in room) keys.now }
{
    keys.iter().filter(|key| is_in(room, **key)).count()
}

fn is_in(room: Option<u8>, key: Key) -> bool
    ensures { result ≡ is_in room key }
{
    match room {
        Some(room) => key.room() == room,
        None => true,
    }
}

// What is told of those keys that are in the room.
fn push_members(text: &mut Vec<u8>, room: Option<u8>, keys: &[Key]) -> Result<(), AllocError>
    ensures { OnOk result (text.new.items ≡ text.old.items ++ flat_map (member_text room) keys.now) }
{
    for key in keys {
        push_member(text, room, *key)?;
    }
    Ok(())
}

fn push_member(text: &mut Vec<u8>, room: Option<u8>, key: Key) -> Result<(), AllocError>
    ensures { OnOk result (text.new.items ≡ text.old.items ++ member_text room key) }
{
    if !is_in(room, key) {
        return Ok(());
    }
    push_decimal(text, told_of(room, key))
}

// By which number a key is told.
fn told_of(room: Option<u8>, key: Key) -> u64
    ensures { result ≡ told_of room key }
{
    match room {
        Some(_) => key.get(),
        None => key.rank(),
    }
}

/// Puts a number's decimal as a bulk string after a text.
pub fn push_decimal(text: &mut Vec<u8>, number: u64) -> Result<(), AllocError>
    ensures { OnOk result (text.new.items ≡ text.old.items ++ bulk (decimal number)) }
{
    let mut digits = Buffer::new();
    push_bulk(text, digits.format(number).as_bytes())
}
