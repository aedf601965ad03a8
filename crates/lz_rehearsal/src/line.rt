//! One line of a script.
ghost use Rattle.std.specs.Prelude.{◌≡◌, ◌≤◌, IfSome, option_map};
ghost use Rattle.lz_slot.specs.Texts.{parted};
ghost use Rattle.lz_rehearsal.specs.Scripts.{actor_read, bare, byte_read, call_read, command_read, crash_read, finish_read, hex_digit, kind_read, line_read, pick_read, space, turn_read, until_read};

use crate::limits::{MOST_KEPT, MOST_LENGTH, MOST_TURNS};
use lz_core::Kind;
use lz_disk::Pick;
use lz_slot::{Command, MOST_ACTORS, read_key, read_number};
use memchr::memchr;

/// What one line of a script asks for. Actors count from 1.
#[derive(Clone, Copy, Debug, PartialEq, Eq)]
pub enum Line {
    Call(usize, Command),
    /// So many turns of an actor.
    Turn(usize, u64),
    /// Turns of an actor up to one of this kind.
    Until(usize, Kind),
    /// Turns of an actor up to its call's end.
    Finish(usize),
    /// The next device call fails.
    Trip,
    Stop,
    Crash(Pick),
    Open,
    Show,
}

// One line for each kind of line: the bytes with which it begins, and what reads the rest.
macro_rules! line_kinds {
    ($text:ident, $rest:ident; $($word:literal => $line:expr;)*) => {{
        $(if $text.starts_with($word) {
            let $rest = &$text[$word.len()..];
            return $line;
        })*
        None
    }};
}

/// Reads a line, given without the line feed that ended it. None where it is no line of a script.
pub fn read_line(text: &[u8]) -> Option<Line>
    ensures { result ≡ line_read text.now }
{
    if text.len() > MOST_LENGTH {
        return None;
    }
    line_kinds!(text, rest;
        b"call " => read_call(rest);
        b"turn " => read_turn(rest);
        b"until " => read_until(rest);
        b"finish " => read_finish(rest);
        b"trip" => read_bare(rest, Line::Trip);
        b"stop" => read_bare(rest, Line::Stop);
        b"crash " => read_crash(rest);
        b"open" => read_bare(rest, Line::Open);
        b"show" => read_bare(rest, Line::Show);
    )
}

// A line that is its word alone.
fn read_bare(rest: &[u8], line: Line) -> Option<Line>
    ensures { result ≡ bare line rest.now }
{
    if rest.is_empty() { Some(line) } else { None }
}

fn read_call(text: &[u8]) -> Option<Line>
    ensures { result ≡ call_read text.now }
{
    let (actor, rest) = read_actor(text)?;
    let command = read_command(rest)?;
    Some(Line::Call(actor, command))
}

fn read_turn(text: &[u8]) -> Option<Line>
    ensures { result ≡ turn_read text.now }
{
    let (actor, rest) = read_actor(text)?;
    let count = read_number(rest, 1, MOST_TURNS)?;
    Some(Line::Turn(actor, count))
}

fn read_until(text: &[u8]) -> Option<Line>
    ensures { result ≡ until_read text.now }
{
    let (actor, rest) = read_actor(text)?;
    let kind = read_kind(rest)?;
    Some(Line::Until(actor, kind))
}

fn read_finish(text: &[u8]) -> Option<Line>
    ensures { result ≡ finish_read text.now }
{
    let actor = read_number(text, 1, MOST_ACTORS)?;
    Some(Line::Finish(actor as usize))
}

fn read_crash(text: &[u8]) -> Option<Line>
    ensures { result ≡ crash_read text.now }
{
    let pick = read_pick(text)?;
    Some(Line::Crash(pick))
}

// The actor that a text begins with, and what follows the space after it.
fn read_actor(text: &[u8]) -> Option<(usize, &[u8])>
    ensures { option_map (λ p. (p.0, p.1.now)) result ≡ actor_read text.now }
{
    let (word, rest) = split_word(text)?;
    let actor = read_number(word, 1, MOST_ACTORS)?;
    Some((actor as usize, rest))
}

// The part of a text before its first space, and the part after it.
fn split_word(text: &[u8]) -> Option<(&[u8], &[u8])>
    ensures { option_map (λ p. (p.0.now, p.1.now)) result ≡ parted space text.now }
{
    let end = memchr(b' ', text)?;
    let (word, rest) = text.split_at(end);
    Some((word, &rest[1..]))
}

fn read_command(text: &[u8]) -> Option<Command>
    ensures { result ≡ command_read text.now }
{
    if text.starts_with(b"add ") {
        return Some(Command::Add(read_key(&text[4..]).ok()?));
    }
    if text.starts_with(b"remove ") {
        return Some(Command::Remove(read_key(&text[7..]).ok()?));
    }
    if text.starts_with(b"has ") {
        return Some(Command::Has(read_key(&text[4..]).ok()?));
    }
    None
}

fn read_pick(text: &[u8]) -> Option<Pick>
    ensures { result ≡ pick_read text.now }
{
    if text == b"old".as_slice() {
        return Some(Pick::Old);
    }
    if text == b"new".as_slice() {
        return Some(Pick::New);
    }
    if text.starts_with(b"part ") {
        let count = read_number(&text[5..], 0, MOST_KEPT)?;
        return Some(Pick::Part(count));
    }
    let byte = read_byte(text)?;
    Some(Pick::Byte(byte))
}

// A byte by its two hexadecimal digits.
fn read_byte(text: &[u8]) -> Option<u8>
    ensures { result ≡ byte_read text.now }
{
    let [high, low] = text else {
        return None;
    };
    let sixteens = hex_digit(*high)?;
    let ones = hex_digit(*low)?;
    Some(16 * sixteens + ones)
}

fn hex_digit(byte: u8) -> Option<u8>
    ensures value { result ≡ hex_digit byte }
    ensures range { IfSome result (λ digit. digit ≤ 15) }
{
    match byte {
        b'0'..=b'9' => Some(byte - b'0'),
        b'a'..=b'f' => Some(byte - b'a' + 10),
        _ => None,
    }
}

// One line for each kind of event.
macro_rules! kind_names {
    ($text:ident; $($name:literal => $kind:expr;)*) => {{
        $(if $text == $name.as_slice() {
            return Some($kind);
        })*
        None
    }};
}

// The kind of event with this name.
fn read_kind(text: &[u8]) -> Option<Kind>
    ensures { result ≡ kind_read text.now }
{
    kind_names!(text;
        b"Invoke" => Kind::Invoke;
        b"Pin" => Kind::Pin;
        b"Hop" => Kind::Hop;
        b"Reserve" => Kind::Reserve;
        b"WriteKey" => Kind::WriteKey;
        b"Claim" => Kind::Claim;
        b"Check" => Kind::Check;
        b"WriteOpen" => Kind::WriteOpen;
        b"Link" => Kind::Link;
        b"WriteClose" => Kind::WriteClose;
        b"Mark" => Kind::Mark;
        b"Release" => Kind::Release;
        b"Sync" => Kind::Sync;
        b"Settle" => Kind::Settle;
        b"Unlink" => Kind::Unlink;
        b"Retire" => Kind::Retire;
        b"SeePin" => Kind::SeePin;
        b"Answer" => Kind::Answer;
        b"Halt" => Kind::Halt;
    )
}
