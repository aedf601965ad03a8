//! One line of a history.
ghost use Rattle.std.specs.Prelude.{◌≡◌, ◌≤◌, ◌∷◌, IfOk, IfSome, Some, option_map};
ghost use Rattle.lz_slot.specs.Numerals.{number_in};
ghost use Rattle.lz_judge.specs.Lines.{IsLow};
ghost use Rattle.lz_judge.specs.LinesRead.{answer_read, at_end, command_named, fault_read, fields_read, is_word, key_from, keys_from, line_read, open_read, refusal_read, show_read, take_command, take_word, words_behind, words_of};

use crate::history::Point;
use crate::limits::{MAX_PLACE, MOST_FAULTS};
use lz_slot::{Command, Cut, Found, HistoryEvent, Key, MOST_ACTORS, Refusal, read_key};
use memchr::memchr;
use std::alloc::{AllocError, Global};

/// What a line of a history says.
#[derive(Drop)]
pub enum Line {
    Seen(HistoryEvent),
    Placed(Point),
    /// A line that doesn't count.
    Other,
}

// A line's first word is its kind, and each word after it a field. Each kind is one row: its word, its fields with what
// reads each, and what the line says.
macro_rules! kinds {
    ($kind:ident, $text:ident; $($word:literal $(, $field:ident: $read:ident($($bound:expr),*))* => $line:expr;)* _ => $other:expr) => {{
        $(if is_word($kind, $word) {
            $(let Some(($field, $text)) = $read($text $(, $bound)*) else {
                return None;
            };)*
            return read_end($text, $line);
        })*
        $other
    }};
}

/// What a line says, given without the line feed that ended it; none where it is no line of a history.
pub fn read_line(alloc: Global, line: &[u8]) -> Result<Option<Line>, AllocError>
    ensures low { IfOk result (λ read. IfSome read IsLow) }
    ensures says { IfOk result (λ read. read ≡ line_read line.now) }
{
    let (kind, rest) = split_word(line);
    if is_word(kind, b"open") {
        return read_open(alloc, rest);
    }
    if is_word(kind, b"show") {
        return read_show(alloc, rest);
    }
    Ok(read_fields(kind, rest))
}

// What a line of this kind says by its fields.
fn read_fields(kind: &[u8], text: Option<&[u8]>) -> Option<Line>
    ensures low { IfSome result IsLow }
    ensures says { result ≡ fields_read kind.now (words_behind text.entry) }
{
    kinds! { kind, text;
        b"call", call: read_number(1, u64::MAX), actor: read_number(1, MOST_ACTORS), command: read_command()
            => Line::Seen(HistoryEvent::Call(call, actor as usize, command));
        b"answer", call: read_number(1, u64::MAX), answer: read_answer() => Line::Seen(HistoryEvent::Answer(call, answer));
        b"refused", call: read_number(1, u64::MAX), why: read_refusal() => Line::Seen(HistoryEvent::Refused(call, why));
        b"halted", call: read_number(1, u64::MAX) => Line::Seen(HistoryEvent::Cut(call, Cut::Halted));
        b"device", call: read_number(1, u64::MAX) => Line::Seen(HistoryEvent::Cut(call, Cut::Device));
        b"stop" => Line::Seen(HistoryEvent::Stop);
        b"crash" => Line::Seen(HistoryEvent::Crash);
        b"busy", _actor: read_number(1, MOST_ACTORS) => Line::Other;
        b"point", call: read_number(1, u64::MAX), place: read_number(0, MAX_PLACE) => Line::Placed(Point { call, place });
        _ => None
    }
}

// The first word of a text, and what stands after the space that follows it, if there is one.
fn split_word(text: &[u8]) -> (&[u8], Option<&[u8]>)
    ensures { words_of text.now ≡ result.0.now ∷ words_behind result.1 }
{
    match memchr(b' ', text) {
        Some(end) => (&text[..end], Some(&text[end + 1..])),
        None => (text, None),
    }
}

fn is_word(word: &[u8], name: &[u8]) -> bool
    ensures { result ≡ is_word word.now name.now }
{
    word == name
}

// The next word, and what stands after it.
fn next_word(text: Option<&[u8]>) -> Option<(&[u8], Option<&[u8]>)>
    ensures { option_map (λ r. (r.0.now, words_behind r.1)) result ≡ take_word (λ word. Some word) (words_behind text.entry) }
{
    match text {
        Some(text) => Some(split_word(text)),
        None => None,
    }
}

// The number from low up to high that the next word is, and what stands after it.
fn read_number(text: Option<&[u8]>, low: u64, high: u64) -> Option<(u64, Option<&[u8]>)>
    ensures words { option_map (λ r. (r.0, words_behind r.1)) result ≡ take_word (number_in low high) (words_behind text.entry) }
    ensures range { IfSome result (λ r. r.0 ≤ high) }
{
    let (word, text) = next_word(text)?;
    let number = lz_slot::read_number(word, low, high)?;
    Some((number, text))
}

// The command that the next two words are, and what stands after them.
fn read_command(text: Option<&[u8]>) -> Option<(Command, Option<&[u8]>)>
    ensures { option_map (λ r. (r.0, words_behind r.1)) result ≡ take_command (words_behind text.entry) }
{
    let (name, text) = next_word(text)?;
    let (word, text) = next_word(text)?;
    let command = command_of(name, read_key(word).ok()?)?;
    Some((command, text))
}

fn command_of(name: &[u8], key: Key) -> Option<Command>
    ensures { result ≡ command_named name.now key }
{
    if is_word(name, b"add") {
        return Some(Command::Add(key));
    }
    if is_word(name, b"remove") {
        return Some(Command::Remove(key));
    }
    if is_word(name, b"has") {
        return Some(Command::Has(key));
    }
    None
}

fn read_answer(text: Option<&[u8]>) -> Option<(bool, Option<&[u8]>)>
    ensures { option_map (λ r. (r.0, words_behind r.1)) result ≡ take_word answer_read (words_behind text.entry) }
{
    let (word, text) = next_word(text)?;
    if is_word(word, b"yes") {
        return Some((true, text));
    }
    if is_word(word, b"no") {
        return Some((false, text));
    }
    None
}

fn read_refusal(text: Option<&[u8]>) -> Option<(Refusal, Option<&[u8]>)>
    ensures { option_map (λ r. (r.0, words_behind r.1)) result ≡ take_word refusal_read (words_behind text.entry) }
{
    let (word, text) = next_word(text)?;
    if is_word(word, b"full") {
        return Some((Refusal::Full, text));
    }
    if is_word(word, b"worn") {
        return Some((Refusal::Worn, text));
    }
    if is_word(word, b"oldfile") {
        return Some((Refusal::OldFile, text));
    }
    None
}

fn read_open(alloc: Global, text: Option<&[u8]>) -> Result<Option<Line>, AllocError>
    ensures low { IfOk result (λ read. IfSome read IsLow) }
    ensures says { IfOk result (λ read. read ≡ open_read (words_behind text.entry)) }
{
    if let Some(words) = text {
        let (word, rest) = split_word(words);
        if is_word(word, b"fault") {
            return Ok(read_fault(rest));
        }
    }
    match read_keys(alloc, text)? {
        Some(keys) => Ok(Some(Line::Seen(HistoryEvent::Opened(Found::new(keys))))),
        None => Ok(None),
    }
}

fn read_fault(text: Option<&[u8]>) -> Option<Line>
    ensures low { IfSome result IsLow }
    ensures says { result ≡ fault_read (words_behind text.entry) }
{
    let (fault, text) = read_number(text, 1, MOST_FAULTS)?;
    read_end(text, Line::Seen(HistoryEvent::OpenFailed(fault as u8)))
}

fn read_show(alloc: Global, text: Option<&[u8]>) -> Result<Option<Line>, AllocError>
    ensures low { IfOk result (λ read. IfSome read IsLow) }
    ensures says { IfOk result (λ read. read ≡ show_read (words_behind text.entry)) }
{
    match read_keys(alloc, text)? {
        Some(_) => Ok(Some(Line::Other)),
        None => Ok(None),
    }
}

// The line, where nothing stands after it.
fn read_end(text: Option<&[u8]>, line: Line) -> Option<Line>
    requires { IsLow line }
    ensures low { IfSome result IsLow }
    ensures says { result ≡ at_end line (words_behind text.entry) }
{
    match text {
        Some(_) => None,
        None => Some(line),
    }
}

// The keys that the words are, strictly ascending; none where they aren't.
fn read_keys(alloc: Global, text: Option<&[u8]>) -> Result<Option<Vec<Key>>, AllocError>
    ensures { IfOk result (λ read. option_map (λ keys. keys.items) read ≡ keys_from 0 (words_behind text.entry)) }
{
    let mut keys: Vec<Key> = Vec::new(alloc);
    let mut least: u64 = 0;
    let mut rest = text;
    while let Some(words) = rest {
        let (word, behind) = split_word(words);
        let Some(key) = key_from(word, least) else {
            return Ok(None);
        };
        keys.push(key)?;
        least = key.rank() + 1;
        rest = behind;
    }
    Ok(Some(keys))
}

// The key that the word spells, where it is not below this rank.
fn key_from(word: &[u8], least: u64) -> Option<Key>
    ensures { result ≡ key_from least word.now }
{
    match read_key(word) {
        Ok(key) if key.rank() >= least => Some(key),
        _ => None,
    }
}
