//! Pages of members, as a client reads them.
ghost use Rattle.std.specs.Prelude.{◌≡◌, ◌≤◌, ◌++◌, IfOk, IfSome, OnOk, decimal, length};
ghost use Rattle.lz_resp.specs.Pages.{count_at, heading_at, members_at, number_at, numbers_at, page_at, parts_at, request_text};
ghost use Rattle.lz_resp.specs.Reading.{Gives, seen};

use crate::fault::{Fault, Stop};
use crate::limits::MOST_ARGUMENTS;
use crate::reading::{read_argument, read_line};
use crate::text::Text;
use itoa::Buffer;
use lz_slot::{MAX_RANK, MOST_SLOTS, read_number};
use std::alloc::{AllocError, Global};

/// A page that was told.
#[derive(Drop, Debug)]
pub struct Page {
    /// The cursor to go on with: 0 at the end.
    pub next: u64,
    /// What is told of its members: their ranks, where they may be of any room.
    pub numbers: Vec<u64>,
}

/// What asks for the page of all rooms from this cursor on: one of as many keys as a page may have.
pub fn page_request(alloc: Global, cursor: u64) -> Result<Text, AllocError>
    ensures { IfOk result (λ text. text ≡ request_text cursor) }
{
    let mut text = Vec::from_slice(alloc, b"LZ.SCAN ")?;
    push_plain(&mut text, cursor)?;
    text.extend_from_slice(b" COUNT 256\r\n")?;
    Ok(Text::new(text))
}

/// Puts a number's plain decimal after a text.
pub fn push_plain(text: &mut Vec<u8>, number: u64) -> Result<(), AllocError>
    ensures { OnOk result (text.new.items ≡ text.old.items ++ decimal number) }
{
    let mut digits = Buffer::new();
    text.extend_from_slice(digits.format(number).as_bytes())
}

/// The page at the front of a text, and what follows it; none where no whole one has come.
pub fn read_page(alloc: Global, text: &[u8]) -> Result<Option<(Page, &[u8])>, Stop>
    ensures gives { Gives (λ p. ((p.0.next, p.0.numbers.items), p.1.now)) result (page_at text.now) }
    ensures inside { IfOk result (λ found. IfSome found (λ p. length p.1.now ≤ length text.now)) }
{
    let Some((count, rest)) = read_heading(text)? else {
        return Ok(None);
    };
    if count != 2 {
        return Err(Stop::Faulty(Fault::Count));
    }
    read_parts(alloc, rest)
}

// The cursor and the members, and what follows them.
fn read_parts(alloc: Global, text: &[u8]) -> Result<Option<(Page, &[u8])>, Stop>
    ensures gives { Gives (λ p. ((p.0.next, p.0.numbers.items), p.1.now)) result (parts_at text.now) }
    ensures inside { IfOk result (λ found. IfSome found (λ p. length p.1.now ≤ length text.now)) }
{
    let Some((next, rest)) = read_told(MOST_SLOTS, text)? else {
        return Ok(None);
    };
    match read_members(alloc, rest)? {
        Some((numbers, rest)) => Ok(Some((Page { next, numbers }, rest))),
        None => Ok(None),
    }
}

// An array of numbers, and what follows it.
fn read_members(alloc: Global, text: &[u8]) -> Result<Option<(Vec<u64>, &[u8])>, Stop>
    ensures gives { Gives (λ p. (p.0.items, p.1.now)) result (members_at text.now) }
    ensures inside { IfOk result (λ found. IfSome found (λ p. length p.1.now ≤ length text.now)) }
{
    let Some((count, rest)) = read_heading(text)? else {
        return Ok(None);
    };
    read_numbers(alloc, count, rest)
}

// So many numbers, and what follows them.
fn read_numbers(alloc: Global, count: u64, text: &[u8]) -> Result<Option<(Vec<u64>, &[u8])>, Stop>
    ensures gives { Gives (λ p. (p.0.items, p.1.now)) result (numbers_at count text.now) }
    ensures inside { IfOk result (λ found. IfSome found (λ p. length p.1.now ≤ length text.now)) }
{
    let mut numbers = Vec::new(alloc);
    let mut rest = text;
    'bulks: for _ in 0..count {
        let Some((number, after)) = read_told(MAX_RANK, rest)? else {
            return Ok(None);
        };
        numbers.push(number)?;
        rest = after;
    }
    Ok(Some((numbers, rest)))
}

// The number of arguments of an array, and what follows it.
fn read_heading(text: &[u8]) -> Result<Option<(u64, &[u8])>, Fault>
    ensures gives { seen (λ p. (p.0, p.1.now)) result ≡ heading_at text.now }
    ensures inside { IfOk result (λ found. IfSome found (λ p. length p.1.now ≤ length text.now)) }
{
    match text {
        [] => Ok(None),
        [b'*', rest @ ..] => read_count(rest),
        _ => Err(Fault::Count),
    }
}

// What follows a star.
fn read_count(text: &[u8]) -> Result<Option<(u64, &[u8])>, Fault>
    ensures gives { seen (λ p. (p.0, p.1.now)) result ≡ count_at text.now }
    ensures inside { IfOk result (λ found. IfSome found (λ p. length p.1.now ≤ length text.now)) }
{
    let Some((digits, rest)) = read_line(Fault::Count, text)? else {
        return Ok(None);
    };
    match read_number(digits, 0, MOST_ARGUMENTS as u64) {
        Some(count) => Ok(Some((count, rest))),
        None => Err(Fault::Count),
    }
}

// A number up to this one as a bulk string, and what follows it.
fn read_told(high: u64, text: &[u8]) -> Result<Option<(u64, &[u8])>, Fault>
    ensures gives { seen (λ p. (p.0, p.1.now)) result ≡ number_at high text.now }
    ensures inside { IfOk result (λ found. IfSome found (λ p. length p.1.now ≤ length text.now)) }
{
    let Some((argument, rest)) = read_argument(text)? else {
        return Ok(None);
    };
    match read_number(argument, 0, high) {
        Some(number) => Ok(Some((number, rest))),
        None => Err(Fault::Count),
    }
}
