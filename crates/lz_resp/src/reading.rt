//! The frame at the front of a text.
ghost use Rattle.std.specs.Prelude.{◌≡◌, ◌≤◌, ◌<◌, IfOk, IfSome, Some, drop, length, map, nat_le};
ghost use Rattle.std.specs.List.{list_all, list_any};
ghost use Rattle.lz_resp.specs.Frames.{fits, is_blank, is_quote, arguments_of};
ghost use Rattle.lz_resp.specs.Limits.{most_argument};
ghost use Rattle.lz_resp.specs.Reading.{Gives, array_at, bulk_at, count_of, end_at, first_of, frame_at, inline_at, line_at, seen, argument_at, argument_of, arguments_at};

use crate::fault::{Fault, Stop};
use crate::limits::{MOST_ARGUMENT, MOST_ARGUMENTS, MOST_FRAME};
use lz_slot::read_number;
use memchr::memchr;
use std::alloc::{AllocError, Global};

/// The arguments of the first frame of a text, and how many bytes it has; none where no whole one has come.
pub fn read_first(alloc: Global, text: &[u8]) -> Result<Option<(Vec<&[u8]>, usize)>, Stop>
    ensures gives { Gives (λ p. (map (λ argument. argument.now) p.0.items, drop p.1 text.now)) result (first_of text.now) }
    ensures inside { IfOk result (λ found. IfSome found (λ p. (0 < p.1) × (p.1 ≤ length text.now))) }
{
    let window = &text[..text.len().min(MOST_FRAME)];
    match read_frame(alloc, window)? {
        Some((arguments, rest)) => Ok(Some((arguments, window.len() - rest.len()))),
        None => {
            if MOST_FRAME < text.len() {
                return Err(Stop::Faulty(Fault::TooLong));
            }
            Ok(None)
        }
    }
}

// The arguments of the frame at the front of a text, and what follows it.
fn read_frame(alloc: Global, text: &[u8]) -> Result<Option<(Vec<&[u8]>, &[u8])>, Stop>
    ensures gives { Gives (λ p. (map (λ argument. argument.now) p.0.items, p.1.now)) result (frame_at text.now) }
    ensures inside { IfOk result (λ found. IfSome found (λ p. length p.1.now < length text.now)) }
{
    match text {
        [] => Ok(None),
        [b'*', rest @ ..] => read_array(alloc, rest),
        _ => read_inline(alloc, text),
    }
}

// What follows a star.
fn read_array(alloc: Global, text: &[u8]) -> Result<Option<(Vec<&[u8]>, &[u8])>, Stop>
    ensures gives { Gives (λ p. (map (λ argument. argument.now) p.0.items, p.1.now)) result (array_at text.now) }
    ensures inside { IfOk result (λ found. IfSome found (λ p. length p.1.now ≤ length text.now)) }
{
    let Some((digits, rest)) = read_line(Fault::Count, text)? else {
        return Ok(None);
    };
    match count_of(digits) {
        Some(count) => read_arguments(alloc, count, rest),
        None => Err(Stop::Faulty(Fault::Count)),
    }
}

// So many bulk strings, and what follows them.
fn read_arguments(
    alloc: Global,
    count: usize,
    text: &[u8],
) -> Result<Option<(Vec<&[u8]>, &[u8])>, Stop>
    ensures gives { Gives (λ p. (map (λ argument. argument.now) p.0.items, p.1.now)) result (arguments_at count text.now) }
    ensures inside { IfOk result (λ found. IfSome found (λ p. length p.1.now ≤ length text.now)) }
{
    let mut arguments = Vec::new(alloc);
    let mut rest = text;
    'bulks: for _ in 0..count {
        let Some((argument, after)) = read_argument(rest)? else {
            return Ok(None);
        };
        arguments.push(argument)?;
        rest = after;
    }
    Ok(Some((arguments, rest)))
}

// A line of arguments, and what follows it.
fn read_inline(alloc: Global, text: &[u8]) -> Result<Option<(Vec<&[u8]>, &[u8])>, Stop>
    ensures gives { Gives (λ p. (map (λ argument. argument.now) p.0.items, p.1.now)) result (inline_at text.now) }
    ensures inside { IfOk result (λ found. IfSome found (λ p. length p.1.now < length text.now)) }
{
    let Some(end) = memchr(b'\n', text) else {
        return Ok(None);
    };
    let (line, ended) = text.split_at(end);
    if has_quote(line) {
        return Err(Stop::Faulty(Fault::Quotes));
    }
    let arguments = arguments_of(alloc, line)?;
    if !fits(arguments.as_slice()) {
        return Err(Stop::Faulty(Fault::TooLong));
    }
    Ok(Some((arguments, &ended[1..])))
}

// The arguments of a line.
fn arguments_of(alloc: Global, line: &[u8]) -> Result<Vec<&[u8]>, AllocError>
    ensures { IfOk result (λ arguments. map (λ argument. argument.now) arguments.items ≡ arguments_of line.now) }
{
    line.split(|byte| is_blank(*byte))
        .filter(|argument| !argument.is_empty())
        .collect(alloc)
}

// Whether a frame may have these arguments.
fn fits(arguments: &[&[u8]]) -> bool
    ensures { result ≡ fits (map (λ argument. argument.now) arguments.now) }
{
    arguments.len() <= MOST_ARGUMENTS && are_short(arguments)
}

fn are_short(arguments: &[&[u8]]) -> bool
    ensures { result ≡ list_all (λ argument. nat_le (length argument.now) most_argument) arguments.now }
{
    arguments
        .iter()
        .all(|argument| argument.len() <= MOST_ARGUMENT)
}

fn has_quote(line: &[u8]) -> bool
    ensures { result ≡ list_any is_quote line.now }
{
    line.iter().any(|byte| is_quote(*byte))
}

fn is_blank(byte: u8) -> bool
    ensures { result ≡ is_blank byte }
{
    byte == b' ' || 9 <= byte && byte <= 13
}

fn is_quote(byte: u8) -> bool
    ensures { result ≡ is_quote byte }
{
    byte == b'"' || byte == b'\''
}

// The number of arguments that digits tell.
fn count_of(digits: &[u8]) -> Option<usize>
    ensures { result ≡ count_of digits.now }
{
    if digits.starts_with(b"-") {
        read_number(&digits[1..], 1, u64::MAX)?;
        return Some(0);
    }
    let count = read_number(digits, 0, MOST_ARGUMENTS as u64)?;
    Some(count as usize)
}

/// A bulk string's bytes, and what follows it.
pub fn read_argument(text: &[u8]) -> Result<Option<(&[u8], &[u8])>, Fault>
    ensures gives { seen (λ p. (p.0.now, p.1.now)) result ≡ argument_at text.now }
    ensures inside { IfOk result (λ found. IfSome found (λ p. length p.1.now ≤ length text.now)) }
{
    match text {
        [] => Ok(None),
        [b'$', rest @ ..] => read_bulk(rest),
        [mark, ..] => Err(Fault::NoBulk(*mark)),
    }
}

// What follows a dollar.
fn read_bulk(text: &[u8]) -> Result<Option<(&[u8], &[u8])>, Fault>
    ensures gives { seen (λ p. (p.0.now, p.1.now)) result ≡ bulk_at text.now }
    ensures inside { IfOk result (λ found. IfSome found (λ p. length p.1.now ≤ length text.now)) }
{
    let Some((digits, rest)) = read_line(Fault::Length, text)? else {
        return Ok(None);
    };
    match read_number(digits, 0, MOST_ARGUMENT as u64) {
        Some(count) => cut_argument(count as usize, rest),
        None => Err(Fault::Length),
    }
}

// An argument of this length, which CR and LF follow, and what follows them.
fn cut_argument(count: usize, text: &[u8]) -> Result<Option<(&[u8], &[u8])>, Fault>
    ensures gives { seen (λ p. (p.0.now, p.1.now)) result ≡ argument_of (Some count) text.now }
    ensures inside { IfOk result (λ found. IfSome found (λ p. length p.1.now ≤ length text.now)) }
{
    if text.len() < count {
        return Ok(None);
    }
    let (argument, ended) = text.split_at(count);
    match read_end(Fault::NoEnd, ended)? {
        Some(rest) => Ok(Some((argument, rest))),
        None => Ok(None),
    }
}

/// A line less its end, and what follows it.
pub fn read_line(fault: Fault, text: &[u8]) -> Result<Option<(&[u8], &[u8])>, Fault>
    ensures gives { seen (λ p. (p.0.now, p.1.now)) result ≡ line_at fault text.now }
    ensures inside { IfOk result (λ found. IfSome found (λ p. length p.1.now ≤ length text.now)) }
{
    let Some(end) = memchr(b'\r', text) else {
        return Ok(None);
    };
    let (line, ended) = text.split_at(end);
    match read_end(fault, ended)? {
        Some(rest) => Ok(Some((line, rest))),
        None => Ok(None),
    }
}

// What follows CR and LF.
fn read_end(fault: Fault, text: &[u8]) -> Result<Option<&[u8]>, Fault>
    ensures gives { seen (λ rest. (tt, rest.now)) result ≡ end_at fault text.now }
    ensures inside { IfOk result (λ found. IfSome found (λ rest. length rest.now ≤ length text.now)) }
{
    match text {
        [] | [b'\r'] => Ok(None),
        [b'\r', b'\n', rest @ ..] => Ok(Some(rest)),
        _ => Err(fault),
    }
}
