//! The replies that are passed on.
ghost use Rattle.std.specs.Prelude.{◌≤◌, IfOk, IfSome, drop, length};
ghost use Rattle.lz_slot.specs.Numerals.{number_in};
ghost use Rattle.lz_resp.specs.Reading.{Gives};
ghost use Rattle.lz_forget.specs.Sessions.{after_bulk, passed_at};

use crate::wanted::Reading;
use lz_resp::{Fault, Stop, read_line, read_page};
use lz_slot::read_number;
use std::alloc::Global;

/// How many bytes a bulk string may have that is passed on: more than what a service tells of itself.
const MOST_BULK: u64 = 65_536;

/// What follows the reply at the front of a text; none where no whole one has come.
pub(crate) fn rest_after(
    alloc: Global,
    reading: Reading,
    text: &[u8],
) -> Result<Option<&[u8]>, Stop>
    ensures gives { Gives (λ rest. (tt, rest.now)) result (passed_at reading text.now) }
    ensures inside { IfOk result (λ found. IfSome found (λ rest. length rest.now ≤ length text.now)) }
{
    match reading {
        Reading::Bulk if text.starts_with(b"$") => match read_line(Fault::Length, text)? {
            Some((line, rest)) => after_bulk(line, rest),
            None => Ok(None),
        },
        Reading::Page if text.starts_with(b"*") => match read_page(alloc, text)? {
            Some((_, rest)) => Ok(Some(rest)),
            None => Ok(None),
        },
        _ => match read_line(Fault::Count, text)? {
            Some((_, rest)) => Ok(Some(rest)),
            None => Ok(None),
        },
    }
}

// What follows a bulk string whose length stands on this line.
fn after_bulk<'t>(line: &[u8], text: &'t [u8]) -> Result<Option<&'t [u8]>, Stop>
    ensures gives { Gives (λ rest. (tt, rest.now)) result (after_bulk (number_in 0 65536 (drop 1 line.now)) text.now) }
    ensures inside { IfOk result (λ found. IfSome found (λ rest. length rest.now ≤ length text.now)) }
{
    let digits = match line {
        [_, digits @ ..] => digits,
        [] => line,
    };
    let Some(count) = read_number(digits, 0, MOST_BULK) else {
        return Err(Stop::Faulty(Fault::Length));
    };
    let count = count as usize + 2;
    if text.len() < count {
        return Ok(None);
    }
    Ok(Some(text.split_at(count).1))
}
