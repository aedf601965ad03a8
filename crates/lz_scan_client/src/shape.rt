//! What a service tells of its file.
ghost use Rattle.std.specs.Prelude.{◌≡◌, ◌++◌, ◌∷◌, [], IfOk, IfSome, decimal, length};
ghost use Rattle.std.specs.Io.KnownBytes.{Consumes};
ghost use Rattle.lz_proto.specs.Lines.{carriage_return, line_feed};
ghost use Rattle.lz_resp.specs.Frames.{bulk, dollar, line_end};
ghost use Rattle.lz_resp.specs.Queries.{row};
ghost use Rattle.lz_scan_client.specs.Shapes.{HasRow, IsShape};

use crate::fault::ScanFault;
use lz_proto::{MOST_PIECE, receive, send};
use lz_resp::MOST_FRAME;
use lz_slot::read_number;
use memchr::memchr;
use std::alloc::Global;
use std::io::{Read, Write};

const REQUEST: &[u8] = b"INFO lazyset\r\n";

/// The format and the slots of a service's file, as it tells them.
#[derive(Clone, Copy, Debug, PartialEq, Eq)]
pub struct Shape {
    pub format: u64,
    pub slots: u64,
}

/// Asks a service for the format and the slots of its file, over a connection that it writes to and reads from. What comes is the reply
/// and no more, else it is a faulty one.
pub fn ask_shape<R: Read, W: Write>(
    alloc: Global,
    reader: &mut R,
    writer: &mut W,
) -> Result<Shape, ScanFault>
    ensures { IfOk result (IsShape (R.remaining reader.old) (R.remaining reader.new) (W.contents writer.old) (W.contents writer.new)) }
{
    let Ok(()) = send(writer, REQUEST) else {
        return Err(ScanFault::Connection);
    };
    let text = match whole_reply(alloc, reader) {
        Ok(text) => text,
        Err(fault) => return Err(fault),
    };
    let Ok(Some(info)) = inside(text.as_slice()) else {
        return Err(ScanFault::Reply);
    };
    match (number_in(info, b"format"), number_in(info, b"slots")) {
        (Some(format), Some(slots)) => Ok(Shape { format, slots }),
        _ => Err(ScanFault::Reply),
    }
}

// What a service tells, up to the end of a bulk string.
fn whole_reply<R: Read>(alloc: Global, reader: &mut R) -> Result<Vec<u8>, ScanFault>
    ensures { IfOk result (λ text. Consumes (R.remaining reader.old) (R.remaining reader.new) text.items) }
{
    let mut text = Vec::new(alloc);
    let mut piece = [0; MOST_PIECE];
    // A loop is proved to end, so this one counts its pieces.
    'pieces: for _ in 0..u64::MAX {
        let Ok(count) = receive(reader, &mut piece) else {
            return Err(ScanFault::Connection);
        };
        if count == 0 {
            return Err(ScanFault::Connection);
        }
        if text.len() > MOST_FRAME {
            return Err(ScanFault::Reply);
        }
        let Ok(()) = text.extend_from_slice(&piece[..count]) else {
            return Err(ScanFault::Memory);
        };
        match inside(text.as_slice()) {
            Ok(Some(_)) => return Ok(text),
            Ok(None) => {}
            Err(fault) => return Err(fault),
        }
    }
    Err(ScanFault::Connection)
}

// What the bulk string holds that is this text, once all of it has come.
fn inside(text: &[u8]) -> Result<Option<&[u8]>, ScanFault>
    ensures { IfOk result (λ found. IfSome found (λ info. text.now ≡ bulk info.now)) }
{
    let Some(end) = memchr(b'\n', text) else {
        return Ok(None);
    };
    let (heading, ended) = text.split_at(end);
    match length_on(heading) {
        Some(count) => front_of(&ended[1..], count as usize),
        None => Err(ScanFault::Reply),
    }
}

// The length on the first line of a bulk string, less its line feed.
fn length_on(heading: &[u8]) -> Option<u64>
    ensures { IfSome result (λ count. heading.now ≡ dollar ∷ decimal count ++ carriage_return ∷ []) }
{
    let digits = heading.strip_prefix(b"$")?.strip_suffix(b"\r")?;
    read_number(digits, 0, MOST_FRAME as u64)
}

// So many bytes, after which a line's end comes and nothing else, once all of it has come.
fn front_of(text: &[u8], count: usize) -> Result<Option<&[u8]>, ScanFault>
    ensures whole { IfOk result (λ found. IfSome found (λ front. text.now ≡ front.now ++ line_end)) }
    ensures count { IfOk result (λ found. IfSome found (λ front. length front.now ≡ count)) }
{
    if text.len() < count {
        return Ok(None);
    }
    let (front, ended) = text.split_at(count);
    match ended {
        [] | [b'\r'] => Ok(None),
        [b'\r', b'\n'] => Ok(Some(front)),
        _ => Err(ScanFault::Reply),
    }
}

// The number in the first row of this name.
fn number_in(info: &[u8], name: &[u8]) -> Option<u64>
    ensures { IfSome result (HasRow info.now name.now) }
{
    let mut rest = info;
    while let Some(end) = memchr(b'\n', rest) {
        let (line, ended) = rest.split_at(end);
        if let Some(number) = number_on(line, name) {
            return Some(number);
        }
        rest = &ended[1..];
    }
    None
}

// The number in a row of this name, less its line feed.
fn number_on(line: &[u8], name: &[u8]) -> Option<u64>
    ensures { IfSome result (λ number. line.now ++ line_feed ∷ [] ≡ row name.now number) }
{
    let told = line.strip_prefix(name)?;
    let digits = told.strip_prefix(b":")?.strip_suffix(b"\r")?;
    read_number(digits, 0, u64::MAX)
}
