//! One line.
ghost use Rattle.std.specs.Prelude.{◌≡◌};
ghost use Rattle.lz_proto.specs.Lines.{IsItem, bad_of, item_of, without_return};
ghost use Rattle.lz_proto.specs.Reading.{key_read, request_read};

use crate::fault::Bad;
use crate::limits::MOST_LINE;
use crate::request::Request;
use lz_slot::{Key, KeyFault};

/// Reads a line, given without the line feed that ended it. One carriage return at its end is no part of it.
pub fn parse(line: &[u8]) -> Result<Request, Bad>
    ensures { IsItem line.now (item_of result) }
{
    read_request(without_return(line))
}

/// The line less one carriage return at its end.
pub fn without_return(line: &[u8]) -> &[u8]
    ensures { result.now ≡ without_return line.now }
{
    match line {
        [text @ .., b'\r'] => text,
        _ => line,
    }
}

// What a line less its carriage return asks for.
fn read_request(line: &[u8]) -> Result<Request, Bad>
    ensures { result ≡ request_read line.now }
{
    if line.len() > MOST_LINE {
        return Err(Bad::TooLong);
    }
    if line == b"quit".as_slice() {
        return Ok(Request::Quit);
    }
    if line.starts_with(b"add ") {
        return match read_key(&line[4..]) {
            Ok(key) => Ok(Request::Add(key)),
            Err(bad) => Err(bad),
        };
    }
    if line.starts_with(b"remove ") {
        return match read_key(&line[7..]) {
            Ok(key) => Ok(Request::Remove(key)),
            Err(bad) => Err(bad),
        };
    }
    if line.starts_with(b"has ") {
        return match read_key(&line[4..]) {
            Ok(key) => Ok(Request::Has(key)),
            Err(bad) => Err(bad),
        };
    }
    Err(Bad::NoCommand)
}

// The key that a text spells.
fn read_key(text: &[u8]) -> Result<Key, Bad>
    ensures { result ≡ key_read text.now }
{
    match lz_slot::read_key(text) {
        Ok(key) => Ok(key),
        Err(fault) => Err(bad_of(fault)),
    }
}

// The fault of a line by that of its key.
fn bad_of(fault: KeyFault) -> Bad
    ensures { result ≡ bad_of fault }
{
    match fault {
        KeyFault::NoRoom => Bad::BadRoom,
        KeyFault::NoNumber => Bad::NoNumber,
        KeyFault::TooLarge => Bad::KeyTooLarge,
    }
}
