//! Texts of replies.
ghost use Rattle.std.specs.Prelude.{◌≡◌, ◌++◌, ◌∷◌, ◌<◌, IfOk, OnOk, decimal};
ghost use Rattle.lz_resp.specs.Commands.{error, on_line};
ghost use Rattle.lz_resp.specs.Frames.{bulk, dollar, line_end};

use itoa::Buffer;
use std::alloc::{AllocError, Global};
use std::marker::Model;

/// A text that is a reply. Contracts see it as its bytes.
#[derive(Drop, Debug)]
pub struct Text {
    bytes: Vec<u8>,
}

impl Model for Text {
    ghost use Rattle.std.specs.Prelude.{ℕ, List};

    ghost Value = { List ℕ };

    ghost view = { λ t. t.bytes.items };
}

impl Text {
    pub(crate) fn new(bytes: Vec<u8>) -> Text
        ensures { result ≡ bytes.items }
    {
        Text { bytes }
    }

    /// A text of these bytes.
    pub fn of(alloc: Global, bytes: &[u8]) -> Result<Text, AllocError>
        ensures { IfOk result (λ text. text ≡ bytes.now) }
    {
        let bytes = Vec::from_slice(alloc, bytes)?;
        Ok(Text { bytes })
    }

    pub fn as_bytes(&self) -> &[u8]
        ensures { result.now ≡ self.now }
    {
        self.bytes.as_slice()
    }
}

/// Puts a number's plain decimal after a text.
pub fn push_number(text: &mut Vec<u8>, number: usize) -> Result<(), AllocError>
    ensures { OnOk result (text.new.items ≡ text.old.items ++ decimal number) }
{
    let mut digits = Buffer::new();
    text.extend_from_slice(digits.format(number).as_bytes())
}

/// An argument as a bulk string.
pub(crate) fn bulk(alloc: Global, argument: &[u8]) -> Result<Text, AllocError>
    ensures { IfOk result (λ text. text ≡ bulk argument.now) }
{
    let mut text = Vec::new(alloc);
    push_bulk(&mut text, argument)?;
    Ok(Text::new(text))
}

/// Puts an argument as a bulk string after a text.
pub(crate) fn push_bulk(text: &mut Vec<u8>, argument: &[u8]) -> Result<(), AllocError>
    ensures { OnOk result (text.new.items ≡ text.old.items ++ bulk argument.now) }
{
    push_length(text, argument.len())?;
    text.extend_from_slice(argument)?;
    text.extend_from_slice(b"\r\n")
}

// Puts a bulk string's first line after a text: at once where its length is one digit, as most numbers' are.
fn push_length(text: &mut Vec<u8>, length: usize) -> Result<(), AllocError>
    ensures { OnOk result (text.new.items ≡ text.old.items ++ dollar ∷ decimal length ++ line_end) }
{
    if length < 10 {
        return text.extend_from_slice(&short_line(length));
    }
    text.extend_from_slice(b"$")?;
    push_number(text, length)?;
    text.extend_from_slice(b"\r\n")
}

// That line, of a length of one digit.
#[tactic(auto, using(std::proofs::lemmas::Fmt::decimal_digit))]
fn short_line(length: usize) -> [u8; 4]
    requires { length < 10 }
    ensures { result ≡ dollar ∷ decimal length ++ line_end }
{
    [b'$', b'0' + length as u8, b'\r', b'\n']
}

/// A byte of an argument that stands in an error: no line ends in it.
pub(crate) fn on_line(byte: u8) -> u8
    ensures { result ≡ on_line byte }
{
    if byte == b'\r' || byte == b'\n' {
        b' '
    } else {
        byte
    }
}

/// An error's text.
pub(crate) fn error(alloc: Global, words: &[u8]) -> Result<Text, AllocError>
    ensures { IfOk result (λ text. text ≡ error words.now) }
{
    let mut text = Vec::from_slice(alloc, b"-ERR ")?;
    text.extend_from_slice(words)?;
    text.extend_from_slice(b"\r\n")?;
    Ok(Text::new(text))
}
