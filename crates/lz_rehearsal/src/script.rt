//! A whole script.
ghost use Rattle.std.specs.Prelude.{◌≡◌, ◌≤◌, ℕ, IfOk, IfErr, IfSome, OnOk, Err, length, take};
ghost use Rattle.lz_rehearsal.specs.Scripts.{FailsAt, IsScript};
ghost use Rattle.lz_rehearsal.specs.Limits.{most_bytes, most_lines};
ghost use Rattle.lz_rehearsal.specs.Scripting.{AddsLine, IsFaultOf, IsLineFault};

use crate::limits::{MOST_BYTES, MOST_LINES};
use crate::line::{Line, read_line};
use memchr::memchr;
use std::alloc::Global;
use std::io::{ErrorKind, Read};
use std::marker::Model;

/// Why there is no script.
#[derive(Clone, Copy, Debug, PartialEq, Eq)]
pub enum ScriptFault {
    /// The first line that doesn't read has this number, from 1.
    Line(u64),
    /// A read failed.
    Read,
    Memory,
}

/// A script that was read whole. Contracts see it as the list of its lines.
#[derive(Drop)]
pub struct Script {
    lines: Vec<Line>,
}

impl Model for Script {
    ghost use Rattle.std.specs.Prelude.{List};
    ghost use Rattle.lz_rehearsal.specs.declared.line.Line.{Line};

    ghost Value = { List Line };

    ghost view = { λ s. s.lines.items };
}

impl Script {
    /// Reads a script up to the input's end. Each line ends with a line feed.
    pub fn read<R: Read>(alloc: Global, reader: &mut R) -> Result<Script, ScriptFault>
        ensures ok { IfOk result (λ script. IfSome (R.remaining reader.old) (λ input. IsScript input script)) }
        ensures line { (number : ℕ) → result ≡ Err (ScriptFault.Line number) → IfSome (R.remaining reader.old) (λ input. FailsAt input number) }
    {
        let text = match read_text(alloc, reader) {
            Ok(text) => text,
            Err(fault) => return Err(fault),
        };
        match read_lines(alloc, text.as_slice()) {
            Ok(lines) => Ok(Script { lines }),
            Err(fault) => Err(fault),
        }
    }

    pub fn lines(&self) -> &[Line]
        ensures { result.now ≡ self.now }
    {
        self.lines.as_slice()
    }
}

// The input, as much of it as a script may have.
fn read_text<R: Read>(alloc: Global, reader: &mut R) -> Result<Vec<u8>, ScriptFault>
    ensures ok { IfOk result (λ text. IfSome (R.remaining reader.old) (λ input. text.items ≡ take most_bytes input)) }
    ensures err { IfErr result (λ fault. (number : ℕ) → fault ≡ ScriptFault.Line number → ⊥) }
{
    let mut text = Vec::new(alloc);
    match reader.take(MOST_BYTES).read_to_end(&mut text) {
        Ok(_) => Ok(text),
        Err(error) => {
            if error.kind() == ErrorKind::OutOfMemory {
                return Err(ScriptFault::Memory);
            }
            Err(ScriptFault::Read)
        }
    }
}

// The lines of a text.
fn read_lines(alloc: Global, text: &[u8]) -> Result<Vec<Line>, ScriptFault>
    ensures ok { IfOk result (λ lines. IsScript text.now lines.items) }
    ensures err { IfErr result (λ fault. IsFaultOf text.now fault) }
{
    let mut lines = Vec::new(alloc);
    let mut rest = text;
    while let Some(end) = memchr(b'\n', rest) {
        let (line, ended) = rest.split_at(end);
        if let Err(fault) = add_line(&mut lines, line) {
            return Err(fault);
        }
        rest = &ended[1..];
    }
    if rest.is_empty() {
        Ok(lines)
    } else {
        Err(ScriptFault::Line(lines.len() as u64 + 1))
    }
}

// Adds a line, given without its line feed.
fn add_line(lines: &mut Vec<Line>, text: &[u8]) -> Result<(), ScriptFault>
    requires { length lines.old.items ≤ most_lines }
    ensures ok { OnOk result (AddsLine text.now lines.old.items lines.new.items) }
    ensures err { IfErr result (λ fault. IsLineFault text.now lines.old.items fault) }
{
    let number = lines.len() as u64 + 1;
    if lines.len() >= MOST_LINES {
        return Err(ScriptFault::Line(number));
    }
    let Some(line) = read_line(text) else {
        return Err(ScriptFault::Line(number));
    };
    if lines.extend_from_slice(&[line]).is_err() {
        return Err(ScriptFault::Memory);
    }
    Ok(())
}
