//! The text with which a command ends.
ghost use Rattle.std.specs.Prelude.{◌≡◌, ◌⊎◌};
ghost use Rattle.std.specs.Io.KnownBytes.{Appends};
ghost use Rattle.lazyset_file_commands.specs.Tellings.{Tells, status_sent};

use crate::status::Status;
use lz_proto::{SessionFault, send};
use std::io::Write;

/// What a command says that found no memory.
pub const NO_MEMORY: &[u8] = b"nomemory\n";

/// What a command says whose read failed.
pub const NO_READ: &[u8] = b"noread\n";

/// Writes the text, and ends with this status where that went well.
pub fn tell<W: Write + Drop>(writer: &mut W, status: Status, text: &[u8]) -> Status
    ensures told { (result ≡ Status.Failed) ⊎ ((result ≡ status) × Appends (W.contents writer.old) (W.contents writer.new) text.now) }
    ensures tells { Tells (W.contents writer.old) (W.contents writer.new) text.now status result }
{
    status_sent(send(writer, text), status)
}

/// The status of a command that sent its text so.
pub fn status_sent(sent: Result<(), SessionFault>, status: Status) -> Status
    ensures { result ≡ status_sent sent status }
{
    match sent {
        Ok(()) => status,
        Err(_) => Status::Failed,
    }
}
