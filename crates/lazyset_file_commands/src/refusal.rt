//! The lines that have numbers: what was made, and why not.
ghost use Rattle.std.specs.Prelude.{◌≡◌, ◌⊎◌, ◌++◌, ◌∷◌, [], codes, decimal};
ghost use Rattle.std.specs.Io.KnownBytes.{Appends};
ghost use Rattle.lz_proto.specs.Steps.{SendTells};
ghost use Rattle.lazyset_file_commands.specs.Ends.{open_status};
ghost use Rattle.lazyset_file_commands.specs.Refusals.{refusal_text};
ghost use Rattle.lazyset_file_commands.specs.Tellings.{Tells, line_text};

use crate::status::Status;
use crate::telling::status_sent;
use itoa::Buffer;
use lz_proto::{SessionFault, send};
use lz_slot::Slot;
use lz_vault::OpenFault;
use std::io::Write;

/// Says why an open was refused.
pub fn refuse<W: Write + Drop>(writer: &mut W, fault: OpenFault) -> Status
    ensures told { Tells (W.contents writer.old) (W.contents writer.new) (refusal_text fault) (open_status fault) result }
    ensures refused { result ≡ Status.Refused → Appends (W.contents writer.old) (W.contents writer.new) (refusal_text fault) × (open_status fault ≡ Status.Refused) }
    ensures other { (result ≡ Status.Refused) ⊎ (result ≡ Status.Failed) }
{
    let told = fault;
    status_sent(send_refusal(writer, fault), status_of(told))
}

/// The status after a refused open.
pub fn status_of(fault: OpenFault) -> Status
    ensures { result ≡ open_status fault }
{
    match fault {
        OpenFault::Device | OpenFault::Memory => Status::Failed,
        _ => Status::Refused,
    }
}

/// Says which line of an input was refused.
pub fn refuse_line<W: Write>(writer: &mut W, number: u64) -> Status
    ensures { Tells (W.contents writer.old) (W.contents writer.new) (line_text number) Status.Refused result }
{
    status_sent(send_line(writer, b"line ", number), Status::Refused)
}

// Sends the line of a refused open.
fn send_refusal<W: Write>(writer: &mut W, fault: OpenFault) -> Result<(), SessionFault>
    ensures { SendTells (W.contents writer.old) (W.contents writer.new) (refusal_text fault) result }
{
    let numbered = fault;
    match fault {
        OpenFault::BadKey(slot) => send_line(writer, b"refused 5 ", u64::from(slot.index())),
        OpenFault::Twice(first, second) => send_slots(writer, b"refused 6 ", first, second),
        _ => send_line(writer, b"refused ", u64::from(numbered.number())),
    }
}

/// Sends a line of these words and two slots.
pub fn send_slots<W: Write>(
    writer: &mut W,
    words: &[u8],
    first: Slot,
    second: Slot,
) -> Result<(), SessionFault>
    ensures { SendTells (W.contents writer.old) (W.contents writer.new) (words.now ++ decimal first ++ codes " " ++ decimal second ++ 10 ∷ []) result }
{
    send_two(
        writer,
        words,
        u64::from(first.index()),
        u64::from(second.index()),
    )
}

/// Sends a line of these words and two numbers.
pub fn send_two<W: Write>(
    writer: &mut W,
    words: &[u8],
    first: u64,
    second: u64,
) -> Result<(), SessionFault>
    ensures { SendTells (W.contents writer.old) (W.contents writer.new) (words.now ++ decimal first ++ codes " " ++ decimal second ++ 10 ∷ []) result }
{
    if let Err(fault) = send_number(writer, words, first) {
        return Err(fault);
    }
    send_line(writer, b" ", second)
}

/// Sends a line of these words and a number.
pub fn send_line<W: Write>(writer: &mut W, words: &[u8], number: u64) -> Result<(), SessionFault>
    ensures { SendTells (W.contents writer.old) (W.contents writer.new) (words.now ++ decimal number ++ 10 ∷ []) result }
{
    if let Err(fault) = send_number(writer, words, number) {
        return Err(fault);
    }
    send(writer, b"\n")
}

// Sends words and a number.
fn send_number<W: Write>(writer: &mut W, words: &[u8], number: u64) -> Result<(), SessionFault>
    ensures { SendTells (W.contents writer.old) (W.contents writer.new) (words.now ++ decimal number) result }
{
    if let Err(fault) = send(writer, words) {
        return Err(fault);
    }
    let mut digits = Buffer::new();
    send(writer, digits.format(number).as_bytes())
}
