//! A session: a reader's lines, a service's replies, and a writer that gets them.
ghost use Rattle.std.specs.Prelude.{◌≡◌, ◌≢◌, [], ◌∷◌, ◌≤◌, ◌<◌, length, take, IfOk, OnOk, OnErr, Err};
ghost use Rattle.std.specs.Io.KnownBytes.{Appends, Consumes, IsAtEnd, Keeps};
ghost use Rattle.lz_proto.specs.Sessions.{SessionTells, Writes};
ghost use Rattle.lz_proto.specs.Steps.{AnswersTell, PieceTells, SendTells};

use crate::end::{End, end_after};
use crate::fault::SessionFault;
use crate::item::Item;
use crate::limits::MOST_PIECE;
use crate::lines::Lines;
use crate::reply::{Reply, bad_text, reply_text};
use crate::request::Request;
use crate::service::Service;
use std::alloc::Global;
use std::io::{ErrorKind, Read, Write};

/// Answers the lines that the reader gives, each before the service is asked the next, up to `quit`, a reply that the
/// service halted, or the input's end. What one read gave is answered before the next read.
pub fn session<R: Read, W: Write, S: Service>(
    alloc: Global,
    reader: &mut R,
    writer: &mut W,
    service: &mut S,
) -> Result<End, SessionFault>
    ensures { Writes (W.contents writer.old) (W.contents writer.new) (λ written. SessionTells S.answers (R.remaining reader.old) (R.remaining reader.new) service.old service.new written result) }
{
    let mut lines = Lines::new(alloc);
    let mut buffer = [0; MOST_PIECE];
    // A loop is proved to end, so this one counts its pieces.
    'pieces: for _ in 0..u64::MAX {
        let count = match receive(reader, &mut buffer) {
            Ok(count) => count,
            Err(_) => return Err(SessionFault::Read),
        };
        if count == 0 {
            return match lines.end() {
                Some(bad) => answer(Item::Faulty(bad), writer, service),
                None => Ok(End::Done),
            };
        }
        let end = match answer_piece(&mut lines, &buffer[..count], writer, service) {
            Ok(end) => end,
            Err(fault) => return Err(fault),
        };
        if end != End::Done {
            return Ok(end);
        }
    }
    Err(SessionFault::Read)
}

/// Writes the text whole, or fails after a part of it. (A `write_all` that fails doesn't tell what was written.) A write that
/// was interrupted is tried again.
pub fn send<W: Write>(writer: &mut W, text: &[u8]) -> Result<(), SessionFault>
    ensures { SendTells (W.contents writer.old) (W.contents writer.new) text.now result }
{
    let mut rest = text;
    'tries: for _ in 0..u64::MAX {
        if rest.is_empty() {
            return Ok(());
        }
        match writer.write(rest) {
            Ok(0) => return Err(SessionFault::Write),
            Ok(count) => rest = &rest[count..],
            Err(error) => {
                if error.kind() != ErrorKind::Interrupted {
                    return Err(SessionFault::Write);
                }
            }
        }
    }
    if !rest.is_empty() {
        return Err(SessionFault::Write);
    }
    Ok(())
}

/// Reads what there is, up to the buffer's length, and nothing at the input's end alone. It reads again where a signal interrupted it.
pub fn receive<R: Read>(reader: &mut R, buffer: &mut [u8]) -> Result<usize, SessionFault>
    ensures bound { IfOk result (λ n. n ≤ length buffer.new) }
    ensures ok { IfOk result (λ n. Consumes (R.remaining reader.old) (R.remaining reader.new) (take n buffer.new)) }
    ensures end { IfOk result (λ n. n ≡ 0 → 0 < length buffer.old → IsAtEnd (R.remaining reader.new)) }
    ensures err { OnErr result (Keeps (R.remaining reader.old) (R.remaining reader.new)) }
    ensures fault { OnErr result (result ≡ Err SessionFault.Read) }
{
    'tries: for _ in 0..u64::MAX {
        match reader.read(buffer) {
            Ok(count) => return Ok(count),
            Err(error) => {
                if error.kind() != ErrorKind::Interrupted {
                    return Err(SessionFault::Read);
                }
            }
        }
    }
    Err(SessionFault::Read)
}

// Answers one item.
fn answer<W: Write, S: Service>(
    item: Item,
    writer: &mut W,
    service: &mut S,
) -> Result<End, SessionFault>
    ensures { Writes (W.contents writer.old) (W.contents writer.new) (λ written. AnswersTell S.answers service.old (item ∷ []) service.new written result) }
{
    let (text, end) = match item {
        Item::Asks(Request::Quit) => return Ok(End::Quit),
        Item::Asks(request) => {
            let reply = service.ask(request);
            (reply_text(reply), end_after(reply))
        }
        Item::Faulty(bad) => (bad_text(bad), End::Done),
    };
    match send(writer, text.as_bytes()) {
        Ok(()) => Ok(end),
        Err(fault) => Err(fault),
    }
}

// Answers the items of the lines that end in a piece, each before the service is asked the next, up to the session's end.
fn answer_piece<W: Write, S: Service>(
    lines: &mut Lines,
    piece: &[u8],
    writer: &mut W,
    service: &mut S,
) -> Result<End, SessionFault>
    ensures { Writes (W.contents writer.old) (W.contents writer.new) (λ written. PieceTells S.answers lines.old piece.now lines.new service.old service.new written result) }
{
    let Ok(items) = lines.feed(piece) else {
        return Err(SessionFault::Memory);
    };
    'items: for item in items.as_slice() {
        let end = match answer(*item, writer, service) {
            Ok(end) => end,
            Err(fault) => return Err(fault),
        };
        if end != End::Done {
            return Ok(end);
        }
    }
    Ok(End::Done)
}
