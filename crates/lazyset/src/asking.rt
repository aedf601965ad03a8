//! The commands that ask a service for something on its control socket.
use crate::fault::Fault;
use crate::files::no_file;
use crate::wanted::{Answer, Wanted};
use lazyset_set_commands::Status;
use lz_resp::Cleared;
use lz_slot::read_number;
use std::fmt;
use std::io::{ErrorKind, Write};
use std::net::Net;
use std::os::unix::net::UnixStream;
use std::time::Duration;

// What is said where a port is given in place of that socket.
const NO_PORT_HINT: &str = "PATH is the control socket, as FILE.control";

/// Asks the service that listens at this path to stop, and waits for its end, up to so many seconds.
pub fn ask_to_stop<R>(rt: &R, path: &str, within: u64) -> Result<Status, Fault>
where
    R: Net + Eprint,
{
    let stream = ask(rt, path, Wanted::Stop)?;
    let patience = Duration::from_millis(within.saturating_mul(1_000).max(1));
    let _ = stream.set_read_timeout(Some(patience));
    match Answer::on(&stream) {
        Ok(Some(Answer::Ended)) => Ok(Status::Done),
        Err(error) if error.kind() == ErrorKind::WouldBlock => {
            let _ = eprintln!(rt; "lazyset: stop {path}: it hasn't ended after {within} s");
            Ok(Status::Failed)
        }
        // One that was killed says nothing, nor does one of release 1.16 or before. Nobody listens there then.
        _ if UnixStream::connect(rt, path).is_err() => Ok(Status::Done),
        _ => {
            let _ = eprintln!(rt;
                "lazyset: stop {path}: the connection ended, and a service listens there"
            );
            Ok(Status::Failed)
        }
    }
}

/// Asks the service that listens at this path to clear a room, and waits until it did.
pub fn ask_to_clear<R, W>(rt: &R, writer: &mut W, path: &str, room: u8) -> Result<Status, Fault>
where
    R: Net + Eprint,
    W: Write,
{
    let stream = ask(rt, path, Wanted::Clear(room))?;
    let answer = Answer::on(&stream).ok().flatten();
    let why = match answer {
        Some(Answer::Cleared(Cleared::Removed(count))) => {
            let told = write!(writer, "cleared {count}\n");
            let flushed = writer.flush();
            return Ok(if told.is_ok() && flushed.is_ok() {
                Status::Done
            } else {
                Status::Failed
            });
        }
        Some(Answer::Cleared(Cleared::Busy)) => Why::Busy,
        Some(Answer::Cleared(Cleared::Stopped(count))) => Why::Stopped(count),
        Some(Answer::Never) => Why::Never,
        _ => Why::Lost,
    };
    let _ = eprintln!(rt; "lazyset: clear {path}: {why}");
    Ok(Status::Failed)
}

// Why a room wasn't cleared.
#[derive(Clone, Copy)]
enum Why {
    Busy,
    Stopped(usize),
    Never,
    Lost,
}

impl fmt::Display for Why {
    fn fmt<W: fmt::Write>(&self, f: &mut fmt::Formatter<W>) -> fmt::Result {
        match self {
            Why::Busy => f.write_str("a room is being cleared: try again after it"),
            Why::Stopped(count) => write!(
                f,
                "the room isn't cleared: {count} of its keys were removed"
            ),
            Why::Never => f.write_str(
                "this service clears no room: it has no loops, or its keys are texts",
            ),
            Why::Lost => f.write_str(
                "the connection ended: a service before 1.19 clears no room, or it has ended",
            ),
        }
    }
}

// A connection to the service that listens at this path, on which this is wanted.
fn ask<R>(rt: &R, path: &str, wanted: Wanted) -> Result<UnixStream, Fault>
where
    R: Net + Eprint,
{
    let stream = match UnixStream::connect(rt, path) {
        Ok(stream) => stream,
        Err(error) if read_number(path.as_bytes(), 0, u64::MAX).is_some() => {
            return Err(no_file(rt, path, format_args!("{error}: {NO_PORT_HINT}")));
        }
        Err(error) => return Err(no_file(rt, path, error)),
    };
    // One that has ended the connection is told of as one that ends it later: by what comes.
    wanted.ask(&stream);
    Ok(stream)
}
