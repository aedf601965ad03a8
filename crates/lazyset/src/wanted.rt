//! What is wanted of a service on its control socket, and what it answers: a line each.
use lz_resp::Cleared;
use lz_slot::{LAST_ROOM, read_number};
use std::io::{Read, Write};
use std::os::unix::net::UnixStream;
use std::time::Duration;
use std::{fmt, io};

// The most bytes of a line.
const MOST_LINE: usize = 32;

/// What is wanted.
#[derive(Clone, Copy)]
pub enum Wanted {
    /// That the service stops, and says so once it has ended.
    Stop,
    /// That it clears this room.
    Clear(u8),
}

impl Wanted {
    /// What comes on this connection within this time.
    pub fn on(stream: &UnixStream, within: Duration) -> Option<Wanted> {
        let _ = stream.set_read_timeout(Some(within));
        let mut line = [0; MOST_LINE];
        let line = read_line(stream, &mut line).ok()?;
        if line == b"stop".as_slice() {
            return Some(Wanted::Stop);
        }
        let room = read_number(line.strip_prefix(b"clear ")?, 0, u64::from(LAST_ROOM))?;
        Some(Wanted::Clear(u8::try_from(room).ok()?))
    }

    /// Asks for it on this connection, as far as somebody takes it.
    pub fn ask(self, stream: &UnixStream) {
        let mut writer = stream;
        let _ = match self {
            Wanted::Stop => writer.write_all(b"stop\n"),
            Wanted::Clear(room) => write!(writer, "clear {room}\n"),
        };
    }
}

/// What is answered.
#[derive(Clone, Copy)]
pub enum Answer {
    /// The service has ended.
    Ended,
    /// So it is with the room.
    Cleared(Cleared),
    /// It clears no room.
    Never,
}

impl Answer {
    /// What comes on this connection. None where that is something else.
    pub fn on(stream: &UnixStream) -> io::Result<Option<Answer>> {
        let mut line = [0; MOST_LINE];
        Ok(Answer::of(read_line(stream, &mut line)?))
    }

    // What a line says.
    fn of(line: &[u8]) -> Option<Answer> {
        if let Some(count) = line.strip_prefix(b"cleared ") {
            return Some(Answer::Cleared(Cleared::Removed(count_of(count)?)));
        }
        if let Some(count) = line.strip_prefix(b"stopped ") {
            return Some(Answer::Cleared(Cleared::Stopped(count_of(count)?)));
        }
        match line {
            b"ended" => Some(Answer::Ended),
            b"busy" => Some(Answer::Cleared(Cleared::Busy)),
            b"never" => Some(Answer::Never),
            _ => None,
        }
    }

    /// Gives it on this connection, as far as somebody takes it.
    pub fn tell(self, stream: &UnixStream) {
        let mut writer = stream;
        let _ = write!(writer, "{self}\n");
    }
}

impl fmt::Display for Answer {
    fn fmt<W: fmt::Write>(&self, f: &mut fmt::Formatter<W>) -> fmt::Result {
        match self {
            Answer::Ended => f.write_str("ended"),
            Answer::Cleared(Cleared::Removed(count)) => write!(f, "cleared {count}"),
            Answer::Cleared(Cleared::Stopped(count)) => write!(f, "stopped {count}"),
            Answer::Cleared(Cleared::Busy) => f.write_str("busy"),
            Answer::Never => f.write_str("never"),
        }
    }
}

fn count_of(digits: &[u8]) -> Option<usize> {
    Some(read_number(digits, 0, u64::MAX)? as usize)
}

// The next line without its end. One that is too long or is cut off is a fault.
fn read_line<'a>(stream: &UnixStream, room: &'a mut [u8]) -> io::Result<&'a [u8]> {
    let mut reader = stream;
    for at in 0..room.len() {
        reader.read_exact(&mut room[at..=at])?;
        if room[at] == b'\n' {
            return Ok(&room[..at]);
        }
    }
    Err(io::Error::from(io::ErrorKind::InvalidData))
}
