//! The connections that nobody has accepted yet.
use std::alloc::Global;
use std::fs::File;
use std::os::unix::fs::FileExt;
use std::rt::Files;

// The system's tables of connections, over IPv4 and over IPv6, and their word for one that listens (proc(5)).
const TABLE: &str = "/proc/net/tcp";

const TABLE_OF_SIX: &str = "/proc/net/tcp6";

const LISTENS: &str = "0A";

// The most bytes that one read of it takes.
const MOST_PIECE: usize = 4_096;

/// The system's table of connections, where it has one.
#[derive(Drop)]
pub struct Backlog {
    table: Option<File>,
}

impl Backlog {
    pub fn new<R: Files<File = File>>(rt: &R, is_of_six: bool) -> Backlog {
        let table = if is_of_six { TABLE_OF_SIX } else { TABLE };
        Backlog {
            table: File::open(rt, table).ok(),
        }
    }

    /// How many connections wait at this port, where the system tells it.
    pub fn at(&self, alloc: Global, port: u16) -> Option<u64> {
        let bytes = bytes_of(alloc, self.table.as_ref()?)?;
        let text = str::from_utf8(bytes.as_slice()).ok()?;
        for line in text.lines() {
            if let Some((listens_at, waiting)) = listener_of(line)
                && listens_at == u64::from(port)
            {
                return Some(waiting);
            }
        }
        None
    }
}

/// All that the file holds now.
pub fn bytes_of(alloc: Global, file: &File) -> Option<Vec<u8>> {
    let mut bytes: Vec<u8> = Vec::new(alloc);
    let mut piece = [0; MOST_PIECE];
    for _ in 0..u64::MAX {
        let count = file.read_at(&mut piece, bytes.len() as u64).ok()?;
        if count == 0 {
            break;
        }
        bytes.extend_from_slice(&piece[..count]).ok()?;
    }
    Some(bytes)
}

// The port of a line's listener, and how many connections wait there.
fn listener_of(line: &str) -> Option<(u64, u64)> {
    let mut words = line.split_whitespace().skip(1);
    let (_, port) = words.next()?.split_once(':')?;
    let state = words.nth(1)?;
    if state != LISTENS {
        return None;
    }
    let (_, waiting) = words.next()?.split_once(':')?;
    Some((
        u64::from_str_radix(port, 16).ok()?,
        u64::from_str_radix(waiting, 16).ok()?,
    ))
}
