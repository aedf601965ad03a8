//! What the line of standard input asks for, and requests for memory that are made before all others.
use crate::fault::Fault;
use lz_slot::read_number;
use std::io::Read;

/// The most requests that are made first.
const MOST: u64 = 1_000;

/// What is asked for: all calls, after so many requests for memory, or how often a set is looked at.
pub enum Asked {
    Calls(u64),
    Rates,
}

/// Makes so many requests for memory, and one more, and keeps what it gets. The runner refuses the request of one number: so another
/// one of the drills has that number each time, and the program is built once.
pub fn ask_first<R: AllocGlobal>(rt: &R, count: u64) -> Result<Vec<Vec<u8>>, Fault> {
    let mut kept = Vec::with_capacity(rt.alloc(), MOST as usize)?;
    for _ in 0..count {
        let Ok(one) = Vec::with_capacity(rt.alloc(), 1) else {
            return Err(Fault::Wrong);
        };
        if kept.push(one).is_err() {
            return Err(Fault::Wrong);
        }
    }
    Ok(kept)
}

/// Reads the line of standard input: a number, or `glances`.
pub fn read_asked<R: Input>(rt: &R) -> Result<Asked, Fault> {
    let mut text = [0; 16];
    let count = rt.reader().read(&mut text)?;
    match text
        .get(..count)
        .and_then(|text| text.strip_suffix(b"\n".as_slice()))
    {
        Some(b"glances") => Ok(Asked::Rates),
        Some(line) => match read_number(line, 0, MOST) {
            Some(count) => Ok(Asked::Calls(count)),
            None => Err(Fault::Wrong),
        },
        None => Err(Fault::Wrong),
    }
}
