//! A session over one pass of a set.
ghost use Rattle.std.specs.Prelude.{All};
ghost use Rattle.lz_disk.specs.Records.{device_of};
ghost use Rattle.lz_set.specs.Blanks.{MayBeNamed};
ghost use Rattle.lz_set.specs.Names.{MayCall};

use crate::fault::Fault;
use crate::sets::{last_pass, open};
use lz_disk::MemoryDisk;
use lz_proto::{End, Service, SessionFault, session};
use lz_serve::Seated;
use lz_set::{Blank, Named, NoGate, Pass, Set};
use std::io;
use std::io::{ErrorKind, Read, Write};
use std::marker::Brand;
use std::sync::Wait;
use std::time::Clock;

/// What each read gives: commands that ask the device for nothing, so that no memory is asked for but by the session.
const PIECES: [&[u8]; 4] = [
    b"has 17\n",
    b"add 17\nhas 3:9\n",
    b"has 18\n",
    b"remove 18\nquit\n",
];

const REPLIES: &str = "yes\nno\nyes\nno\nno\n";

/// Up to where the replies go that the first so many pieces are answered.
const ENDS: [usize; 5] = [0, 4, 11, 14, 17];

/// Gives a piece at each read.
#[derive(Drop)]
struct Pieces {
    given: usize,
}

impl Read for Pieces {
    fn read(&mut self, buffer: &mut [u8]) -> io::Result<usize> {
        let Some(piece) = PIECES.get(self.given) else {
            return Ok(0);
        };
        let Some(room) = buffer.get_mut(..piece.len()) else {
            return Err(io::Error::from(ErrorKind::Other));
        };
        room.copy_from_slice(piece);
        self.given = self.given.wrapping_add(1);
        Ok(piece.len())
    }
}

/// Keeps what is written, and asks for no memory.
#[derive(Drop)]
struct Told {
    bytes: [u8; 64],
    count: usize,
}

impl Write for Told {
    fn write(&mut self, bytes: &[u8]) -> io::Result<usize> {
        let Some(byte) = bytes.first() else {
            return Ok(0);
        };
        let Some(place) = self.bytes.get_mut(self.count) else {
            return Err(io::Error::from(ErrorKind::Other));
        };
        *place = *byte;
        self.count = self.count.wrapping_add(1);
        Ok(1)
    }

    fn flush(&mut self) -> io::Result<()> {
        Ok(())
    }
}

impl Told {
    // Whether these were written, and no others.
    fn is(&self, replies: Option<&[u8]>) -> bool {
        replies.is_some() && self.bytes.get(..self.count) == replies
    }
}

pub fn drill<R: Print + AllocGlobal + Wait + Clock>(rt: &R) -> Result<(), Fault> {
    let blank = open(rt)?;
    talk::<Brand, R>(rt, blank)
}

fn talk<N: Named, R: Print + AllocGlobal + Wait + Clock>(
    rt: &R,
    blank: Blank<MemoryDisk, NoGate>,
) -> Result<(), Fault>
    requires { MayBeNamed device_of N.board N.first N.format blank }
{
    let (set, passes) = blank.start::<N>();
    converse(rt, &set, passes)
}

fn converse<N: Named, R: Print + AllocGlobal + Wait + Clock>(
    rt: &R,
    set: &Set<MemoryDisk, NoGate, N>,
    passes: Vec<Pass>,
) -> Result<(), Fault>
    requires { All (MayCall N.board) passes.items }
{
    let mut passes = passes;
    let Some(pass) = last_pass::<N>(&mut passes) else {
        return Err(Fault::Wrong);
    };
    let mut seated = Seated::new(rt, set, pass);
    let mut told = Told {
        bytes: [0; 64],
        count: 0,
    };
    if !quits(rt, &mut told, &mut seated)? || !told.is(Some(REPLIES.as_bytes())) {
        return Err(Fault::Wrong);
    }
    print!(rt; "session:\n{REPLIES}")?;
    Ok(())
}

// Whether the session ends by its `quit`.
fn quits<R: Print + AllocGlobal, S: Service>(
    rt: &R,
    told: &mut Told,
    service: &mut S,
) -> Result<bool, Fault> {
    let mut pieces = Pieces { given: 0 };
    match session(rt.alloc(), &mut pieces, told, service) {
        Err(SessionFault::Memory) => quits_again(rt, &mut pieces, told, service),
        ended => Ok(matches!(ended, Ok(End::Quit))),
    }
}

fn quits_again<R: Print + AllocGlobal, S: Service>(
    rt: &R,
    pieces: &mut Pieces,
    told: &mut Told,
    service: &mut S,
) -> Result<bool, Fault> {
    if !go_back(pieces, told) {
        return Err(Fault::Wrong);
    }
    println!(rt; "again session")?;
    let ended = session(rt.alloc(), pieces, told, service);
    Ok(matches!(ended, Ok(End::Quit)))
}

// Gives the last piece again. Whether those before it were answered, and it wasn't.
fn go_back(pieces: &mut Pieces, told: &Told) -> bool {
    let Some(before) = pieces.given.checked_sub(1) else {
        return false;
    };
    let Some(end) = ENDS.get(before) else {
        return false;
    };
    pieces.given = before;
    told.is(REPLIES.as_bytes().get(..*end))
}
