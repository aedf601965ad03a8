//! A session of the service, and another one after it; a reader and a writer that fail at each place of it.
ghost use Rattle.std.specs.Prelude.{All};
ghost use Rattle.lz_set.specs.Names.{MayCall};
ghost use Rattle.lz_disk.specs.Records.{device_of};
ghost use Rattle.lz_set.specs.Blanks.{MayBeNamed};

use crate::partners::two_passes;
use lz_disk::MemoryDisk;
use lz_proto::{End, SessionFault, session};
use lz_serve::Seated;
use lz_set::{Blank, Named, NoGate, Pass, Set};
use lz_vault::suit;
use std::alloc::Global;
use std::io::{Read, Write};
use std::marker::Brand;
use std::process::Abort;
use std::sync::Wait;
use std::test::Fail;
use std::time::Clock;
use test_support::{Narrow, Slow, keys_in, made};

/// How a session ended, what another one of the same set was then told, and the disk that was left.
#[derive(Drop)]
pub struct Talked {
    pub ended: Result<End, SessionFault>,
    pub told: Vec<u8>,
    pub disk: MemoryDisk,
}

// A session by a pass of a set.
fn converse<N: Named, I: Read, O: Write, R: Wait + Clock>(
    rt: &R,
    alloc: Global,
    set: &Set<MemoryDisk, NoGate, N>,
    pass: Pass,
    reader: &mut I,
    writer: &mut O,
) -> Result<End, SessionFault>
    requires { MayCall N.board pass }
{
    let mut seated = Seated::new(rt, set, pass);
    session(alloc, reader, writer, &mut seated)
}

// A session, and after it one of another pass, which asks which keys are members. How the first one ended, and what the other one
// was told.
fn converse_twice<N: Named, I: Read, O: Write, R: Wait + Clock>(
    rt: &R,
    alloc: Global,
    set: &Set<MemoryDisk, NoGate, N>,
    passes: Vec<Pass>,
    reader: &mut I,
    writer: &mut O,
) -> Option<(Result<End, SessionFault>, Vec<u8>)>
    requires { All (MayCall N.board) passes.items }
{
    let mut passes = passes;
    let (pass, other) = two_passes::<N>(&mut passes)?;
    let ended = converse(rt, alloc, set, pass, reader, writer);
    let mut asked = b"has 1\nhas 2\nhas 3\n".as_slice();
    let mut told: Vec<u8> = Vec::new(alloc);
    converse(rt, alloc, set, other, &mut asked, &mut told).ok()?;
    Some((ended, told))
}

// The same on a set that was opened.
fn talk<N: Named, I: Read, O: Write, R: Wait + Clock>(
    rt: &R,
    alloc: Global,
    blank: Blank<MemoryDisk, NoGate>,
    reader: &mut I,
    writer: &mut O,
) -> Option<Talked>
    requires { MayBeNamed device_of N.board N.first N.format blank }
{
    let (set, passes) = blank.start::<N>();
    let (ended, told) = converse_twice(rt, alloc, &set, passes, reader, writer)?;
    Some(Talked {
        ended,
        told,
        disk: set.close(),
    })
}

/// The same on the set that a disk holds.
pub fn talk_on<I: Read, O: Write, R: Wait + Clock>(
    rt: &R,
    alloc: Global,
    disk: MemoryDisk,
    reader: &mut I,
    writer: &mut O,
) -> Option<Talked> {
    let mut disk = disk;
    suit(&mut disk);
    match Set::open(alloc, disk, NoGate, 1, 2) {
        Ok(blank) => talk::<Brand, I, O, R>(rt, alloc, blank, reader, writer),
        Err(_) => None,
    }
}

// Four commands that are each answered yes.
const LINES: &[u8] = b"add 1\nadd 2\nremove 1\nadd 3\n";

const REPLIES: &[u8] = b"yes\nyes\nyes\nyes\n";

/// The members before the first command and after each, and what a session is told that asks for each key.
const STATES: [(&[u64], &[u8]); 5] = [
    (&[], b"no\nno\nno\n"),
    (&[1], b"yes\nno\nno\n"),
    (&[1, 2], b"yes\nyes\nno\n"),
    (&[2], b"no\nyes\nno\n"),
    (&[2, 3], b"no\nyes\nyes\n"),
];

// Whether the session ended with this fault, and so many commands were done: for the other session, and in the file.
fn has_left(alloc: Global, talked: Talked, fault: SessionFault, done: usize) -> bool {
    let Talked { ended, told, disk } = talked;
    let (Some((keys, seen)), Some(found)) = (STATES.get(done), keys_in(alloc, disk)) else {
        return false;
    };
    ended == Err(fault) && told.as_slice() == *seen && found.as_slice() == *keys
}

// A session on a new set of two slots.
fn talk_on_new<I: Read, O: Write, R: Wait + Clock + Abort>(
    rt: &R,
    alloc: Global,
    reader: &mut I,
    writer: &mut O,
) -> Talked {
    let Some(disk) = made(alloc, 2) else {
        panic!(rt; "no disk")
    };
    let Some(talked) = talk_on(rt, alloc, disk, reader, writer) else {
        panic!(rt; "no session")
    };
    talked
}

// The lines that came whole before a read failed are answered and done, and no other.
#[test]
fn a_failed_read_ends_a_session(rt: HostRuntime) -> Result<(), Fail> {
    for count in 0..LINES.len().wrapping_add(1) {
        for step in [1, 3] {
            let text = LINES.get(..count).unwrap_or(b"");
            let done = text.iter().filter(|byte| **byte == b'\n').count();
            let mut reader = Slow {
                text,
                step,
                fails: true,
            };
            let mut output: Vec<u8> = Vec::new(rt.alloc());
            let talked = talk_on_new(&rt, rt.alloc(), &mut reader, &mut output);
            let is_told = Some(output.as_slice()) == REPLIES.get(..done.wrapping_mul(4));
            let has_left = has_left(rt.alloc(), talked, SessionFault::Read, done);
            assert!(rt; is_told && has_left, "after {count} bytes");
        }
    }
    Ok(())
}

// The command whose reply couldn't be written was done, and none after it.
#[test]
fn a_failed_write_ends_a_session(rt: HostRuntime) -> Result<(), Fail> {
    for room in 0..REPLIES.len() {
        let mut reader = LINES;
        let mut writer = Narrow::new(rt.alloc(), room);
        let talked = talk_on_new(&rt, rt.alloc(), &mut reader, &mut writer);
        let is_told = Some(writer.taken.as_slice()) == REPLIES.get(..room);
        let done = (room / 4).wrapping_add(1);
        let has_left = has_left(rt.alloc(), talked, SessionFault::Write, done);
        assert!(rt; is_told && has_left, "after {room} bytes");
    }
    Ok(())
}
