//! Where a reader or a writer of a run fails, or is interrupted.
use crate::commands::{TWO_SLOTS, disk_with};
use lazyset_set_commands::{NoHeed, run_on};
use std::alloc::AllocError;
use std::io;
use std::io::{ErrorKind, Read, Write};
use std::sync::Wait;
use std::test::Fail;
use std::time::Clock;
use test_support::{Narrow, Slow};

const LINES: &[u8] = b"add 17\nhas 17\nadd 17\nhas 18\n";

const REPLIES: [&[u8]; 5] = [
    b"",
    b"yes\n",
    b"yes\nyes\n",
    b"yes\nyes\nno\n",
    b"yes\nyes\nno\nno\n",
];

// Where a read fails, the lines that came whole are answered, and no other.
#[test]
fn a_failed_read_ends_the_run(rt: HostRuntime) -> Result<(), Fail> {
    for count in 0..LINES.len().wrapping_add(1) {
        for step in [1, 3] {
            let text = LINES.get(..count).unwrap_or(b"");
            let lines = text.iter().filter(|byte| **byte == b'\n').count();
            let mut reader = Slow {
                text,
                step,
                fails: true,
            };
            let mut output: Vec<u8> = Vec::new(rt.alloc());
            let disk = disk_with(rt.alloc(), &TWO_SLOTS)?;
            let (status, _disk) = run_on(&rt, &mut reader, &mut output, &NoHeed, disk, 1);
            let is_told = REPLIES.get(lines).copied() == Some(output.as_slice());
            assert!(rt; status.code() == 1 && is_told, "after {count} bytes");
        }
    }
    Ok(())
}

// Where a write fails, the command that was being answered was done, and none after it.
#[test]
fn a_failed_write_ends_the_run(rt: HostRuntime) -> Result<(), Fail> {
    let replies: &[u8] = b"yes\nyes\nfull\n";
    for room in 0..13 {
        let mut input = b"add 17\nadd 18\nadd 19\n".as_slice();
        let mut writer = Narrow::new(rt.alloc(), room);
        let disk = disk_with(rt.alloc(), &TWO_SLOTS)?;
        let (status, disk) = run_on(&rt, &mut input, &mut writer, &NoHeed, disk, 1);
        assert_eq!(rt; status.code(), 1);
        assert_eq!(rt; Some(writer.taken.as_slice()), replies.get(..room));
        assert_eq!(rt; disk.bytes().len(), 48);
        assert_eq!(rt; disk.bytes()[16], 0xa5, "17 was added");
        let is_second_added = disk.bytes()[32] == 0xa5;
        assert_eq!(rt; is_second_added, room >= 4, "after {room} bytes");
    }
    Ok(())
}

/// Is interrupted before each read, and gives its text a byte at a time. At its end a read fails so, if it fails.
#[derive(Drop)]
struct Interrupted<'a> {
    text: &'a [u8],
    rested: bool,
    fault: ErrorKind,
}

impl<'a> Read for Interrupted<'a> {
    fn read(&mut self, buffer: &mut [u8]) -> io::Result<usize> {
        self.rested = !self.rested;
        if self.rested {
            return Err(io::Error::from(ErrorKind::Interrupted));
        }
        if self.text.is_empty() && self.fault != ErrorKind::Interrupted {
            return Err(io::Error::from(self.fault));
        }
        if buffer.is_empty() || self.text.is_empty() {
            return Ok(0);
        }
        buffer[0] = self.text[0];
        self.text = &self.text[1..];
        Ok(1)
    }
}

/// Is interrupted before each write, and takes a byte at a time, so many, and then fails so.
#[derive(Drop)]
struct Hesitant {
    taken: Vec<u8>,
    room: usize,
    rested: bool,
    fault: ErrorKind,
}

impl Write for Hesitant {
    fn write(&mut self, bytes: &[u8]) -> io::Result<usize> {
        self.rested = !self.rested;
        if self.rested {
            return Err(io::Error::from(ErrorKind::Interrupted));
        }
        if bytes.is_empty() {
            return Ok(0);
        }
        if self.room == 0 {
            return Err(io::Error::from(self.fault));
        }
        if self.taken.push(bytes[0]).is_err() {
            return Err(io::Error::from(ErrorKind::OutOfMemory));
        }
        self.room -= 1;
        Ok(1)
    }

    fn flush(&mut self) -> io::Result<()> {
        Ok(())
    }
}

// What a run over two slots ends with and writes, whose reads and writes are interrupted, where reads then fail so at the
// lines' end, or writes after so many bytes.
fn ends_when_interrupted<R: Wait + Clock + AllocGlobal>(
    rt: &R,
    lines: &[u8],
    read_fault: ErrorKind,
    room: usize,
    write_fault: ErrorKind,
) -> Result<(u8, Vec<u8>), AllocError> {
    let mut reader = Interrupted {
        text: lines,
        rested: false,
        fault: read_fault,
    };
    let mut writer = Hesitant {
        taken: Vec::new(rt.alloc()),
        room,
        rested: false,
        fault: write_fault,
    };
    let disk = disk_with(rt.alloc(), &TWO_SLOTS)?;
    let (status, _disk) = run_on(rt, &mut reader, &mut writer, &NoHeed, disk, 1);
    Ok((status.code(), writer.taken))
}

// An interrupted read or write is tried again; any other fault of one ends the run.
#[test]
fn only_an_interruption_is_tried_again(rt: HostRuntime) -> Result<(), Fail> {
    let lines: &[u8] = b"add 17\nhas 17\nadd 17\n";
    let replies: &[u8] = b"yes\nyes\nno\n";
    let kind = ErrorKind::Interrupted;
    let (code, written) = ends_when_interrupted(&rt, lines, kind, 100, ErrorKind::Other)?;
    assert_eq!(rt; code, 0);
    assert_eq!(rt; written.as_slice(), replies);
    for fault in [
        ErrorKind::Other,
        ErrorKind::WouldBlock,
        ErrorKind::TimedOut,
        ErrorKind::BrokenPipe,
        ErrorKind::UnexpectedEof,
    ] {
        let (code, written) = ends_when_interrupted(&rt, lines, fault, 100, ErrorKind::Other)?;
        assert_eq!(rt; code, 1);
        assert_eq!(rt; written.as_slice(), replies);
        let (code, written) = ends_when_interrupted(&rt, lines, kind, 5, fault)?;
        assert_eq!(rt; code, 1);
        assert_eq!(rt; written.as_slice(), b"yes\ny".as_slice());
    }
    Ok(())
}
