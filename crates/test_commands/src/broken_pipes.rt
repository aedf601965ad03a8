//! A reader and a writer that fail at each place of the commands.
use crate::commands::{HELD, TWO_SLOTS, disk_with};
use lazyset_set_commands::{
    Shown, check_of_on, judge_on, make_on, rehearse_on, renew_on, survey_on,
};
use lz_slot::Format;
use std::alloc::Global;
use std::test::Fail;
use test_support::{Narrow, Slow, keys_in};

// Whether a command that ends with this code, and writes this to a writer that works, wrote so many bytes of it to one that
// took no more, and failed where that isn't all.
fn is_cut_off(ended: u8, written: &Narrow, at: usize, code: u8, told: &[u8]) -> bool {
    let wanted = if at < told.len() { 1 } else { code };
    ended == wanted && Some(written.taken.as_slice()) == told.get(..at)
}

/// A command that tells of files or texts, and changes nothing.
#[derive(Clone, Copy, Debug)]
enum Asked {
    Survey(Shown, &'static [u8]),
    Compare(&'static [u8]),
    Judge(&'static [u8]),
    Rehearse(&'static [u8]),
}

impl Asked {
    // The code of its status. Compared is with the file that holds 17; rehearsed is on two slots.
    fn tell(self, alloc: Global, writer: &mut Narrow) -> u8 {
        let status = match self {
            Asked::Survey(shown, file) => {
                let mut reader = file;
                survey_on(alloc, &mut reader, writer, shown)
            }
            Asked::Compare(old) => {
                let mut reader = HELD.as_slice();
                let mut older = old;
                check_of_on(alloc, &mut reader, &mut older, writer)
            }
            Asked::Judge(history) => judge_on(alloc, history, writer),
            Asked::Rehearse(script) => {
                let mut reader = script;
                rehearse_on(alloc, &mut reader, writer, 2, 1, Format::Two)
            }
        };
        status.code()
    }
}

// The file that holds 17, with a damaged second slot.
const DAMAGED: [u8; 48] = [
    0xa5, 0x4c, 0x5a, 0x59, 0x53, 0x45, 0x54, 0x31, 0, 0, 0, 0, 0, 0, 0, 2, //
    0xa5, 0, 0, 0, 0, 0, 0, 0, 0, 0, 0, 0, 0, 0, 0, 17, //
    0xa5, 0, 1, 0, 0, 0, 0, 0, 0, 0, 0, 0, 0, 0, 0, 0,
];

// Lines that are rehearsed, and one that isn't lawful.
const SCRIPT: &[u8] = b"call 1 add 9\nfinish 1\nshow\ncrash old\nopen\nopen\n";

// What a writer that works is told, and the status.
const ROWS: [(Asked, &[u8], u8); 14] = [
    (
        Asked::Survey(Shown::Findings, &HELD),
        b"slot 0 key 17\ngood\n",
        0,
    ),
    (
        Asked::Survey(Shown::Findings, &DAMAGED),
        b"slot 0 key 17\nslot 1 badkey\ndamaged\n",
        4,
    ),
    (Asked::Survey(Shown::Findings, b"\0"), b"refused 1\n", 3),
    (Asked::Survey(Shown::Keys, &HELD), b"17\n", 0),
    (Asked::Survey(Shown::Keys, &DAMAGED), b"17\ndamaged\n", 4),
    (Asked::Survey(Shown::Keys, b"\0"), b"refused 1\n", 3),
    (
        Asked::Survey(Shown::Counts, &HELD),
        b"format 1\nslots 2\nmembers 1\nfree 1\ngood\n",
        0,
    ),
    (
        Asked::Survey(Shown::Counts, &DAMAGED),
        b"format 1\nslots 2\nmembers 1\nfree 0\ndamaged\n",
        4,
    ),
    (Asked::Compare(&HELD), b"slot 0 key 17\ngood\nsame\n", 0),
    (Asked::Compare(b""), b"slot 0 key 17\ngood\nflaw 8\n", 4),
    (
        Asked::Judge(b"call 1 1 add 9\nanswer 1 yes\npoint 1 1\n"),
        b"good\n",
        0,
    ),
    (
        Asked::Judge(b"call 1 1 add 9\nanswer 1 yes\n"),
        b"flaw 1 1\n",
        4,
    ),
    (Asked::Judge(b"stop\nwhat\n"), b"line 2\n", 3),
    (
        Asked::Rehearse(SCRIPT),
        b"call 1 1 add 9\nanswer 1 yes\nshow 9\ncrash\nopen 9\nline 6\n",
        3,
    ),
];

#[test]
fn a_failed_write_ends_what_is_told(rt: HostRuntime) -> Result<(), Fail> {
    for (asked, told, code) in ROWS {
        for room in 0..told.len().wrapping_add(1) {
            let mut writer = Narrow::new(rt.alloc(), room);
            let ended = asked.tell(rt.alloc(), &mut writer);
            let is_told = is_cut_off(ended, &writer, room, code, told);
            assert!(rt; is_told, "{asked:?} after {room} bytes");
        }
    }
    Ok(())
}

// What couldn't be told was done: the file is made.
#[test]
fn a_failed_write_ends_a_making(rt: HostRuntime) -> Result<(), Fail> {
    for room in 0..8 {
        let mut disk = disk_with(rt.alloc(), &[])?;
        let mut writer = Narrow::new(rt.alloc(), room);
        let status = make_on(&mut writer, &mut disk, 2, Format::One);
        let is_told = is_cut_off(status.code(), &writer, room, 0, b"made 2\n");
        assert!(rt; is_told, "after {room} bytes");
        assert!(rt; disk.bytes() == TWO_SLOTS.as_slice(), "after {room} bytes");
    }
    Ok(())
}

// The new file holds the set of the old one, which is as it was.
#[test]
fn a_failed_write_ends_a_renewal(rt: HostRuntime) -> Result<(), Fail> {
    for room in 0..11 {
        let mut old = disk_with(rt.alloc(), &HELD)?;
        let mut new = disk_with(rt.alloc(), &[])?;
        let mut writer = Narrow::new(rt.alloc(), room);
        let status = renew_on(rt.alloc(), &mut writer, &mut old, &mut new, Format::Two, 3);
        let is_told = is_cut_off(status.code(), &writer, room, 0, b"renewed 1\n");
        assert!(rt; is_told, "after {room} bytes");
        assert!(rt; old.bytes() == HELD.as_slice(), "after {room} bytes");
        let keys = keys_in(rt.alloc(), new);
        let is_held = keys.is_some_and(|keys| keys.as_slice() == [17].as_slice());
        assert!(rt; is_held, "after {room} bytes");
    }
    Ok(())
}

// Nothing is rehearsed of a script that wasn't read to its end.
#[test]
fn a_failed_read_ends_a_rehearsal(rt: HostRuntime) -> Result<(), Fail> {
    for count in 0..SCRIPT.len().wrapping_add(1) {
        for step in [1, 3] {
            let mut reader = Slow {
                text: SCRIPT.get(..count).unwrap_or(b""),
                step,
                fails: true,
            };
            let mut output: Vec<u8> = Vec::new(rt.alloc());
            let status = rehearse_on(rt.alloc(), &mut reader, &mut output, 2, 1, Format::Two);
            let is_told = status.code() == 1 && output.as_slice() == b"noread\n".as_slice();
            assert!(rt; is_told, "after {count} bytes");
        }
    }
    Ok(())
}
