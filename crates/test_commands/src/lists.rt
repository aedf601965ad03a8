//! Makings from lists of keys: what is made and told, and a reader, a writer and a device that fail.
use crate::commands::{Ran, disk_with};
use lazyset_set_commands::{Lines, Shown, make_keys_on, survey_on};
use lz_disk::MemoryDisk;
use lz_slot::{Format, Header};
use std::alloc::{AllocError, Global};
use std::test::Fail;
use test_support::{ENDS, FAILINGS, Narrow, Slow, set_failing};

// Key 17 of room 0 and key 8 of room 3, in both spellings of a line's end.
const LIST: &[u8] = b"17\n3:8\r\n";

// A file of format 3 with three slots that hold them.
const LISTED: [u8; 64] = [
    0xa5, 0x4c, 0x5a, 0x59, 0x53, 0x45, 0x54, 0x33, 0, 0, 0, 0, 0, 0, 0, 3, //
    0xa5, 0, 0, 0, 0, 0, 0, 0, 0, 0, 0, 0, 0, 0, 0, 17, //
    0xa5, 3, 0, 0, 0, 0, 0, 0, 0, 0, 0, 0, 0, 0, 0, 8, //
    0, 0, 0, 0, 0, 0, 0, 0, 0, 0, 0, 0, 0, 0, 0, 0,
];

// What a making from a list on this disk ended with and printed, and the disk.
fn list(alloc: Global, disk: MemoryDisk, list: &[u8], slots: u64, format: Format) -> Ran {
    let mut disk = disk;
    let mut reader = list;
    let mut printed: Vec<u8> = Vec::new(alloc);
    let status = make_keys_on(
        alloc,
        &mut reader,
        &mut printed,
        &mut disk,
        Header { format, slots },
        Lines::Keys,
    );
    Ran {
        code: status.code(),
        printed,
        disk,
    }
}

#[test]
fn makes_a_file_of_a_list_by_eleven_device_calls(rt: HostRuntime) -> Result<(), Fail> {
    let empty = disk_with(rt.alloc(), &[])?;
    let made = list(rt.alloc(), empty, LIST, 3, Format::Three);
    assert!(rt; made.tells(0, b"made 3\n"));
    assert_eq!(rt; made.disk.bytes(), LISTED.as_slice());
    assert_eq!(rt; made.disk.calls(), 11);
    Ok(())
}

// Lists of which no file is made, for so many slots of a format, and what is told of them.
const REFUSED: [(&[u8], u64, Format, &[u8]); 13] = [
    (b"17\n17\n", 2, Format::Two, b"twice 2\n"),
    (b"17\n8\n0:17\n", 3, Format::Two, b"twice 3\n"),
    (b"17\n17\nx\n", 2, Format::Two, b"twice 2\n"),
    (b"17\nx\n17\n", 2, Format::Two, b"line 2\n"),
    (b"\n", 2, Format::Two, b"line 1\n"),
    (b"17\n8", 2, Format::Two, b"line 2\n"),
    (b"17\r\r\n", 2, Format::Two, b"line 1\n"),
    (b"017\n", 2, Format::Two, b"line 1\n"),
    (b"17\n3:8\n", 2, Format::One, b"line 2\n"),
    (b"17\n8\n9\n", 2, Format::Two, b"refused 9 3 2\n"),
    (b"17\n8\n9\n9\n", 2, Format::Two, b"twice 4\n"),
    (b"17\n17\n", 0, Format::Two, b"refused 2\n"),
    (b"17\n17\n", 65_537, Format::Two, b"refused 2\n"),
];

#[test]
fn a_list_at_fault_calls_no_device(rt: HostRuntime) -> Result<(), Fail> {
    for (text, slots, format, told) in REFUSED {
        let empty = disk_with(rt.alloc(), &[])?;
        let refused = list(rt.alloc(), empty, text, slots, format);
        assert!(rt; refused.tells(3, told), "{text:?}");
        assert_eq!(rt; refused.disk.calls(), 0, "{text:?}");
    }
    Ok(())
}

#[test]
fn a_made_file_stays(rt: HostRuntime) -> Result<(), Fail> {
    let made = disk_with(rt.alloc(), &LISTED)?;
    let refused = list(rt.alloc(), made, b"5\n", 3, Format::Three);
    assert!(rt; refused.tells(3, b"refused 1\n"));
    assert_eq!(rt; refused.disk.bytes(), LISTED.as_slice());
    Ok(())
}

// Nothing is made of a list that wasn't read to its end.
#[test]
fn a_failed_read_ends_a_list(rt: HostRuntime) -> Result<(), Fail> {
    for count in 0..LIST.len().wrapping_add(1) {
        for step in [1, 3] {
            let mut reader = Slow {
                text: LIST.get(..count).unwrap_or(b""),
                step,
                fails: true,
            };
            let mut disk = disk_with(rt.alloc(), &[])?;
            let mut output: Vec<u8> = Vec::new(rt.alloc());
            let status = make_keys_on(
                rt.alloc(),
                &mut reader,
                &mut output,
                &mut disk,
                Header {
                    format: Format::Three,
                    slots: 3,
                },
                Lines::Keys,
            );
            let is_told = status.code() == 1 && output.as_slice() == b"noread\n".as_slice();
            assert!(rt; is_told && disk.calls() == 0, "after {count} bytes");
        }
    }
    Ok(())
}

// What couldn't be told was done.
#[test]
fn a_failed_write_ends_a_list(rt: HostRuntime) -> Result<(), Fail> {
    for room in 0..8 {
        let mut disk = disk_with(rt.alloc(), &[])?;
        let mut reader = LIST;
        let mut writer = Narrow::new(rt.alloc(), room);
        let status = make_keys_on(
            rt.alloc(),
            &mut reader,
            &mut writer,
            &mut disk,
            Header {
                format: Format::Three,
                slots: 3,
            },
            Lines::Keys,
        );
        let is_told = status.code() == u8::from(room < 7)
            && Some(writer.taken.as_slice()) == b"made 3\n".get(..room);
        assert!(rt; is_told, "after {room} bytes");
        assert!(rt; disk.bytes() == LISTED.as_slice(), "after {room} bytes");
    }
    Ok(())
}

// Whether each end leaves a file that isn't made, or holds exactly the keys.
fn is_unmade_or_whole(alloc: Global, disk: &MemoryDisk) -> Result<bool, AllocError> {
    for end in ENDS {
        let disk = match end {
            Some(pick) => disk.crashed(pick)?,
            None => disk_with(alloc, disk.bytes())?,
        };
        let mut told: Vec<u8> = Vec::new(alloc);
        let mut bytes = disk.bytes();
        let code = survey_on(alloc, &mut bytes, &mut told, Shown::Findings).code();
        let is_unmade = code == 3 && told.as_slice() == b"refused 1\n".as_slice();
        let is_whole = code == 0
            && told.as_slice() == b"slot 0 key 17\nslot 1 key 3:8\ngood\n".as_slice();
        if !is_unmade && !is_whole {
            return Ok(false);
        }
    }
    Ok(true)
}

#[test]
fn a_failed_call_leaves_none_or_all_of_a_list(rt: HostRuntime) -> Result<(), Fail> {
    for failing in FAILINGS {
        for passes in 0..11 {
            let mut disk = disk_with(rt.alloc(), &[])?;
            set_failing(&mut disk, failing, passes);
            let done = list(rt.alloc(), disk, LIST, 3, Format::Three);
            let is_told = done.tells(1, b"refused 3\n");
            assert!(rt; is_told && done.disk.calls() == passes.wrapping_add(1));
            let is_left = is_unmade_or_whole(rt.alloc(), &done.disk)?;
            assert!(rt; is_left, "after {passes} calls");
        }
    }
    Ok(())
}
