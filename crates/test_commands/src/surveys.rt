//! Surveys of files that come from a reader: in pieces, cut short, too long, and from a reader that fails.
use crate::commands::HELD;
use lazyset_set_commands::{Shown, check_of_on, survey_on, torn_slots};
use std::alloc::{AllocError, Global};
use std::test::Fail;
use test_support::Slow;

// What was told of a file that came so many bytes at a time, and the code of the status.
fn told_of(alloc: Global, reader: &mut Slow) -> (Vec<u8>, u8) {
    let mut told: Vec<u8> = Vec::new(alloc);
    let code = survey_on(alloc, reader, &mut told, Shown::Findings).code();
    (told, code)
}

// The head of a file of format 3 with 1,500 slots, and a slot with this number in room 0.
const LONG_HEAD: [u8; 16] = [
    0xa5, 0x4c, 0x5a, 0x59, 0x53, 0x45, 0x54, 0x33, 0, 0, 0, 0, 0, 0, 5, 0xdc,
];

fn slot_with(number: u8) -> [u8; 16] {
    [0xa5, 0, 0, 0, 0, 0, 0, 0, 0, 0, 0, 0, 0, 0, 0, number]
}

// A file whose slots come in two pieces: 17 in slot 0, 18 in slots 1023 and 1024, and 17 in slot 1499 again.
fn long_file(alloc: Global) -> Result<Vec<u8>, AllocError> {
    let mut bytes: Vec<u8> = Vec::new(alloc);
    bytes.extend_from_slice(&LONG_HEAD)?;
    for index in 0..1_500 {
        let slot = match index {
            0 | 1_499 => slot_with(17),
            1_023 | 1_024 => slot_with(18),
            _ => [0; 16],
        };
        bytes.extend_from_slice(&slot)?;
    }
    Ok(bytes)
}

const LONG_TOLD: &[u8] =
    b"slot 0 key 17\nslot 1023 key 18\nslot 1024 twice 1023\nslot 1499 twice 0\ndamaged\n";

#[test]
fn pieces_of_any_length_make_one_file(rt: HostRuntime) -> Result<(), Fail> {
    let file = long_file(rt.alloc())?;
    for step in [1, 7, 16, 4_096, 100_000] {
        let mut reader = Slow {
            text: file.as_slice(),
            step,
            fails: false,
        };
        let (told, code) = told_of(rt.alloc(), &mut reader);
        assert!(rt;
            told.as_slice() == LONG_TOLD && code == 4,
            "{step} bytes at a time"
        );
    }
    Ok(())
}

// A file that was cut short, before its head ends or after it.
#[test]
fn a_shorter_file_is_refused(rt: HostRuntime) -> Result<(), Fail> {
    for count in 0..HELD.len() {
        let wanted = if count < 16 {
            b"refused 1\n"
        } else {
            b"refused 3\n"
        };
        let mut reader = Slow {
            text: HELD.get(..count).unwrap_or(b""),
            step: 5,
            fails: false,
        };
        let (told, code) = told_of(rt.alloc(), &mut reader);
        assert!(rt;
            told.as_slice() == wanted.as_slice() && code == 3,
            "{count} bytes"
        );
    }
    Ok(())
}

// No more is read of a longer file than one byte after its slots.
#[test]
fn a_longer_file_is_refused_at_once(rt: HostRuntime) -> Result<(), Fail> {
    let mut file: Vec<u8> = HELD.to_vec(rt.alloc())?;
    file.extend_from_slice(&[0; 100])?;
    let mut reader = Slow {
        text: file.as_slice(),
        step: 1_000,
        fails: false,
    };
    let (told, code) = told_of(rt.alloc(), &mut reader);
    assert!(rt; told.as_slice() == b"refused 3\n".as_slice() && code == 3);
    assert_eq!(rt; reader.text.len(), 99);
    Ok(())
}

#[test]
fn a_failed_read_ends_a_survey(rt: HostRuntime) -> Result<(), Fail> {
    for count in 0..HELD.len().wrapping_add(1) {
        let mut reader = Slow {
            text: HELD.get(..count).unwrap_or(b""),
            step: 3,
            fails: true,
        };
        let (told, code) = told_of(rt.alloc(), &mut reader);
        assert!(rt;
            told.as_slice() == b"noread\n".as_slice() && code == 1,
            "after {count} bytes"
        );
    }
    Ok(())
}

// What was told of the file stays, and the older one is read only after it.
#[test]
fn a_failed_read_of_an_older_file_ends_a_comparison(rt: HostRuntime) -> Result<(), Fail> {
    for count in 0..HELD.len().wrapping_add(1) {
        let mut reader = Slow {
            text: &HELD,
            step: 16,
            fails: false,
        };
        let mut older = Slow {
            text: HELD.get(..count).unwrap_or(b""),
            step: 3,
            fails: true,
        };
        let mut told: Vec<u8> = Vec::new(rt.alloc());
        let code = check_of_on(rt.alloc(), &mut reader, &mut older, &mut told).code();
        let is_told = told.as_slice() == b"slot 0 key 17\ngood\nnoread\n".as_slice();
        assert!(rt; is_told && code == 1, "after {count} bytes");
    }
    Ok(())
}

// The byte that names format 4 in a head.
const FOUR: u8 = 0x34;

// A slot of format 4 that holds 17, and one that a crash has left amid its writing.
const WHOLE: [u8; 16] = [
    0x0f, 0x0f, 0x0f, 0x0f, 0x0f, 0x0f, 0x0f, 0x0f, 0x0f, 0x0f, 0x0f, 0x0f, 0x0f, 0x0f, 0x1e, 0x1e,
];

const TORN: [u8; 16] = [
    0x0f, 0x0f, 0x0f, 0x0f, 0x0f, 0x0f, 0x0f, 0, 0x0f, 0x0f, 0x0f, 0x0f, 0x0f, 0x0f, 0x1e, 0x1e,
];

// A file of format 4 whose slots come in two pieces: 17 in slot 1, and four torn slots.
fn torn_file(alloc: Global) -> Result<Vec<u8>, AllocError> {
    let mut bytes: Vec<u8> = Vec::new(alloc);
    bytes.extend_from_slice(&LONG_HEAD[..7])?;
    bytes.push(FOUR)?;
    bytes.extend_from_slice(&LONG_HEAD[8..])?;
    for index in 0..1_500 {
        let slot = match index {
            0 | 1_023 | 1_024 | 1_499 => TORN,
            1 => WHOLE,
            _ => [0; 16],
        };
        bytes.extend_from_slice(&slot)?;
    }
    Ok(bytes)
}

#[test]
fn torn_slots_of_each_piece_are_counted(rt: HostRuntime) -> Result<(), Fail> {
    let file = torn_file(rt.alloc())?;
    for step in [1, 7, 16, 4_096, 100_000] {
        let mut reader = Slow {
            text: file.as_slice(),
            step,
            fails: false,
        };
        let counted = torn_slots(&mut reader);
        assert!(rt; matches!(counted, Ok(4)), "{step} bytes at a time");
    }
    Ok(())
}

// Of a file of another format no more is read than its head.
#[test]
fn no_slot_of_another_format_is_torn(rt: HostRuntime) -> Result<(), Fail> {
    let mut reader = Slow {
        text: LONG_HEAD.as_slice(),
        step: 16,
        fails: true,
    };
    assert!(rt; matches!(torn_slots(&mut reader), Ok(0)));
    Ok(())
}

#[test]
fn a_failed_read_ends_a_count_of_torn_slots(rt: HostRuntime) -> Result<(), Fail> {
    let file = torn_file(rt.alloc())?;
    for count in [0, 15, 16, 32, 24_015] {
        let mut reader = Slow {
            text: file.as_slice().get(..count).unwrap_or(b""),
            step: 4_096,
            fails: true,
        };
        assert!(rt; torn_slots(&mut reader).is_err(), "after {count} bytes");
    }
    Ok(())
}
