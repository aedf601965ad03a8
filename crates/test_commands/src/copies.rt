//! Copies of what a service tells: what is asked, made and told, and a connection, a writer and a device that fail.
use crate::commands::disk_with;
use lazyset_set_commands::copy_on;
use lz_disk::MemoryDisk;
use lz_slot::{Format, Header};
use std::alloc::{AllocError, Global};
use std::test::Fail;
use test_support::{Narrow, Slow};

// Two pages of all rooms, which tell 17 twice, and the key 8 of room 3.
const FIRST: &[u8] = b"*2\r\n$4\r\n4096\r\n*2\r\n$2\r\n17\r\n$1\r\n5\r\n";

const SECOND: &[u8] = b"*2\r\n$1\r\n0\r\n*2\r\n$2\r\n17\r\n$19\r\n3000000000000000008\r\n";

// What the service is asked.
const ASKED: &[u8] = b"LZ.SCAN 0 COUNT 256\r\nLZ.SCAN 4096 COUNT 256\r\n";

// A file of format 3 with four slots that holds 17, 5 and 3:8.
const COPIED: [u8; 80] = [
    0xa5, 0x4c, 0x5a, 0x59, 0x53, 0x45, 0x54, 0x33, 0, 0, 0, 0, 0, 0, 0, 4, //
    0xa5, 0, 0, 0, 0, 0, 0, 0, 0, 0, 0, 0, 0, 0, 0, 17, //
    0xa5, 0, 0, 0, 0, 0, 0, 0, 0, 0, 0, 0, 0, 0, 0, 5, //
    0xa5, 3, 0, 0, 0, 0, 0, 0, 0, 0, 0, 0, 0, 0, 0, 8, //
    0, 0, 0, 0, 0, 0, 0, 0, 0, 0, 0, 0, 0, 0, 0, 0,
];

// The replies of a whole scan.
fn replies(alloc: Global) -> Result<Vec<u8>, AllocError> {
    let mut text = Vec::from_slice(alloc, FIRST)?;
    text.extend_from_slice(SECOND)?;
    Ok(text)
}

// What a copy ended with, asked and printed, and its disk.
#[derive(Drop)]
struct Copied {
    code: u8,
    asked: Vec<u8>,
    printed: Vec<u8>,
    disk: MemoryDisk,
}

impl Copied {
    fn tells(&self, code: u8, printed: &[u8]) -> bool {
        self.code == code && self.printed.as_slice() == printed
    }
}

// A copy of what comes in steps of so many bytes, after which reads fail.
fn copy(alloc: Global, text: &[u8], step: usize, slots: u64) -> Result<Copied, AllocError> {
    let mut disk = disk_with(alloc, &[])?;
    let mut reader = Slow {
        text,
        step,
        fails: true,
    };
    let mut asked: Vec<u8> = Vec::new(alloc);
    let mut printed: Vec<u8> = Vec::new(alloc);
    let status = copy_on(
        alloc,
        &mut reader,
        &mut asked,
        &mut printed,
        &mut disk,
        Header {
            format: Format::Three,
            slots,
        },
    );
    Ok(Copied {
        code: status.code(),
        asked,
        printed,
        disk,
    })
}

#[test]
fn a_copy_asks_page_by_page_and_holds_each_key_once(rt: HostRuntime) -> Result<(), Fail> {
    let text = replies(rt.alloc())?;
    for step in [1, 7, 4_096] {
        let copied = copy(rt.alloc(), text.as_slice(), step, 4)?;
        assert!(rt; copied.tells(0, b"copied 3\n"), "by {step} bytes");
        assert!(rt; copied.asked.as_slice() == ASKED, "by {step} bytes");
        assert!(rt; copied.disk.bytes() == COPIED.as_slice(), "by {step} bytes");
    }
    Ok(())
}

// Wherever the replies end, nothing is made, and no device is called.
#[test]
fn no_copy_is_made_of_a_part_of_a_scan(rt: HostRuntime) -> Result<(), Fail> {
    let text = replies(rt.alloc())?;
    for count in 0..text.len() {
        let part = text.as_slice().get(..count).unwrap_or(b"");
        let copied = copy(rt.alloc(), part, 64, 4)?;
        assert!(rt; copied.tells(1, b"noread\n"), "after {count} bytes");
        assert_eq!(rt; copied.disk.calls(), 0, "after {count} bytes");
    }
    Ok(())
}

// Replies that are no pages of keys.
const NO_PAGES: [&[u8]; 8] = [
    b"-ERR texts are not kept, and none can be listed\r\n",
    b"-HALTED the device failed\r\n",
    b"bad 2\n",
    b"*2\r\n$2\r\n00\r\n",
    b"*2\r\n$1\r\n0\r\n*1\r\n$3\r\nred\r\n",
    b"*2\r\n$1\r\n0\r\n*1\r\n$20\r\n16000000000000000000\r\n",
    b"*3\r\n$1\r\n0\r\n",
    b"*2\r\n$1\r\n0\r\n*8193\r\n",
];

#[test]
fn no_copy_is_made_of_what_is_no_page(rt: HostRuntime) -> Result<(), Fail> {
    for reply in NO_PAGES {
        for before in [b"".as_slice(), FIRST] {
            let mut text = Vec::from_slice(rt.alloc(), before)?;
            text.extend_from_slice(reply)?;
            let copied = copy(rt.alloc(), text.as_slice(), 4_096, 4)?;
            assert!(rt; copied.tells(3, b"noreply\n"), "{reply:?}");
            assert_eq!(rt; copied.disk.calls(), 0, "{reply:?}");
        }
    }
    Ok(())
}

#[test]
fn a_copy_that_has_no_room_is_refused(rt: HostRuntime) -> Result<(), Fail> {
    let text = replies(rt.alloc())?;
    let refused = copy(rt.alloc(), text.as_slice(), 4_096, 2)?;
    assert!(rt; refused.tells(3, b"refused 9 3 2\n"));
    assert_eq!(rt; refused.disk.calls(), 0);
    for slots in [0, 16_777_217] {
        let refused = copy(rt.alloc(), text.as_slice(), 4_096, slots)?;
        assert!(rt; refused.tells(3, b"refused 2\n"), "{slots}");
        assert!(rt;
            refused.asked.is_empty() && refused.disk.calls() == 0,
            "{slots}"
        );
    }
    Ok(())
}

// Where the service can't be asked, nothing is made.
#[test]
fn a_request_that_fails_ends_a_copy(rt: HostRuntime) -> Result<(), Fail> {
    let text = replies(rt.alloc())?;
    for count in 0..ASKED.len() {
        let mut disk = disk_with(rt.alloc(), &[])?;
        let mut reader = text.as_slice();
        let mut asker = Narrow::new(rt.alloc(), count);
        let mut printed: Vec<u8> = Vec::new(rt.alloc());
        let status = copy_on(
            rt.alloc(),
            &mut reader,
            &mut asker,
            &mut printed,
            &mut disk,
            Header {
                format: Format::Three,
                slots: 4,
            },
        );
        let is_told = status.code() == 1 && printed.as_slice() == b"noread\n".as_slice();
        assert!(rt; is_told && disk.calls() == 0, "after {count} bytes");
    }
    Ok(())
}
