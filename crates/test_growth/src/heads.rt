//! Heads of files that grow, and what is told of each.
use crate::files::disk_with;
use lz_growth::{HeadFault, slots_of};
use std::alloc::{AllocError, Global};
use std::test::Fail;

// A head, the length of the file that has it and zeros after it, and what is told of that.
type Row = ([u8; 16], usize, Result<u64, HeadFault>);

const THREE: [u8; 16] = *b"\xa5LZYSET5\0\0\0\0\0\0\0\x03";

const ROWS: [Row; 18] = [
    (THREE, 0, Err(HeadFault::NotMade)),
    (THREE, 15, Err(HeadFault::NotMade)),
    (*b"\0LZYSET5\0\0\0\0\0\0\0\x03", 64, Err(HeadFault::NotMade)),
    (*b"\xa4LZYSET4\0\0\0\0\0\0\0\0", 64, Err(HeadFault::NotMade)),
    (
        *b"\xa5LZYSET4\0\0\0\0\0\0\0\x03",
        64,
        Err(HeadFault::WrongMagic),
    ),
    (
        *b"\xa5LZYSET6\0\0\0\0\0\0\0\x03",
        64,
        Err(HeadFault::WrongMagic),
    ),
    (
        *b"\xa5LZYSEt5\0\0\0\0\0\0\0\0",
        64,
        Err(HeadFault::WrongMagic),
    ),
    (
        *b"\xa5LZYSET5\0\0\0\0\0\0\0\0",
        64,
        Err(HeadFault::BadCount),
    ),
    // One more than 16,777,216.
    (
        *b"\xa5LZYSET5\0\0\0\0\x01\0\0\x01",
        64,
        Err(HeadFault::BadCount),
    ),
    // 3, and 2 ^ 56 besides
    (
        *b"\xa5LZYSET5\x01\0\0\0\0\0\0\x03",
        64,
        Err(HeadFault::BadCount),
    ),
    (
        *b"\xa5LZYSET5\xff\xff\xff\xff\xff\xff\xff\xff",
        64,
        Err(HeadFault::BadCount),
    ),
    // The most.
    (
        *b"\xa5LZYSET5\0\0\0\0\x01\0\0\0",
        64,
        Err(HeadFault::WrongLength),
    ),
    (THREE, 16, Err(HeadFault::WrongLength)),
    (THREE, 63, Err(HeadFault::WrongLength)),
    (THREE, 64, Ok(3)),
    (THREE, 65, Ok(3)),
    (THREE, 1_000, Ok(3)),
    (*b"\xa5LZYSET5\0\0\0\0\0\0\x01\0", 16 + 16 * 256, Ok(256)),
];

fn file_of(alloc: Global, head: &[u8; 16], length: usize) -> Result<Vec<u8>, AllocError> {
    let mut bytes = head.to_vec(alloc)?;
    bytes.resize(length, 0)?;
    Ok(bytes)
}

#[test]
fn each_fault_of_a_head_is_told(rt: HostRuntime) -> Result<(), Fail> {
    for (head, length, told) in ROWS {
        let bytes = file_of(rt.alloc(), &head, length)?;
        let mut disk = disk_with(rt.alloc(), &bytes)?;
        assert_eq!(rt; slots_of(&mut disk), told, "{head:?}, {length} bytes");
        assert_eq!(rt; disk.bytes(), bytes.as_slice());
    }
    Ok(())
}

// A sync, the size, and a read of the head, where there is one.
#[test]
fn a_device_that_fails_is_told(rt: HostRuntime) -> Result<(), Fail> {
    for (length, passes, told) in [
        (64, 0, Err(HeadFault::Device)),
        (64, 1, Err(HeadFault::Device)),
        (64, 2, Err(HeadFault::Device)),
        (64, 3, Ok(3)),
        (15, 1, Err(HeadFault::Device)),
        (15, 2, Err(HeadFault::NotMade)),
    ] {
        let mut disk = disk_with(rt.alloc(), &file_of(rt.alloc(), &THREE, length)?)?;
        disk.fuse(passes);
        assert_eq!(rt; slots_of(&mut disk), told, "{length} bytes, {passes} calls");
    }
    Ok(())
}
