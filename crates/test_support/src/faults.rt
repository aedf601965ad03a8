//! Devices that are made to fail, and how a life ends after it.
use lz_disk::{MemoryDisk, Pick};
use std::alloc::AllocError;

/// How a life ends: the process stops, or the device crashes, and picks what becomes of the bytes that aren't durable.
pub const ENDS: [Option<Pick>; 7] = [
    None,
    Some(Pick::Old),
    Some(Pick::New),
    Some(Pick::Byte(0xa5)),
    Some(Pick::Byte(0x37)),
    Some(Pick::Byte(0)),
    Some(Pick::Part(1)),
];

/// Ends a life so.
pub fn end_life(disk: &mut MemoryDisk, end: Option<Pick>) -> Result<(), AllocError> {
    match end {
        Some(pick) => disk.crash(pick),
        None => {
            disk.stop();
            Ok(())
        }
    }
}

/// Whether a device fails at one call or from then on.
#[derive(Clone, Copy, Debug)]
pub enum Failing {
    Once,
    ForGood,
}

/// Both of them.
pub const FAILINGS: [Failing; 2] = [Failing::Once, Failing::ForGood];

/// Lets so many calls pass before the one that fails.
pub fn set_failing(disk: &mut MemoryDisk, failing: Failing, passes: u64) {
    match failing {
        Failing::Once => disk.trip_after(passes),
        Failing::ForGood => disk.fuse(passes),
    }
}
