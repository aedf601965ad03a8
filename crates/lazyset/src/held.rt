//! Whether another process has a file to itself.
use crate::backlog::bytes_of;
use std::fs::File;
use std::os::unix::fs::MetadataExt;
use std::rt::Files;

// The system's table of locks, and its words for one of flock(2) that one process has alone (proc(5)).
const TABLE: &str = "/proc/locks";

const KIND: &str = "FLOCK";

const ALONE: &str = "WRITE";

/// Whether a process has the file at this path to itself, where the system tells it. It takes no lock, so it keeps nobody away.
pub fn is_held<R: Files<File = File> + AllocGlobal>(rt: &R, path: &str) -> bool {
    let (Ok(facts), Ok(table)) = (rt.metadata(path), File::open(rt, TABLE)) else {
        return false;
    };
    let Some(bytes) = bytes_of(rt.alloc(), &table) else {
        return false;
    };
    let Ok(text) = str::from_utf8(bytes.as_slice()) else {
        return false;
    };
    let device = numbers_of(facts.dev());
    text.lines().any(|line| held_by(line) == Some((device.0, device.1, facts.ino())))
}

// The numbers of a device's driver and of the device there.
fn numbers_of(device: u64) -> (u64, u64) {
    let major = ((device >> 8) & 0xfff) | ((device >> 32) & 0xffff_f000);
    let minor = (device & 0xff) | ((device >> 12) & 0xffff_ff00);
    (major, minor)
}

// The file of a line's lock, by the numbers of its device and its own, where one process has it alone.
fn held_by(line: &str) -> Option<(u64, u64, u64)> {
    let mut words = line.split_whitespace().skip(1);
    if words.next()? != KIND || words.nth(1)? != ALONE {
        return None;
    }
    let (major, rest) = words.nth(1)?.split_once(':')?;
    let (minor, number) = rest.split_once(':')?;
    Some((
        u64::from_str_radix(major, 16).ok()?,
        u64::from_str_radix(minor, 16).ok()?,
        number.parse::<u64>().ok()?,
    ))
}
