//! How a loop ends that serves many clients: its device fails, or its observer says so.
ghost use Rattle.std.specs.Prelude.{◌≤◌, length};

use crate::loops::{Ended, PASSES, all_scripts, network_of, serve_on};
use crate::network::Network;
use crate::scripts::{KEYS, Script, script_of};
use std::alloc::Global;
use std::cell::RefCell;
use std::process::Abort;
use std::sync::Wait;
use std::test::Fail;
use std::time::Clock;
use test_support::{keys_in, made};

/// How many device calls an open makes.
const OPENING: u64 = 4;

/// How many lines each client has where the device fails.
const LINES: u64 = 12;

// How many bytes the two begin with alike.
fn common(told: &[u8], replies: &[u8]) -> usize
    ensures { result ≤ length told.now }
{
    let most = told.len().min(replies.len());
    for index in 0..most {
        if told[index] != replies[index] {
            return index;
        }
    }
    most
}

// What a client is told of the lines whose replies would have been these, where its service stops before it begins them.
fn refused(alloc: Global, replies: &[u8]) -> Option<Vec<u8>> {
    let mut text = Vec::new(alloc);
    let mut is_bad = false;
    for byte in replies {
        is_bad |= *byte == b'b';
        if *byte == b'\n' {
            let line: &[u8] = if is_bad { b"bad 2\n" } else { b"stopping\n" };
            text.extend_from_slice(line).ok()?;
            is_bad = false;
        }
    }
    Some(text)
}

// Whether a client was told a beginning of its replies, and then of the halt, or a part of that, or that nothing was done of further lines.
fn is_told_in_part(alloc: Global, told: &[u8], replies: &[u8]) -> Option<bool> {
    let same = common(told, replies);
    let rest = &told[same..];
    if rest.is_empty() {
        return Some(true);
    }
    let is_line = same == 0 || replies.get(same.wrapping_sub(1)) == Some(&b'\n');
    let refused = refused(alloc, replies.get(same..)?)?;
    let is_refused = refused.as_slice().starts_with(rest) && rest.ends_with(b"\n");
    Some(is_line && (is_refused || b"halted\n".as_slice().starts_with(rest)))
}

// How many of its lines a client was answered, the halt and those of which nothing was done not counted.
fn lines_of(told: &[u8], replies: &[u8]) -> u64 {
    let answered = &told[..common(told, replies)];
    answered.iter().filter(|byte| **byte == b'\n').count() as u64
}

// Whether a client's key of this index is as it was after some number of its lines, between these two.
fn is_left(
    alloc: Global,
    keys: &[u64],
    client: u64,
    index: usize,
    least: u64,
    most: u64,
) -> Option<bool> {
    let key = client.wrapping_mul(10).wrapping_add(index as u64);
    for count in least..most.wrapping_add(1) {
        let script = script_of(alloc, client, count)?;
        if *script.members.get(index)? == keys.contains(&key) {
            return Some(true);
        }
    }
    Some(false)
}

// Whether each key of a client is. Lines of other keys are carried out side by side, so each is by itself.
fn are_left(alloc: Global, keys: &[u64], client: u64, least: u64, most: u64) -> Option<bool> {
    for index in 0..KEYS {
        if !is_left(alloc, keys, client, index, least, most)? {
            return Some(false);
        }
    }
    Some(true)
}

// Whether each client was told a beginning of its replies, and the keys that are left are those of what it was told, or of so many
// lines more.
fn are_kept(
    alloc: Global,
    network: &RefCell<Network>,
    scripts: &[Script],
    keys: &[u64],
    more: u64,
) -> Option<bool> {
    let Ok(network) = network.try_borrow() else {
        return None;
    };
    let mut sides = network.sides.iter();
    let mut client = 0u64;
    for script in scripts {
        let told = sides.next()?.told.as_slice();
        let replies = script.replies.as_slice();
        let lines = lines_of(told, replies);
        if !is_told_in_part(alloc, told, replies)?
            || !are_left(alloc, keys, client, lines, lines.saturating_add(more))?
        {
            return Some(false);
        }
        client = client.wrapping_add(1);
    }
    Some(true)
}

// Many clients on a new set whose device fails for good after so many calls. Whether it came to that.
fn halt<R: Wait + Clock + AllocGlobal + Abort>(rt: &R, passes: u64) -> Option<bool> {
    let alloc = rt.alloc();
    let scripts = all_scripts(alloc, LINES)?;
    let network = network_of(alloc, scripts.as_slice(), passes.wrapping_add(1))?;
    let mut disk = made(alloc, 64)?;
    disk.fuse(passes.wrapping_add(OPENING));
    let ended = serve_on(rt, disk, &network, u64::MAX)?;
    let Ended {
        passes: left,
        halted,
        accepted,
        parted,
        answered: _,
        halts,
        disk,
    } = ended;
    assert!(rt; parted == accepted, "after {passes}");
    let mut disk = disk;
    disk.stop();
    let keys = keys_in(alloc, disk)?;
    assert!(rt; left == PASSES && (halts == 1) == halted, "after {passes}");
    assert!(rt;
        are_kept(alloc, &network, scripts.as_slice(), keys.as_slice(), LINES)?,
        "after {passes}"
    );
    Some(halted)
}

#[test]
fn a_failed_device_ends_the_loop_and_what_was_told_stays(rt: HostRuntime) -> Result<(), Fail> {
    let mut halts = 0u64;
    for passes in 0..60 {
        let halted = halt(&rt, passes);
        assert!(rt; halted.is_some(), "after {passes}");
        if halted == Some(true) {
            halts = halts.wrapping_add(1);
        }
    }
    assert!(rt; halts == 60, "{halts}");
    Ok(())
}

// How many commands all clients were answered. A line that is none is told `bad 2`, and one of which nothing was done `stopping`.
fn all_commands(network: &RefCell<Network>) -> Option<u64> {
    let network = network.try_borrow().ok()?;
    let mut all = 0u64;
    for side in network.sides.iter() {
        let told = side.told.as_slice();
        let lines = told.iter().filter(|byte| **byte == b'\n').count() as u64;
        let others = told
            .iter()
            .filter(|byte| **byte == b'b' || **byte == b'g')
            .count() as u64;
        all = all.wrapping_add(lines.saturating_sub(others));
    }
    Some(all)
}

// Many clients on a new set whose service is to end after so many replies. Each reply was sent, and the keys are those of these. Whatever was
// read and not begun is told so.
fn stop<R: Wait + Clock + AllocGlobal + Abort>(rt: &R, replies: u64) -> Option<()> {
    let alloc = rt.alloc();
    let scripts = all_scripts(alloc, LINES)?;
    let network = network_of(alloc, scripts.as_slice(), replies.wrapping_add(1))?;
    let ended = serve_on(rt, made(alloc, 64)?, &network, replies)?;
    let Ended {
        passes,
        halted,
        accepted,
        parted,
        answered,
        halts,
        disk,
    } = ended;
    assert!(rt;
        passes == PASSES && !halted && parted == accepted && halts == 0,
        "after {replies}"
    );
    let told = all_commands(&network)?;
    assert!(rt;
        told == answered && answered >= replies,
        "{told} of {answered} after {replies}"
    );
    let keys = keys_in(alloc, disk)?;
    assert!(rt;
        are_kept(alloc, &network, scripts.as_slice(), keys.as_slice(), 0)?,
        "after {replies}"
    );
    Some(())
}

#[test]
fn a_service_that_is_to_end_sends_each_reply(rt: HostRuntime) -> Result<(), Fail> {
    for replies in 0..60 {
        assert!(rt; stop(&rt, replies).is_some(), "after {replies}");
    }
    Ok(())
}
