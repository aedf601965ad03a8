//! A room that is cleared: its client asks a service that is a list of slots.
use lz_proto::{Reply, Request};
use lz_resp::{Clearing, Frames, Item, Naming, Scan, push_reply};
use lz_slot::{Key, Slot};
use std::alloc::Global;
use std::collections::VecDeque;
use std::test::Fail;

const SLOTS: u64 = 900;

#[test]
fn a_clearing_removes_each_key_of_its_room(rt: HostRuntime) -> Result<(), Fail> {
    let alloc = rt.alloc();
    let mut slots = slots(alloc)?;
    let mut clearing = Clearing::new(alloc, 3)?;
    let mut frames = Frames::new(alloc, Naming::Rooms);
    let mut items = VecDeque::new(alloc);
    for _ in 0..1_000 {
        if clearing.is_over() {
            break;
        }
        frames.feed_into(clearing.unsent(), &mut items)?;
        let count = clearing.unsent().len();
        clearing.sent(count);
        let Some(item) = items.pop_front() else {
            return Err("a frame".into());
        };
        let reply = reply_to(alloc, &item, &mut slots)?;
        // It comes in two pieces.
        let (front, rest) = reply.as_slice().split_at(reply.len() / 2);
        if clearing.hear(front).is_err() || clearing.hear(rest).is_err() {
            return Err("a reply".into());
        }
    }
    assert!(rt; clearing.is_over());
    assert_eq!(rt; clearing.removed(), 300);
    assert!(rt; slots.iter().flatten().all(|key| key.room() != 3));
    assert_eq!(rt; slots.iter().flatten().count(), 600);
    Ok(())
}

#[test]
fn a_clearing_takes_no_error_for_a_reply(rt: HostRuntime) -> Result<(), Fail> {
    let mut clearing = Clearing::new(rt.alloc(), 3)?;
    assert!(rt; clearing.unsent() == b"SSCAN 3 0 COUNT 256\r\n".as_slice());
    assert!(rt; clearing.hear(b"*2\r\n$1\r\n0\r\n*1\r\n$1\r\n7\r\n").is_ok());
    assert!(rt; clearing.unsent() == b"*3\r\n$4\r\nSREM\r\n$1\r\n3\r\n$1\r\n7\r\n".as_slice());
    assert!(rt; clearing.hear(b"-ERR the service stops\r\n").is_err());
    assert!(rt; !clearing.is_over() && clearing.removed() == 0);
    Ok(())
}

// Keys of the rooms 2, 3 and 4 by turns.
fn slots(alloc: Global) -> Result<Vec<Option<Key>>, Fail> {
    let mut slots = Vec::new(alloc);
    for number in 0..SLOTS {
        slots.push(Key::in_room(2 + (number % 3) as u8, number))?;
    }
    Ok(slots)
}

// What the service replies to a page that is asked for, or a removal.
fn reply_to(alloc: Global, item: &Item, slots: &mut [Option<Key>]) -> Result<Vec<u8>, Fail> {
    match item {
        Item::Lists(scan) => page(alloc, *scan, slots),
        Item::Asks(form, requests) => {
            let mut text = Vec::new(alloc);
            let mut replies = Vec::new(alloc);
            for request in requests.as_slice() {
                replies.push(removed(request, slots))?;
            }
            push_reply(&mut text, *form, replies.as_slice())?;
            Ok(text)
        }
        _ => Err("a page, or a removal".into()),
    }
}

// The page of some slots.
fn page(alloc: Global, scan: Scan, slots: &[Option<Key>]) -> Result<Vec<u8>, Fail> {
    let from = scan.from.index() as usize;
    let end = from.saturating_add(scan.most);
    let mut keys = Vec::new(alloc);
    for key in slots.iter().skip(from).take(scan.most).flatten() {
        keys.push(*key)?;
    }
    let next = if end < slots.len() {
        u32::try_from(end).ok().map(Slot::new)
    } else {
        None
    };
    let text = scan.text(alloc, keys.as_slice(), next)?;
    Ok(Vec::from_slice(alloc, text.as_bytes())?)
}

// Whether the key was there that is to be removed.
fn removed(request: &Request, slots: &mut [Option<Key>]) -> Reply {
    let Request::Remove(key) = request else {
        return Reply::Halted;
    };
    for slot in slots {
        if *slot == Some(*key) {
            *slot = None;
            return Reply::Yes;
        }
    }
    Reply::No
}
