//! Frames that come byte by byte, at their limits, and out of memory.
use lz_proto::{Reply, Request};
use lz_resp::{Form, Frames, Item, Naming, push_reply};
use lz_slot::Key;
use std::collections::VecDeque;
use std::test::Fail;

/// A frame of each kind, and one after the last.
const TEXT: &[u8] =
    b"*4\r\n$4\r\nSADD\r\n$1\r\n3\r\n$2\r\n17\r\n$1\r\n5\r\nselect 9\r\n*2\r\n$6\r\nEXISTS\r\n$1\r\n4\r\n\r\n*0\r\n*1\r\n$4\r\nQUIT\r\nPING\r\n";

#[test]
fn frames_that_come_byte_by_byte_are_given(rt: HostRuntime) -> Result<(), Fail> {
    let mut frames = Frames::new(rt.alloc(), Naming::Rooms);
    let mut items = VecDeque::new(rt.alloc());
    for byte in TEXT {
        frames.feed_into(&[*byte], &mut items)?;
        frames.rest();
    }
    assert_eq!(rt; items.len(), 4);
    let first = Key::in_room(3, 17).ok_or("a key")?;
    let second = Key::in_room(3, 5).ok_or("a key")?;
    let third = Key::in_room(9, 4).ok_or("a key")?;
    let added = items.pop_front().ok_or("an item")?;
    let asked = [Request::Add(first), Request::Add(second)];
    assert!(rt; is_asking(&added, Form::Added, asked.as_slice()));
    let selected = items.pop_front().ok_or("an item")?;
    assert!(rt; is_saying(&selected, b"+OK\r\n"));
    let found = items.pop_front().ok_or("an item")?;
    assert!(rt; is_asking(&found, Form::Found, [Request::Has(third)].as_slice()));
    let last = items.pop_front().ok_or("an item")?;
    assert!(rt; is_last(&last, b"+OK\r\n"));
    Ok(())
}

#[test]
fn a_frame_has_many_words_and_not_more(rt: HostRuntime) -> Result<(), Fail> {
    let mut frames = Frames::new(rt.alloc(), Naming::Rooms);
    let mut items = VecDeque::new(rt.alloc());
    let key = Key::new(7).ok_or("a key")?;
    let mut text = Vec::from_slice(rt.alloc(), b"*8192\r\n$6\r\nEXISTS\r\n")?;
    let mut asked = Vec::new(rt.alloc());
    for _ in 0..8_191 {
        text.extend_from_slice(b"$1\r\n7\r\n")?;
        asked.push(Request::Has(key))?;
    }
    frames.feed_into(text.as_slice(), &mut items)?;
    let item = items.pop_front().ok_or("an item")?;
    assert!(rt; is_asking(&item, Form::Found, asked.as_slice()));
    frames.feed_into(b"*8193\r\n", &mut items)?;
    let item = items.pop_front().ok_or("an item")?;
    assert!(rt; is_last(&item, b"-ERR Protocol error: invalid multibulk length\r\n"));
    Ok(())
}

#[test]
fn a_line_without_an_end_is_kept_up_to_a_limit(rt: HostRuntime) -> Result<(), Fail> {
    let mut frames = Frames::new(rt.alloc(), Naming::Rooms);
    let mut items = VecDeque::new(rt.alloc());
    let piece = [b'x'; 4_096];
    for _ in 0..16 {
        frames.feed_into(piece.as_slice(), &mut items)?;
    }
    assert!(rt; items.is_empty());
    frames.feed_into(b"x", &mut items)?;
    assert!(rt; matches!(items.pop_front(), Some(Item::Ends(_))));
    Ok(())
}

#[test]
fn replies_are_told_in_their_forms(rt: HostRuntime) -> Result<(), Fail> {
    let replies = [Reply::Yes, Reply::No, Reply::Yes];
    let mut text = Vec::new(rt.alloc());
    push_reply(&mut text, Form::Removed, replies.as_slice())?;
    push_reply(&mut text, Form::Each, replies.as_slice())?;
    let full = [Reply::Yes, Reply::Full];
    push_reply(&mut text, Form::Added, full.as_slice())?;
    let told = b":2\r\n*3\r\n:1\r\n:0\r\n:1\r\n-FULL no slot is free; 1 of 2 were added\r\n";
    assert!(rt; text.as_slice() == told.as_slice());
    Ok(())
}

pub(crate) fn is_asking(item: &Item, form: Form, requests: &[Request]) -> bool {
    match item {
        Item::Asks(told, asked) => *told == form && asked.as_slice() == requests,
        _ => false,
    }
}

pub(crate) fn is_saying(item: &Item, text: &[u8]) -> bool {
    match item {
        Item::Says(told) => told.as_bytes() == text,
        _ => false,
    }
}

fn is_last(item: &Item, text: &[u8]) -> bool {
    match item {
        Item::Ends(told) => told.as_bytes() == text,
        _ => false,
    }
}
