//! Transactions, which are refused whole.
use crate::frames::{is_asking, is_saying};
use lz_proto::Request;
use lz_resp::{Form, Frames, Naming};
use lz_slot::Key;
use std::collections::VecDeque;
use std::test::Fail;

const REFUSED: &[u8] =
    b"-ERR transactions aren't served; nothing is done until EXEC or DISCARD\r\n";

#[test]
fn nothing_is_asked_until_a_transaction_ends(rt: HostRuntime) -> Result<(), Fail> {
    let mut frames = Frames::new(rt.alloc(), Naming::Rooms);
    let mut items = VecDeque::new(rt.alloc());
    // what redis-py sends for a pipeline, cut within its first word
    frames.feed_into(b"select 3\r\n*1\r\n$5\r\nMU", &mut items)?;
    frames.feed_into(
        b"LTI\r\nSADD 0 17\r\nselect 9\r\ndbsize\r\nexec\r\nexists 4\r\n",
        &mut items,
    )?;
    let replies: [&[u8]; 6] = [
        b"+OK\r\n",
        REFUSED,
        REFUSED,
        REFUSED,
        REFUSED,
        b"-EXECABORT Transaction discarded because of previous errors.\r\n",
    ];
    for reply in replies.as_slice() {
        let item = items.pop_front().ok_or("an item")?;
        assert!(rt; is_saying(&item, reply));
    }
    let found = items.pop_front().ok_or("an item")?;
    let key = Key::in_room(3, 4).ok_or("a key")?;
    assert!(rt; is_asking(&found, Form::Found, [Request::Has(key)].as_slice()));
    assert!(rt; items.is_empty());
    Ok(())
}

#[test]
fn a_transaction_is_discarded_or_reset(rt: HostRuntime) -> Result<(), Fail> {
    let mut frames = Frames::new(rt.alloc(), Naming::Texts(None));
    let mut items = VecDeque::new(rt.alloc());
    frames.feed_into(b"multi\r\ndiscard\r\nDISCARD\r\nEXEC\r\n", &mut items)?;
    frames.feed_into(b"MULTI\r\nMULTI\r\nreset\r\nping\r\n", &mut items)?;
    let replies: [&[u8]; 8] = [
        REFUSED,
        b"+OK\r\n",
        b"-ERR DISCARD without MULTI\r\n",
        b"-ERR EXEC without MULTI\r\n",
        REFUSED,
        REFUSED,
        b"+RESET\r\n",
        b"+PONG\r\n",
    ];
    for reply in replies.as_slice() {
        let item = items.pop_front().ok_or("an item")?;
        assert!(rt; is_saying(&item, reply));
    }
    assert!(rt; items.is_empty());
    Ok(())
}
