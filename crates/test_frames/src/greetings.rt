//! What clients send as they start, in the order in which they do.
use crate::frames::is_saying;
use lz_resp::{Frames, Naming};
use std::collections::VecDeque;
use std::test::Fail;

#[test]
fn clients_are_greeted(rt: HostRuntime) -> Result<(), Fail> {
    let mut frames = Frames::new(rt.alloc(), Naming::Rooms);
    let mut items = VecDeque::new(rt.alloc());
    frames.feed_into(
        b"HELLO 3\r\nclient SETINFO LIB-NAME redis-py\r\n",
        &mut items,
    )?;
    frames.feed_into(
        b"CONFIG GET save\r\nCOMMAND DOCS\r\ncommand count\r\n",
        &mut items,
    )?;
    frames.feed_into(b"CLIENT GETNAME\r\nCLIENT ID\r\nRESET\r\n", &mut items)?;
    let replies: [&[u8]; 8] = [
        b"-NOPROTO unsupported protocol version\r\n",
        b"+OK\r\n",
        b"*0\r\n",
        b"*0\r\n",
        b":27\r\n",
        b"$-1\r\n",
        b"-ERR unknown subcommand 'ID'. Try CLIENT HELP.\r\n",
        b"+RESET\r\n",
    ];
    for reply in replies.as_slice() {
        let item = items.pop_front().ok_or("an item")?;
        assert!(rt; is_saying(&item, reply));
    }
    assert!(rt; items.is_empty());
    Ok(())
}
