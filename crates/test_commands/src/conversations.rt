//! The lines of a conversation, and the room that it keeps.
use lz_proto::{Reply, Request};
use lz_resp::{Figures, Naming, Query};
use lz_serve::{Conversation, Language};
use std::test::Fail;

/// How many lines the longest piece has.
const LINES: usize = 4_095;

/// How many bytes a turn takes, with a request and its reply, and the room of an unfinished line.
const EXCHANGE: usize = 96;

const LINE: usize = 66;

/// How many bytes a conversation keeps that has nothing to do.
const LITTLE: usize = 256;

#[test]
fn lines_of_other_keys_are_handed_out_together_and_told_in_order(
    rt: HostRuntime,
) -> Result<(), Fail> {
    let mut talk = Conversation::new(rt.alloc(), Language::Lines);
    talk.feed(b"add 1\nadd 2\nhas 1\n".as_slice())?;
    let first = talk.next()?;
    let second = talk.next()?;
    assert!(rt; first.is_some() && second.is_some() && talk.next()?.is_none());
    if let Some(request) = second {
        assert!(rt; talk.note(2, request, Reply::No));
    }
    assert!(rt; !talk.tell()?);
    if let Some(request) = first {
        assert!(rt; talk.note(1, request, Reply::Yes));
    }
    assert!(rt; talk.tell()? && talk.tell()? && !talk.tell()?);
    assert!(rt; talk.unsent() == b"yes\nno\n".as_slice());
    assert!(rt; matches!(talk.next()?, Some(Request::Has(_))));
    Ok(())
}

#[test]
fn the_members_of_a_frame_are_told_together(rt: HostRuntime) -> Result<(), Fail> {
    let mut talk = Conversation::new(rt.alloc(), Language::Frames(Naming::Rooms));
    talk.feed(b"sadd 0 1 2\r\nping\r\n*3\r\n$9\r\nSISMEMBER\r\n$1\r\n0\r\n".as_slice())?;
    talk.feed(b"$1\r\n1\r\nquit\r\nping\r\n".as_slice())?;
    let first = talk.next()?.ok_or("a request")?;
    let second = talk.next()?.ok_or("a request")?;
    assert!(rt; talk.next()?.is_none());
    assert!(rt; talk.note(2, second, Reply::Yes) && !talk.tell()?);
    assert!(rt; talk.note(1, first, Reply::Yes));
    assert!(rt; talk.tell()? && talk.tell()? && !talk.tell()?);
    assert!(rt; talk.unsent() == b":2\r\n+PONG\r\n".as_slice());
    let third = talk.next()?.ok_or("a request")?;
    assert!(rt; matches!(third, Request::Has(_)) && talk.note(3, third, Reply::No));
    assert!(rt; talk.tell()? && talk.tell()? && !talk.tell()?);
    assert!(rt; talk.unsent() == b":2\r\n+PONG\r\n:0\r\n+OK\r\n".as_slice());
    assert!(rt; talk.is_over());
    Ok(())
}

#[test]
fn the_first_byte_of_a_text_tells_its_language(rt: HostRuntime) -> Result<(), Fail> {
    let mut framed = Conversation::new(rt.alloc(), Language::Either(Naming::Rooms));
    framed.feed(b"".as_slice())?;
    framed.feed(b"*".as_slice())?;
    framed.feed(b"1\r\n$4\r\nPING\r\nping\r\n".as_slice())?;
    assert!(rt; framed.tell()? && framed.tell()? && !framed.tell()?);
    assert!(rt; framed.unsent() == b"+PONG\r\n+PONG\r\n".as_slice());
    let mut lined = Conversation::new(rt.alloc(), Language::Either(Naming::Rooms));
    lined.feed(b"p".as_slice())?;
    lined.feed(b"ing\n*1\n".as_slice())?;
    assert!(rt; lined.tell()? && lined.tell()? && !lined.tell()?);
    assert!(rt; lined.unsent() == b"bad 2\nbad 2\n".as_slice());
    Ok(())
}

#[test]
fn the_service_itself_is_asked_in_turn(rt: HostRuntime) -> Result<(), Fail> {
    let mut talk = Conversation::new(rt.alloc(), Language::Frames(Naming::Rooms));
    talk.feed(b"sadd 0 1\r\ndbsize\r\nsadd 0 2\r\nshutdown\r\nping\r\n".as_slice())?;
    let first = talk.next()?.ok_or("a request")?;
    let second = talk.next()?.ok_or("a request")?;
    assert!(rt; talk.note(2, second, Reply::Yes) && !talk.tell()? && talk.query().is_none());
    assert!(rt; talk.note(1, first, Reply::Yes) && talk.tell()? && !talk.tell()?);
    let figures = Figures {
        stoppable: true,
        members: 7,
        ..Figures::default()
    };
    assert!(rt; talk.query() == Some(Query::Size) && !talk.tell_text()?);
    assert!(rt; talk.tell_query(&figures)? && !talk.tell_query(&figures)?);
    assert!(rt; talk.tell()? && talk.query() == Some(Query::Shutdown));
    assert!(rt; talk.tell_query(&figures)? && talk.is_over());
    assert!(rt; talk.query().is_none() && !talk.tell()? && !talk.tell_text()?);
    assert!(rt; talk.unsent() == b":1\r\n:7\r\n:1\r\n".as_slice());
    Ok(())
}

#[test]
fn a_stop_refuses_each_line_that_was_not_begun(rt: HostRuntime) -> Result<(), Fail> {
    let mut talk = Conversation::new(rt.alloc(), Language::Lines);
    talk.feed(b"add 1\nlook\nhas 2\nlook\n".as_slice())?;
    let first = talk.next()?.ok_or("a request")?;
    talk.stop()?;
    talk.feed(b"remove 1\nquit\nadd 2\n".as_slice())?;
    assert!(rt; talk.next()?.is_none() && !talk.tell()?);
    assert!(rt; talk.note(1, first, Reply::Yes));
    for _ in 0..6 {
        assert!(rt; talk.tell()?);
    }
    assert!(rt; talk.unsent() == b"yes\nbad 2\nstopping\nbad 2\nstopping\n".as_slice());
    assert!(rt; talk.is_over() && talk.next()?.is_none());
    Ok(())
}

#[test]
fn a_stop_leaves_no_frame_half_done(rt: HostRuntime) -> Result<(), Fail> {
    let mut talk = Conversation::new(rt.alloc(), Language::Frames(Naming::Rooms));
    talk.feed(b"sadd 0 1 2\r\nsadd 0 3 4\r\nsscan 0 0\r\nping\r\n".as_slice())?;
    let first = talk.next()?.ok_or("a request")?;
    talk.stop()?;
    let second = talk.next()?.ok_or("a request")?;
    assert!(rt; talk.next()?.is_none() && talk.scan().is_none());
    assert!(rt; talk.note(1, first, Reply::Yes) && talk.note(2, second, Reply::No));
    for _ in 0..4 {
        assert!(rt; talk.tell()?);
    }
    assert!(rt;
        talk.unsent()
            == b":1\r\n-ERR stopping; nothing was done\r\n-ERR stopping; nothing was done\r\n+PONG\r\n".as_slice()
    );
    Ok(())
}

#[test]
fn a_conversation_with_nothing_to_do_keeps_little_room(rt: HostRuntime) -> Result<(), Fail> {
    let mut talk = Conversation::new(rt.alloc(), Language::Lines);
    let piece = [b'\n'; LINES];
    talk.feed(piece.as_slice())?;
    for _ in 0..LINES {
        assert!(rt; talk.tell()?);
    }
    let (items, text) = talk.room();
    assert!(rt; items >= LINES && text >= 6 * LINES);
    let unsent = talk.unsent().len();
    assert_eq!(rt; unsent, 6 * LINES);
    talk.sent(unsent);
    talk.rest();
    let (items, text) = talk.room();
    assert!(rt; items <= 3 && text <= 64);
    assert!(rt; EXCHANGE + 64 + LINE <= LITTLE);
    Ok(())
}
