//! What a service is asked of itself.
use lz_resp::{Cleared, Figures, Frames, Item, Naming, Query, Scan, Sections};
use lz_slot::{Key, Slot};
use std::collections::VecDeque;
use std::test::Fail;

#[test]
fn queries_are_told_by_the_service(rt: HostRuntime) -> Result<(), Fail> {
    let mut frames = Frames::new(rt.alloc(), Naming::Texts(None));
    let mut items = VecDeque::new(rt.alloc());
    frames.feed_into(
        b"dbsize\r\nINFO\r\nINFO keyspace\r\nSHUTDOWN NOSAVE\r\n",
        &mut items,
    )?;
    let texts: [&[u8]; 4] = [
        b":3\r\n",
        b"$588\r\n# Server\r\nredis_version:7.0.0\r\nredis_mode:standalone\r\nprocess_id:4711\r\nrun_id:0000000000000000000018446744073709551615\r\n\
uptime_in_seconds:60\r\n\r\n# Clients\r\nconnected_clients:2\r\nmaxclients:100\r\n\r\n# Memory\r\nused_memory:64\r\nmaxmemory:160\r\n\r\n\
# Stats\r\ntotal_connections_received:9\r\ntotal_commands_processed:14\r\ninstantaneous_ops_per_sec:7\r\n\r\n# Latencystats\r\n\
latency_percentiles_usec_reply:p50=96,p99=1280\r\n\r\n# Keyspace\r\ndb0:keys=3,expires=0,avg_ttl=0\r\n\r\n# Lazyset\r\n\
lazyset_version:1.8\r\nformat:2\r\nslots:10\r\nmembers:3\r\nfree:6\r\nbuckets:16\r\npasses:4\r\nloops:1\r\nadds:5\r\nremoves:2\r\n\
lookups:4\r\nfull:1\r\n\r\n",
        b"$44\r\n# Keyspace\r\ndb0:keys=3,expires=0,avg_ttl=0\r\n\r\n",
        b"-ERR SHUTDOWN is taken over a Unix socket alone\r\n",
    ];
    for text in texts.as_slice() {
        let Some(Item::Tells(query)) = items.pop_front() else {
            return Err("a query".into());
        };
        assert!(rt; query.text(rt.alloc(), &figures())?.as_bytes() == *text);
        assert!(rt; !query.ends_service(&figures()));
    }
    Ok(())
}

#[test]
fn a_service_ends_where_it_may(rt: HostRuntime) -> Result<(), Fail> {
    let figures = Figures {
        stoppable: true,
        members: 0,
        ..figures()
    };
    assert!(rt; Query::Shutdown.ends_service(&figures));
    assert!(rt;
        Query::Shutdown
            .text(rt.alloc(), &figures)?
            .as_bytes()
            .is_empty()
    );
    let keys = Query::Info(Sections::Keyspace).text(rt.alloc(), &figures)?;
    assert!(rt; keys.as_bytes() == b"$12\r\n# Keyspace\r\n\r\n".as_slice());
    Ok(())
}

#[test]
fn a_room_is_told_as_it_was_cleared(rt: HostRuntime) -> Result<(), Fail> {
    let mut frames = Frames::new(rt.alloc(), Naming::Rooms);
    let mut items = VecDeque::new(rt.alloc());
    frames.feed_into(b"SELECT 7\r\nlz.clear 3\r\n", &mut items)?;
    let _selected = items.pop_front();
    let Some(Item::Tells(Query::Clear(3))) = items.pop_front() else {
        return Err("room 3".into());
    };
    let outcomes: [(Cleared, &[u8]); 3] = [
        (Cleared::Removed(5), b":5\r\n"),
        (
            Cleared::Busy,
            b"-ERR a room is being cleared: try again after it\r\n",
        ),
        (
            Cleared::Stopped(2),
            b"-ERR the room isn't cleared: 2 of its keys were removed\r\n",
        ),
    ];
    for (cleared, text) in outcomes.as_slice() {
        let figures = Figures {
            cleared: *cleared,
            ..figures()
        };
        let told = Query::Clear(3).text(rt.alloc(), &figures)?;
        assert!(rt; told.as_bytes() == *text);
    }
    Ok(())
}

// Whether this is the next item, which asks for this page.
fn asks_for(item: Option<Item>, scan: &Scan) -> bool {
    match &item {
        Some(Item::Lists(asked)) => *asked == *scan,
        _ => false,
    }
}

#[test]
fn pages_are_of_the_room_that_is_named_or_of_all(rt: HostRuntime) -> Result<(), Fail> {
    let mut frames = Frames::new(rt.alloc(), Naming::Rooms);
    let mut items = VecDeque::new(rt.alloc());
    frames.feed_into(
        b"sscan 3 0\r\nSSCAN 3 512 COUNT 5000\r\nlz.scan 512 count 5000\r\n",
        &mut items,
    )?;
    let first = Scan {
        room: Some(3),
        from: Slot::new(0),
        most: 10,
    };
    let second = Scan {
        from: Slot::new(512),
        most: 256,
        ..first
    };
    assert!(rt; asks_for(items.pop_front(), &first));
    let all = Scan {
        room: None,
        ..second
    };
    assert!(rt; asks_for(items.pop_front(), &second));
    assert!(rt; asks_for(items.pop_front(), &all));
    let (Some(one), Some(other)) = (Key::in_room(3, 17), Key::in_room(2, 4)) else {
        return Err("keys".into());
    };
    let keys = [one, other];
    let text = first.text(rt.alloc(), keys.as_slice(), Some(Slot::new(512)))?;
    assert!(rt; text.as_bytes() == b"*2\r\n$3\r\n512\r\n*1\r\n$2\r\n17\r\n".as_slice());
    let text = all.text(rt.alloc(), keys.as_slice(), Some(Slot::new(512)))?;
    let told =
        b"*2\r\n$3\r\n512\r\n*2\r\n$19\r\n3000000000000000017\r\n$19\r\n2000000000000000004\r\n";
    assert!(rt; text.as_bytes() == told.as_slice());
    let text = second.text(rt.alloc(), &[], None)?;
    assert!(rt; text.as_bytes() == b"*2\r\n$1\r\n0\r\n*0\r\n".as_slice());
    Ok(())
}

fn figures() -> Figures {
    Figures {
        major: 1,
        minor: 8,
        process: 4_711,
        run: usize::MAX,
        seconds: 60,
        stoppable: false,
        clients: 2,
        most_clients: 100,
        sessions: 9,
        answered: 14,
        rate: 7,
        median_us: 96,
        p99_us: 1_280,
        adds: 5,
        removes: 2,
        lookups: 4,
        full: 1,
        format: 2,
        slots: 10,
        used_bytes: 64,
        most_bytes: 160,
        members: 3,
        marks: 1,
        buckets: 16,
        passes: 4,
        loops: 1,
        cleared: Cleared::Stopped(2),
    }
}
