//! Threads that glance at a board while its pen links, settles, marks and unlinks a key.
ghost use Rattle.std.specs.Prelude.{◌≡◌, ◌≤◌, All};
ghost use Rattle.lz_board.specs.Seats.{id_of};
ghost use Rattle.test_threads.specs.NineFound.{at_open, link_stored, when_settled, HasPublished, MayLook};

use crate::boards::{SETTLED, Store, key, link, new_board, prepare, publish, sees, settle};
use lz_board::{Board, Glance, Pass, Pen};
use lz_list::{Change, Publishing, Word};
use lz_machine::Event;
use lz_slot::{Key, Slot};
use std::alloc::Global;
use std::sync::Wait;
use std::sync::atomic::{AtomicBool, AtomicU64, Ordering};
use std::test::Fail;
use std::thread;
use std::thread::Threads;
use std::time::{Duration, Instant};

// The link word of a marked node without a successor, whose adding is settled, and that of one whose removal is settled as well.
const MARKED: u64 = 12_884_901_888;

const REMOVED: u64 = 30_064_771_072;

/// What the pen and the four watchers tell one another.
#[derive(Drop)]
struct Signals {
    // How many stores the pen has told of.
    stores: AtomicU64,
    // How often a watcher has looked since it was told of a store, or of none yet.
    looks: AtomicU64,
    // Nobody waits for a watcher any more.
    is_given_up: AtomicBool,
}

// The pen tells how much it has stored, and waits until each watcher has looked since.
fn tell(signals: &Signals, stores: u64)
    requires { stores ≤ 5 }
{
    signals.stores.store(stores, Ordering::SeqCst);
    let wanted = 4 * (stores + 1);
    for _ in 0..u64::MAX {
        let looks = signals.looks.load(Ordering::SeqCst);
        if looks >= wanted || signals.is_given_up.load(Ordering::SeqCst) {
            break;
        }
        thread::yield_now();
    }
}

// It links the key after key 9, and settles that.
fn add(board: &Board, pen: &mut Pen, pass: &mut Pass, slot: Slot, twelve: Key, signals: &Signals)
    requires here { HasPublished (id_of board.now) pen.old pass.old link_stored }
    requires slot { slot ≡ 1 }
    requires twelve { twelve ≡ 12 }
    ensures here { HasPublished (id_of board.now) pen.new pass.new (when_settled pass.old.number) }
    ensures number { pass.new.number ≡ pass.old.number }
{
    link(board, pen, pass, slot, twelve);
    tell(signals, 1);
    settle(board, pen, pass, slot);
    tell(signals, 2);
}

// It marks the key, settles that, and unlinks the key.
fn unlink(board: &Board, pen: &mut Pen, pass: &mut Pass, slot: Slot, twelve: Key, signals: &Signals)
    requires here { HasPublished (id_of board.now) pen.old pass.old (when_settled pass.old.number) }
    requires slot { slot ≡ 1 }
    requires twelve { twelve ≡ 12 }
{
    let owner = pass.number();
    let marked = Store {
        word: Word::Link(slot),
        old: SETTLED,
        new: MARKED,
        event: Event::Mark,
        publishing: Publishing::Marked(twelve, slot, owner),
    };
    publish(board, pen, pass, marked);
    tell(signals, 3);
    let settled = Store {
        word: Word::Link(slot),
        old: MARKED,
        new: REMOVED,
        event: Event::Settle(slot),
        publishing: Publishing::Settled(slot, Change::Removed),
    };
    publish(board, pen, pass, settled);
    tell(signals, 4);
    let unlinked = Store {
        word: Word::Link(Slot::new(0)),
        old: SETTLED + 2,
        new: SETTLED,
        event: Event::Unlink,
        publishing: Publishing::Unlinked(twelve, slot, owner),
    };
    publish(board, pen, pass, unlinked);
    tell(signals, 5);
}

/// The keys that are looked for: one that is never a member, one that always is, and one that comes and goes, in this slot.
#[derive(Clone, Copy)]
struct Keys {
    eight: Key,
    nine: Key,
    twelve: Key,
    slot: Slot,
}

// Where this stands, from there on, among what may be seen of the key that comes and goes, in the order of time. None where it
// doesn't.
fn sight_from(from: usize, slot: Slot, sight: Glance) -> Option<usize> {
    let sights = [
        Glance::No,
        Glance::Unsettled(slot),
        Glance::Yes,
        Glance::Unsettled(slot),
        Glance::No,
    ];
    let mut later = sights.iter().enumerate().skip(from);
    let (at, _) = later.find(|(_, known)| **known == sight)?;
    Some(at)
}

// Looks for each key. Says how far the key that comes and goes has come, from there on; None where something was seen that
// isn't so.
fn look(board: &Board, pass: &mut Pass, keys: &Keys, from: usize) -> Option<usize>
    requires { MayLook (id_of board.now) pass.old }
    ensures { MayLook (id_of board.now) pass.new }
{
    let is_nine = sees(board, pass, keys.nine, Ok(Glance::Yes));
    let is_eight = !sees(board, pass, keys.eight, Ok(Glance::No));
    let twelve = board.glance(pass, keys.twelve);
    if !is_nine || is_eight {
        return None;
    }
    sight_from(from, keys.slot, twelve.ok()?)
}

// Looks until the pen has told of so many stores, and once more since.
fn look_until(
    board: &Board,
    pass: &mut Pass,
    keys: &Keys,
    signals: &Signals,
    stores: usize,
    from: usize,
) -> Option<usize>
    requires { MayLook (id_of board.now) pass.old }
    ensures { MayLook (id_of board.now) pass.new }
{
    let mut from = from;
    for _ in 0..u64::MAX {
        let is_told = signals.stores.load(Ordering::SeqCst) >= stores as u64;
        from = look(board, pass, keys, from)?;
        if is_told {
            return Some(from);
        }
        thread::yield_now();
    }
    None
}

// Looks all the while, and once it is told of a store finds it made; an unlinking isn't to be seen. Says whether all that
// was seen is so.
fn watch(board: &Board, pass: Pass, keys: &Keys, signals: &Signals) -> bool
    requires { MayLook (id_of board.now) pass }
{
    let mut pass = pass;
    let mut from = 0;
    for stores in 0..6 {
        let seen = look_until(board, &mut pass, keys, signals, stores, from);
        from = stores.min(4);
        if seen != Some(from) {
            signals.is_given_up.store(true, Ordering::SeqCst);
            return false;
        }
        signals.looks.fetch_add(1, Ordering::SeqCst);
    }
    true
}

// Once all have looked, the key comes and goes.
fn work(board: &Board, pen: Pen, pass: Pass, keys: &Keys, signals: &Signals)
    requires here { HasPublished (id_of board.now) pen pass at_open }
    requires slot { keys.now.slot ≡ 1 }
    requires twelve { keys.now.twelve ≡ 12 }
{
    tell(signals, 0);
    let (mut pen, mut pass) = (pen, pass);
    prepare(board, &mut pen, &mut pass, keys.slot, keys.twelve);
    add(board, &mut pen, &mut pass, keys.slot, keys.twelve, signals);
    unlink(board, &mut pen, &mut pass, keys.slot, keys.twelve, signals);
}

// A thread for each of the watchers, and the pen beside them. Says whether all four saw only what is so.
fn meet<R: Threads + Wait + Sync>(
    rt: &R,
    alloc: Global,
    board: &Board,
    pen: Pen,
    pass: Pass,
    watchers: Vec<Pass>,
    keys: &Keys,
    signals: &Signals,
) -> bool
    requires here { HasPublished (id_of board.now) pen pass at_open }
    requires watchers { All (MayLook (id_of board.now)) watchers.items }
    requires slot { keys.now.slot ≡ 1 }
    requires twelve { keys.now.twelve ≡ 12 }
{
    thread::scope(
        thread::scope_env(),
        rt,
        move |scope| -> bool
            requires here { HasPublished (id_of board.now) pen pass at_open }
            requires watchers { All (MayLook (id_of board.now)) watchers.items }
            requires slot { keys.now.slot ≡ 1 }
            requires twelve { keys.now.twelve ≡ 12 }
        {
            let mut threads = Vec::new(alloc);
            for watcher in watchers {
                let thread = scope.spawn(
                    move || -> bool
                        requires { MayLook (id_of board.now) watcher }
                    { watch(board, watcher, keys, signals) },
                );
                if let Ok(thread) = thread {
                    let _ = threads.push(thread);
                }
            }
            let mut is_lawful = threads.len() == 4;
            if !is_lawful {
                signals.is_given_up.store(true, Ordering::SeqCst);
            }
            work(board, pen, pass, keys, signals);
            for thread in threads {
                is_lawful = thread.join(rt) && is_lawful;
            }
            is_lawful
        },
    )
}

// One key comes and goes on a new board, with four watchers.
fn round<R: Threads + Wait + Sync>(rt: &R, alloc: Global, keys: &Keys) -> Option<bool>
    requires slot { keys.now.slot ≡ 1 }
    requires twelve { keys.now.twelve ≡ 12 }
{
    let (board, pen, pass, watchers) = new_board(alloc)?;
    let signals = Signals {
        stores: AtomicU64::new(0),
        looks: AtomicU64::new(0),
        is_given_up: AtomicBool::new(false),
    };
    Some(meet(rt, alloc, &board, pen, pass, watchers, keys, &signals))
}

// For a second, on one board after the other.
#[test]
fn four_threads_glance(rt: HostRuntime) -> Result<(), Fail> {
    let keys = Keys {
        eight: key(&rt, 8),
        nine: key(&rt, 9),
        twelve: key(&rt, 12),
        slot: Slot::new(1),
    };
    let start = Instant::now(&rt)?;
    for _ in 0..u64::MAX {
        let is_lawful = round(&rt, rt.alloc(), &keys);
        assert!(rt; is_lawful == Some(true));
        if start.elapsed(&rt)? >= Duration::from_secs(1) {
            break;
        }
    }
    Ok(())
}
