//! Lists: walks, node locks, members, pin words, and the flags that stages settle.
ghost use Rattle.std.specs.Prelude.{◌≡◌, IfOk, length};

use lz_flush::{Need, Ticket, covered, may_answer, settle};
use lz_list::{Flags, Hop, LinkWord, List, Met, Place, Walk, Word, Words, link_of, next_pin};
use lz_slot::{Key, Slot};
use lz_vault::Stage;
use std::alloc::Global;
use std::process::Abort;
use std::test::Fail;

const ADDED: Flags = Flags {
    mark: false,
    add_settled: true,
    remove_settled: false,
};

// Loads a word, which has to be one of the table.
fn load(rt: &impl Abort, words: &Words, word: Word) -> u64 {
    match word {
        Word::Head(bucket) if bucket < words.buckets() => words.get(Word::Head(bucket)),
        Word::Link(slot) if (slot.index() as usize) < words.slots() => words.get(Word::Link(slot)),
        Word::Key(slot) if (slot.index() as usize) < words.slots() => words.get(Word::Key(slot)),
        _ => panic!(rt; "no such word"),
    }
}

// Stores a word, which has to be one of the table.
fn store(rt: &impl Abort, words: &mut Words, word: Word, value: u64) {
    match word {
        Word::Head(bucket) if bucket < words.buckets() => words.set(Word::Head(bucket), value),
        Word::Link(slot) if (slot.index() as usize) < words.slots() => words.set(
            Word::Link(slot),
            value,
        ),
        Word::Key(slot) if (slot.index() as usize) < words.slots() => words.set(
            Word::Key(slot),
            value,
        ),
        _ => panic!(rt; "no such word"),
    }
}

// A linked node: its key, and the next link after it.
fn store_node(rt: &impl Abort, words: &mut Words, slot: u32, key: u64, next: u32) {
    store(rt, words, Word::Key(Slot::new(slot)), key);
    let link = LinkWord { next, flags: ADDED };
    store(rt, words, Word::Link(Slot::new(slot)), link.word());
}

// 10 in slot 0 and 20 in slot 1, in one bucket.
fn two_nodes(rt: &impl Abort, alloc: Global) -> Result<Words, Fail> {
    let mut words = Words::new(alloc, 2, 1, 1)?;
    store(rt, &mut words, Word::Head(0), 1);
    store_node(rt, &mut words, 0, 10, 2);
    store_node(rt, &mut words, 1, 20, 0);
    Ok(words)
}

// The list of these words, which has to have so many buckets and slots.
fn list_of(
    rt: &impl Abort,
    alloc: Global,
    words: Words,
    buckets: usize,
    slots: usize,
) -> Result<List, Fail>
    ensures { IfOk result (λ list. (length list.words.heads ≡ buckets) × (length list.words.links ≡ slots)) }
{
    assert!(rt; words.is_sorted());
    assert!(rt; words.buckets() == buckets);
    assert!(rt; words.slots() == slots);
    Ok(List::new(alloc, words)?)
}

// One hop of a walk over a table.
fn hop(rt: &impl Abort, walk: &mut Walk, words: &Words) -> Hop {
    assert!(rt; walk.buckets >= 1);
    let value = load(rt, words, walk.wants());
    assert!(rt; link_of(value).next <= 65_536);
    walk.hop(value)
}

#[test]
fn a_walk_ends_before_the_first_key_above_its_own(rt: HostRuntime) -> Result<(), Fail> {
    let words = two_nodes(&rt, rt.alloc())?;
    let key = Key::new(15).expect(&rt, "a key");
    let mut walk = Walk::start(key, 1);
    for wanted in [
        Word::Head(0),
        Word::Key(Slot::new(0)),
        Word::Link(Slot::new(0)),
    ] {
        assert!(rt; walk.buckets >= 1);
        assert_eq!(rt; walk.wants(), wanted);
        assert_eq!(rt; hop(&rt, &mut walk, &words), Hop::More);
    }
    assert!(rt; walk.buckets >= 1);
    assert_eq!(rt; walk.wants(), Word::Key(Slot::new(1)));
    let end = Hop::End {
        pred: Place::Node(Slot::new(0)),
        curr: Some(Slot::new(1)),
        met: Met::Absent,
    };
    assert_eq!(rt; hop(&rt, &mut walk, &words), end);
    Ok(())
}

#[test]
fn a_marked_place_fails_its_check(rt: HostRuntime) -> Result<(), Fail> {
    let mut list = list_of(&rt, rt.alloc(), two_nodes(&rt, rt.alloc())?, 1, 2)?;
    let (first, second) = (Slot::new(0), Slot::new(1));
    assert!(rt; list.claim(1, Place::Bucket(0), Some(first)));
    assert!(rt;
        !list.claim(2, Place::Node(first), Some(second)),
        "one lock is taken"
    );
    assert!(rt; list.check(Place::Bucket(0), Some(first)));
    list.mark(first);
    list.release(Place::Bucket(0), Some(first));
    assert!(rt; list.claim(2, Place::Node(first), Some(second)));
    assert!(rt; !list.check(Place::Node(first), Some(second)));
    Ok(())
}

// 65,536 slots in 4,096 buckets: the key of each slot is its number.
fn full_table(rt: &impl Abort, alloc: Global) -> Result<Words, Fail> {
    let mut words = Words::new(alloc, 65_536, 4096, 64)?;
    for bucket in 0..4096 {
        store(rt, &mut words, Word::Head(bucket), bucket as u64 + 1);
    }
    for slot in 0..65_536u32 {
        let next = if slot < 61_440 { slot + 4097 } else { 0 };
        store_node(rt, &mut words, slot, slot as u64, next);
    }
    Ok(words)
}

#[test]
fn a_full_table_has_each_key_until_it_is_marked(rt: HostRuntime) -> Result<(), Fail> {
    let mut list = list_of(&rt, rt.alloc(), full_table(&rt, rt.alloc())?, 4096, 65_536)?;
    has_each(&rt, &list);
    mark_every_third(&rt, &mut list);
    has_the_others(&rt, &list);
    Ok(())
}

// The list of a full table has the key of each slot, and not the next one.
fn has_each(rt: &impl Abort, list: &List) {
    for number in 0..65_537u64 {
        let key = Key::new(number).expect(rt, "a key");
        assert_eq!(rt; list.member(key), number < 65_536, "at {number}");
    }
}

// Once every third node is marked, it has the keys of the others.
fn has_the_others(rt: &impl Abort, list: &List) {
    for number in 0..65_536u64 {
        let key = Key::new(number).expect(rt, "a key");
        assert_eq!(rt; list.member(key), number % 3 != 0, "at {number}");
    }
}

// Marks every third node of the list of a full table.
fn mark_every_third(rt: &impl Abort, list: &mut List) {
    for number in 0..65_536u32 {
        assert!(rt; list.words().slots() == 65_536);
        if number % 3 == 0 {
            list.mark(Slot::new(number));
        }
    }
}

#[test]
fn a_table_whose_keys_do_not_ascend_is_not_sorted(rt: HostRuntime) -> Result<(), Fail> {
    let mut words = two_nodes(&rt, rt.alloc())?;
    store(&rt, &mut words, Word::Key(Slot::new(1)), 10);
    assert!(rt; !words.is_sorted());
    Ok(())
}

#[test]
fn pins_count_up_to_the_last(rt: HostRuntime) {
    assert_eq!(rt;
        next_pin(4_611_686_018_427_387_903),
        Some(4_611_686_018_427_387_904)
    );
    assert_eq!(rt; next_pin(4_611_686_018_427_387_904), None);
}

#[test]
fn a_stage_settles_what_is_sure(rt: HostRuntime) {
    let fresh = link_of(7).flags;
    assert_eq!(rt; settle(Stage::Opening, fresh), fresh);
    assert_eq!(rt; settle(Stage::Open, fresh), ADDED);
    assert_eq!(rt; may_answer(fresh), Need::Sync);
    assert_eq!(rt; may_answer(ADDED), Need::Now);
    assert!(rt; !covered(Ticket::at(3), 3));
    assert!(rt; covered(Ticket::at(3), 4));
}
