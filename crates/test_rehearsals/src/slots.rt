//! The allotting of slots: worked rows, and the queue beside plain records of what was seen.
ghost use Rattle.std.specs.Prelude.{◌≤◌};
ghost use Rattle.lz_slot.specs.Limits.{most_passes, most_slots};

use lz_allot::{Allot, Counts, Row};
use lz_slot::Slot;
use std::alloc::{AllocError, Global};
use std::process::Abort;
use std::test::Fail;

// Each returns whether the call was made: the slot was taken, or there is such a pass.
fn give_back(allot: &mut Allot, slot: Slot) -> bool {
    let is_taken = allot.is_taken(slot);
    if is_taken {
        allot.give_back(slot);
    }
    is_taken
}

fn retire(allot: &mut Allot, slot: Slot) -> bool {
    let is_taken = allot.is_taken(slot);
    if is_taken {
        allot.retire(slot);
    }
    is_taken
}

fn see_pin(allot: &mut Allot, pass: usize, pin: u64) -> bool {
    if pass < 1 || allot.passes() < pass {
        return false;
    }
    allot.see_pin(pass, pin);
    true
}

fn row(allot: &Allot, pass: usize) -> Option<Row> {
    if pass < 1 || allot.passes() < pass {
        return None;
    }
    Some(allot.row(pass))
}

#[test]
fn the_lowest_free_slot_is_taken(rt: HostRuntime) -> Result<(), Fail> {
    let mut allot = Allot::new(rt.alloc(), 3, 1, &[Slot::new(1)])?;
    assert_eq!(rt; allot.reserve(), Some(Slot::new(0)));
    assert_eq!(rt; allot.reserve(), Some(Slot::new(2)));
    assert_eq!(rt; allot.reserve(), None);
    retire_one_of_three(&rt, &mut allot);
    take_again(&rt, &mut allot);
    Ok(())
}

// Of three taken slots one is retired.
fn retire_one_of_three(rt: &impl Abort, allot: &mut Allot) {
    assert!(rt; retire(allot, Slot::new(0)));
    let counts = Counts {
        free: 0,
        taken: 2,
        limbo: 1,
    };
    assert_eq!(rt; allot.counts(), counts);
}

// Another one of them is given back, and is the one that is taken next.
fn take_again(rt: &impl Abort, allot: &mut Allot) {
    assert!(rt; give_back(allot, Slot::new(2)));
    assert_eq!(rt; allot.reserve(), Some(Slot::new(2)));
    assert_eq!(rt; allot.slots(), 3);
}

// Two of three slots are retired, while the first pass stays inside, with or without a second look at its pin.
fn with_two_retired(alloc: Global, looks_again: bool) -> Result<Allot, AllocError> {
    let slots = [Slot::new(0), Slot::new(1), Slot::new(2)];
    let mut allot = Allot::new(alloc, 3, 2, &slots)?;
    retire(&mut allot, Slot::new(0));
    see_pin(&mut allot, 1, 3);
    retire(&mut allot, Slot::new(1));
    if looks_again {
        see_pin(&mut allot, 1, 3);
    }
    see_pin(&mut allot, 2, 4);
    Ok(allot)
}

#[test]
fn a_pass_that_stays_inside_keeps_the_slots(rt: HostRuntime) -> Result<(), Fail> {
    let mut allot = with_two_retired(rt.alloc(), true)?;
    let first = Row {
        last: 3,
        met: 2,
        left: 0,
    };
    assert_eq!(rt; allot.collect(), 0);
    assert_eq!(rt; row(&allot, 1), Some(first));
    assert_eq!(rt; allot.counts().limbo, 2);
    Ok(())
}

#[test]
fn a_later_visit_leaves_the_slots_that_were_met(rt: HostRuntime) -> Result<(), Fail> {
    let mut allot = with_two_retired(rt.alloc(), true)?;
    let first = Row {
        last: 5,
        met: 2,
        left: 2,
    };
    assert!(rt; see_pin(&mut allot, 1, 5));
    assert_eq!(rt; row(&allot, 1), Some(first));
    assert_eq!(rt; allot.collect(), 2);
    assert_eq!(rt; allot.counts().free, 2);
    Ok(())
}

#[test]
fn a_later_visit_leaves_no_slot_that_was_not_met(rt: HostRuntime) -> Result<(), Fail> {
    let mut allot = with_two_retired(rt.alloc(), false)?;
    assert!(rt; see_pin(&mut allot, 1, 5));
    assert_eq!(rt; allot.collect(), 1);
    assert_eq!(rt; allot.reserve(), Some(Slot::new(0)));
    assert_eq!(rt; allot.reserve(), None);
    Ok(())
}

// What was seen of a pass since a slot was retired: the first value, and whether the pass has left.
#[derive(Clone, Copy)]
struct PlainSight {
    first: Option<u64>,
    has_left: bool,
}

const UNSEEN: PlainSight = PlainSight {
    first: None,
    has_left: false,
};

impl PlainSight {
    fn see(&mut self, pin: u64) {
        match self.first {
            None => self.first = Some(pin),
            Some(first) if first != pin => self.has_left = true,
            Some(_) => {}
        }
        if pin % 2 == 0 {
            self.has_left = true;
        }
    }
}

#[derive(Clone, Copy, Debug, PartialEq, Eq)]
enum PlainKind {
    Free,
    Taken,
    Limbo,
}

// A slot with a record for each pass.
#[derive(Drop)]
struct PlainSlot {
    slot: Slot,
    kind: PlainKind,
    sights: Vec<PlainSight>,
}

impl PlainSlot {
    fn retire(&mut self) {
        self.kind = PlainKind::Limbo;
        for sight in self.sights.iter_mut() {
            *sight = UNSEEN;
        }
    }

    fn see_pin(&mut self, pass: usize, pin: u64) {
        if let Some(sight) = self.sights.get_mut(pass.wrapping_sub(1)) {
            sight.see(pin);
        }
    }

    // Frees the slot where each pass has left, and tells whether it did.
    fn collect(&mut self) -> bool {
        let is_freed = self.kind == PlainKind::Limbo
            && self.sights.iter().all(|sight| sight.has_left);
        if is_freed {
            self.kind = PlainKind::Free;
        }
        is_freed
    }
}

fn plain_slots(alloc: Global, slots: u32, passes: usize) -> Result<Vec<PlainSlot>, AllocError> {
    let mut plain = Vec::new(alloc);
    for index in 0..slots {
        plain.push(PlainSlot {
            slot: Slot::new(index),
            kind: PlainKind::Free,
            sights: vec![in alloc; UNSEEN; passes]?,
        })?;
    }
    Ok(plain)
}

fn plain_reserve(plain: &mut Vec<PlainSlot>) -> Option<Slot> {
    for slot in plain.iter_mut() {
        if slot.kind == PlainKind::Free {
            slot.kind = PlainKind::Taken;
            return Some(slot.slot);
        }
    }
    None
}

fn plain_collect(plain: &mut Vec<PlainSlot>) -> usize {
    let mut freed = 0usize;
    for slot in plain.iter_mut() {
        if slot.collect() {
            freed = freed.wrapping_add(1);
        }
    }
    freed
}

// A generator of numbers that are the same each time.
#[derive(Drop)]
struct Numbers {
    state: u64,
}

impl Numbers {
    // A number below the limit.
    fn next(&mut self, limit: u64) -> u64 {
        self.state = self
            .state
            .wrapping_mul(6364136223846793005)
            .wrapping_add(1442695040888963407);
        (self.state >> 33).checked_rem(limit).unwrap_or(0)
    }
}

// One call of each kind, on the allot and on the plain records. Tells whether they gave the same.
fn same_call(
    allot: &mut Allot,
    plain: &mut Vec<PlainSlot>,
    numbers: &mut Numbers,
    passes: u64,
) -> bool {
    let place = numbers.next(plain.len() as u64) as usize;
    match numbers.next(8) {
        0 | 1 => allot.reserve() == plain_reserve(plain),
        2 | 3 => match plain.get_mut(place) {
            Some(slot) if slot.kind == PlainKind::Taken => {
                slot.retire();
                retire(allot, slot.slot)
            }
            _ => true,
        },
        4 => match plain.get_mut(place) {
            Some(slot) if slot.kind == PlainKind::Taken => {
                slot.kind = PlainKind::Free;
                give_back(allot, slot.slot)
            }
            _ => true,
        },
        5 => allot.collect() == plain_collect(plain),
        _ => {
            let pass = numbers.next(passes) as usize;
            let pin = numbers.next(5);
            for slot in plain.iter_mut() {
                slot.see_pin(pass.wrapping_add(1), pin);
            }
            see_pin(allot, pass.wrapping_add(1), pin)
        }
    }
}

// Each slot is taken in both or in neither, and the counts are the same.
fn same_slots(allot: &Allot, plain: &Vec<PlainSlot>) -> bool {
    let free = plain
        .iter()
        .filter(|slot| slot.kind == PlainKind::Free)
        .count();
    let limbo = plain
        .iter()
        .filter(|slot| slot.kind == PlainKind::Limbo)
        .count();
    let counts = allot.counts();
    counts.free == free
        && counts.limbo == limbo
        && plain.iter().all(|slot| allot.is_taken(slot.slot) == (slot.kind == PlainKind::Taken))
}

// Makes a thousand calls on so many slots and passes.
fn free_the_same(
    rt: &impl Abort,
    alloc: Global,
    slots: u32,
    passes: usize,
    numbers: Numbers,
) -> Result<(), Fail>
    requires slots { (1 ≤ slots) × (slots ≤ most_slots) }
    requires passes { (1 ≤ passes) × (passes ≤ most_passes) }
{
    let mut allot = Allot::new(alloc, slots as usize, passes, &[])?;
    let mut plain = plain_slots(alloc, slots, passes)?;
    let mut numbers = numbers;
    for call in 0..1_000 {
        assert!(rt;
            same_call(&mut allot, &mut plain, &mut numbers, passes as u64),
            "{slots} slots, {passes} passes, call {call}"
        );
        assert!(rt;
            same_slots(&allot, &plain),
            "{slots} slots, {passes} passes, after call {call}"
        );
    }
    Ok(())
}

#[test]
fn the_queue_frees_what_plain_records_free(rt: HostRuntime) -> Result<(), Fail> {
    for (slots, passes, seed) in [
        (1u32, 1usize, 1u64),
        (2, 2, 2),
        (5, 1, 3),
        (7, 3, 4),
        (16, 2, 5),
        (33, 5, 6),
    ] {
        free_the_same(&rt, rt.alloc(), slots, passes, Numbers { state: seed })?;
    }
    Ok(())
}
