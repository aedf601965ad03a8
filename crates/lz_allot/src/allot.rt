//! The slots that are free, taken or in limbo.
ghost use Rattle.std.specs.Prelude.{◌≡◌, ◌+◌, ◌<◌, ◌≤◌, ◌↔◌, true, length, replicate, take, drop, All, IsTrue, IsNone, IfOk, IfSome};
ghost use Rattle.std.specs.VecDeque.{deque_capacity};
ghost use Rattle.lz_slot.specs.Limits.{most_passes, most_slots};
ghost use Rattle.lz_allot.specs.Rows.{first_row, least_left, rows_freed, rows_seen};
ghost use Rattle.lz_allot.specs.Allots.{IsTakenAt, first_uses, set_each};

use crate::counts::Counts;
use crate::free::{FreeSlots, free_of};
use crate::kind::{Kind, count_free, first_kinds, is_taken};
use crate::row::{Row, drop_first, least_left};
use lz_slot::Slot;
use std::alloc::{AllocError, Global};
use std::collections::VecDeque;
use std::marker::Model;

/// The slots of a file, each of which is free, taken or in limbo: a slot that was retired is free again once every pass
/// was seen outside, or inside a later visit, since its retirement.
///
/// The slots in limbo stand in one queue, in the order of their retirement. A pass leaves them in this order too, so that
/// two numbers for each pass tell which of them it has left.
#[derive(Drop)]
pub struct Allot {
    kinds: Vec<Kind>,
    free: FreeSlots,
    limbo: VecDeque<Slot>,
    rows: Vec<Row>,
    counts: Counts,
}

impl Model for Allot {
    ghost use Rattle.std.specs.VecDeque.{deque_capacity};
    ghost use Rattle.lz_allot.specs.Allots.{Allotted, IsAllot, uses_told};

    ghost Value = { Allotted };

    ghost view = { λ a. record { uses = uses_told a.kinds.items a.limbo.items a.rows.items; rows = a.rows.items } };

    ghost invariant = { λ a. IsAllot a.kinds.items a.free a.limbo.items (deque_capacity a.limbo) a.rows.items a.counts };
}

impl Allot {
    ghost use Rattle.lz_slot.specs.Counted.{of_pass};
    ghost use Rattle.lz_allot.specs.Uses.{collect, counts, give_back, lowest_free, retire, see_pin, take_slot};

    /// Slots of which these are taken and the others free, for so many passes. All room is taken here.
    pub fn new(
        alloc: Global,
        slots: usize,
        passes: usize,
        taken: &[Slot],
    ) -> Result<Allot, AllocError>
        requires slots { (1 ≤ slots) × (slots ≤ most_slots) }
        requires passes { (1 ≤ passes) × (passes ≤ most_passes) }
        requires taken { All (λ s. s < slots) taken.now }
        ensures uses { IfOk result (λ allot. allot.uses ≡ first_uses slots taken.now) }
        ensures rows { IfOk result (λ allot. allot.rows ≡ replicate passes first_row) }
    {
        let kinds = first_kinds(alloc, slots, taken)?;
        let free = free_of(alloc, &kinds)?;
        let limbo = VecDeque::with_capacity(alloc, slots)?;
        let rows = vec![in alloc; Row::new(); passes]?;
        let free_count = count_free(&kinds);
        let counts = Counts {
            free: free_count,
            taken: slots - free_count,
            limbo: 0,
        };
        Ok(Allot {
            kinds,
            free,
            limbo,
            rows,
            counts,
        })
    }

    /// Takes the lowest free slot.
    pub fn reserve(&mut self) -> Option<Slot>
        ensures slot { result ≡ lowest_free self.old.uses }
        ensures uses { IfSome result (λ s. self.new.uses ≡ take_slot self.old.uses s) }
        ensures rows { self.new.rows ≡ self.old.rows }
        ensures none { IsNone result → self.new ≡ self.old }
    {
        let Some(slot) = self.free.lowest() else {
            return None;
        };
        self.free.set(slot, false);
        self.kinds[slot.index() as usize] = Kind::Taken;
        self.counts.free -= 1;
        self.counts.taken += 1;
        Some(slot)
    }

    /// Frees a slot that was taken and never used.
    pub fn give_back(&mut self, slot: Slot)
        requires { IsTakenAt self.old.uses slot }
        ensures uses { self.new.uses ≡ give_back self.old.uses slot }
        ensures rows { self.new.rows ≡ self.old.rows }
    {
        self.free.set(slot, true);
        self.kinds[slot.index() as usize] = Kind::Free;
        self.counts.taken -= 1;
        self.counts.free += 1;
    }

    /// Sends a slot that was taken to limbo.
    pub fn retire(&mut self, slot: Slot)
        requires { IsTakenAt self.old.uses slot }
        ensures uses { self.new.uses ≡ retire (length self.old.rows) self.old.uses slot }
        ensures rows { self.new.rows ≡ self.old.rows }
    {
        self.limbo.push_back_reserved(slot);
        self.kinds[slot.index() as usize] = Kind::Limbo;
        self.counts.taken -= 1;
        self.counts.limbo += 1;
    }

    /// The pin of a pass was seen with this value: an odd one is inside, an even one outside. Passes count from 1.
    pub fn see_pin(&mut self, pass: usize, pin: u64)
        requires { (1 ≤ pass) × (pass ≤ length self.old.rows) }
        ensures uses { self.new.uses ≡ see_pin pass pin self.old.uses }
        ensures rows { self.new.rows ≡ rows_seen pass pin (counts self.old.uses).limbo self.old.rows }
    {
        let queued = self.limbo.len();
        self.rows[pass - 1].see(pin, queued);
    }

    /// Frees each slot in limbo that every pass has left, and tells how many these were.
    pub fn collect(&mut self) -> usize
        ensures uses { self.new.uses ≡ collect self.old.uses }
        ensures count { (counts self.new.uses).limbo + result ≡ (counts self.old.uses).limbo }
        ensures least { result ≡ least_left self.old.rows }
        ensures rows { self.new.rows ≡ rows_freed result self.old.rows }
    {
        if self.limbo.is_empty() {
            return 0;
        }
        let freed = least_left(&self.rows);
        if freed == 0 {
            return 0;
        }
        free_first(&mut self.limbo, &mut self.kinds, &mut self.free, freed);
        drop_first(&mut self.rows, freed);
        self.counts.free += freed;
        self.counts.limbo -= freed;
        freed
    }

    /// How many slots are free, taken and in limbo.
    pub fn counts(&self) -> Counts
        ensures value { result ≡ counts self.now.uses }
        ensures sum { result.free + result.taken + result.limbo ≡ length self.now.uses }
    {
        self.counts
    }

    pub fn is_taken(&self, slot: Slot) -> bool
        ensures { IsTrue result ↔ IsTakenAt self.now.uses slot }
    {
        match self.kinds.get(slot.index() as usize) {
            Some(kind) => is_taken(kind),
            None => false,
        }
    }

    /// What is known of a pass. Passes count from 1.
    pub fn row(&self, pass: usize) -> Row
        requires { (1 ≤ pass) × (pass ≤ length self.now.rows) }
        ensures { result ≡ of_pass self.now.rows pass first_row }
    {
        self.rows[pass - 1]
    }

    pub fn slots(&self) -> usize
        ensures count { result ≡ length self.now.uses }
        ensures range { (1 ≤ result) × (result ≤ most_slots) }
    {
        self.kinds.len()
    }

    pub fn passes(&self) -> usize
        ensures count { result ≡ length self.now.rows }
        ensures range { (1 ≤ result) × (result ≤ most_passes) }
    {
        self.rows.len()
    }
}

// Frees the first slots in limbo.
fn free_first(limbo: &mut VecDeque<Slot>, kinds: &mut [Kind], free: &mut FreeSlots, count: usize)
    requires count { count ≤ length limbo.old.items }
    requires inside { All (λ s. s < length kinds.old) limbo.old.items }
    requires same { length free.old ≡ length kinds.old }
    ensures limbo { limbo.new.items ≡ drop count limbo.old.items }
    ensures kinds { kinds.new ≡ set_each kinds.old (take count limbo.old.items) Kind.Free }
    ensures free { free.new ≡ set_each free.old (take count limbo.old.items) true }
    ensures room { deque_capacity limbo.new ≡ deque_capacity limbo.old }
{
    for _ in 0..count {
        if let Some(slot) = limbo.pop_front() {
            kinds[slot.index() as usize] = Kind::Free;
            free.set(slot, true);
        }
    }
}
