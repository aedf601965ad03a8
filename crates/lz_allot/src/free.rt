//! Which slots are free, in a tree by which the lowest is found.
ghost use Rattle.std.specs.Prelude.{◌≡◌, ◌≢◌, ℕ, ◌+◌, ◌*◌, ◌<◌, ◌≤◌, nat_lt, false, if◌then◌else◌, length, map, slice_set, position, IfOk};
ghost use Rattle.std.specs.Int.{bit_at};
ghost use Rattle.lz_slot.specs.Limits.{most_slots};
ghost use Rattle.lz_allot.specs.Allots.{is_free_kind, kind_at};
ghost use Rattle.lz_allot.specs.Trees.{IsStart, is_told, word_at};

use crate::kind::{Kind, is_free};
use lz_slot::Slot;
use std::alloc::{AllocError, Global};
use std::marker::Model;

// Which slots are free. Each word tells by its bits of 64 nodes below it: the root is node 0, node k has the children from
// 64 * k + 1 on, and the slots are the nodes from `first` on. A bit is set where a slot is free at its node or below.
#[derive(Drop)]
pub(crate) struct FreeSlots {
    words: Vec<u64>,
    first: usize,
    slots: usize,
}

impl Model for FreeSlots {
    ghost use Rattle.std.specs.Prelude.{Bool, List};
    ghost use Rattle.lz_allot.specs.Trees.{IsTree, shown};

    ghost Value = { List Bool };

    ghost view = { λ f. shown f.words.items f.first f.slots };

    ghost invariant = { λ f. IsTree f.words.items f.first f.slots };
}

impl FreeSlots {
    // A slot is free from now on, or isn't. A word that stays zero, or stays another than zero, is no news above it.
    pub(crate) fn set(&mut self, slot: Slot, is_free: bool)
        requires { slot < length self.old }
        ensures { self.new ≡ slice_set self.old slot is_free }
    {
        let mut node = self.first + slot.index() as usize;
        while node > 0 {
            let above = (node - 1) / 64;
            let was = self.words[above];
            let now = with_bit(was, (node - 1) % 64, is_free);
            self.words[above] = now;
            node = if (was == 0) == (now == 0) { 0 } else { above };
        }
    }

    // The lowest free slot.
    pub(crate) fn lowest(&self) -> Option<Slot>
        ensures { result ≡ position (λ is_free. is_free) self.now }
    {
        if self.words[0] == 0 {
            return None;
        }
        let mut node = 0;
        while node < self.first {
            node = 64 * node + 1 + self.words[node].trailing_zeros() as usize;
        }
        Some(Slot::new((node - self.first) as u32))
    }
}

// A word with this bit set, or not.
fn with_bit(word: u64, bit: usize, is_set: bool) -> u64
    requires { bit < 64 }
    ensures set { bit_at result bit ≡ (if is_set then 1 else 0) }
    ensures others { (i : ℕ) → i < 64 → i ≢ bit → bit_at result i ≡ bit_at word i }
{
    if is_set {
        word | 1 << bit
    } else {
        word & !(1 << bit)
    }
}

// The first leaf of the tree of so many slots.
fn first_leaf(slots: usize) -> usize
    requires { slots ≤ most_slots }
    ensures start { IsStart result }
    ensures room { slots ≤ 63 * result + 1 }
{
    let mut first = 1;
    while 63 * first + 1 < slots {
        first = 64 * first + 1;
    }
    first
}

// The word of 64 slots from this one on: which of them are free.
fn word_of(kinds: &[Kind], from: usize) -> u64
    requires { from < length kinds.now }
    ensures { (i : ℕ) → i < 64 → bit_at result i ≡ (if is_free_kind (kind_at kinds.now (from + i)) then 1 else 0) }
{
    let mut word = 0;
    for bit in 0..64.min(kinds.len() - from) {
        word = with_bit(word, bit, is_free(&kinds[from + bit]));
    }
    word
}

// The words of a tree with this first leaf in which only the slots are told of.
fn leaf_words(alloc: Global, first: usize, kinds: &[Kind]) -> Result<Vec<u64>, AllocError>
    requires start { IsStart first }
    requires few { length kinds.now ≤ most_slots }
    ensures room { IfOk result (λ words. first + length kinds.now ≤ 64 * length words.items) }
    ensures slots { IfOk result (λ words. (s : ℕ) → is_told words.items (first + s) ≡ is_free_kind (kind_at kinds.now s)) }
    ensures above { IfOk result (λ words. (k : ℕ) → 1 ≤ k → k < first → is_told words.items k ≡ false) }
{
    let mut words = vec![in alloc; 0; (first + kinds.len()) / 64 + 1]?;
    let mut done = 0;
    while done < kinds.len() {
        words[(first + done) / 64] = word_of(kinds, done);
        done += 64;
    }
    Ok(words)
}

// These words once each node is told of in the word above it: from the last down to the first, so that its own word is whole by then.
fn told_above(words: Vec<u64>, first: usize) -> Vec<u64>
    requires first { 1 ≤ first }
    requires untold { (k : ℕ) → 1 ≤ k → k < first → is_told words.items k ≡ false }
    ensures len { length result.items ≡ length words.items }
    ensures told { (k : ℕ) → 1 ≤ k → k < first → is_told result.items k ≡ nat_lt 0 (word_at result.items k) }
    ensures leaves { (k : ℕ) → first ≤ k → is_told result.items k ≡ is_told words.items k }
{
    let mut told = words;
    let mut node = first.min(told.len());
    while node > 1 {
        node -= 1;
        let is_free_below = told[node] != 0;
        let above = (node - 1) / 64;
        told[above] = with_bit(told[above], (node - 1) % 64, is_free_below);
    }
    told
}

// Which slots are free by their kinds.
pub(crate) fn free_of(alloc: Global, kinds: &[Kind]) -> Result<FreeSlots, AllocError>
    requires { length kinds.now ≤ most_slots }
    ensures { IfOk result (λ free. free ≡ map is_free_kind kinds.now) }
{
    let slots = kinds.len();
    let first = first_leaf(slots);
    let words = told_above(leaf_words(alloc, first, kinds)?, first);
    Ok(FreeSlots {
        words,
        first,
        slots,
    })
}
