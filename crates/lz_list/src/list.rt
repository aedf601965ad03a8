//! The list: its words, its node locks, and what changes them.
ghost use Rattle.std.specs.Prelude.{◌≡◌, ◌↔◌, ◌<◌, ◌≤◌, ℕ, false, if◌then◌else◌, IfNone, IfOk, IfSome, IsTrue, Option, Some};
ghost use Rattle.lz_slot.specs.Limits.{most_passes, most_slots};

use crate::link::{next_to, slot_behind};
use crate::locks::Locks;
use crate::place::Place;
use crate::table::Words;
use crate::word::Word;
use lz_slot::{Key, Slot};
use std::alloc::{AllocError, Global};
use std::marker::Model;

/// The words with the node locks. In each bucket the keys ascend strictly from node to node.
#[derive(Drop)]
pub struct List {
    words: Words,
    locks: Locks,
}

impl Model for List {
    ghost use Rattle.lz_list.specs.Lists.{IsList, Listed};

    ghost Value = { Listed };

    ghost view = { λ l. record { words = l.words; locks = l.locks } };

    ghost invariant = { λ l. IsList (record { words = l.words; locks = l.locks }) };
}

impl List {
    ghost use Rattle.lz_list.specs.Words.{change_flags, get, is_marked_at, link_to, marked_flags, next_at, redirect, set};
    ghost use Rattle.lz_list.specs.Locks.{check, is_marked_node, is_pair_free, pair_owned};
    ghost use Rattle.lz_list.specs.Lists.{AllStay, IsPredecessor, IsBelow, IsCurr, IsLast, IsList, IsMember, IsNodeOf, IsPlace, IsSorted, IsWord, KeepsList, MayLinkAt, MayUnlinkAt, OthersStay, free_locks, home};

    /// The list of these words, with all locks free. Where memory is refused the words are dropped.
    pub fn new(alloc: Global, words: Words) -> Result<List, AllocError>
        requires { IsSorted words }
        ensures { IfOk result (λ list. list ≡ record { words = words; locks = free_locks words }) }
    {
        let buckets = words.buckets();
        let slots = words.slots();
        let locks = Locks::new(alloc, buckets, slots)?;
        Ok(List { words, locks })
    }

    pub fn words(&self) -> &Words
        ensures words { result.now ≡ self.now.words }
        ensures list { IsList self.now }
    {
        &self.words
    }

    /// Stores a word that changes no chain and no membership: a pin word, a word of a slot that isn't linked, or the settled
    /// flags of one that is.
    pub fn set(&mut self, word: Word, value: u64)
        requires word { IsWord self.old.words word }
        requires keeps { KeepsList self.old.words word value }
        ensures list { self.new ≡ record { words = set self.old.words word value; locks = self.old.locks } }
        ensures members { AllStay self.old.words self.new.words }
    {
        self.words.set(word, value);
    }

    /// Whether both locks of a pair are free, so that a claim would take them.
    pub fn is_free(&self, pred: Place, curr: Option<Slot>) -> bool
        ensures { result ≡ is_pair_free self.now.locks pred curr }
    {
        self.locks.is_free(pred, curr)
    }

    /// Takes the locks of a place and of the node after it, if there is one, for an actor: both or neither. Actors count
    /// from 1.
    pub fn claim(&mut self, actor: usize, pred: Place, curr: Option<Slot>) -> bool
        requires actor { actor ≤ most_passes }
        requires pred { IsPlace self.old.words pred }
        requires curr { IsCurr self.old.words curr }
        ensures free { result ≡ is_pair_free self.old.locks pred curr }
        ensures list { self.new ≡ record { words = self.old.words; locks = if is_pair_free self.old.locks pred curr then pair_owned self.old.locks pred curr actor else self.old.locks } }
    {
        let place = pred;
        let node = curr;
        if !self.locks.is_free(place, node) {
            return false;
        }
        self.locks.give_pair(pred, curr, actor as u16);
        true
    }

    /// Whether a claimed pair is still as a walk found it: neither is marked, and the place leads to the node. Herlihy and
    /// Shavit call it `validate`.
    pub fn check(&self, pred: Place, curr: Option<Slot>) -> bool
        requires pred { IsPlace self.now.words pred }
        requires curr { IsCurr self.now.words curr }
        ensures { result ≡ check self.now.words pred curr }
    {
        let place = pred;
        let node = curr;
        !self.words.is_marked(place)
            && !self.is_curr_marked(node)
            && self.words.next(pred) as u64 == next_to(curr)
    }

    fn is_curr_marked(&self, curr: Option<Slot>) -> bool
        requires { IsCurr self.now.words curr }
        ensures { result ≡ is_marked_node self.now.words curr }
    {
        match curr {
            None => false,
            Some(slot) => self.words.is_marked(Place::Node(slot)),
        }
    }

    /// Links a slot's node after a place.
    pub fn link(&mut self, pred: Place, slot: Slot)
        requires { MayLinkAt self.old.words pred slot }
        ensures list { self.new ≡ record { words = redirect self.old.words pred (link_to (Some slot)); locks = self.old.locks } }
        ensures key { IsMember self.new.words (get self.old.words (Word.Key slot)) ↔ (is_marked_at self.old.words (Place.Node slot) ≡ false) }
        ensures others { OthersStay (get self.old.words (Word.Key slot)) self.old.words self.new.words }
    {
        self.words.redirect(pred, next_to(Some(slot)) as u32);
    }

    /// Marks a node: its key is no member any more.
    pub fn mark(&mut self, slot: Slot)
        requires { IsWord self.old.words (Word.Link slot) }
        ensures list { self.new ≡ record { words = change_flags marked_flags self.old.words slot; locks = self.old.locks } }
        ensures key { IsNodeOf self.old.words (get self.old.words (Word.Key slot)) slot → IsMember self.new.words (get self.old.words (Word.Key slot)) → ⊥ }
        ensures others { OthersStay (get self.old.words (Word.Key slot)) self.old.words self.new.words }
    {
        self.words.mark(slot);
    }

    /// Unlinks the node after a place. The node's own next link stays, so a walk that stands on it goes on.
    pub fn unlink(&mut self, pred: Place, curr: Slot)
        requires { MayUnlinkAt self.old.words pred curr }
        ensures list { self.new ≡ record { words = redirect self.old.words pred (next_at self.old.words (Place.Node curr)); locks = self.old.locks } }
        ensures key { IsMember self.new.words (get self.old.words (Word.Key curr)) → ⊥ }
        ensures others { OthersStay (get self.old.words (Word.Key curr)) self.old.words self.new.words }
    {
        let after = self.words.next(Place::Node(curr));
        self.words.redirect(pred, after);
    }

    /// Frees the locks of a claimed pair.
    pub fn release(&mut self, pred: Place, curr: Option<Slot>)
        requires pred { IsPlace self.old.words pred }
        requires curr { IsCurr self.old.words curr }
        ensures { self.new ≡ record { words = self.old.words; locks = pair_owned self.old.locks pred curr 0 } }
    {
        self.locks.give_pair(pred, curr, 0);
    }

    /// Whether a key is a member. It looks at each node of the key's bucket up to the key's place.
    pub fn member(&self, key: Key) -> bool
        ensures { IsTrue result ↔ IsMember self.now.words key }
    {
        match self.find(key.rank()) {
            None => false,
            Some(slot) => !self.words.is_marked(Place::Node(slot)),
        }
    }

    // The node of a key.
    fn find(&self, key: u64) -> Option<Slot>
        ensures some { IfSome result (λ slot. IsNodeOf self.now.words key slot) }
        ensures none { IfNone result ((slot : ℕ) → IsNodeOf self.now.words key slot → ⊥) }
    {
        let words = &self.words;
        let slot = self.behind(self.place_before(key))?;
        if words.get(Word::Key(slot)) == key {
            Some(slot)
        } else {
            None
        }
    }

    // The last place before a key.
    fn place_before(&self, key: u64) -> Place
        ensures before { IsPredecessor self.now.words result key }
        ensures last { IsLast self.now.words result key }
    {
        let mut place = Place::Bucket(self.words.home(key));
        while let Some(slot) = self.next_below(&place, key) {
            place = Place::Node(slot);
        }
        place
    }

    // The node after a place that is before a key, where it is before the key too.
    fn next_below(&self, place: &Place, key: u64) -> Option<Slot>
        requires { IsPredecessor self.now.words place.now key }
        ensures some { IfSome result (λ slot. IsPredecessor self.now.words (Place.Node slot) key × IsBelow self.now.words place.now (Place.Node slot)) }
        ensures none { IfNone result (IsLast self.now.words place.now key) }
    {
        let words = &self.words;
        let slot = self.behind(*place)?;
        if words.get(Word::Key(slot)) < key {
            Some(slot)
        } else {
            None
        }
    }

    // The node after a place.
    fn behind(&self, place: Place) -> Option<Slot>
        requires place { IsPlace self.now.words place }
        requires leads { next_at self.now.words place ≤ most_slots }
        ensures { link_to result ≡ next_at self.now.words place }
    {
        slot_behind(self.words.next(place))
    }
}
