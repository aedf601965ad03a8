//! What the yard is made of.
ghost use Rattle.std.specs.Prelude.{◌≡◌, ◌≤◌, ◌<◌, length, true, Some, IsTrue, is_some};
ghost use Rattle.lz_vault.specs.Vaults.{NoCall, Succeeds};
ghost use Rattle.lz_list.specs.Words.{get, is_marked_at, set, word_of};
ghost use Rattle.lz_list.specs.Lists.{IsWord};
ghost use Rattle.lz_machine.specs.Yards.{actor_at, cell_at};
ghost use Rattle.lz_machine.specs.Runs.{with_words};
ghost use Rattle.lz_machine.specs.Table.{is_spent, is_sure, set_actor, with_hold};
ghost use Rattle.lz_yard.specs.Parts.{with_actors};

use lz_allot::Allot;
use lz_disk::Disk;
use lz_list::{List, Place, Word, word_of};
use lz_machine::{Actor, LockPhase};
use lz_slot::Slot;
use lz_vault::{MAX_SYNCS, Stage, Vault};
use std::marker::Model;

// The words with the node locks, the vault, the uses of the slots, and what each actor has in hand.
#[derive(Drop)]
pub(crate) struct Parts<D: Disk> {
    // How many there are: no event changes it, and clauses read it.
    pub(crate) slots: usize,
    pub(crate) buckets: usize,
    pub(crate) passes: usize,
    pub(crate) list: List,
    pub(crate) vault: Vault<D>,
    pub(crate) allot: Allot,
    pub(crate) actors: Vec<Actor>,
}

impl<D: Disk> Model for Parts<D> {
    ghost use Rattle.std.specs.Prelude.{length};
    ghost use Rattle.lz_yard.specs.Parts.{PartsOver};

    ghost Value = { PartsOver D };

    ghost view = { λ p. record {
      yard = record {
        shape = record { slots = p.slots; buckets = p.buckets; passes = p.passes };
        words = p.list.words;
        locks = p.list.locks;
        vault = p.vault.memory;
        uses = p.allot.uses;
        actors = p.actors.items;
      };
      rows = length p.allot.rows;
      disk = p.vault.disk;
    } };
}

impl<D: Disk> Parts<D> {
    // What an actor has in hand.
    pub(crate) fn actor(&self, actor: usize) -> Actor
        requires low { 1 ≤ actor }
        requires high { actor ≤ length self.now.yard.actors }
        ensures { result ≡ actor_at self.now.yard actor }
    {
        self.actors[actor - 1]
    }

    // The slot that an actor has reserved.
    pub(crate) fn slot(&self, actor: usize) -> Slot
        requires low { 1 ≤ actor }
        requires high { actor ≤ length self.now.yard.actors }
        requires slot { is_some (actor_at self.now.yard actor).slot ≡ true }
        ensures slot { (actor_at self.now.yard actor).slot ≡ Some result }
    {
        match self.actor(actor).slot {
            Some(slot) => slot,
            None => Slot::new(0),
        }
    }

    // The slot of the node that an actor claimed last.
    pub(crate) fn node(&self, actor: usize) -> Slot
        requires low { 1 ≤ actor }
        requires high { actor ≤ length self.now.yard.actors }
        requires node { is_some (actor_at self.now.yard actor).curr ≡ true }
        ensures node { (actor_at self.now.yard actor).curr ≡ Some result }
    {
        match self.actor(actor).curr {
            Some(slot) => slot,
            None => Slot::new(0),
        }
    }

    // An actor has come so far.
    pub(crate) fn set_hold(&mut self, actor: usize, hold: LockPhase)
        requires low { 1 ≤ actor }
        requires high { actor ≤ length self.old.yard.actors }
        ensures yard { self.new.yard ≡ with_actors self.old.yard (set_actor self.old.yard actor (with_hold (actor_at self.old.yard actor) hold)) }
        ensures rest { (self.new.rows ≡ self.old.rows) × (self.new.disk ≡ self.old.disk) }
    {
        let hand = self.actor(actor);
        self.actors[actor - 1] = Actor { hold, ..hand };
    }

    pub(crate) fn word(&self, word: Word) -> u64
        requires { IsWord self.now.yard.words word }
        ensures { result ≡ get self.now.yard.words word }
    {
        self.list.words().get(word)
    }

    // Sets the pin word of an actor.
    pub(crate) fn set_pin(&mut self, actor: usize, value: u64)
        requires { (1 ≤ actor) × (actor ≤ length self.old.yard.words.pins) }
        ensures yard { self.new.yard ≡ with_words self.old.yard (set self.old.yard.words (Word.Pin actor) value) }
        ensures rest { (self.new.rows ≡ self.old.rows) × (self.new.disk ≡ self.old.disk) }
    {
        self.list.set(Word::Pin(actor), value);
    }

    // Whether a slot's node is marked.
    pub(crate) fn is_marked(&self, slot: Slot) -> bool
        requires { slot < length self.now.yard.words.links }
        ensures { result ≡ is_marked_at self.now.yard.words (Place.Node slot) }
    {
        self.list.words().is_marked(Place::Node(slot))
    }

    // The word that holds the next link of the place that an actor claimed last.
    pub(crate) fn pred_word(&self, actor: usize) -> Word
        requires low { 1 ≤ actor }
        requires high { actor ≤ length self.now.yard.actors }
        ensures { result ≡ word_of (actor_at self.now.yard actor).pred }
    {
        let hand = self.actor(actor);
        word_of(hand.pred)
    }

    pub(crate) fn stage(&self, slot: Slot) -> Stage
        requires { slot < length self.now.yard.vault.cells }
        ensures { result ≡ (cell_at self.now.yard slot).stage }
    {
        self.vault.stage(slot)
    }

    // Whether a slot's last write is durable.
    pub(crate) fn is_sure(&self, slot: Slot) -> bool
        requires { slot < length self.now.yard.vault.cells }
        ensures { result ≡ is_sure self.now.yard slot }
    {
        self.stage(slot).is_covered()
    }

    // Whether no sync is left in this life.
    pub(crate) fn is_spent(&self) -> bool
        ensures { result ≡ is_spent self.now.yard }
    {
        self.vault.syncs() == MAX_SYNCS
    }

    pub(crate) fn is_dead(&self) -> bool
        ensures dead { result ≡ self.now.yard.vault.dead }
        ensures quiet { Succeeds NoCall (D.device self.now.disk) (D.device self.now.disk) }
    {
        self.vault.is_dead()
    }
}
