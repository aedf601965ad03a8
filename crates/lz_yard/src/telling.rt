//! What an event that is played tells: the word that it changes, and what walkers can see of the change.
ghost use Rattle.std.specs.Prelude.{◌≡◌, ◌≤◌, ◌<◌, length, Some, None, IfSome, if◌then◌else◌, option_to_list};
ghost use Rattle.lz_slot.specs.Limits.{largest_key};
ghost use Rattle.lz_list.specs.Words.{get};
ghost use Rattle.lz_list.specs.Lists.{IsWord};
ghost use Rattle.lz_machine.specs.Table.{is_sure, pin_of, publishes, settling, stays_out, word_changed};
ghost use Rattle.lz_machine.specs.Ready.{IsReady};
ghost use Rattle.lz_machine.specs.Yards.{actor_at, cell_at};
ghost use Rattle.lz_yard.specs.Parts.{PartsFit, Known};
ghost use Rattle.lz_yard.specs.Steps.{Tells, value_of};

use crate::hold::stays_out;
use crate::parts::Parts;
use crate::told::Told;
use lz_disk::Disk;
use lz_list::{Change, Publishing, Word, next_to};
use lz_machine::{Course, Event};
use lz_slot::{Key, Slot};
use lz_vault::Stage;

impl<D: Disk> Parts<D> {
    // The word that a settling writes.
    fn settle_word(&self, slot: Slot) -> Option<Word>
        requires { slot < length self.now.yard.vault.cells }
        ensures { result ≡ (if is_sure self.now.yard slot then Some (Word.Link slot) else None) }
    {
        if self.is_sure(slot) {
            Some(Word::Link(slot))
        } else {
            None
        }
    }

    // The word that an Answer changes.
    fn answer_word(&self, actor: usize) -> Option<Word>
        requires low { 1 ≤ actor }
        requires actors { actor ≤ length self.now.yard.actors }
        requires pins { actor ≤ length self.now.yard.words.pins }
        ensures { result ≡ (if stays_out (actor_at self.now.yard actor) (pin_of self.now.yard actor) then None else Some (Word.Pin actor)) }
    {
        let hand = self.actor(actor);
        if stays_out(hand, self.word(Word::Pin(actor))) {
            None
        } else {
            Some(Word::Pin(actor))
        }
    }

    // The word that an event changes where it is played.
    #[inline(always)]
    fn word_changed(&self, actor: usize, event: Event) -> Option<Word>
        requires low { 1 ≤ actor }
        requires high { actor ≤ length self.now.yard.actors }
        requires fits { PartsFit self.now.yard self.now.rows }
        requires ready { IsReady self.now.yard actor event }
        requires known { Known Course.Plays self.now.yard actor event }
        ensures word { result ≡ word_changed self.now.yard (actor_at self.now.yard actor) actor event }
        ensures there { IfSome result (λ word. IsWord self.now.yard.words word) }
    {
        match event {
            Event::Pin => Some(Word::Pin(actor)),
            Event::Answer => self.answer_word(actor),
            Event::WriteKey(_) => Some(Word::Key(self.slot(actor))),
            Event::WriteOpen => Some(Word::Link(self.slot(actor))),
            Event::Link | Event::Unlink => Some(self.pred_word(actor)),
            Event::Mark => Some(Word::Link(self.node(actor))),
            Event::Settle(slot) => self.settle_word(slot),
            Event::Halt => Some(Word::Halt),
            _ => None,
        }
    }

    // What a word is, 0 where there is none.
    fn value_of(&self, word: Option<Word>) -> u64
        requires { IfSome word (λ word. IsWord self.now.yard.words word) }
        ensures { result ≡ value_of self.now.yard.words word }
    {
        match word {
            None => 0,
            Some(word) => self.word(word),
        }
    }

    // The key word of a slot, which is a key.
    pub(crate) fn key(&self, slot: Slot) -> Option<Key>
        requires slot { slot < length self.now.yard.words.keys }
        requires key { get self.now.yard.words (Word.Key slot) ≤ largest_key }
        ensures { result ≡ Some (get self.now.yard.words (Word.Key slot)) }
    {
        Key::of_rank(self.word(Word::Key(slot)))
    }

    // What a settling publishes.
    fn settled(&self, slot: Slot) -> Option<Publishing>
        requires { slot < length self.now.yard.vault.cells }
        ensures { option_to_list result ≡ settling (cell_at self.now.yard slot).stage slot }
    {
        match self.stage(slot) {
            Stage::Open => Some(Publishing::Settled(slot, Change::Added)),
            Stage::Closed => Some(Publishing::Settled(slot, Change::Removed)),
            _ => None,
        }
    }

    // What an event publishes where it is played.
    #[inline(always)]
    fn publishing(&self, actor: usize, event: Event) -> Option<Publishing>
        requires low { 1 ≤ actor }
        requires high { actor ≤ length self.now.yard.actors }
        requires fits { PartsFit self.now.yard self.now.rows }
        requires ready { IsReady self.now.yard actor event }
        ensures { option_to_list result ≡ publishes self.now.yard (actor_at self.now.yard actor) actor event }
    {
        match event {
            Event::WriteKey(key) => Some(Publishing::KeyPrepared(self.slot(actor), key)),
            Event::WriteOpen => {
                let link = next_to(self.actor(actor).curr);
                Some(Publishing::LinkPrepared(self.slot(actor), link))
            }
            Event::Link => {
                let slot = self.slot(actor);
                let key = self.key(slot)?;
                Some(Publishing::Linked(key, slot, actor))
            }
            Event::Mark => {
                let node = self.node(actor);
                let key = self.key(node)?;
                Some(Publishing::Marked(key, node, actor))
            }
            Event::Settle(slot) => self.settled(slot),
            Event::Unlink => {
                let node = self.node(actor);
                let key = self.key(node)?;
                Some(Publishing::Unlinked(key, node, actor))
            }
            Event::Halt => Some(Publishing::Halted),
            _ => None,
        }
    }

    // What an event tells where it is played.
    #[inline(always)]
    pub(crate) fn tell(&self, actor: usize, event: Event) -> Told
        requires low { 1 ≤ actor }
        requires high { actor ≤ length self.now.yard.actors }
        requires fits { PartsFit self.now.yard self.now.rows }
        requires ready { IsReady self.now.yard actor event }
        requires known { Known Course.Plays self.now.yard actor event }
        ensures { Tells self.now.yard (actor_at self.now.yard actor) actor event result }
    {
        let seen = event;
        let changed = self.word_changed(actor, seen);
        let word = changed;
        Told {
            changed,
            before: self.value_of(word),
            published: self.publishing(actor, event),
        }
    }
}
