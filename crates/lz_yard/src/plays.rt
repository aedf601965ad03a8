//! What each event does where it is played.
ghost use Rattle.std.specs.Prelude.{◌≡◌, ◌≤◌, ◌<◌, length, true, IfSome};
ghost use Rattle.lz_vault.specs.Vaults.{NoCall, Succeeds, died, last_sync};
ghost use Rattle.lz_list.specs.Words.{change_flags};
ghost use Rattle.lz_flush.specs.Settling.{settle};
ghost use Rattle.lz_allot.specs.Allots.{IsTakenAt};
ghost use Rattle.lz_machine.specs.Yards.{actor_at, cell_at};
ghost use Rattle.lz_machine.specs.Runs.{with_words};
ghost use Rattle.lz_machine.specs.Table.{given_back, is_unused, kept_slot, last_pin, pin_answered, pin_of, set_actor, with_slot, with_vault, words_after};
ghost use Rattle.lz_yard.specs.Parts.{with_actors, with_uses};
ghost use Rattle.lz_yard.specs.Plays.{IsPlayed, MayBePlayed};

use crate::hold::{is_old, released, stays_out};
use crate::parts::Parts;
use lz_disk::Disk;
use lz_flush::settle;
use lz_list::{LinkWord, Place, Word, link_of, next_to};
use lz_machine::{Actor, Event, LockPhase, Outcome};
use lz_slot::{Command, Key, Slot};
use lz_vault::VaultFault;

// Plays an event whose course is to be played, by the line of its kind.
macro_rules! played {
    ($parts:expr, $actor:expr, $event:expr) => {
        match $event {
            Event::Invoke(command) => $parts.play_invoke($actor, command),
            Event::Pin => $parts.play_pin($actor),
            Event::Hop(word) => $parts.play_hop($actor, word),
            Event::Reserve => $parts.play_reserve($actor),
            Event::WriteKey(key) => $parts.play_write_key($actor, key),
            Event::Claim(pred, curr) => $parts.play_claim($actor, pred, curr),
            Event::Check => $parts.play_check($actor),
            Event::WriteOpen => $parts.play_write_open($actor),
            Event::Link => $parts.play_link($actor),
            Event::WriteClose => $parts.play_write_close($actor),
            Event::Mark => $parts.play_mark($actor),
            Event::Release => $parts.play_release($actor),
            Event::Sync(slot) => $parts.play_sync($actor, slot),
            Event::Settle(slot) => $parts.play_settle($actor, slot),
            Event::Unlink => $parts.play_unlink($actor),
            Event::Retire => $parts.play_retire($actor),
            Event::SeePin(pass, value) => $parts.play_see_pin($actor, pass, value),
            Event::Answer => $parts.play_answer($actor),
            Event::Halt => $parts.play_halt($actor),
        }
    };
}

pub(crate) use played;

impl<D: Disk> Parts<D> {
    // An actor has this slot reserved, or none.
    fn set_slot(&mut self, actor: usize, slot: Option<Slot>)
        requires low { 1 ≤ actor }
        requires high { actor ≤ length self.old.yard.actors }
        ensures yard { self.new.yard ≡ with_actors self.old.yard (set_actor self.old.yard actor (with_slot (actor_at self.old.yard actor) slot)) }
        ensures rest { (self.new.rows ≡ self.old.rows) × (self.new.disk ≡ self.old.disk) }
    {
        let hand = self.actor(actor);
        self.actors[actor - 1] = Actor { slot, ..hand };
    }

    // Gives back a slot that was reserved, unless its gate may be open. What is left is the slot that stays the actor's.
    fn give_back(&mut self, slot: Option<Slot>) -> Option<Slot>
        requires { IfSome slot (λ s. (s < length self.old.yard.vault.cells) × (is_unused (cell_at self.old.yard s).stage ≡ true → IsTakenAt self.old.yard.uses s)) }
        ensures kept { result ≡ kept_slot self.old.yard slot }
        ensures yard { self.new.yard ≡ with_uses self.old.yard (given_back self.old.yard slot) }
        ensures rest { (self.new.rows ≡ self.old.rows) × (self.new.disk ≡ self.old.disk) }
    {
        match slot {
            None => None,
            Some(slot) => {
                if self.stage(slot).is_free() {
                    self.allot.give_back(slot);
                    None
                } else {
                    Some(slot)
                }
            }
        }
    }

    // Counts an actor's pin word up, unless the actor answers without a pin, and gives what it is then.
    fn leave(&mut self, actor: usize) -> u64
        requires low { 1 ≤ actor }
        requires actors { actor ≤ length self.old.yard.actors }
        requires pins { actor ≤ length self.old.yard.words.pins }
        requires room { pin_of self.old.yard actor ≤ last_pin }
        ensures pin { result ≡ pin_answered (actor_at self.old.yard actor) (pin_of self.old.yard actor) }
        ensures yard { self.new.yard ≡ with_words self.old.yard (words_after self.old.yard (actor_at self.old.yard actor) actor Event.Answer) }
        ensures rest { (self.new.rows ≡ self.old.rows) × (self.new.disk ≡ self.old.disk) }
    {
        let hand = self.actor(actor);
        let pin = self.word(Word::Pin(actor));
        if stays_out(hand, pin) {
            return pin;
        }
        self.list.set(Word::Pin(actor), pin + 1);
        pin + 1
    }

    // Sets the flags that a slot's stage allows.
    fn settle(&mut self, slot: Slot)
        requires cell { slot < length self.old.yard.vault.cells }
        requires link { slot < length self.old.yard.words.links }
        ensures yard { self.new.yard ≡ with_words self.old.yard (change_flags (settle (cell_at self.old.yard slot).stage) self.old.yard.words slot) }
        ensures rest { (self.new.rows ≡ self.old.rows) × (self.new.disk ≡ self.old.disk) }
    {
        let LinkWord { next, flags } = link_of(self.word(Word::Link(slot)));
        let flags = settle(self.stage(slot), flags);
        self.list
            .set(Word::Link(slot), LinkWord { next, flags }.word());
    }

    #[inline(always)]
    pub(crate) fn play_invoke(
        &mut self,
        actor: usize,
        command: Command,
    ) -> Result<Outcome, VaultFault>
        requires { MayBePlayed D.device self.old actor (Event.Invoke command) }
        ensures { IsPlayed D.device self.old self.new actor (Event.Invoke command) result }
    {
        let refused = is_old(self.vault.format(), command);
        let hand = self.actor(actor);
        self.actors[actor - 1] = Actor { refused, ..hand };
        if refused {
            Ok(Outcome::OldFile)
        } else {
            Ok(Outcome::Done)
        }
    }

    #[inline(always)]
    pub(crate) fn play_pin(&mut self, actor: usize) -> Result<Outcome, VaultFault>
        requires { MayBePlayed D.device self.old actor Event.Pin }
        ensures { IsPlayed D.device self.old self.new actor Event.Pin result }
    {
        let pin = self.word(Word::Pin(actor));
        self.list.set(Word::Pin(actor), pin + 1);
        Ok(Outcome::Done)
    }

    #[inline(always)]
    pub(crate) fn play_hop(&mut self, actor: usize, word: Word) -> Result<Outcome, VaultFault>
        requires { MayBePlayed D.device self.old actor (Event.Hop word) }
        ensures { IsPlayed D.device self.old self.new actor (Event.Hop word) result }
    {
        Ok(Outcome::Value(self.word(word)))
    }

    #[inline(always)]
    pub(crate) fn play_reserve(&mut self, actor: usize) -> Result<Outcome, VaultFault>
        requires { MayBePlayed D.device self.old actor Event.Reserve }
        ensures { IsPlayed D.device self.old self.new actor Event.Reserve result }
    {
        self.allot.collect();
        let Some(slot) = self.allot.reserve() else {
            self.set_slot(actor, None);
            return Ok(Outcome::NoSlot(self.allot.counts()));
        };
        self.set_slot(actor, Some(slot));
        Ok(Outcome::Slot(slot))
    }

    #[inline(always)]
    pub(crate) fn play_write_key(&mut self, actor: usize, key: Key) -> Result<Outcome, VaultFault>
        requires { MayBePlayed D.device self.old actor (Event.WriteKey key) }
        ensures { IsPlayed D.device self.old self.new actor (Event.WriteKey key) result }
    {
        let slot = self.slot(actor);
        self.vault.put_key(slot, key)?;
        self.list.set(Word::Key(slot), key.rank());
        Ok(Outcome::Done)
    }

    #[inline(always)]
    pub(crate) fn play_claim(
        &mut self,
        actor: usize,
        pred: Place,
        curr: Option<Slot>,
    ) -> Result<Outcome, VaultFault>
        requires { MayBePlayed D.device self.old actor (Event.Claim pred curr) }
        ensures { IsPlayed D.device self.old self.new actor (Event.Claim pred curr) result }
    {
        let place = pred;
        let node = curr;
        if !self.list.claim(actor, place, node) {
            return Ok(Outcome::Busy);
        }
        let hand = self.actor(actor);
        self.actors[actor - 1] = Actor {
            hold: LockPhase::Locks,
            pred,
            curr,
            ..hand
        };
        Ok(Outcome::Taken)
    }

    #[inline(always)]
    pub(crate) fn play_check(&mut self, actor: usize) -> Result<Outcome, VaultFault>
        requires { MayBePlayed D.device self.old actor Event.Check }
        ensures { IsPlayed D.device self.old self.new actor Event.Check result }
    {
        let hand = self.actor(actor);
        if self.list.check(hand.pred, hand.curr) {
            self.set_hold(actor, LockPhase::Checked);
            Ok(Outcome::True)
        } else {
            self.set_hold(actor, LockPhase::Locks);
            Ok(Outcome::False)
        }
    }

    #[inline(always)]
    pub(crate) fn play_write_open(&mut self, actor: usize) -> Result<Outcome, VaultFault>
        requires { MayBePlayed D.device self.old actor Event.WriteOpen }
        ensures { IsPlayed D.device self.old self.new actor Event.WriteOpen result }
    {
        let slot = self.slot(actor);
        let Some(key) = self.key(slot) else {
            return Ok(Outcome::NotNow);
        };
        self.vault.open_gate(slot, key)?;
        let hand = self.actor(actor);
        self.list.set(Word::Link(slot), next_to(hand.curr));
        self.set_hold(actor, LockPhase::GateOpened);
        Ok(Outcome::Done)
    }

    #[inline(always)]
    pub(crate) fn play_link(&mut self, actor: usize) -> Result<Outcome, VaultFault>
        requires { MayBePlayed D.device self.old actor Event.Link }
        ensures { IsPlayed D.device self.old self.new actor Event.Link result }
    {
        let slot = self.slot(actor);
        let hand = self.actor(actor);
        self.list.link(hand.pred, slot);
        self.actors[actor - 1] = Actor {
            slot: None,
            hold: LockPhase::Linked,
            ..hand
        };
        Ok(Outcome::Done)
    }

    #[inline(always)]
    pub(crate) fn play_write_close(&mut self, actor: usize) -> Result<Outcome, VaultFault>
        requires { MayBePlayed D.device self.old actor Event.WriteClose }
        ensures { IsPlayed D.device self.old self.new actor Event.WriteClose result }
    {
        let node = self.node(actor);
        self.vault.close_gate(node)?;
        self.set_hold(actor, LockPhase::GateClosed);
        Ok(Outcome::Done)
    }

    #[inline(always)]
    pub(crate) fn play_mark(&mut self, actor: usize) -> Result<Outcome, VaultFault>
        requires { MayBePlayed D.device self.old actor Event.Mark }
        ensures { IsPlayed D.device self.old self.new actor Event.Mark result }
    {
        let node = self.node(actor);
        self.list.mark(node);
        self.set_hold(actor, LockPhase::Marked);
        Ok(Outcome::Done)
    }

    #[inline(always)]
    pub(crate) fn play_release(&mut self, actor: usize) -> Result<Outcome, VaultFault>
        requires { MayBePlayed D.device self.old actor Event.Release }
        ensures { IsPlayed D.device self.old self.new actor Event.Release result }
    {
        let hand = self.actor(actor);
        self.list.release(hand.pred, hand.curr);
        self.set_hold(actor, released(hand.hold));
        Ok(Outcome::Done)
    }

    #[inline(always)]
    pub(crate) fn play_sync(&mut self, actor: usize, slot: Slot) -> Result<Outcome, VaultFault>
        requires { MayBePlayed D.device self.old actor (Event.Sync slot) }
        ensures { IsPlayed D.device self.old self.new actor (Event.Sync slot) result }
    {
        if !self.is_sure(slot) {
            self.vault.sync()?;
        }
        Ok(Outcome::Done)
    }

    #[inline(always)]
    pub(crate) fn play_settle(&mut self, actor: usize, slot: Slot) -> Result<Outcome, VaultFault>
        requires { MayBePlayed D.device self.old actor (Event.Settle slot) }
        ensures { IsPlayed D.device self.old self.new actor (Event.Settle slot) result }
    {
        if !self.is_sure(slot) {
            return Ok(Outcome::Early);
        }
        self.settle(slot);
        Ok(Outcome::Done)
    }

    #[inline(always)]
    pub(crate) fn play_unlink(&mut self, actor: usize) -> Result<Outcome, VaultFault>
        requires { MayBePlayed D.device self.old actor Event.Unlink }
        ensures { IsPlayed D.device self.old self.new actor Event.Unlink result }
    {
        let node = self.node(actor);
        let hand = self.actor(actor);
        self.list.unlink(hand.pred, node);
        self.set_hold(actor, LockPhase::Unlinked);
        Ok(Outcome::Done)
    }

    #[inline(always)]
    pub(crate) fn play_retire(&mut self, actor: usize) -> Result<Outcome, VaultFault>
        requires { MayBePlayed D.device self.old actor Event.Retire }
        ensures { IsPlayed D.device self.old self.new actor Event.Retire result }
    {
        let node = self.node(actor);
        self.allot.retire(node);
        self.set_hold(actor, LockPhase::Nothing);
        Ok(Outcome::Done)
    }

    #[inline(always)]
    pub(crate) fn play_see_pin(
        &mut self,
        actor: usize,
        pass: usize,
        value: u64,
    ) -> Result<Outcome, VaultFault>
        requires { MayBePlayed D.device self.old actor (Event.SeePin pass value) }
        ensures { IsPlayed D.device self.old self.new actor (Event.SeePin pass value) result }
    {
        self.allot.see_pin(pass, value);
        Ok(Outcome::Done)
    }

    #[inline(always)]
    pub(crate) fn play_answer(&mut self, actor: usize) -> Result<Outcome, VaultFault>
        requires { MayBePlayed D.device self.old actor Event.Answer }
        ensures { IsPlayed D.device self.old self.new actor Event.Answer result }
    {
        let pin = self.leave(actor);
        let hand = self.actor(actor);
        let kept = self.give_back(hand.slot);
        self.allot.see_pin(actor, pin);
        self.set_slot(actor, kept);
        Ok(Outcome::Done)
    }

    #[inline(always)]
    pub(crate) fn play_halt(&mut self, actor: usize) -> Result<Outcome, VaultFault>
        requires { MayBePlayed D.device self.old actor Event.Halt }
        ensures { IsPlayed D.device self.old self.new actor Event.Halt result }
    {
        self.list.set(Word::Halt, 1);
        Ok(Outcome::Done)
    }

    // No sync is left, so that the vault dies.
    pub(crate) fn die(&mut self)
        requires spent { self.old.yard.vault.syncs ≡ last_sync }
        ensures yard { self.new.yard ≡ with_vault self.old.yard (died self.old.yard.vault) }
        ensures device { Succeeds NoCall (D.device self.old.disk) (D.device self.new.disk) }
        ensures rows { self.new.rows ≡ self.old.rows }
    {
        let _ = self.vault.sync();
    }
}
