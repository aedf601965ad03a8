//! What an event needs, and what becomes of it.
ghost use Rattle.std.specs.Prelude.{◌≡◌, ◌≢◌, ◌≤◌, length, true};
ghost use Rattle.lz_vault.specs.Vaults.{NoCall, Succeeds};
ghost use Rattle.lz_machine.specs.Table.{course, needs};
ghost use Rattle.lz_machine.specs.Ready.{IsEventOf};
ghost use Rattle.lz_machine.specs.Runs.{MayPlay};
ghost use Rattle.lz_yard.specs.Parts.{PartsFit, Known};
ghost use Rattle.lz_yard.specs.Plays.{IfPlays, MayBePlayed};

use crate::hold::{
    has_checked, has_closed, has_marked, has_opened, is_played_dead, may_check, may_claim,
    may_release, may_retire, stays_out,
};
use crate::parts::Parts;
use lz_disk::Disk;
use lz_list::{LAST_PIN, Word};
use lz_machine::{Course, Event, Outcome};

impl<D: Disk> Parts<D> {
    // Whether an event has what it needs.
    #[inline(always)]
    fn needs(&self, actor: usize, event: Event) -> bool
        requires low { 1 ≤ actor }
        requires high { actor ≤ length self.now.yard.actors }
        requires fits { PartsFit self.now.yard self.now.rows }
        ensures { result ≡ needs self.now.yard actor event }
    {
        let hand = self.actor(actor);
        let pin = self.word(Word::Pin(actor));
        match event {
            Event::Invoke(_) | Event::Sync(_) | Event::Settle(_) | Event::SeePin(_, _) => true,
            Event::Pin => pin % 2 == 0,
            Event::Hop(_) => pin % 2 != 0,
            Event::Reserve => hand.slot.is_none(),
            Event::WriteKey(_) => hand.slot.is_some() && !has_opened(hand.hold),
            Event::Claim(_, _) => may_claim(hand.hold),
            Event::Check => may_check(hand.hold),
            Event::WriteOpen => match hand.slot {
                Some(slot) => has_checked(hand.hold) && self.stage(slot).is_keyed(),
                None => false,
            },
            Event::Link => has_opened(hand.hold),
            Event::WriteClose => match hand.curr {
                Some(slot) => has_checked(hand.hold) && !self.is_marked(slot),
                None => false,
            },
            Event::Mark => has_closed(hand.hold),
            Event::Release => may_release(hand.hold),
            Event::Unlink => match hand.curr {
                Some(slot) => has_marked(hand.hold) && self.stage(slot).is_closed(),
                None => false,
            },
            Event::Retire => may_retire(hand.hold),
            Event::Answer => pin % 2 != 0 || stays_out(hand, pin),
            Event::Halt => self.is_dead(),
        }
    }

    // What becomes of an event.
    #[tactic(auto, using(lz_machine::proofs::Runs::Course::course_rules))]
    #[inline(always)]
    pub(crate) fn course(&self, actor: usize, event: Event) -> Course
        requires actor { (1 ≤ actor) × (actor ≤ self.now.yard.shape.passes) }
        requires fits { PartsFit self.now.yard self.now.rows }
        requires event { IsEventOf self.now.yard event }
        requires may { needs self.now.yard actor event ≡ true → MayPlay self.now.yard (D.device self.now.disk).honest (D.device self.now.disk).medium actor event }
        ensures course { result ≡ course self.now.yard actor event }
        ensures known { Known result self.now.yard actor event }
        ensures plays { IfPlays result (MayBePlayed D.device self.now actor event) }
        ensures told { result ≢ Course.Refused Outcome.Fault }
        ensures quiet { Succeeds NoCall (D.device self.now.disk) (D.device self.now.disk) }
    {
        let asked = event;
        let tried = event;
        if self.is_dead() && !is_played_dead(asked) {
            return Course::Refused(Outcome::Dead);
        }
        if !self.needs(actor, tried) {
            return Course::Refused(Outcome::NotNow);
        }
        let pin = self.word(Word::Pin(actor));
        match event {
            Event::Pin if pin == LAST_PIN => Course::Refused(Outcome::Worn),
            Event::Sync(slot) if !self.is_sure(slot) && self.is_spent() => Course::Dies,
            _ => Course::Plays,
        }
    }
}
