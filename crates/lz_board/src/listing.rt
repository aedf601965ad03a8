//! Lists of slots by passes that hold no lock.
ghost use Rattle.std.specs.Prelude.{◌≡◌, ◌≤◌, ◌<◌, ◌+◌, ◌⊎◌, ℕ, [], Some, IfSome, true, vec_capacity, vec_len};
ghost use Rattle.lz_slot.specs.Limits.{largest_key};
ghost use Rattle.lz_board.specs.Walkers.{glance_of, key_if};

use crate::answer::{Glance, GlanceFault};
use crate::board::Board;
use crate::glancing::told;
use crate::page::{ListFault, Page};
use crate::pass::Pass;
use lz_list::{Met, Word, link_of};
use lz_slot::{Key, Slot};
use std::alloc::Global;

/// How many slots a page goes over at most: those that are given up while its pass is inside wait until it is outside again.
const PAGE_SLOTS: usize = 4_096;

impl Board {
    ghost use Rattle.std.specs.Prelude.{◌%◌, false, IfOk, IfErr};
    ghost use Rattle.lz_list.specs.Traces.{halt_word};
    ghost use Rattle.lz_machine.specs.Yards.{IsInside};
    ghost use Rattle.lz_board.specs.Notes.{Since};
    ghost use Rattle.lz_board.specs.Kept.{is_calling};
    ghost use Rattle.lz_board.specs.Plays.{knowing, IsShownTo};
    ghost use Rattle.lz_board.specs.Seats.{id_of, part, IsOf};
    ghost use Rattle.lz_board.specs.Glances.{Glanced, IsUnhalted};
    ghost use Rattle.lz_board.specs.Listings.{page_slots, IsPage, Lists, WasAway};
    ghost use Rattle.lz_board.specs.Walkers.{KeepsCall};

    // The key of a slot's node, where it was settled as a member since the pass went inside.
    fn list_slot(&self, pass: &mut Pass, slot: Slot) -> Option<Key>
        requires here { IsOf (id_of self.now) pass.old }
        requires inside { IsInside pass.old.pin }
        requires slot { slot < (id_of self.now).sizes.slots }
        ensures here { IsOf (id_of self.now) pass.new }
        ensures part { part pass.new ≡ knowing (part pass.new).known (part pass.old) }
        ensures shown { IsShownTo (part pass.new).known (part pass.old) }
        ensures told { IfSome result (λ key. Glanced key (part pass.old).begun (part pass.new).known true) }
        ensures others { (k : ℕ) → k ≤ largest_key → (result ≡ Some k) ⊎ WasAway slot k (part pass.old).begun (part pass.new).known }
    {
        let flags = link_of(self.look(pass, Word::Link(slot))).flags;
        if flags.mark || !flags.add_settled {
            return None;
        }
        let key = Key::of_rank(self.look(pass, Word::Key(slot)))?;
        sure_key(self.walk(pass, key), key)
    }

    // The keys of the slots from one on, by a pass that is inside.
    fn list_slots(&self, pass: &mut Pass, room: Vec<Key>, from: usize, most: usize) -> Page
        requires here { IsOf (id_of self.now) pass.old }
        requires inside { IsInside pass.old.pin }
        requires most { 1 ≤ most }
        requires empty { room.items ≡ [] }
        requires room { (most ≤ vec_capacity room) ⊎ (page_slots ≤ vec_capacity room) }
        ensures here { IsOf (id_of self.now) pass.new }
        ensures part { part pass.new ≡ knowing (part pass.new).known (part pass.old) }
        ensures shown { Since (part pass.old).number (part pass.new).known (part pass.old).known }
        ensures page { IsPage (id_of self.now).sizes.slots from most result.keys.items result.next (part pass.old).begun (part pass.new).known }
    {
        let slots = self.sizes.slots;
        let upto = slots.min(from.saturating_add(PAGE_SLOTS));
        let mut keys = room;
        for index in from..upto {
            let slot = Slot::new(index as u32);
            if keys.len() == most {
                return Page {
                    keys,
                    next: Some(slot),
                };
            }
            if let Some(key) = self.list_slot(pass, slot) {
                keys.push_reserved(key);
            }
        }
        let next = (upto < slots).then_some(Slot::new(upto as u32));
        Page { keys, next }
    }

    // A pass that is inside looks whether the service is over, and then at the slots.
    fn list_inside(
        &self,
        pass: &mut Pass,
        room: Vec<Key>,
        from: usize,
        most: usize,
    ) -> Result<Page, ListFault>
        requires here { IsOf (id_of self.now) pass.old }
        requires inside { IsInside pass.old.pin }
        requires most { 1 ≤ most }
        requires empty { room.items ≡ [] }
        requires room { (most ≤ vec_capacity room) ⊎ (page_slots ≤ vec_capacity room) }
        ensures here { IsOf (id_of self.now) pass.new }
        ensures part { part pass.new ≡ knowing (part pass.new).known (part pass.old) }
        ensures shown { Since (part pass.old).number (part pass.new).known (part pass.old).known }
        ensures ok { IfOk result (λ page. IsPage (id_of self.now).sizes.slots from most page.keys.items page.next (part pass.old).begun (part pass.new).known) }
        ensures unhalted { IfOk result (λ page. IsUnhalted (part pass.old).known) }
        ensures err { IfErr result (λ fault. (fault ≡ ListFault.Glance GlanceFault.Halted) × (halt_word (part pass.new).known ≡ 1)) }
    {
        if self.look(pass, Word::Halt) == 1 {
            return Err(ListFault::Glance(GlanceFault::Halted));
        }
        Ok(self.list_slots(pass, room, from, most))
    }

    /// The keys that are members by the slots from one on, up to `most` of them, for a pass that has no call open: it goes
    /// inside, looks at no more than 4,096 slots, and goes outside again. It waits for nobody, takes the memory first, and no
    /// step of its is noted.
    pub fn list(
        &self,
        alloc: Global,
        pass: &mut Pass,
        from: Slot,
        most: usize,
    ) -> Result<Page, ListFault>
        requires here { IsOf (id_of self.now) pass.old }
        requires idle { is_calling (id_of self.now).sizes (part pass.old).steps ≡ false }
        requires most { 1 ≤ most }
        ensures here { IsOf (id_of self.now) pass.new }
        ensures lists { Lists (id_of self.now).sizes.slots from most result (part pass.old) (part pass.new) }
        ensures outside { pass.old.pin % 2 ≡ 0 → pass.new.pin % 2 ≡ 0 }
        ensures call { KeepsCall (part pass.old) (part pass.new) }
    {
        let Ok(room) = Vec::with_capacity(alloc, most.min(PAGE_SLOTS)) else {
            return Err(ListFault::Memory);
        };
        if let Err(fault) = self.pin(pass) {
            return Err(ListFault::Glance(fault));
        }
        let answer = self.list_inside(pass, room, from.index() as usize, most);
        self.unpin(pass);
        answer
    }
}

// The key, where a glance whose walk met this says yes.
fn sure_key(met: Met, key: Key) -> Option<Key>
    ensures { result ≡ key_if (glance_of met) key }
{
    match told(met) {
        Glance::Yes => Some(key),
        _ => None,
    }
}
