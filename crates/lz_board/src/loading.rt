//! What a pass does alone, without a lock: loads, and stores of its own pin word.
use crate::answer::GlanceFault;
use crate::board::Board;
use crate::pass::Pass;
use crate::rule::{Enters, Hand, Loads, Looks};
use lz_list::{LAST_PIN, Word};

impl Board {
    ghost use Rattle.std.specs.Prelude.{◌≡◌, ◌≢◌, suc, ◌%◌, ◌<◌, false, IfOk, IfErr};
    ghost use Rattle.lz_list.specs.Traces.{word_after};
    ghost use Rattle.lz_machine.specs.Table.{last_pin};
    ghost use Rattle.lz_board.specs.Notes.{IsShared};
    ghost use Rattle.lz_list.specs.Addresses.{index};
    ghost use Rattle.lz_machine.specs.Yards.{IsInside};
    ghost use Rattle.lz_board.specs.Kept.{is_calling};
    ghost use Rattle.lz_board.specs.Plays.{knowing, loading, entering, IsShownTo};
    ghost use Rattle.lz_board.specs.Seats.{id_of, part, IsOf};

    /// The word after some beginning of the trace, which begins with all that the pass had seen. It is a step of the pass's
    /// call, which the next hold notes.
    pub fn load(&self, pass: &mut Pass, word: Word) -> u64
        requires word { IsShared (id_of self.now).sizes word }
        requires here { IsOf (id_of self.now) pass.old }
        ensures here { IsOf (id_of self.now) pass.new }
        ensures part { part pass.new ≡ loading (part pass.new).known (index (id_of self.now).sizes word) result (part pass.old) }
        ensures shown { IsShownTo (part pass.new).known (part pass.old) }
        ensures value { result ≡ word_after (id_of self.now).sizes.buckets (part pass.new).known word }
    {
        let at = self.sizes.place(word);
        let mut seat = pass.rise();
        let found = self.table.shared.load::<Loads>(&mut seat, at);
        pass.sit(seat);
        found
    }

    /// The same where the pass has no call: the load is no step of one.
    pub fn look(&self, pass: &mut Pass, word: Word) -> u64
        requires word { IsShared (id_of self.now).sizes word }
        requires here { IsOf (id_of self.now) pass.old }
        ensures here { IsOf (id_of self.now) pass.new }
        ensures part { part pass.new ≡ knowing (part pass.new).known (part pass.old) }
        ensures shown { IsShownTo (part pass.new).known (part pass.old) }
        ensures value { result ≡ word_after (id_of self.now).sizes.buckets (part pass.new).known word }
    {
        let at = self.sizes.place(word);
        let mut seat = pass.rise();
        let found = self.table.shared.load::<Looks>(&mut seat, at);
        pass.sit(seat);
        found
    }

    // A pass without a call counts up its pin word: it goes inside or outside.
    fn turn(&self, pass: &mut Pass)
        requires here { IsOf (id_of self.now) pass.old }
        requires idle { is_calling (id_of self.now).sizes (part pass.old).steps ≡ false }
        requires room { pass.old.pin < last_pin }
        ensures here { IsOf (id_of self.now) pass.new }
        ensures part { part pass.new ≡ entering (part pass.new).known (suc pass.old.pin) (part pass.old) }
        ensures shown { IsShownTo (part pass.new).known (part pass.old) }
    {
        let at = self.sizes.place(Word::Pin(pass.number));
        let pin = pass.pin + 1;
        let mut seat = pass.rise();
        self.table.shared.store::<Enters>(&mut seat, at, pin);
        pass.sit(seat);
        pass.pin = pin;
    }

    /// A pass that has no call goes inside, where walkers stand.
    pub fn pin(&self, pass: &mut Pass) -> Result<(), GlanceFault>
        requires here { IsOf (id_of self.now) pass.old }
        requires idle { is_calling (id_of self.now).sizes (part pass.old).steps ≡ false }
        ensures here { IsOf (id_of self.now) pass.new }
        ensures ok { IfOk result (λ done. (part pass.new ≡ entering (part pass.new).known (suc pass.old.pin) (part pass.old)) × IsShownTo (part pass.new).known (part pass.old) × (pass.old.pin % 2 ≡ 0)) }
        ensures err { IfErr result (λ fault. (part pass.new ≡ part pass.old) × (pass.new.pin ≡ pass.old.pin) × (fault ≡ GlanceFault.Worn → pass.old.pin ≡ last_pin) × (fault ≡ GlanceFault.BusyPass → IsInside pass.old.pin) × (fault ≢ GlanceFault.Halted)) }
    {
        if pass.is_inside() {
            return Err(GlanceFault::BusyPass);
        }
        if pass.pin == LAST_PIN {
            return Err(GlanceFault::Worn);
        }
        self.turn(pass);
        Ok(())
    }

    /// And it goes outside again.
    pub fn unpin(&self, pass: &mut Pass)
        requires here { IsOf (id_of self.now) pass.old }
        requires idle { is_calling (id_of self.now).sizes (part pass.old).steps ≡ false }
        requires inside { IsInside pass.old.pin }
        ensures here { IsOf (id_of self.now) pass.new }
        ensures part { part pass.new ≡ entering (part pass.new).known (suc pass.old.pin) (part pass.old) }
        ensures shown { IsShownTo (part pass.new).known (part pass.old) }
    {
        self.turn(pass);
    }

    /// Afterwards each pass has seen all that either had seen.
    pub fn meet(&self, one: &mut Pass, other: &mut Pass)
        requires one { IsOf (id_of self.now) one.old }
        requires other { IsOf (id_of self.now) other.old }
        ensures one { IsOf (id_of self.now) one.new }
        ensures other { IsOf (id_of self.now) other.new }
        ensures part_one { part one.new ≡ knowing (part one.new).known (part one.old) }
        ensures part_other { part other.new ≡ knowing (part one.new).known (part other.old) }
        ensures shown_one { IsShownTo (part one.new).known (part one.old) }
        ensures shown_other { IsShownTo (part one.new).known (part other.old) }
    {
        let at = self.sizes.place(Word::Halt);
        let mut seat = one.rise();
        let joining = other.rise();
        self.table.shared.join_seat::<Hand>(&mut seat, joining);
        self.table.shared.load::<Looks>(&mut seat, at);
        let leaving = self.table.shared.split_seat::<Hand>(&mut seat);
        one.sit(seat);
        other.sit(leaving);
    }
}
