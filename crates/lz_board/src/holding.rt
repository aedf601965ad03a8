//! What the pen does while a pass has joined it: a step of that pass, noted and stored, under the lock that has the pen.
use crate::board::{Board, Pen};
use crate::pass::Pass;
use crate::rule::{Hand, Looks, Notes, Saws, Shifts};
use crate::view::Note;
use lz_list::Word;

impl Board {
    ghost use Rattle.std.specs.Prelude.{◌≡◌, ◌+◌, ◌∷◌, ◌≤◌};
    ghost use Rattle.lz_board.specs.Notes.{trace_of};
    ghost use Rattle.lz_board.specs.Kept.{Knows, PinTold};
    ghost use Rattle.lz_board.specs.Noting.{MayNote, KeepsPin, MovesPin, Writes};
    ghost use Rattle.lz_board.specs.Plays.{knowing, noted, noted_part, moved_part, found_note};
    ghost use Rattle.lz_board.specs.Seats.{id_of, part, IsAtHand, IsOf, notes, carried, IsPenOf, Carries};

    /// The pass takes its place in the pen's seat, and has seen all that the pen has published.
    pub fn join(&self, pen: &mut Pen, pass: &mut Pass)
        requires pen { IsPenOf (id_of self.now) pen.old }
        requires pass { IsOf (id_of self.now) pass.old }
        ensures carries { Carries (id_of self.now) pen.new }
        ensures notes { notes pen.new ≡ notes pen.old }
        ensures carried { carried pen.new ≡ knowing (trace_of (id_of self.now).opened (notes pen.old)) (part pass.old) }
        ensures knows { Knows (id_of self.now).sizes (id_of self.now).opened (notes pen.old) (part pass.old) }
        ensures told { PinTold (id_of self.now).sizes (notes pen.old) (part pass.old).number (part pass.old).pin }
        ensures same { (pass.new.number ≡ pass.old.number) × (pass.new.pin ≡ pass.old.pin) }
    {
        let at = self.sizes.place(Word::Halt);
        let seat = pass.rise();
        self.table.shared.join_seat::<Hand>(&mut pen.seat, seat);
        self.table.shared.load::<Looks>(&mut pen.seat, at);
    }

    /// Notes a step of the pass that has joined the pen, after the loads of its call, and stores the word that it changes:
    /// the word becomes `new` where it was `old`.
    pub fn note(&self, pen: &mut Pen, word: Word, old: u64, new: u64, note: &Note)
        requires carries { Carries (id_of self.now) pen.old }
        requires may { MayNote (id_of self.now).sizes (id_of self.now).opened (notes pen.old) (carried pen.old) note.now }
        requires keeps { KeepsPin (carried pen.old) note.now }
        requires writes { Writes (id_of self.now).sizes (trace_of (id_of self.now).opened (notes pen.old)) word old new note.now.published }
        ensures carries { Carries (id_of self.now) pen.new }
        ensures notes { notes pen.new ≡ noted (id_of self.now).opened (notes pen.old) (carried pen.old) note.now }
        ensures carried { carried pen.new ≡ noted_part (id_of self.now).opened (notes pen.old) note.now (carried pen.old) }
    {
        let at = self.sizes.place(word);
        self.table
            .shared
            .compare_exchange_with::<Notes>(&mut pen.seat, at, old, new, note);
    }

    /// The same of a step that counts up the pass's pin word.
    pub fn shift(&self, pen: &mut Pen, pass: &mut Pass, note: &Note)
        requires carries { Carries (id_of self.now) pen.old }
        requires pass { (pass.old.number ≡ (carried pen.old).number) × (pass.old.pin ≡ (carried pen.old).pin) }
        requires number { (1 ≤ pass.old.number) × (pass.old.number ≤ (id_of self.now).sizes.passes) }
        requires may { MayNote (id_of self.now).sizes (id_of self.now).opened (notes pen.old) (carried pen.old) note.now }
        requires moves { MovesPin (carried pen.old) note.now }
        ensures carries { Carries (id_of self.now) pen.new }
        ensures notes { notes pen.new ≡ noted (id_of self.now).opened (notes pen.old) (carried pen.old) note.now }
        ensures carried { carried pen.new ≡ moved_part (id_of self.now).opened (notes pen.old) note.now (carried pen.old) }
        ensures pass { (pass.new.number ≡ pass.old.number) × (pass.new.pin ≡ pass.old.pin + 1) }
    {
        let at = self.sizes.place(Word::Pin(pass.number));
        let pin = pass.pin + 1;
        self.table
            .shared
            .compare_exchange_with::<Shifts>(&mut pen.seat, at, pass.pin, pin, note);
        pass.pin = pin;
    }

    /// The pen finds the pin word of a pass, and notes what it found.
    pub fn load_pin(&self, pen: &mut Pen, number: usize) -> u64
        requires carries { Carries (id_of self.now) pen.old }
        requires number { (1 ≤ number) × (number ≤ (id_of self.now).sizes.passes) }
        ensures carries { Carries (id_of self.now) pen.new }
        ensures notes { notes pen.new ≡ found_note number result ∷ notes pen.old }
        ensures carried { carried pen.new ≡ carried pen.old }
        ensures told { PinTold (id_of self.now).sizes (notes pen.old) number result }
        ensures own { (carried pen.old).number ≡ number → (carried pen.old).pin ≡ result }
    {
        let at = self.sizes.place(Word::Pin(number));
        self.table.shared.load::<Saws>(&mut pen.seat, at)
    }

    /// The pass has a seat again.
    pub fn cut(&self, pen: &mut Pen, pass: &mut Pass)
        requires pen { Carries (id_of self.now) pen.old }
        requires pass { IsAtHand (id_of self.now) pass.old (carried pen.old) }
        ensures pen { IsPenOf (id_of self.now) pen.new }
        ensures pass { IsOf (id_of self.now) pass.new }
        ensures notes { notes pen.new ≡ notes pen.old }
        ensures part { part pass.new ≡ carried pen.old }
    {
        let seat = self.table.shared.split_seat::<Hand>(&mut pen.seat);
        pass.sit(seat);
    }
}
