//! Passes.
use crate::view::{Note, View};
use atomic_table::{Badge, Seat};
use std::mem;

/// A seat that loads, and its pin word.
#[derive(Drop)]
pub struct Pass {
    pub(crate) badge: Badge<View>,
    pub(crate) number: usize,
    pub(crate) pin: u64,
}

impl Pass {
    ghost use Rattle.std.specs.Prelude.{◌≡◌, ◌∷◌, [], ◌%◌, ◌↔◌, IsTrue};
    ghost use Rattle.lz_board.specs.Plays.{alone};
    ghost use Rattle.lz_board.specs.Seats.{part};
    ghost use Rattle.lz_machine.specs.Yards.{IsInside};

    // The pass's seat. Until it sits again, the pass has none.
    pub(crate) fn rise(&mut self) -> Seat<Note, View>
        requires { self.old.badge.views ≡ alone (part self.old) ∷ [] }
        ensures seat { (result.table_id ≡ self.old.badge.table_id) × (result.me ≡ (alone (part self.old), [])) }
        ensures away { self.new.badge.views ≡ [] }
        ensures same { (self.new.number ≡ self.old.number) × (self.new.pin ≡ self.old.pin) }
    {
        mem::replace(&mut self.badge, Badge::blank()).into_seat()
    }

    // It sits again.
    pub(crate) fn sit(&mut self, seat: Seat<Note, View>)
        requires { seat.me.1 ≡ [] }
        ensures seat { (self.new.badge.table_id ≡ seat.table_id) × (self.new.badge.views ≡ seat.me.0 ∷ []) }
        ensures same { (self.new.number ≡ self.old.number) × (self.new.pin ≡ self.old.pin) }
    {
        self.badge = seat.into_badge();
    }

    /// The pass's number, from 1.
    pub fn number(&self) -> usize
        ensures { result ≡ self.now.number }
    {
        self.number
    }

    /// Its pin word.
    pub fn pin(&self) -> u64
        ensures { result ≡ self.now.pin }
    {
        self.pin
    }

    /// Whether the pass is inside.
    pub fn is_inside(&self) -> bool
        ensures { IsTrue result ↔ IsInside self.now.pin }
    {
        self.pin % 2 == 1
    }
}
