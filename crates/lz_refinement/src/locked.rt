//! What lies under the lock.
ghost use Rattle.std.specs.Prelude.{◌≡◌, ◌⊎◌, ◌≤◌, ◌<◌};
ghost use Rattle.lz_vault.specs.Opens.{open_count};
ghost use Rattle.lz_vault.specs.Vaults.{last_sync};
ghost use Rattle.lz_list.specs.Traces.{halt_word};
ghost use Rattle.lz_machine.specs.Table.{is_sure, is_taken};
ghost use Rattle.lz_board.specs.Notes.{trace_of};
ghost use Rattle.lz_board.specs.Seats.{IsPenOf, notes};
ghost use Rattle.lz_refinement.specs.Holds.{IsLocked};
ghost use Rattle.lz_refinement.specs.Lives.{LivesOn};
ghost use Rattle.lz_refinement.specs.Moments.{ExplainedSince, LeftSince, RepliesStay};

use crate::named::Named;
use lz_board::Pen;
use lz_disk::Disk;
use lz_list::Place;
use lz_slot::Slot;
use lz_yard::Yard;
use std::marker::{Model, PhantomData};

/// The yard, with the pen of the board that N names.
#[derive(Drop)]
pub struct Locked<N: Named, D: Disk> {
    pub(crate) yard: Yard<D>,
    pub(crate) pen: Pen,
    of: PhantomData<N>,
}

impl<N: Named, D: Disk> Model for Locked<N, D> {
    ghost use Rattle.lz_board.specs.Seats.{IsPenOf, notes};
    ghost use Rattle.lz_refinement.specs.Holds.{IsLocked, LockedOver};
    ghost use Rattle.lz_refinement.specs.Lives.{LivesOn};
    ghost use Rattle.lz_refinement.specs.Moments.{LeftSince, RepliesStay};

    ghost Value = { LockedOver D };

    ghost view = { λ l. record { notes = notes l.pen; yard = l.yard.yard; disk = l.yard.disk } };

    ghost invariant = { λ l. IsPenOf N.board l.pen × IsLocked N.board (notes l.pen) l.yard.yard (D.device l.yard.disk)
        × LeftSince N.board N.first (notes l.pen) (D.device l.yard.disk) × LivesOn N.format N.first (notes l.pen) l.yard.yard (D.device l.yard.disk)
        × RepliesStay N.board (D.device l.yard.disk) (notes l.pen) (notes l.pen) };
}

impl<N: Named, D: Disk> Locked<N, D> {
    /// The value under the lock of a set that was just opened: its board has the yard's words.
    pub fn new(yard: Yard<D>, pen: Pen) -> Locked<N, D>
        requires pen { IsPenOf N.board pen }
        requires yard { IsLocked N.board (notes pen) yard.yard (D.device yard.disk) }
        requires left { LeftSince N.board N.first (notes pen) (D.device yard.disk) }
        requires stays { RepliesStay N.board (D.device yard.disk) (notes pen) (notes pen) }
        requires life { LivesOn N.format N.first (notes pen) yard.yard (D.device yard.disk) }
        ensures { result ≡ record { notes = notes pen; yard = yard.yard; disk = yard.disk } }
    {
        Locked {
            yard,
            pen,
            of: PhantomData,
        }
    }

    /// Whether the last write of this slot is durable, so that its Sync calls no device.
    pub fn is_covered(&self, slot: Slot) -> bool
        ensures { result ≡ is_sure self.now.yard slot }
    {
        self.yard.is_covered(slot)
    }

    /// Whether a Claim of this pair would find it taken.
    pub fn is_taken(&self, pred: Place, curr: Option<Slot>) -> bool
        ensures { result ≡ is_taken self.now.yard pred curr }
    {
        self.yard.is_taken(pred, curr)
    }

    /// How many slots are open for sure.
    pub fn opened(&self) -> usize
        ensures { result ≡ open_count self.now.yard.vault.cells }
    {
        self.yard.opened()
    }

    /// What a crash at any moment of the life might have left: each such text is one that may be left in the state to which
    /// some beginning of the notes leads, so it explains what was seen of the calls by then. Each that might have been left since a
    /// reply was noted explains that reply and all before it. And why the life is over, where it is. Does nothing.
    pub fn moments(&self)
        ensures left { LeftSince N.board N.first self.now.notes (D.device self.now.disk) }
        ensures explained { ExplainedSince N.board N.first self.now.notes (D.device self.now.disk) }
        ensures stays { RepliesStay N.board (D.device self.now.disk) self.now.notes self.now.notes }
        ensures life { LivesOn N.format N.first self.now.notes self.now.yard (D.device self.now.disk) }
    {
        let _ = &self.yard;
    }

    /// Ends the life, and hands the disk back as it is. Where the set was halted no sync was left, or the device has failed.
    pub fn close(self) -> D
        ensures disk { result ≡ self.disk }
        ensures left { LeftSince N.board N.first self.notes (D.device result) }
        ensures explained { ExplainedSince N.board N.first self.notes (D.device result) }
        ensures stays { RepliesStay N.board (D.device result) self.notes self.notes }
        ensures life { LivesOn N.format N.first self.notes self.yard (D.device result) }
        ensures over { halt_word (trace_of N.board.opened self.notes) ≡ 1 → (last_sync ≤ self.yard.vault.syncs) ⊎ (N.first.faults < (D.device result).faults) }
    {
        self.yard.close()
    }
}
