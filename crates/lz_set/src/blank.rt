//! A set that has no name yet.
ghost use Rattle.std.specs.Prelude.{◌≡◌, All};
ghost use Rattle.lz_slot.specs.Sets.{HasMembers};
ghost use Rattle.lz_refinement.specs.RunningSets.{members_of};
ghost use Rattle.lz_set.specs.Blanks.{AreNew, MayBeNamed};
ghost use Rattle.lz_set.specs.Names.{MayCall};

use crate::gate::StepGate;
use crate::set::Set;
use lz_board::{Board, Pass, Pen};
use lz_disk::Disk;
use lz_refinement::{Locked, Named};
use lz_yard::Yard;
use std::marker::Model;

/// A set that was opened and has no name yet, with its passes.
#[derive(Drop)]
pub struct Blank<D: Disk, G: StepGate> {
    pub(crate) board: Board,
    pub(crate) pen: Pen,
    pub(crate) yard: Yard<D>,
    pub(crate) passes: Vec<Pass>,
    pub(crate) buckets: usize,
    pub(crate) gate: G,
}

impl<D: Disk, G: StepGate> Model for Blank<D, G> {
    ghost use Rattle.lz_board.specs.Seats.{id_of};
    ghost use Rattle.lz_set.specs.Blanks.{BlankOver, IsBlank};

    ghost Value = { BlankOver D };

    ghost view = { λ b. record { board = id_of b.board; yard = b.yard.yard; disk = b.yard.disk } };

    ghost invariant = { λ b. IsBlank (id_of b.board) b.pen b.yard.yard (D.device b.yard.disk) b.passes.items b.buckets };
}

impl<D: Disk, G: StepGate> Blank<D, G> {
    /// How many slots its file has.
    pub fn slots(&self) -> usize
        ensures { result ≡ self.now.board.sizes.slots }
    {
        self.yard.slots()
    }

    /// How many members it begins with.
    pub fn members(&self) -> usize
        ensures { HasMembers (members_of self.now.board.opened) result }
    {
        self.yard.counts().taken
    }

    /// The set, and its passes in the order of their numbers, of which none has done anything yet.
    pub fn start<N: Named>(self) -> (Set<D, G, N>, Vec<Pass>)
        requires { MayBeNamed D.device N.board N.first N.format self }
        ensures may { All (MayCall N.board) result.1.items }
        ensures passes { AreNew N.board result.1.items }
    {
        let Blank {
            board,
            pen,
            yard,
            passes,
            buckets,
            gate,
        } = self;
        let count = passes.len();
        let locked = Locked::new(yard, pen);
        (Set::of(board, locked, gate, buckets, count), passes)
    }
}
