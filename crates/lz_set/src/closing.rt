//! The end of a set's life.
ghost use Rattle.std.specs.Prelude.{◌≡◌, All, List, map};
ghost use Rattle.lz_board.specs.declared.view.Note.{Note};
ghost use Rattle.lz_board.specs.declared.view.Part.{Part};
ghost use Rattle.lz_board.specs.Notes.{Extends, trace_of};
ghost use Rattle.lz_board.specs.Plays.{knowing};
ghost use Rattle.lz_board.specs.Seats.{IsOf, id_of, part};
ghost use Rattle.lz_set.specs.Left.{IsLeft, IsLeftWith, IsWelcome};

use crate::gate::StepGate;
use crate::set::Set;
use lz_board::{Board, Pass};
use lz_disk::Disk;
use lz_refinement::{Locked, Named};

impl<D: Disk, G: StepGate, N: Named> Set<D, G, N> {
    /// Ends the life, and hands the disk back as it is: whatever a crash leaves of it explains what callers have seen.
    pub fn close(self) -> D
        ensures left { (ns : List Note) × IsLeft N.board N.first ns (D.device result) }
    {
        let locked = self.locked.into_inner();
        locked.holds();
        locked.close()
    }

    /// Ends the life after the calls of these passes, whose threads are done: in the history that explains what is left,
    /// their calls are those that they made, with the replies that they got.
    pub fn close_with(self, passes: &mut [Pass]) -> D
        requires passes { All (λ p. IsOf N.board p) passes.old }
        ensures passes { All (λ p. IsOf N.board p) passes.new }
        ensures left { IsLeftWith N.board N.first (D.device result) (map (λ p. part p) passes.old) (map (λ p. part p) passes.new) }
    {
        let Set { board, locked, .. } = self;
        let mut locked = locked.into_inner();
        welcome_all(&board, &mut locked, passes);
        locked.holds();
        locked.close()
    }
}

// Each of the passes joins the pen for a moment.
fn welcome_all<N: Named, D: Disk>(board: &Board, locked: &mut Locked<N, D>, passes: &mut [Pass])
    requires board { id_of board.now ≡ N.board }
    requires passes { All (λ p. IsOf N.board p) passes.old }
    ensures same { locked.new ≡ locked.old }
    ensures passes { All (λ p. IsOf N.board p) passes.new }
    ensures since { All (λ (h : Part). Extends (trace_of N.board.opened locked.old.notes) h.known) (map (λ p. part p) passes.old) }
    ensures seen { map (λ p. part p) passes.new ≡ map (knowing (trace_of N.board.opened locked.old.notes)) (map (λ p. part p) passes.old) }
    ensures welcome { All (IsWelcome N.board locked.old.notes) (map (λ p. part p) passes.new) }
{
    for i in 0..passes.len() {
        locked.welcome(board, &mut passes[i]);
    }
}
