//! What a set that runs says of what its callers have seen.
ghost use Rattle.std.specs.Prelude.{◌≡◌, ◌+◌, ◌≤◌, ◌∷◌, Some};
ghost use Rattle.lz_slot.specs.declared.command.Command.{Command as Asked};
ghost use Rattle.lz_slot.specs.declared.format.Format.{Format};
ghost use Rattle.lz_machine.specs.declared.event.Reply.{Reply};
ghost use Rattle.lz_machine.specs.Halts.{HaltLasts, told_device};
ghost use Rattle.lz_machine.specs.Marks.{IsTold};
ghost use Rattle.lz_board.specs.declared.view.Part.{Part};
ghost use Rattle.lz_board.specs.Notes.{Extends, shape_of_sizes, steps_of, trace_of};
ghost use Rattle.lz_board.specs.Plays.{knowing};
ghost use Rattle.lz_board.specs.Seats.{IsOf, id_of, part};
ghost use Rattle.lz_refinement.specs.Answers.{Answers};
ghost use Rattle.lz_refinement.specs.Holds.{IsLocked};
ghost use Rattle.lz_refinement.specs.Marks.{AreOfPasses, marks_in};
ghost use Rattle.lz_refinement.specs.OwnCalls.{TellsOwn, told};
ghost use Rattle.lz_refinement.specs.RunningSets.{HasHistory};
ghost use Rattle.lz_refinement.specs.Sessions.{TellsAlone};

use crate::locked::Locked;
use crate::named::Named;
use lz_board::{Board, Pass};
use lz_disk::Disk;

impl<N: Named, D: Disk> Locked<N, D> {
    /// What holds each time the lock is got: whatever a crash leaves of an honest device's disk then holds a set, to which the
    /// calls that were made and answered lead, and in which what was settled is. Each call of that history was made by a
    /// pass that had none open, and has ended once at most; none that was made after another was cut off is answered; and the device
    /// has failed at least as often as calls were told so. The notes are a run of the machine, which led to this yard.
    pub fn holds(&self)
        ensures history { HasHistory N.board self.now.notes (D.device self.now.disk) }
        ensures told { IsTold (marks_in (shape_of_sizes N.board.sizes) self.now.notes) }
        ensures passes { AreOfPasses N.board.sizes.passes (marks_in (shape_of_sizes N.board.sizes) self.now.notes) }
        ensures halts { HaltLasts (marks_in (shape_of_sizes N.board.sizes) self.now.notes) }
        ensures device { told_device (marks_in (shape_of_sizes N.board.sizes) self.now.notes) ≤ 1 }
        ensures faults { N.first.faults + told_device (marks_in (shape_of_sizes N.board.sizes) self.now.notes) ≤ (D.device self.now.disk).faults }
        ensures locked { IsLocked N.board self.now.notes self.now.yard (D.device self.now.disk) }
    {
        let _ = &self.yard;
    }

    /// The pass joins the pen for a moment, and has then seen all that was published. In that history its calls are those that
    /// it has made itself, with the replies that it got, and its steps are the pass's own; in a set of one pass there are no others. What
    /// the pass had seen before is a beginning of what was published.
    pub fn welcome(&mut self, board: &Board, pass: &mut Pass)
        requires board { id_of board.now ≡ N.board }
        requires pass { IsOf N.board pass.old }
        ensures pass { IsOf N.board pass.new }
        ensures part { part pass.new ≡ knowing (trace_of N.board.opened self.old.notes) (part pass.old) }
        ensures since { Extends (trace_of N.board.opened self.old.notes) (part pass.old).known }
        ensures same { self.new ≡ self.old }
        ensures noted { steps_of (part pass.new).number self.old.notes ≡ (part pass.new).steps }
        ensures own { TellsOwn N.board self.old.notes (part pass.new) }
        ensures alone { N.board.sizes.passes ≡ 1 → TellsAlone N.board self.old.notes (part pass.new) }
    {
        board.join(&mut self.pen, pass);
        board.cut(&mut self.pen, pass);
    }
}

/// A call that a pass has made and that was answered is the newest of its own calls, with its reply.
pub fn answers_are_told()
    ensures { (F : Format) (c : Asked) (reply : Reply) (before after : Part) → Answers F c reply before after → told (shape_of_sizes before.sizes) after.steps ≡ (c, Some reply) ∷ told (shape_of_sizes before.sizes) before.steps }
{}
