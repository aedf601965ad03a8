//! The moves of a thread's call: its beginning, a load without the lock, and a hold of each other event.
ghost use Rattle.std.specs.Prelude.{◌≡◌, ◌≤◌, ◌<◌, ◌∷◌, ℕ, [], None, Some, true, if◌then◌else◌, suc};
ghost use Rattle.lz_slot.specs.declared.command.Command.{Command as Asked};
ghost use Rattle.lz_slot.specs.declared.format.Format.{Format};
ghost use Rattle.lz_slot.specs.declared.history.HistoryEvent.TheVariants.{Call};
ghost use Rattle.lz_slot.specs.Limits.{most_buckets, most_passes};
ghost use Rattle.lz_list.specs.Walks.{wants};
ghost use Rattle.lz_machine.specs.declared.caller.Progress.TheVariants.{Answering};
ghost use Rattle.lz_machine.specs.declared.event.Event.TheVariants.{Hop};
ghost use Rattle.lz_machine.specs.declared.event.Outcome.TheVariants.{Fault, Value};
ghost use Rattle.lz_machine.specs.Calls.{event_at, progress_after};
ghost use Rattle.lz_machine.specs.Runs.{mark_of};
ghost use Rattle.lz_machine.specs.Laws.{hop_of};
ghost use Rattle.lz_machine.specs.Orders.{shape_with};
ghost use Rattle.lz_machine.specs.Runs.{reply_at};
ghost use Rattle.lz_yard.specs.Begun.{begun_after};
ghost use Rattle.lz_yard.specs.Walking.{walk_of, with_look};
ghost use Rattle.lz_board.specs.declared.view.Part.{Part};
ghost use Rattle.lz_board.specs.declared.view.What.TheVariants.{Called};
ghost use Rattle.lz_list.specs.Addresses.{index};
ghost use Rattle.lz_board.specs.Notes.{note_by, shape_of_sizes};
ghost use Rattle.lz_board.specs.Plays.{found_note, loading};
ghost use Rattle.lz_board.specs.Seats.{IsOf, id_of, part};
ghost use Rattle.lz_refinement.specs.Answers.{Answers};
ghost use Rattle.lz_refinement.specs.Marks.{Shows, calls_in, last_call_number};
ghost use Rattle.lz_refinement.specs.Counting.{Counts, CountsOn, IsCounted};
ghost use Rattle.lz_refinement.specs.Held.{Advanced, SparesDevice};
ghost use Rattle.lz_refinement.specs.Moments.{HoldExplains};
ghost use Rattle.lz_refinement.specs.Holds.{HoldNotes, IsIdle, begins_with};
ghost use Rattle.lz_refinement.specs.OneCaller.{IsPlainAnswer, keys_in};

use crate::locked::Locked;
use crate::named::Named;
use crate::playing::{Turn, play_joined};
use lz_board::{Board, Pass};
use lz_disk::Disk;
use lz_list::{Walk, Word};
use lz_machine::{Event, Reply};
use lz_slot::Command;
use lz_yard::Caller;

/// A load of the call's next word, without the lock: its caller takes the value.
pub fn load_next(board: &Board, pass: &mut Pass, caller: &mut Caller, word: Word) -> u64
    requires pass { IsOf (id_of board.now) pass.old }
    requires counted { IsCounted (id_of board.now) caller.old (part pass.old) }
    requires event { event_at (shape_with caller.old) caller.old.command caller.old.progress ≡ Hop word }
    ensures pass { IsOf (id_of board.now) pass.new }
    ensures part { part pass.new ≡ loading (part pass.new).known (index (id_of board.now).sizes word) result (part pass.old) }
    ensures caller { caller.new ≡ record caller.old { progress = progress_after (shape_with caller.old) caller.old.command caller.old.progress (Value result) } }
    ensures goes { CountsOn (id_of board.now) caller.old (part pass.old) caller.new (part pass.new) }
{
    let value = board.load(pass, word);
    caller.load(value);
    value
}

/// A load of the call's walk, without the lock, and whether the walk goes on. Where it has ended the caller takes that. Until then
/// the walk is apart from its caller, in registers.
#[inline(always)]
pub fn walk_on(board: &Board, pass: &mut Pass, caller: &mut Caller, walk: &mut Walk) -> bool
    requires pass { IsOf (id_of board.now) pass.old }
    requires walk { walk_of (with_look caller.old walk.old.look) ≡ Some walk.old }
    requires counted { IsCounted (id_of board.now) (with_look caller.old walk.old.look) (part pass.old) }
    ensures pass { IsOf (id_of board.now) pass.new }
    ensures part { (found : ℕ) × (part pass.new ≡ loading (part pass.new).known (index (id_of board.now).sizes (wants walk.old.buckets walk.old.key walk.old.look)) found (part pass.old)) }
    ensures steps { (part pass.new).steps ≡ (part pass.old).steps }
    ensures goes { CountsOn (id_of board.now) (with_look caller.old walk.old.look) (part pass.old) (if result then with_look caller.new walk.new.look else caller.new) (part pass.new) }
    ensures walk { result ≡ true → walk_of (with_look caller.new walk.new.look) ≡ Some walk.new }
{
    let look = walk.look;
    let found = board.load(pass, walk.wants());
    match walk.hop(found) {
        lz_list::Hop::More => true,
        lz_list::Hop::End { .. } => {
            caller.walk_to(look);
            caller.load(found);
            false
        }
    }
}

impl<N: Named, D: Disk> Locked<N, D> {
    /// Makes a call: the first hold of a pass that has none. The buckets and passes are those of the board, and its format is
    /// that of the set's file.
    #[inline(always)]
    pub fn begin(
        &mut self,
        board: &Board,
        pass: &mut Pass,
        command: Command,
        buckets: usize,
        passes: usize,
    ) -> Caller
        requires board { id_of board.now ≡ N.board }
        requires pass { IsOf N.board pass.old }
        requires idle { IsIdle N.board.sizes (part pass.old) }
        requires buckets { (buckets ≡ N.board.sizes.buckets) × (1 ≤ buckets) × (buckets ≤ most_buckets) }
        requires passes { (passes ≡ N.board.sizes.passes) × (1 ≤ passes) × (passes ≤ most_passes) }
        ensures pass { IsOf N.board pass.new }
        ensures moments { HoldExplains N.board self.old.notes self.new.notes (D.device self.old.disk) (D.device self.new.disk) }
        ensures shows { Shows (shape_of_sizes N.board.sizes) self.old.notes self.new.notes (Call (suc (calls_in self.old.notes)) (part pass.old).number command ∷ []) }
        ensures holds { HoldNotes N.board.opened (found_note (part pass.old).number (part pass.old).pin ∷ self.old.notes) self.new.notes (note_by (part pass.old).number (Called command N.format) None) (part pass.old) (part pass.new) }
        ensures counts { Counts N.board command N.format (part pass.old) result (part pass.new) }
        ensures caller { result ≡ record { command = command; buckets = buckets; passes = passes; progress = begun_after (begins_with N.format command) } }
    {
        let asked = command;
        let made = command;
        let _key = made.key().rank();
        board.join(&mut self.pen, pass);
        let number = pass.number();
        board.load_pin(&mut self.pen, number);
        let invoked = Event::Invoke(command);
        let turn = play_joined(board, &mut self.pen, &mut self.yard, pass, invoked);
        board.cut(&mut self.pen, pass);
        Caller::begun(asked, buckets, passes, turn.outcome)
    }

    /// One more hold of a call that isn't about to answer: the pass joins the pen, which finds the pin word that the call's next
    /// event looks at; the event, which is this one and no load, is played and noted, the pass is cut off again, and its caller
    /// takes the outcome.
    #[inline(always)]
    pub fn turn_on(
        &mut self,
        board: &Board,
        pass: &mut Pass,
        caller: &mut Caller,
        event: Event,
    ) -> Turn
        requires board { id_of board.now ≡ N.board }
        requires pass { IsOf N.board pass.old }
        requires counted { IsCounted N.board caller.old (part pass.old) }
        requires event { event ≡ event_at (shape_with caller.old) caller.old.command caller.old.progress }
        requires load { hop_of event ≡ None }
        requires going { reply_at caller.old.progress ≡ None }
        ensures pass { IsOf N.board pass.new }
        ensures moments { HoldExplains N.board self.old.notes self.new.notes (D.device self.old.disk) (D.device self.new.disk) }
        ensures shows { Shows (shape_of_sizes N.board.sizes) self.old.notes self.new.notes [] }
        ensures advanced { Advanced N.board self.old.notes self.new.notes caller.old result (part pass.old) (part pass.new) }
        ensures device { result.outcome ≡ Fault → (D.device self.old.disk).faults < (D.device self.new.disk).faults }
        ensures covered { SparesDevice self.old.yard event result.outcome (D.device self.old.disk) (D.device self.new.disk) }
        ensures caller { caller.new ≡ record caller.old { progress = progress_after (shape_with caller.old) caller.old.command caller.old.progress result.outcome } }
        ensures goes { CountsOn N.board caller.old (part pass.old) caller.new (part pass.new) }
    {
        let asked = event;
        board.join(&mut self.pen, pass);
        let found = match event {
            Event::SeePin(seen, _) => {
                let value = board.load_pin(&mut self.pen, seen);
                Event::SeePin(seen, value)
            }
            _ => asked,
        };
        let turn = play_joined(board, &mut self.pen, &mut self.yard, pass, found);
        board.cut(&mut self.pen, pass);
        caller.take(turn.outcome);
        turn
    }

    /// The last hold of a call, whose reply is this one. The pass may make the next call. In a set of one pass the reply is
    /// that of the plain set, of the members that the pass had seen before the call, and it has seen those that are left.
    #[inline(always)]
    pub fn answer(&mut self, board: &Board, pass: &mut Pass, caller: &Caller, _reply: Reply) -> Turn
        requires board { id_of board.now ≡ N.board }
        requires pass { IsOf N.board pass.old }
        requires counted { IsCounted N.board caller.now (part pass.old) }
        requires reply { caller.now.progress ≡ Answering _reply }
        ensures pass { IsOf N.board pass.new }
        ensures moments { HoldExplains N.board self.old.notes self.new.notes (D.device self.old.disk) (D.device self.new.disk) }
        ensures shows { Shows (shape_of_sizes N.board.sizes) self.old.notes self.new.notes (mark_of (last_call_number (part pass.old).number self.old.notes) _reply ∷ []) }
        ensures advanced { Advanced N.board self.old.notes self.new.notes caller.now result (part pass.old) (part pass.new) }
        ensures idle { IsIdle N.board.sizes (part pass.new) }
        ensures answers { (c : Asked) (format : Format) (before : Part) → before.sizes ≡ N.board.sizes → Counts N.board c format before caller.now (part pass.old) → Answers format c _reply before (part pass.new) }
        ensures plain { N.board.sizes.passes ≡ 1 → (c : Asked) (format : Format) (before : Part) → before.sizes ≡ N.board.sizes → Counts N.board c format before caller.now (part pass.old) → IsPlainAnswer format N.board.sizes.slots c _reply (keys_in before.known) (keys_in (part pass.new).known) }
    {
        board.join(&mut self.pen, pass);
        let turn = play_joined(board, &mut self.pen, &mut self.yard, pass, Event::Answer);
        board.cut(&mut self.pen, pass);
        turn
    }
}
