//! One turn of a pass that has joined the pen.
ghost use Rattle.std.specs.Prelude.{◌≡◌, ◌<◌, ℕ, None};
ghost use Rattle.lz_slot.specs.declared.command.Command.{Command as Asked};
ghost use Rattle.lz_machine.specs.declared.event.Event.TheVariants.{Invoke};
ghost use Rattle.lz_machine.specs.declared.event.Outcome.TheVariants.{Fault};
ghost use Rattle.lz_machine.specs.Orders.{Calling};
ghost use Rattle.lz_board.specs.Notes.{moment_at, note_by};
ghost use Rattle.lz_board.specs.Seats.{Carries, IsAtHand, carried, id_of, notes};
ghost use Rattle.lz_refinement.specs.Held.{SparesDevice};
ghost use Rattle.lz_refinement.specs.Holds.{HoldNotes, InHold, IsTurn, MayTurn, Turned, begins_with, what_of};
ghost use Rattle.lz_refinement.specs.Lives.{KeepsLife};
ghost use Rattle.lz_refinement.specs.Moments.{MomentsGoOn};

use lz_board::{Board, Moment, Note, Pass, Pen, What};
use lz_disk::Disk;
use lz_list::{Publishing, Word};
use lz_machine::{Event, Outcome};
use lz_slot::{Format, Slot};
use lz_yard::{Stepped, Told, Yard};
use std::snapshot::Snapshot;

/// What a turn gave: its outcome, and what it published, which has no bytes.
#[derive(Drop)]
pub struct Turn {
    pub outcome: Outcome,
    pub published: Snapshot<Option<Publishing>>,
}

// What the note of an event tells, on a file of this format.
fn what_of(format: Format, event: Event, outcome: Outcome) -> What
    ensures { result ≡ what_of format event outcome }
{
    match event {
        Event::Invoke(command) => What::Called(command, format),
        _ => What::Played(event, outcome),
    }
}

// The moment with which a note of this is made.
fn stamp<D: Disk>(yard: &Yard<D>, what: &What) -> Moment
    ghost moment: { ℕ }
    ensures { result ≡ moment_at moment }
{
    let _ = yard;
    let _ = what;
    Moment::new()
}

// Plays an Invoke or the next event of the pass's call, notes it, and stores the word that it changes: a pass's own pin word is counted up.
// Where it changes none, the note goes with an exchange of the halt word that fails, since that is never 2.
#[inline(always)]
pub(crate) fn play_joined<D: Disk>(
    board: &Board,
    pen: &mut Pen,
    yard: &mut Yard<D>,
    pass: &mut Pass,
    event: Event,
) -> Turn
    requires carries { Carries (id_of board.now) pen.old }
    requires hold { InHold (id_of board.now) (notes pen.old) yard.old.yard (D.device yard.old.disk) (carried pen.old) }
    requires may { MayTurn (id_of board.now).sizes (notes pen.old) (carried pen.old) event }
    requires hand { IsAtHand (id_of board.now) pass.old (carried pen.old) }
    ensures carries { Carries (id_of board.now) pen.new }
    ensures hold { InHold (id_of board.now) (notes pen.new) yard.new.yard (D.device yard.new.disk) (carried pen.new) }
    ensures hand { IsAtHand (id_of board.now) pass.new (carried pen.new) }
    ensures holds { HoldNotes (id_of board.now).opened (notes pen.old) (notes pen.new) (note_by (carried pen.old).number (what_of yard.old.yard.vault.format event result.outcome) result.published.value) (carried pen.old) (carried pen.new) }
    ensures turned { (c : Calling) → IsTurn (notes pen.old) (carried pen.old) c event → Turned (id_of board.now).opened (notes pen.old) (carried pen.old) c.command c.progress event result.outcome result.published.value }
    ensures began { (c : Asked) → event ≡ Invoke c → (result.outcome ≡ begins_with yard.old.yard.vault.format c) × (result.published.value ≡ None) }
    ensures moments { MomentsGoOn (id_of board.now) (notes pen.old) (notes pen.new) (D.device yard.old.disk) (D.device yard.new.disk) }
    ensures life { KeepsLife yard.old.yard (D.device yard.old.disk) yard.new.yard (D.device yard.new.disk) }
    ensures device { result.outcome ≡ Fault → (D.device yard.old.disk).faults < (D.device yard.new.disk).faults }
    ensures covered { SparesDevice yard.old.yard event result.outcome (D.device yard.old.disk) (D.device yard.new.disk) }
{
    let number = pass.number();
    yard.note_pin(number, pass.pin());
    let noted = event;
    let Stepped { outcome, told } = yard.step(number, event);
    let Told {
        changed,
        before,
        published,
    } = told;
    let answered = outcome;
    let what = what_of(yard.format(), noted, answered);
    let moment = stamp(yard, &what);
    let note = Note {
        by: number,
        what,
        published,
        moment,
    };
    match changed {
        Some(Word::Pin(_)) => board.shift(pen, pass, &note),
        Some(word) => {
            let other = word;
            let after = yard.words().get(word);
            board.note(pen, other, before, after, &note);
        }
        None => board.note(pen, Word::Link(Slot::new(0)), 2, 2, &note),
    }
    Turn {
        outcome,
        published: Snapshot::of(&note.published),
    }
}
