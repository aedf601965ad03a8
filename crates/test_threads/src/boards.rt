//! Boards: what passes see while the pen links, settles and halts.
ghost use Rattle.std.specs.Prelude.{◌≡◌, ◌≢◌, ◌%◌, ◌∷◌, ℕ, false, All, IfSome, Some};
ghost use Rattle.lz_list.specs.Traces.{Lawful};
ghost use Rattle.lz_machine.specs.Limbo.{IsAway};
ghost use Rattle.lz_board.specs.Laws.{Prepares};
ghost use Rattle.lz_board.specs.Notes.{is_for, pin_after_played, trace_of};
ghost use Rattle.lz_board.specs.Noting.{Writes};
ghost use Rattle.lz_board.specs.Seats.{id_of, notes, part, IsOf, IsPenOf};
ghost use Rattle.test_threads.specs.NineFound.{at_open, link_stored, when_linked, when_settled, HasPublished, MayLook};

use lz_board::{Board, Glance, GlanceFault, Moment, Note, Pass, Pen, What};
use lz_list::{Change, Publishing, Word, Words};
use lz_machine::{Event, Outcome};
use lz_slot::{Key, Slot};
use std::alloc::Global;
use std::process::Abort;
use std::test::Fail;

/// A word that becomes `new` where it was `old`, by an event that publishes this.
#[derive(Drop)]
pub struct Store {
    pub word: Word,
    pub old: u64,
    pub new: u64,
    pub event: Event,
    pub publishing: Publishing,
}

/// The pen stores a word for a pass: the pass joins it, the pen finds the pin word of the pass and notes the event, and the
/// pass is cut off again.
pub fn publish(board: &Board, pen: &mut Pen, pass: &mut Pass, store: Store)
    requires pen { IsPenOf (id_of board.now) pen.old }
    requires pass { IsOf (id_of board.now) pass.old }
    requires outside { (part pass.old).pin % 2 ≡ 0 }
    requires writes { Writes (id_of board.now).sizes (trace_of (id_of board.now).opened (notes pen.old)) store.word store.old store.new (Some store.publishing) }
    requires lawful { Lawful (id_of board.now).sizes.buckets (id_of board.now).sizes.slots (store.publishing ∷ trace_of (id_of board.now).opened (notes pen.old)) }
    requires made { (q : ℕ) → q ≢ pass.old.number → is_for q store.publishing ≡ false }
    requires prepares { (s : ℕ) → Prepares s store.publishing → IsAway (id_of board.now).sizes.buckets (id_of board.now).opened (trace_of (id_of board.now).opened (notes pen.old)) s }
    requires keeps { (pin : ℕ) → pin_after_played store.event Outcome.Done pin ≡ pin }
    ensures pen { IsPenOf (id_of board.now) pen.new }
    ensures pass { IsOf (id_of board.now) pass.new }
    ensures number { pass.new.number ≡ pass.old.number }
    ensures outside { (part pass.new).pin % 2 ≡ 0 }
    ensures trace { trace_of (id_of board.now).opened (notes pen.new) ≡ store.publishing ∷ trace_of (id_of board.now).opened (notes pen.old) }
{
    board.join(pen, pass);
    board.load_pin(pen, pass.number());
    let note = Note {
        by: pass.number(),
        what: What::Played(store.event, Outcome::Done),
        published: Some(store.publishing),
        moment: Moment::new(),
    };
    board.note(pen, store.word, store.old, store.new, &note);
    board.cut(pen, pass);
}

/// The key of this number, which has to be one.
pub fn key(rt: &impl Abort, number: u64) -> Key
    ensures { result ≡ number }
{
    let Some(key) = Key::new(number) else {
        panic!(rt; "no key")
    };
    key
}

/// The link word of a node without a successor, whose adding is settled.
pub const SETTLED: u64 = 8_589_934_592;

/// A board of two slots, where an open found key 9 in slot 0: with its pen, a pass, and the four others.
pub fn new_board(alloc: Global) -> Option<(Board, Pen, Pass, Vec<Pass>)>
    ensures here { IfSome result (λ r. HasPublished (id_of r.0) r.1 r.2 at_open) }
    ensures others { IfSome result (λ r. All (MayLook (id_of r.0)) r.3.items) }
{
    let Ok(mut words) = Words::new(alloc, 2, 1, 5) else {
        return None;
    };
    words.set(Word::Key(Slot::new(0)), 9);
    words.set(Word::Link(Slot::new(0)), SETTLED);
    words.set(Word::Head(0), 1);
    let Some((board, pen, mut passes)) = Board::new(alloc, &words) else {
        return None;
    };
    let Some(pass) = passes.pop() else {
        return None;
    };
    Some((board, pen, pass, passes))
}

/// The pen prepares key 12 in slot 1.
pub fn prepare(board: &Board, pen: &mut Pen, pass: &mut Pass, slot: Slot, twelve: Key)
    requires here { HasPublished (id_of board.now) pen.old pass.old at_open }
    requires slot { slot ≡ 1 }
    requires twelve { twelve ≡ 12 }
    ensures here { HasPublished (id_of board.now) pen.new pass.new link_stored }
    ensures number { pass.new.number ≡ pass.old.number }
{
    let key = Store {
        word: Word::Key(slot),
        old: 0,
        new: 12,
        event: Event::WriteKey(twelve),
        publishing: Publishing::KeyPrepared(slot, twelve),
    };
    publish(board, pen, pass, key);
    let link = Store {
        word: Word::Link(slot),
        old: 0,
        new: 0,
        event: Event::WriteOpen,
        publishing: Publishing::LinkPrepared(slot, 0),
    };
    publish(board, pen, pass, link);
}

/// It links the key after key 9.
pub fn link(board: &Board, pen: &mut Pen, pass: &mut Pass, slot: Slot, twelve: Key)
    requires here { HasPublished (id_of board.now) pen.old pass.old link_stored }
    requires slot { slot ≡ 1 }
    requires twelve { twelve ≡ 12 }
    ensures here { HasPublished (id_of board.now) pen.new pass.new (when_linked pass.old.number) }
    ensures number { pass.new.number ≡ pass.old.number }
{
    let owner = pass.number();
    let linked = Store {
        word: Word::Link(Slot::new(0)),
        old: SETTLED,
        new: SETTLED + 2,
        event: Event::Link,
        publishing: Publishing::Linked(twelve, slot, owner),
    };
    publish(board, pen, pass, linked);
}

/// It settles that.
pub fn settle(board: &Board, pen: &mut Pen, pass: &mut Pass, slot: Slot)
    requires here { HasPublished (id_of board.now) pen.old pass.old (when_linked pass.old.number) }
    requires slot { slot ≡ 1 }
    ensures here { HasPublished (id_of board.now) pen.new pass.new (when_settled pass.old.number) }
    ensures number { pass.new.number ≡ pass.old.number }
{
    let settled = Store {
        word: Word::Link(slot),
        old: 0,
        new: SETTLED,
        event: Event::Settle(slot),
        publishing: Publishing::Settled(slot, Change::Added),
    };
    publish(board, pen, pass, settled);
}

// It halts.
fn halt(board: &Board, pen: &mut Pen, pass: &mut Pass)
    requires { HasPublished (id_of board.now) pen.old pass.old (when_settled pass.old.number) }
{
    let halted = Store {
        word: Word::Halt,
        old: 0,
        new: 1,
        event: Event::Halt,
        publishing: Publishing::Halted,
    };
    publish(board, pen, pass, halted);
}

/// Whether a glance of a pass at a key answers this.
pub fn sees(board: &Board, pass: &mut Pass, key: Key, sight: Result<Glance, GlanceFault>) -> bool
    requires { MayLook (id_of board.now) pass.old }
    ensures { MayLook (id_of board.now) pass.new }
{
    board.glance(pass, key) == sight
}

// On a board that has halted, a pass that is inside is busy, and sees the halt once it is outside again.
fn look_from_inside(rt: &impl Abort, board: &Board, pass: Pass, key: Key)
    requires { MayLook (id_of board.now) pass }
{
    let mut pass = pass;
    let Ok(()) = board.pin(&mut pass) else {
        panic!(rt; "no pin")
    };
    assert!(rt; board.glance(&mut pass, key) == Err(GlanceFault::BusyPass));
    assert!(rt; pass.is_inside());
    board.unpin(&mut pass);
    assert!(rt; board.glance(&mut pass, key) == Err(GlanceFault::Halted));
}

// The pen links 12 in slot 1, settles it, and halts, and another pass looks after each of these.
fn look_beside(rt: &impl Abort, board: &Board, pen: Pen, one: Pass, two: Pass)
    requires here { HasPublished (id_of board.now) pen one at_open }
    requires looks { MayLook (id_of board.now) two }
{
    let (mut pen, mut one, mut two) = (pen, one, two);
    let (slot, twelve) = (Slot::new(1), key(rt, 12));
    assert!(rt; sees(board, &mut two, key(rt, 9), Ok(Glance::Yes)));
    assert!(rt; sees(board, &mut two, key(rt, 8), Ok(Glance::No)));
    prepare(board, &mut pen, &mut one, slot, twelve);
    assert!(rt; sees(board, &mut two, twelve, Ok(Glance::No)));
    link(board, &mut pen, &mut one, slot, twelve);
    assert!(rt; sees(board, &mut two, twelve, Ok(Glance::Unsettled(slot))));
    settle(board, &mut pen, &mut one, slot);
    assert!(rt; sees(board, &mut two, twelve, Ok(Glance::Yes)));
    halt(board, &mut pen, &mut one);
    assert!(rt; sees(board, &mut two, twelve, Err(GlanceFault::Halted)));
    look_from_inside(rt, board, two, twelve);
}

#[test]
fn a_board_of_two_slots(rt: HostRuntime) -> Result<(), Fail> {
    let Some((board, pen, one, mut others)) = new_board(rt.alloc()) else {
        panic!(rt; "no memory")
    };
    let Some(two) = others.pop() else {
        panic!(rt; "two passes")
    };
    assert!(rt; one.number() == 5 && two.number() == 4);
    look_beside(&rt, &board, pen, one, two);
    Ok(())
}
