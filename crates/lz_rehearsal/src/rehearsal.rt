//! The rehearsal of a script.
ghost use Rattle.std.specs.Prelude.{◌≡◌, ℕ, List, IsErrOf, IsTrue, MatchOption, OnOk, OnErr, IfOk, Ok, Err, Some, [], ◌↔◌};
ghost use Rattle.std.specs.Io.KnownBytes.{Appends};
ghost use Rattle.lz_core.specs.Worlds.{IsLawful, IsUp};
ghost use Rattle.lz_rehearsal.specs.Rehearsals.{Adds, AddsPart, EndsAt, EndsCutShort, EndsWithin, IsLawfulLine, IsShow, Rehearses};
ghost use Rattle.lz_rehearsal.specs.Rehearsing.{EndsTurns, GoesOn, PlaysLine, PlaysStep, TakesTurns};

use crate::limits::MOST_TURNS;
use crate::line::Line;
use crate::telling::{write_busy, write_mark, write_marks, write_members};
use lz_core::{Kind, Outcome, PlayFault, Step, Turned, World};
use lz_proto::send;
use std::alloc::Global;
use std::io;
use std::io::Write;

/// Why a rehearsal ended before its script did.
#[derive(Clone, Copy, Debug, PartialEq, Eq)]
pub enum RehearsalFault {
    /// The line with this number, from 1, isn't lawful where it stands. A line of turns isn't where its first turn isn't.
    Line(u64),
    /// A write failed, before the whole text of a line was written.
    Write,
    /// There was no memory for a line. Nothing of its text was written.
    Memory,
}

/// Rehearses the lines of a script on a world, and writes the text of each as it comes.
pub fn rehearse<W: Write>(
    alloc: Global,
    world: &mut World,
    lines: &[Line],
    writer: &mut W,
) -> Result<(), RehearsalFault>
    ensures done { OnOk result (Rehearses world.old lines.now world.new (W.contents writer.old) (W.contents writer.new)) }
    ensures line { (number : ℕ) → IsErrOf result (RehearsalFault.Line number) → EndsAt world.old lines.now number world.new (W.contents writer.old) (W.contents writer.new) }
    ensures write { IsErrOf result RehearsalFault.Write → EndsCutShort world.old lines.now world.new (W.contents writer.old) (W.contents writer.new) }
    ensures memory { IsErrOf result RehearsalFault.Memory → EndsWithin world.old lines.now (W.contents writer.old) (W.contents writer.new) }
{
    for (before, line) in lines.iter().enumerate() {
        rehearse_line(alloc, world, *line, before as u64 + 1, writer)?;
    }
    Ok(())
}

// Rehearses the line with this number. Its text is put together first: of a `write!` that fails nothing says what was written.
fn rehearse_line<W: Write>(
    alloc: Global,
    world: &mut World,
    line: Line,
    number: u64,
    writer: &mut W,
) -> Result<(), RehearsalFault>
    ensures done { OnOk result (Adds world.old line world.new (W.contents writer.old) (W.contents writer.new)) }
    ensures line { (n : ℕ) → IsErrOf result (RehearsalFault.Line n) → (n ≡ number) × (world.new ≡ world.old) × Appends (W.contents writer.old) (W.contents writer.new) [] × ¬ IsLawfulLine world.old.state line }
    ensures write { IsErrOf result RehearsalFault.Write → AddsPart world.old line world.new (W.contents writer.old) (W.contents writer.new) }
    ensures memory { IsErrOf result RehearsalFault.Memory → Appends (W.contents writer.old) (W.contents writer.new) [] }
{
    let text = match play_line(alloc, world, line) {
        Ok(text) => text,
        Err(PlayFault::NotNow(_)) => return Err(RehearsalFault::Line(number)),
        Err(PlayFault::Memory) => return Err(RehearsalFault::Memory),
    };
    match send(writer, text.as_slice()) {
        Ok(()) => Ok(()),
        Err(_) => Err(RehearsalFault::Write),
    }
}

// Plays a line, and puts together the text of what was seen.
fn play_line(alloc: Global, world: &mut World, line: Line) -> Result<Vec<u8>, PlayFault>
    ensures ok { IfOk result (λ text. PlaysLine world.old line text.items world.new) }
    ensures not_now { (i : ℕ) → IsErrOf result (PlayFault.NotNow i) → (world.new ≡ world.old) × ¬ IsLawfulLine world.old.state line }
{
    match line {
        Line::Call(actor, command) => play_step(alloc, world, Step::Call(actor, command)),
        Line::Turn(actor, most) => play_turns(alloc, world, actor, None, most),
        Line::Until(actor, kind) => play_turns(alloc, world, actor, Some(kind), MOST_TURNS),
        Line::Finish(actor) => play_turns(alloc, world, actor, None, MOST_TURNS),
        Line::Trip => play_step(alloc, world, Step::Trip),
        Line::Stop => play_step(alloc, world, Step::Stop),
        Line::Crash(pick) => play_step(alloc, world, Step::Crash(pick)),
        Line::Open => play_step(alloc, world, Step::Open),
        Line::Show => show(alloc, world),
    }
}

fn play_step(alloc: Global, world: &mut World, step: Step) -> Result<Vec<u8>, PlayFault>
    ensures ok { IfOk result (λ text. PlaysStep world.old step text.items world.new) }
    ensures not_now { (i : ℕ) → IsErrOf result (PlayFault.NotNow i) → (world.new ≡ world.old) × ¬ IsLawful world.old.state step }
{
    match world.play(alloc, &[step]) {
        Ok(marks) => {
            let mut text = Vec::new(alloc);
            let told = write_marks(&mut text, marks.as_slice());
            put(text, told)
        }
        Err(fault) => Err(fault),
    }
}

// Plays turns of an actor, at most so many. The text is that of the last.
fn play_turns(
    alloc: Global,
    world: &mut World,
    actor: usize,
    awaited: Option<Kind>,
    most: u64,
) -> Result<Vec<u8>, PlayFault>
    ensures ok { IfOk result (λ text. TakesTurns actor awaited most world.old text.items world.new) }
    ensures not_now { (i : ℕ) → IsErrOf result (PlayFault.NotNow i) → (world.new ≡ world.old) × ¬ IsLawful world.old.state (Step.Turn actor) }
{
    for _ in 0..most {
        let turned = match world.turn(actor) {
            Ok(turned) => turned,
            Err(fault) => return Err(fault),
        };
        match end_of_turns(alloc, actor, awaited, &turned) {
            Ok(None) => {}
            Ok(Some(text)) => return Ok(text),
            Err(fault) => return Err(fault),
        }
    }
    Ok(Vec::new(alloc))
}

// The text of a line of turns, if this turn ends it.
fn end_of_turns(
    alloc: Global,
    actor: usize,
    awaited: Option<Kind>,
    turned: &Turned,
) -> Result<Option<Vec<u8>>, PlayFault>
    ensures told { IfOk result (λ end. MatchOption end (GoesOn awaited turned.now) (λ text. EndsTurns actor awaited turned.now text.items)) }
    ensures fault { OnErr result (result ≡ Err PlayFault.Memory) }
{
    let mut text = Vec::new(alloc);
    if let Some(mark) = &turned.mark {
        let told = write_mark(&mut text, mark);
        return Ok(Some(put(text, told)?));
    }
    match turned.outcome {
        Outcome::Busy => {
            let told = write_busy(&mut text, actor);
            Ok(Some(put(text, told)?))
        }
        _ if is_awaited(awaited, turned.kind) => Ok(Some(text)),
        _ => Ok(None),
    }
}

// Whether this is the kind of event that is waited for.
fn is_awaited(awaited: Option<Kind>, kind: Kind) -> bool
    ensures { IsTrue result ↔ (awaited ≡ Some kind) }
{
    match awaited {
        None => false,
        Some(awaited) => awaited == kind,
    }
}

// The line of the members of an open service.
fn show(alloc: Global, world: &World) -> Result<Vec<u8>, PlayFault>
    ensures ok { IfOk result (λ text. IsShow world.now [] text.items world.now) }
    ensures not_now { (i : ℕ) → IsErrOf result (PlayFault.NotNow i) → ¬ IsUp world.now.state }
{
    if !world.is_open() {
        return Err(PlayFault::NotNow(1));
    }
    match world.members(alloc) {
        Ok(members) => {
            let mut text = Vec::new(alloc);
            let told = write_members(&mut text, members.as_slice());
            put(text, told)
        }
        Err(_) => Err(PlayFault::Memory),
    }
}

// A text that was put together, where there was memory for all of it.
fn put(text: Vec<u8>, told: io::Result<()>) -> Result<Vec<u8>, PlayFault>
    ensures ok { IfOk result (λ whole. (told ≡ Ok tt) × (whole.items ≡ text.items)) }
    ensures fault { OnErr result (result ≡ Err PlayFault.Memory) }
{
    match told {
        Ok(()) => Ok(text),
        Err(_) => Err(PlayFault::Memory),
    }
}
