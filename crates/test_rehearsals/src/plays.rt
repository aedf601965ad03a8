//! Plays of several steps at once on one world: their marks, and where they end early.
use lz_core::{PlayFault, Step, World};
use lz_disk::Pick;
use lz_rehearsal::write_marks;
use lz_slot::{Command, Format, HistoryEvent, Key};
use std::alloc::{AllocError, Global};
use std::test::Fail;

// The marks of a play. Nothing of what a play promises is asked here.
fn play(world: &mut World, alloc: Global, steps: &[Step]) -> Result<Vec<HistoryEvent>, PlayFault> {
    world.play(alloc, steps)
}

// The text of marks.
fn text_of(alloc: Global, marks: &[HistoryEvent]) -> Vec<u8> {
    let mut output: Vec<u8> = Vec::new(alloc);
    let _ = write_marks(&mut output, marks);
    output
}

// What a play told: its marks' text, or the step that wasn't lawful.
fn told(world: &mut World, alloc: Global, steps: &[Step]) -> Result<Vec<u8>, AllocError> {
    match play(world, alloc, steps) {
        Ok(marks) => Ok(text_of(alloc, marks.as_slice())),
        Err(PlayFault::NotNow(step)) => format!(in alloc; "not now {step}\n")?
            .as_bytes()
            .to_vec(alloc),
        Err(PlayFault::Memory) => Ok(Vec::new(alloc)),
    }
}

// Steps of a play, what it tells, and whether the service is open then and nine is its only member.
type Play<'a> = (&'a [Step], &'a [u8], bool, bool);

// Whether the plays, one after another on one world, tell this and leave it so.
fn hold(alloc: Global, plays: &[Play], nine: Key) -> Result<bool, AllocError> {
    let mut world = World::new(alloc, 2, 1, Format::One)?;
    hold_on(alloc, &mut world, plays, nine)
}

fn hold_on(
    alloc: Global,
    world: &mut World,
    plays: &[Play],
    nine: Key,
) -> Result<bool, AllocError> {
    for (steps, tells, is_open, is_member) in plays.iter() {
        let told = told(world, alloc, steps)?;
        let members = world.members(alloc)?;
        let is_shown = match members.as_slice() {
            [] => !*is_member,
            [key] => *is_member && *key == nine,
            _ => false,
        };
        if told.as_slice() != *tells || world.is_open() != *is_open || !is_shown {
            return Ok(false);
        }
    }
    Ok(matches!(world.turn(1), Err(PlayFault::NotNow(1))))
}

// Two look-ups in the empty set, of four turns each.
#[test]
fn a_play_tells_its_marks_in_order(rt: HostRuntime) -> Result<(), Fail> {
    let nine = Key::new(9).expect(&rt, "a key");
    let has = Command::Has(nine);
    let steps = [
        Step::Call(1, has),
        Step::Turn(1),
        Step::Call(64, has),
        Step::Turn(64),
        Step::Turn(64),
        Step::Turn(64),
        Step::Turn(64),
        Step::Turn(1),
        Step::Turn(1),
        Step::Turn(1),
        Step::Stop,
        Step::Trip,
        Step::Open,
        Step::Open,
        Step::Call(2, has),
        Step::Crash(Pick::New),
    ];
    let told: &[u8] =
        b"call 1 1 has 9\ncall 2 64 has 9\nanswer 2 no\nanswer 1 no\nstop\nopen fault 7\nopen\ncall 3 2 has 9\ncrash\n";
    assert!(rt; hold(rt.alloc(), &[(&steps, told, false, false)], nine)?);
    Ok(())
}

// The steps before the one that isn't lawful are played, those with a mark and those without one, and none after it. An
// addition to the empty set has fifteen turns, and one of a member six.
#[test]
fn a_play_ends_where_a_step_is_not_lawful(rt: HostRuntime) -> Result<(), Fail> {
    let nine = Key::new(9).expect(&rt, "a key");
    let add = Command::Add(nine);
    let plays: [Play; 15] = [
        (&[Step::Call(1, add)], b"call 1 1 add 9\n", true, false),
        (&[Step::Turn(1); 15], b"answer 1 yes\n", true, true),
        (&[Step::Turn(0), Step::Stop], b"not now 1\n", true, true),
        (&[Step::Turn(1), Step::Stop], b"not now 1\n", true, true),
        (&[Step::Turn(64), Step::Stop], b"not now 1\n", true, true),
        (&[Step::Turn(65), Step::Stop], b"not now 1\n", true, true),
        (
            &[Step::Call(0, add), Step::Stop],
            b"not now 1\n",
            true,
            true,
        ),
        (
            &[Step::Call(65, add), Step::Stop],
            b"not now 1\n",
            true,
            true,
        ),
        (&[Step::Open, Step::Stop], b"not now 1\n", true, true),
        (
            &[Step::Call(1, add), Step::Turn(1), Step::Call(1, add)],
            b"not now 3\n",
            true,
            true,
        ),
        (&[Step::Turn(1); 5], b"answer 2 no\n", true, true),
        (
            &[Step::Trip, Step::Stop, Step::Trip, Step::Crash(Pick::Old)],
            b"stop\ncrash\n",
            false,
            false,
        ),
        (
            &[Step::Trip, Step::Stop, Step::Turn(1), Step::Open],
            b"not now 3\n",
            false,
            false,
        ),
        (
            &[Step::Open, Step::Open, Step::Stop],
            b"not now 2\n",
            true,
            true,
        ),
        (
            &[Step::Stop, Step::Crash(Pick::Old)],
            b"stop\ncrash\n",
            false,
            false,
        ),
    ];
    assert!(rt; hold(rt.alloc(), &plays, nine)?);
    Ok(())
}
