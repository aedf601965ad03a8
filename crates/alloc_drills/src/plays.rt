//! Plays on a world.
use crate::fault::Fault;
use lz_core::{PlayFault, Step, World};
use lz_disk::Pick;
use lz_rehearsal::write_marks;
use lz_slot::{Command, Format, HistoryEvent, Key};
use std::alloc::{AllocError, Global};
use std::io;

/// A play that was refused.
#[derive(Clone, Copy)]
struct Refused {
    // Whether the key was surely added before it.
    is_added: bool,
}

pub fn drill<R: Print + AllocGlobal>(rt: &R) -> Result<(), Fault> {
    let Some(nine) = Key::new(9) else {
        return Err(Fault::Wrong);
    };
    let mut marks = Vec::new(rt.alloc());
    if !play_new(rt.alloc(), nine, &mut marks)? {
        println!(rt; "again World::play")?;
        marks.clear();
        if !play_new(rt.alloc(), nine, &mut marks)? {
            return Err(Fault::Wrong);
        }
    }
    println!(rt; "World::play:")?;
    write_marks(&mut io::writer(rt), marks.as_slice())?;
    Ok(())
}

// Plays on a new world. Whether no play was refused; one that was has to leave the world sound.
fn play_new(alloc: Global, nine: Key, marks: &mut Vec<HistoryEvent>) -> Result<bool, Fault> {
    let mut world = World::new(alloc, 2, 1, Format::Two)?;
    play_on(alloc, &mut world, nine, marks)
}

fn play_on(
    alloc: Global,
    world: &mut World,
    nine: Key,
    marks: &mut Vec<HistoryEvent>,
) -> Result<bool, Fault> {
    match play_all(alloc, world, nine, marks)? {
        None => Ok(true),
        Some(refused) if is_sound(alloc, world, nine, refused)? => Ok(false),
        Some(_) => Err(Fault::Wrong),
    }
}

// The marks of plays on a new world: an addition, a crash and an open, and a look-up. Up to one that is refused.
fn play_all(
    alloc: Global,
    world: &mut World,
    nine: Key,
    marks: &mut Vec<HistoryEvent>,
) -> Result<Option<Refused>, Fault> {
    if !play_addition(alloc, world, nine, marks)? {
        return Ok(Some(Refused { is_added: false }));
    }
    if !play_look(alloc, world, nine, marks)? {
        return Ok(Some(Refused { is_added: true }));
    }
    Ok(None)
}

// Plays an addition. Whether there was memory for it.
fn play_addition(
    alloc: Global,
    world: &mut World,
    nine: Key,
    marks: &mut Vec<HistoryEvent>,
) -> Result<bool, Fault> {
    let call = [Step::Call(1, Command::Add(nine))];
    Ok(play(alloc, world, &call, marks)? && play(alloc, world, &[Step::Turn(1); 15], marks)?)
}

// Plays a crash and an open, and a look-up. Whether there was memory for it.
fn play_look(
    alloc: Global,
    world: &mut World,
    nine: Key,
    marks: &mut Vec<HistoryEvent>,
) -> Result<bool, Fault> {
    if !play(alloc, world, &[Step::Crash(Pick::Old), Step::Open], marks)? {
        return Ok(false);
    }
    let call = [Step::Call(64, Command::Has(nine))];
    Ok(play(alloc, world, &call, marks)? && play(alloc, world, &[Step::Turn(64); 6], marks)?)
}

// Plays steps. Whether there was memory for it.
fn play(
    alloc: Global,
    world: &mut World,
    steps: &[Step],
    marks: &mut Vec<HistoryEvent>,
) -> Result<bool, Fault> {
    match marks_of(alloc, world, steps) {
        Ok(played) => keep(marks, played),
        Err(PlayFault::Memory) => Ok(false),
        Err(PlayFault::NotNow(_)) => Err(Fault::Wrong),
    }
}

// The marks of a play. Nothing of what a play promises is asked here.
fn marks_of(
    alloc: Global,
    world: &mut World,
    steps: &[Step],
) -> Result<Vec<HistoryEvent>, PlayFault> {
    world.play(alloc, steps)
}

// Keeps what a play told. There was memory for it.
fn keep(marks: &mut Vec<HistoryEvent>, played: Vec<HistoryEvent>) -> Result<bool, Fault> {
    for mark in played {
        if marks.push(mark).is_err() {
            return Err(Fault::Unready(AllocError));
        }
    }
    Ok(true)
}

// Whether the world is as after some of its steps: stopped and opened again it has the key, or no key where that wasn't
// surely added.
fn is_sound(alloc: Global, world: &mut World, nine: Key, refused: Refused) -> Result<bool, Fault> {
    if world.is_open() && marks_of(alloc, world, &[Step::Stop]).is_err() {
        return Ok(false);
    }
    if marks_of(alloc, world, &[Step::Open]).is_err() {
        return Ok(false);
    }
    let members = world.members(alloc)?;
    Ok(match members.as_slice() {
        [] => !refused.is_added,
        [key] => *key == nine,
        _ => false,
    })
}
