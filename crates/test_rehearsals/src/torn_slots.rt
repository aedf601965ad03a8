//! Crashes amid the writes of a slot of format 4: each of its bytes is the one or the other.
ghost use Rattle.std.specs.Prelude.{◌<◌};

use lz_core::{Kind, PlayFault, Step, World};
use lz_disk::Pick;
use lz_slot::{Command, Format, Key};
use std::alloc::Global;
use std::test::Fail;

// A call of an actor, and the kind of event after which it is left.
type Part = (usize, Command, Kind);

// No call here takes so many turns.
const MOST_TURNS: usize = 64;

// Plays calls one after another, each up to its event.
fn play_parts(alloc: Global, world: &mut World, parts: &[Part]) -> Result<(), PlayFault> {
    for (actor, command, last) in parts {
        world.play(alloc, &[Step::Call(*actor, *command)])?;
        turn_until(world, *actor, *last)?;
    }
    Ok(())
}

fn turn_until(world: &mut World, actor: usize, last: Kind) -> Result<(), PlayFault> {
    for _ in 0..MOST_TURNS {
        let turned = world.turn(actor)?;
        if turned.kind == last {
            return Ok(());
        }
    }
    Err(PlayFault::NotNow(MOST_TURNS))
}

// The members after a crash and an open.
fn found(alloc: Global, world: &mut World, pick: Pick) -> Result<Vec<Key>, PlayFault> {
    world.play(alloc, &[Step::Crash(pick), Step::Open])?;
    if !world.is_open() {
        return Err(PlayFault::NotNow(2));
    }
    world.members(alloc).map_err(|_| PlayFault::Memory)
}

fn new_world(alloc: Global) -> Result<World, PlayFault> {
    World::new(alloc, 2, 1, Format::Four).map_err(|_| PlayFault::Memory)
}

// Whether a crash amid these calls leaves a file that opens, with this key in it where the mask is this one, and else with none.
fn is_left(
    alloc: Global,
    parts: &[Part],
    key: Key,
    mask: u16,
    whole: u16,
) -> Result<bool, PlayFault> {
    let mut world = new_world(alloc)?;
    play_parts(alloc, &mut world, parts)?;
    let found = found(alloc, &mut world, Pick::Mask(mask))?;
    Ok(match found.as_slice() {
        [] => mask != whole,
        [one] => mask == whole && *one == key,
        _ => false,
    })
}

// The bytes from one on, those before it, that byte, and all but that one.
fn masks_at(place: u32) -> [u16; 4]
    requires { place < 16 }
{
    let rest = u16::MAX >> place;
    let one = 0x8000 >> place;
    [rest, !rest, one, !one]
}

// Whether that is so for each of many masks.
fn is_left_by_one(alloc: Global, parts: &[Part], key: Key, whole: u16) -> Result<bool, PlayFault> {
    for place in 0..16 {
        for mask in masks_at(place) {
            if !is_left(alloc, parts, key, mask, whole)? {
                return Ok(false);
            }
        }
    }
    Ok(true)
}

// An addition has written its slot, and no sync was made. The slot's bytes are those of places 16 to 31, so each has its bit.
#[test]
fn a_slot_that_is_torn_is_no_member(rt: HostRuntime) -> Result<(), Fail> {
    let nine = Key::new(9).expect(&rt, "a key");
    let parts = [(1, Command::Add(nine), Kind::WriteOpen)];
    assert_eq!(rt; is_left_by_one(rt.alloc(), &parts, nine, 0xffff), Ok(true));
    Ok(())
}

// A removal has written zeros over the slot.
#[test]
fn a_member_that_is_torn_is_none(rt: HostRuntime) -> Result<(), Fail> {
    let nine = Key::new(9).expect(&rt, "a key");
    let parts = [
        (1, Command::Add(nine), Kind::Answer),
        (1, Command::Remove(nine), Kind::WriteClose),
    ];
    assert_eq!(rt; is_left_by_one(rt.alloc(), &parts, nine, 0), Ok(true));
    Ok(())
}

// A slot is opened and closed between two syncs: its first write gives the slot, and the second one zeros.
#[test]
fn a_slot_that_is_written_twice(rt: HostRuntime) -> Result<(), Fail> {
    let nine = Key::new(9).expect(&rt, "a key");
    for (number, is_member) in [(0, true), (1, false), (u16::MAX, false)] {
        let found = found_twice_written(rt.alloc(), nine, Pick::Nth(number));
        assert_eq!(rt; found, Ok(is_member), "write {number}");
    }
    Ok(())
}

fn found_twice_written(alloc: Global, key: Key, pick: Pick) -> Result<bool, PlayFault> {
    let mut world = new_world(alloc)?;
    let parts = [
        (1, Command::Add(key), Kind::Release),
        (2, Command::Remove(key), Kind::WriteClose),
    ];
    play_parts(alloc, &mut world, &parts)?;
    let found = found(alloc, &mut world, pick)?;
    Ok(found.as_slice() == [key].as_slice())
}
