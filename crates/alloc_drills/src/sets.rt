//! The open of a set.
ghost use Rattle.std.specs.Prelude.{All, IfOk, IfSome};
ghost use Rattle.lz_disk.specs.Records.{device_of};
ghost use Rattle.lz_set.specs.Blanks.{MayBeNamed};
ghost use Rattle.lz_set.specs.Names.{MayCall};

use crate::fault::Fault;
use crate::file::{disk, is_as_before};
use lz_disk::MemoryDisk;
use lz_set::{Blank, Named, NoGate, Pass, Set};
use lz_slot::Key;
use lz_vault::{Refused, suit};
use std::marker::Brand;
use std::sync::Wait;

/// The keys that are looked for.
const LOOKED: [u64; 2] = [17, 18];

pub fn drill<R: Print + AllocGlobal + Wait>(rt: &R) -> Result<(), Fault> {
    let blank = open(rt)?;
    ask::<Brand, R>(rt, blank)
}

/// The set of the file, for two passes.
pub fn open<R: Print + AllocGlobal>(rt: &R) -> Result<Blank<MemoryDisk, NoGate>, Fault>
    ensures { IfOk result (λ blank. MayBeNamed device_of blank.board (device_of blank.disk) blank.yard.vault.format blank) }
{
    match Set::open(rt.alloc(), disk(rt.alloc())?, NoGate, 1, 2) {
        Ok(blank) => Ok(blank),
        Err(refused) => open_again(rt, refused),
    }
}

fn open_again<R: Print + AllocGlobal>(
    rt: &R,
    refused: Refused<MemoryDisk>,
) -> Result<Blank<MemoryDisk, NoGate>, Fault>
    ensures { IfOk result (λ blank. MayBeNamed device_of blank.board (device_of blank.disk) blank.yard.vault.format blank) }
{
    let Refused { mut disk, fault } = refused;
    let told = fault;
    let number = told.number();
    if !is_as_before(fault, &disk) {
        return Err(Fault::Wrong);
    }
    println!(rt; "again Set::open {number}")?;
    suit(&mut disk);
    match Set::open(rt.alloc(), disk, NoGate, 1, 2) {
        Ok(blank) => Ok(blank),
        Err(_) => Err(Fault::Wrong),
    }
}

fn ask<N: Named, R: Print + Wait>(rt: &R, blank: Blank<MemoryDisk, NoGate>) -> Result<(), Fault>
    requires { MayBeNamed device_of N.board N.first N.format blank }
{
    let (set, passes) = blank.start::<N>();
    look_for_each(rt, &set, passes)
}

fn look_for_each<N: Named, R: Print + Wait>(
    rt: &R,
    set: &Set<MemoryDisk, NoGate, N>,
    passes: Vec<Pass>,
) -> Result<(), Fault>
    requires { All (MayCall N.board) passes.items }
{
    let mut passes = passes;
    println!(rt; "Set::open: {} passes", passes.len())?;
    let Some(mut pass) = last_pass::<N>(&mut passes) else {
        return Err(Fault::Wrong);
    };
    for number in LOOKED {
        look(rt, set, &mut pass, number)?;
    }
    Ok(())
}

/// The last of a set's passes.
pub fn last_pass<N: Named>(passes: &mut Vec<Pass>) -> Option<Pass>
    requires { All (MayCall N.board) passes.old.items }
    ensures { IfSome result (λ pass. MayCall N.board pass) }
{
    passes.pop()
}

fn look<N: Named, R: Print + Wait>(
    rt: &R,
    set: &Set<MemoryDisk, NoGate, N>,
    pass: &mut Pass,
    number: u64,
) -> Result<(), Fault>
    requires { MayCall N.board pass.old }
    ensures { MayCall N.board pass.new }
{
    let Some(key) = Key::new(number) else {
        return Err(Fault::Wrong);
    };
    let Ok(is_member) = set.has(rt, pass, key) else {
        return Err(Fault::Wrong);
    };
    println!(rt; "key {key} {is_member}")?;
    Ok(())
}
