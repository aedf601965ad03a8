//! The survey of a file.
use crate::fault::Fault;
use lz_judge::{Finding, Survey, survey};
use std::alloc::AllocError;

/// A file of four slots: 17 in slot 0 and again in slot 2, no key in slot 1, and 9 of room 3 in slot 3.
const DAMAGED: [u8; 80] = [
    0xa5, 0x4c, 0x5a, 0x59, 0x53, 0x45, 0x54, 0x32, 0, 0, 0, 0, 0, 0, 0, 4, //
    0xa5, 0, 0, 0, 0, 0, 0, 0, 0, 0, 0, 0, 0, 0, 0, 17, //
    0xa5, 0, 1, 0, 0, 0, 0, 0, 0, 0, 0, 0, 0, 0, 0, 5, //
    0xa5, 0, 0, 0, 0, 0, 0, 0, 0, 0, 0, 0, 0, 0, 0, 17, //
    0xa5, 3, 0, 0, 0, 0, 0, 0, 0, 0, 0, 0, 0, 0, 0, 9,
];

pub fn drill<R: Print + AllocGlobal>(rt: &R) -> Result<(), Fault> {
    let findings = find(rt)?;
    println!(rt; "survey:")?;
    for finding in findings.iter() {
        tell(rt, *finding)?;
    }
    Ok(())
}

fn find<R: Print + AllocGlobal>(rt: &R) -> Result<Vec<Finding>, Fault> {
    match survey(rt.alloc(), &DAMAGED) {
        Ok(Survey::Found(_, findings)) => Ok(findings),
        Ok(_) => Err(Fault::Wrong),
        Err(AllocError) => find_again(rt),
    }
}

fn find_again<R: Print + AllocGlobal>(rt: &R) -> Result<Vec<Finding>, Fault> {
    println!(rt; "again survey")?;
    match survey(rt.alloc(), &DAMAGED) {
        Ok(Survey::Found(_, findings)) => Ok(findings),
        _ => Err(Fault::Wrong),
    }
}

fn tell<R: Print>(rt: &R, finding: Finding) -> Result<(), Fault> {
    match finding {
        Finding::Key(slot, key) => println!(rt; "slot {} key {key}", slot.index())?,
        Finding::BadKey(slot) => println!(rt; "slot {} badkey", slot.index())?,
        Finding::Twice(slot, first) => {
            println!(rt; "slot {} twice {}", slot.index(), first.index())?
        }
    }
    Ok(())
}
