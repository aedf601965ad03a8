//! Histories that are judged.
use crate::fault::Fault;
use lz_judge::{Flaw, History, judge};
use std::alloc::AllocError;

/// A good one; one whose second call was answered otherwise than its points say; and one in which an open found too much.
const HISTORIES: [&[u8]; 3] = [
    b"call 1 1 add 9\ncall 2 2 has 9\nanswer 2 yes\nanswer 1 yes\nstop\nopen 9\npoint 1 1\npoint 2 2\n",
    b"call 1 1 add 9\ncall 2 2 has 9\nanswer 2 yes\nanswer 1 yes\npoint 1 2\npoint 2 1\n",
    b"call 1 1 add 9\ncrash\nopen 8 9\npoint 1 1\n",
];

pub fn drill<R: Print + AllocGlobal>(rt: &R) -> Result<(), Fault> {
    println!(rt; "judge:")?;
    for text in HISTORIES {
        let history = read(rt, text)?;
        let verdict = verdict_on(rt, &history)?;
        tell(rt, verdict)?;
    }
    Ok(())
}

fn read<R: Print + AllocGlobal>(rt: &R, text: &[u8]) -> Result<History, Fault> {
    match History::read(rt.alloc(), text) {
        Ok(Ok(history)) => Ok(history),
        Ok(Err(_)) => Err(Fault::Wrong),
        Err(AllocError) => read_again(rt, text),
    }
}

fn read_again<R: Print + AllocGlobal>(rt: &R, text: &[u8]) -> Result<History, Fault> {
    println!(rt; "again History::read")?;
    match History::read(rt.alloc(), text) {
        Ok(Ok(history)) => Ok(history),
        _ => Err(Fault::Wrong),
    }
}

fn verdict_on<R: Print + AllocGlobal>(
    rt: &R,
    history: &History,
) -> Result<Result<(), Flaw>, Fault> {
    match judge(rt.alloc(), history) {
        Ok(verdict) => Ok(verdict),
        Err(AllocError) => judge_again(rt, history),
    }
}

fn judge_again<R: Print + AllocGlobal>(
    rt: &R,
    history: &History,
) -> Result<Result<(), Flaw>, Fault> {
    println!(rt; "again judge")?;
    match judge(rt.alloc(), history) {
        Ok(verdict) => Ok(verdict),
        Err(AllocError) => Err(Fault::Wrong),
    }
}

fn tell<R: Print>(rt: &R, verdict: Result<(), Flaw>) -> Result<(), Fault> {
    match verdict {
        Ok(()) => println!(rt; "good")?,
        Err(flaw) => println!(rt; "flaw {} {}", flaw.number(), flaw.subject())?,
    }
    Ok(())
}
