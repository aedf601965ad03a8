//! All calls, one after the other.
use crate::fault::Fault;
use crate::prior::{Asked, ask_first, read_asked};
use crate::rates::tell_rates;
use crate::{boards, histories, lines, plays, sessions, sets, surveys, vaults};
use std::rt::Env;
use std::sync::Wait;
use std::thread::Threads;
use std::time::Clock;

/// The calls, in the order in which they are made.
#[derive(Clone, Copy)]
enum Call {
    OpenVault,
    NewBoard,
    OpenSet,
    Feed,
    Session,
    Survey,
    Judge,
    Play,
}

const CALLS: [Call; 8] = [
    Call::OpenVault,
    Call::NewBoard,
    Call::OpenSet,
    Call::Feed,
    Call::Session,
    Call::Survey,
    Call::Judge,
    Call::Play,
];

/// Does what standard input asks for.
pub fn drill<R>(rt: &R) -> Result<(), Fault>
where
    R: Input + Print + AllocGlobal + Env + Clock + Threads + Wait + Sync,
{
    match read_asked(rt)? {
        Asked::Calls(before) => drill_all(rt, before),
        Asked::Rates => Ok(tell_rates(rt)?),
    }
}

// Makes all calls, once so many requests for memory were made.
fn drill_all<R: Print + AllocGlobal + Wait + Clock>(rt: &R, before: u64) -> Result<(), Fault> {
    let kept = ask_first(rt, before)?;
    for call in CALLS {
        drill_in_turn(rt, call)?;
    }
    // Up to here they have been kept.
    if kept.iter().all(|one| one.is_empty()) {
        Ok(())
    } else {
        Err(Fault::Wrong)
    }
}

// Where there was no memory for what a call is made on, all of it is made once more.
fn drill_in_turn<R: Print + AllocGlobal + Wait + Clock>(rt: &R, call: Call) -> Result<(), Fault> {
    match drill_once(rt, call) {
        Err(Fault::Unready(_)) => {
            println!(rt; "again")?;
            drill_once(rt, call)
        }
        ended => ended,
    }
}

fn drill_once<R: Print + AllocGlobal + Wait + Clock>(rt: &R, call: Call) -> Result<(), Fault> {
    match call {
        Call::OpenVault => vaults::drill(rt),
        Call::NewBoard => boards::drill(rt),
        Call::OpenSet => sets::drill(rt),
        Call::Feed => lines::drill(rt),
        Call::Session => sessions::drill(rt),
        Call::Survey => surveys::drill(rt),
        Call::Judge => histories::drill(rt),
        Call::Play => plays::drill(rt),
    }
}
