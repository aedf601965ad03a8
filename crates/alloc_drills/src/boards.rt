//! A new board.
ghost use Rattle.std.specs.Prelude.{◌<◌, ◌^◌, All, IfOk};
ghost use Rattle.lz_list.specs.Addresses.{words_count};
ghost use Rattle.lz_list.specs.Addresses.{sizes_in};
ghost use Rattle.lz_board.specs.Opened.{AreOpened};
ghost use Rattle.alloc_drills.specs.Looks.{MayLook};

use crate::fault::Fault;
use crate::file::disk;
use lz_board::{Board, Glance, Pass};
use lz_list::Words;
use lz_slot::Key;
use lz_yard::Yard;
use std::alloc::AllocError;

/// The keys that each pass looks for.
const LOOKED: [u64; 2] = [17, 18];

pub fn drill<R: Print + AllocGlobal>(rt: &R) -> Result<(), Fault> {
    let (board, passes) = open_board(rt)?;
    println!(rt; "Board::new: {} passes", passes.len())?;
    for pass in passes {
        look(rt, &board, pass)?;
    }
    Ok(())
}

// The board of a yard that was opened for two passes.
fn open_board<R: Print + AllocGlobal>(rt: &R) -> Result<(Board, Vec<Pass>), Fault>
    ensures { IfOk result (λ r. All (MayLook r.0) r.1.items) }
{
    let Ok(yard) = Yard::open(rt.alloc(), disk(rt.alloc())?, 1, 2) else {
        return Err(Fault::Unready(AllocError));
    };
    board_over(rt, yard.words())
}

fn board_over<R: Print + AllocGlobal>(rt: &R, words: &Words) -> Result<(Board, Vec<Pass>), Fault>
    requires room { words_count (sizes_in words.now) < 2 ^ 32 }
    requires opened { AreOpened words.now }
    ensures { IfOk result (λ r. All (MayLook r.0) r.1.items) }
{
    match Board::new(rt.alloc(), words) {
        Some((board, _pen, passes)) => Ok((board, passes)),
        None => board_again(rt, words),
    }
}

fn board_again<R: Print + AllocGlobal>(rt: &R, words: &Words) -> Result<(Board, Vec<Pass>), Fault>
    requires room { words_count (sizes_in words.now) < 2 ^ 32 }
    requires opened { AreOpened words.now }
    ensures { IfOk result (λ r. All (MayLook r.0) r.1.items) }
{
    println!(rt; "again Board::new")?;
    match Board::new(rt.alloc(), words) {
        Some((board, _pen, passes)) => Ok((board, passes)),
        None => Err(Fault::Wrong),
    }
}

fn look<R: Print>(rt: &R, board: &Board, pass: Pass) -> Result<(), Fault>
    requires { MayLook board.now pass }
{
    let mut pass = pass;
    for number in LOOKED {
        let Some(key) = Key::new(number) else {
            return Err(Fault::Wrong);
        };
        let seen = match board.glance(&mut pass, key) {
            Ok(Glance::Yes) => "yes",
            Ok(Glance::No) => "no",
            _ => return Err(Fault::Wrong),
        };
        println!(rt; "pass {} key {key} {seen}", pass.number())?;
    }
    Ok(())
}
