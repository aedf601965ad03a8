//! Pieces of a text that are cut into lines.
use crate::fault::Fault;
use lz_proto::{Item, Lines, Request, bad_text};
use lz_slot::Key;
use std::alloc::AllocError;

/// Lines within a piece and over several, one that asks for nothing, and one after `quit`.
const PIECES: [&[u8]; 4] = [
    b"add 1",
    b"7\nhas 3:9\nre",
    b"move 17\nadd 007\n",
    b"quit\nhas 1\n",
];

pub fn drill<R: Print + AllocGlobal>(rt: &R) -> Result<(), Fault> {
    let mut lines = Lines::new(rt.alloc());
    println!(rt; "Lines::feed:")?;
    for piece in PIECES {
        let items = feed(rt, &mut lines, piece)?;
        for item in items.iter() {
            tell(rt, *item)?;
        }
    }
    match lines.end() {
        None => Ok(()),
        Some(_) => Err(Fault::Wrong),
    }
}

fn feed<R: Print>(rt: &R, lines: &mut Lines, piece: &[u8]) -> Result<Vec<Item>, Fault> {
    if let Ok(items) = lines.feed(piece) {
        return Ok(items);
    }
    println!(rt; "again Lines::feed")?;
    match lines.feed(piece) {
        Ok(items) => Ok(items),
        Err(AllocError) => Err(Fault::Wrong),
    }
}

fn tell<R: Print>(rt: &R, item: Item) -> Result<(), Fault> {
    match item {
        Item::Asks(request) => tell_request(rt, request),
        Item::Faulty(bad) => {
            print!(rt; "{}", bad_text(bad))?;
            Ok(())
        }
    }
}

fn tell_request<R: Print>(rt: &R, request: Request) -> Result<(), Fault> {
    match request {
        Request::Add(key) => tell_command(rt, "add", key),
        Request::Remove(key) => tell_command(rt, "remove", key),
        Request::Has(key) => tell_command(rt, "has", key),
        Request::Quit => {
            println!(rt; "quit")?;
            Ok(())
        }
    }
}

fn tell_command<R: Print>(rt: &R, word: &str, key: Key) -> Result<(), Fault> {
    println!(rt; "{word} {key}")?;
    Ok(())
}
