//! A room that is cleared by requests as any client makes them.
ghost use Rattle.std.specs.Prelude.{◌≡◌, ◌≤◌, ◌++◌, ◌↔◌, [], IfOk, IsTrue, OnOk, drop, length};
ghost use Rattle.std.specs.List.{flat_map};
ghost use Rattle.lz_resp.specs.Clearings.{Hears, asking, begun, going_on, integer_at, removal_text, room_text};
ghost use Rattle.lz_resp.specs.Pages.{number_text};
ghost use Rattle.lz_resp.specs.Reading.{seen};

use crate::fault::{Fault, Stop};
use crate::page::{Page, push_plain, read_page};
use crate::reading::read_line;
use crate::scan::push_decimal;
use lz_slot::{MOST_SLOTS, read_number};
use std::alloc::{AllocError, Global};
use std::marker::Model;

/// What a clearing awaits.
#[derive(Clone, Copy, Debug, PartialEq, Eq)]
pub enum Awaits {
    /// A page of the room.
    Page,
    /// How many of a page's keys were removed; it goes on at this cursor.
    Count(u64),
    /// Nothing more.
    Nothing,
}

/// A client that clears a room: it asks for a page of it, removes what that told, and goes on to the last page. Contracts see it as what it holds.
#[derive(Drop)]
pub struct Clearing {
    alloc: Global,
    room: u8,
    awaits: Awaits,
    removed: usize,
    // what was told and makes no whole reply yet
    heard: Vec<u8>,
    // what is still to be sent
    asks: Vec<u8>,
}

impl Model for Clearing {
    ghost use Rattle.lz_resp.specs.Clearings.{Sweep};

    ghost Value = { Sweep };

    ghost view = { λ c. record { room = c.room; awaits = c.awaits; removed = c.removed; heard = c.heard.items; asks = c.asks.items } };
}

impl Clearing {
    /// The clearing of this room, of which nothing was sent.
    pub fn new(alloc: Global, room: u8) -> Result<Clearing, AllocError>
        ensures { IfOk result (λ clearing. clearing ≡ begun room) }
    {
        Ok(Clearing {
            alloc,
            room,
            awaits: Awaits::Page,
            removed: 0,
            heard: Vec::new(alloc),
            asks: room_request(alloc, room, 0)?,
        })
    }

    /// What is to be sent.
    pub fn unsent(&self) -> &[u8]
        ensures { result.now ≡ self.now.asks }
    {
        self.asks.as_slice()
    }

    /// So many bytes of it were sent.
    pub fn sent(&mut self, count: usize)
        requires { count ≤ length self.old.asks }
        ensures { self.new ≡ record self.old { asks = drop count self.old.asks } }
    {
        let left = self.asks.len() - count;
        self.asks.copy_within(count.., 0);
        self.asks.truncate(left);
    }

    /// A piece more was told. What is no reply to what was asked, an error among others, is a fault, after which nothing is to be sent.
    pub fn hear(&mut self, piece: &[u8]) -> Result<(), Stop>
        ensures { OnOk result (Hears piece.now self.old self.new) }
    {
        self.heard.extend_from_slice(piece)?;
        match self.awaits {
            Awaits::Page => self.hear_page(),
            Awaits::Count(next) => self.hear_count(next),
            Awaits::Nothing => Err(Stop::Faulty(Fault::Count)),
        }
    }

    /// Whether all of the room was asked for.
    pub fn is_over(&self) -> bool
        ensures { IsTrue result ↔ (self.now.awaits ≡ Awaits.Nothing) }
    {
        matches!(self.awaits, Awaits::Nothing)
    }

    /// How many keys were removed by now.
    pub fn removed(&self) -> usize
        ensures { result ≡ self.now.removed }
    {
        self.removed
    }

    // What was told is a page, as far as it goes.
    fn hear_page(&mut self) -> Result<(), Stop>
        requires { self.old.awaits ≡ Awaits.Page }
        ensures { OnOk result (Hears [] self.old self.new) }
    {
        let Some((page, rest)) = read_page(self.alloc, self.heard.as_slice())? else {
            return Ok(());
        };
        if !rest.is_empty() {
            return Err(Stop::Faulty(Fault::Count));
        }
        self.heard.clear();
        self.ask(page)
    }

    // The keys of this page are to be removed.
    fn ask(&mut self, page: Page) -> Result<(), Stop>
        ensures { OnOk result (self.new ≡ asking page.next page.numbers.items self.old) }
    {
        if page.numbers.is_empty() {
            return self.go_on(page.next);
        }
        self.asks = removal_request(self.alloc, self.room, page.numbers.as_slice())?;
        self.awaits = Awaits::Count(page.next);
        Ok(())
    }

    // What was told is a count, as far as it goes.
    fn hear_count(&mut self, next: u64) -> Result<(), Stop>
        requires { self.old.awaits ≡ Awaits.Count next }
        ensures { OnOk result (Hears [] self.old self.new) }
    {
        let Some((count, rest)) = read_integer(self.heard.as_slice())? else {
            return Ok(());
        };
        let Some(removed) = self.removed.checked_add(count as usize) else {
            return Err(Stop::Memory);
        };
        if !rest.is_empty() {
            return Err(Stop::Faulty(Fault::Count));
        }
        self.heard.clear();
        self.removed = removed;
        self.go_on(next)
    }

    // The page from this cursor on is next; 0 is the end.
    fn go_on(&mut self, next: u64) -> Result<(), Stop>
        ensures { OnOk result (self.new ≡ going_on next self.old) }
    {
        if next == 0 {
            self.awaits = Awaits::Nothing;
            self.asks.clear();
            return Ok(());
        }
        self.asks = room_request(self.alloc, self.room, next)?;
        self.awaits = Awaits::Page;
        Ok(())
    }
}

// What asks for the page of a room from this cursor on: one of as many keys as a page may have.
fn room_request(alloc: Global, room: u8, cursor: u64) -> Result<Vec<u8>, AllocError>
    ensures { IfOk result (λ text. text.items ≡ room_text room cursor) }
{
    let mut text = Vec::from_slice(alloc, b"SSCAN ")?;
    push_plain(&mut text, u64::from(room))?;
    text.extend_from_slice(b" ")?;
    push_plain(&mut text, cursor)?;
    text.extend_from_slice(b" COUNT 256\r\n")?;
    Ok(text)
}

// What asks for the removal of these keys of a room.
fn removal_request(alloc: Global, room: u8, numbers: &[u64]) -> Result<Vec<u8>, AllocError>
    ensures { IfOk result (λ text. text.items ≡ removal_text room numbers.now) }
{
    let Some(count) = numbers.len().checked_add(2) else {
        return Err(AllocError);
    };
    let mut text = Vec::from_slice(alloc, b"*")?;
    push_plain(&mut text, count as u64)?;
    text.extend_from_slice(b"\r\n$4\r\nSREM\r\n")?;
    push_decimal(&mut text, u64::from(room))?;
    push_numbers(&mut text, numbers)?;
    Ok(text)
}

fn push_numbers(text: &mut Vec<u8>, numbers: &[u64]) -> Result<(), AllocError>
    ensures { OnOk result (text.new.items ≡ text.old.items ++ flat_map number_text numbers.now) }
{
    for number in numbers {
        push_decimal(text, *number)?;
    }
    Ok(())
}

// The integer at the front of a text, and what follows it.
fn read_integer(text: &[u8]) -> Result<Option<(u64, &[u8])>, Fault>
    ensures gives { seen (λ p. (p.0, p.1.now)) result ≡ integer_at text.now }
{
    let rest = match text {
        [] => return Ok(None),
        [b':', rest @ ..] => rest,
        _ => return Err(Fault::Count),
    };
    let Some((digits, rest)) = read_line(Fault::Count, rest)? else {
        return Ok(None);
    };
    match read_number(digits, 0, MOST_SLOTS) {
        Some(count) => Ok(Some((count, rest))),
        None => Err(Fault::Count),
    }
}
