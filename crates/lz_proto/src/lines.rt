//! Lines out of a text that comes in pieces.
ghost use Rattle.std.specs.Prelude.{◌≡◌, ◌↔◌, ◌≤◌, ◌∷◌, ◌++◌, List, length, IsTrue, IfOk, OnOk, OnErr, Some, None, [], if◌then◌else◌, option_map, take, false};
ghost use Rattle.lz_proto.specs.declared.item.Item.{Item};
ghost use Rattle.lz_proto.specs.Lines.{Items, has_line_feed};
ghost use Rattle.lz_proto.specs.Limits.{most_kept};
ghost use Rattle.lz_proto.specs.Pieces.{Adds, Ends, Feeds, IsShort, Reads, faults_of};

use crate::fault::Bad;
use crate::item::Item;
use crate::limits::MOST_KEPT;
use crate::line::parse;
use crate::request::Request;
use memchr::memchr;
use std::alloc::{AllocError, Global};
use std::collections::VecDeque;
use std::marker::Model;

/// Cuts a text that comes in pieces into lines. Contracts see it as the unfinished line, or none once `quit` has come.
#[derive(Drop)]
pub struct Lines {
    alloc: Global,
    kept: Option<Vec<u8>>,
}

impl Model for Lines {
    ghost use Rattle.std.specs.Prelude.{◌≡◌, ℕ, ◌≤◌, List, Option, option_map, IfSome, length, false};
    ghost use Rattle.lz_proto.specs.Lines.{has_line_feed};
    ghost use Rattle.lz_proto.specs.Limits.{most_kept};

    ghost Value = { Option (List ℕ) };

    ghost view = { λ l. option_map (λ kept. kept.items) l.kept };

    ghost invariant = { λ l. IfSome l.kept (λ kept. (has_line_feed kept.items ≡ false) × (length kept.items ≤ most_kept)) };
}

impl Lines {
    /// No text has come yet.
    pub fn new(alloc: Global) -> Lines
        ensures { result ≡ Some [] }
    {
        Lines {
            alloc,
            kept: Some(Vec::new(alloc)),
        }
    }

    /// Takes the next piece of the text, and gives the items of the lines that end in it, up to `quit`.
    pub fn feed(&mut self, piece: &[u8]) -> Result<Vec<Item>, AllocError>
        ensures ok { IfOk result (λ items. Feeds self.old piece.now items.items self.new) }
        ensures short { OnOk result (IsShort self.new) }
        ensures err { OnErr result (self.new ≡ self.old) }
    {
        let mut items = VecDeque::new(self.alloc);
        self.feed_into(piece, &mut items)?;
        Ok(items.into_vec())
    }

    /// Takes the next piece of the text, and puts the items of the lines that end in it, up to `quit`, behind those in the queue.
    pub fn feed_into(&mut self, piece: &[u8], items: &mut VecDeque<Item>) -> Result<(), AllocError>
        ensures ok { OnOk result ((more : List Item) × Feeds self.old piece.now more self.new × (items.new.items ≡ items.old.items ++ more)) }
        ensures short { OnOk result (IsShort self.new) }
        ensures err { OnErr result ((self.new ≡ self.old) × (items.new.items ≡ items.old.items)) }
    {
        let Some(kept) = &mut self.kept else {
            return Ok(());
        };
        let before = items.len();
        match read_piece(kept, piece, items) {
            Ok(true) => Ok(()),
            Ok(false) => {
                self.kept = None;
                Ok(())
            }
            Err(fault) => {
                items.truncate(before);
                Err(fault)
            }
        }
    }

    /// The fault of the unfinished line, where the text ends there.
    pub fn end(self) -> Option<Bad>
        ensures { Ends self result }
    {
        match self.kept {
            Some(kept) => fault_at_end(kept.as_slice()),
            None => None,
        }
    }
}

fn fault_at_end(kept: &[u8]) -> Option<Bad>
    requires { has_line_feed kept.now ≡ false }
    ensures { Items kept.now (faults_of result) }
{
    if kept.is_empty() {
        None
    } else {
        Some(Bad::NoEnd)
    }
}

// Adds the items of the lines that end in a piece after the text that was kept, and keeps what is left. It says whether there
// was no `quit`: after one nothing is kept.
fn read_piece(
    kept: &mut Vec<u8>,
    piece: &[u8],
    items: &mut VecDeque<Item>,
) -> Result<bool, AllocError>
    requires clear { has_line_feed kept.old.items ≡ false }
    requires short { length kept.old.items ≤ most_kept }
    ensures ok { IfOk result (λ goes_on. (more : List Item) × Reads (kept.old.items ++ piece.now) more (if goes_on then Some kept.new.items else None) × (items.new.items ≡ items.old.items ++ more)) }
    ensures short { IfOk result (λ goes_on. IsTrue goes_on → length kept.new.items ≤ most_kept) }
    ensures kept { OnErr result (kept.new.items ≡ kept.old.items) }
    ensures items { OnErr result ((more : List Item) × (items.new.items ≡ items.old.items ++ more)) }
{
    let Some(end) = memchr(b'\n', piece) else {
        keep_more(kept, piece)?;
        return Ok(true);
    };
    if add_first(items, kept, &piece[..end])? {
        return Ok(false);
    }
    match add_items(items, &piece[end + 1..])? {
        Some(left) => {
            keep(kept, left)?;
            Ok(true)
        }
        None => Ok(false),
    }
}

// Adds the items of the lines of a text, and gives what is left after the last one, if there was no `quit`.
fn add_items<'t>(items: &mut VecDeque<Item>, text: &'t [u8]) -> Result<Option<&'t [u8]>, AllocError>
    ensures ok { IfOk result (λ left. (more : List Item) × Reads text.now more (option_map (λ rest. rest.now) left) × (items.new.items ≡ items.old.items ++ more)) }
    ensures err { OnErr result ((more : List Item) × (items.new.items ≡ items.old.items ++ more)) }
{
    let mut rest = text;
    while let Some(end) = memchr(b'\n', rest) {
        let (line, ended) = rest.split_at(end);
        if add_item(items, line)? {
            return Ok(None);
        }
        rest = &ended[1..];
    }
    Ok(Some(rest))
}

// Adds the item of the line that begins with what was kept and ends so, and tells whether it is `quit`. The line is put together
// in the room of what was kept.
fn add_first(
    items: &mut VecDeque<Item>,
    kept: &mut Vec<u8>,
    line: &[u8],
) -> Result<bool, AllocError>
    requires short { length kept.old.items ≤ most_kept }
    ensures ok { IfOk result (λ is_quit. (item : Item) × Adds (kept.old.items ++ line.now) item items.old.items items.new.items is_quit) }
    ensures err { OnErr result (items.new.items ≡ items.old.items) }
    ensures same { kept.new.items ≡ kept.old.items }
{
    let before = kept.len();
    if before == 0 {
        return add_item(items, line);
    }
    keep_more(kept, line)?;
    let added = add_item(items, kept.as_slice());
    kept.truncate(before);
    added
}

// Adds the item of a line, and tells whether it is `quit`.
fn add_item(items: &mut VecDeque<Item>, line: &[u8]) -> Result<bool, AllocError>
    ensures ok { IfOk result (λ is_quit. (item : Item) × Adds line.now item items.old.items items.new.items is_quit) }
    ensures err { OnErr result (items.new.items ≡ items.old.items) }
{
    let item = match parse(line) {
        Ok(request) => Item::Asks(request),
        Err(bad) => Item::Faulty(bad),
    };
    items.push_back(item)?;
    Ok(is_quit(&item))
}

fn is_quit(item: &Item) -> bool
    ensures { IsTrue result ↔ (item.now ≡ Item.Asks Request.Quit) }
{
    matches!(item, Item::Asks(Request::Quit))
}

// Keeps as much of the unfinished line's next bytes as can change what it comes to.
fn keep_more(kept: &mut Vec<u8>, more: &[u8]) -> Result<(), AllocError>
    requires short { length kept.old.items ≤ most_kept }
    ensures ok { OnOk result (kept.new.items ≡ take most_kept (kept.old.items ++ more.now)) }
    ensures err { OnErr result (kept.new.items ≡ kept.old.items) }
{
    let room = MOST_KEPT - kept.len();
    kept.reserve_exact(room)?;
    kept.extend_from_slice(&more[..more.len().min(room)])
}

// Keeps as much of another unfinished line in place of what was kept.
fn keep(kept: &mut Vec<u8>, left: &[u8]) -> Result<(), AllocError>
    requires short { length kept.old.items ≤ most_kept }
    ensures ok { OnOk result (kept.new.items ≡ take most_kept left.now) }
    ensures err { OnErr result (kept.new.items ≡ kept.old.items) }
{
    if !left.is_empty() {
        kept.reserve_exact(MOST_KEPT - kept.len())?;
    }
    kept.clear();
    kept.extend_from_slice(&left[..left.len().min(MOST_KEPT)])
}
