//! Frames out of a text that comes in pieces.
ghost use Rattle.std.specs.Prelude.{◌≡◌, ◌≤◌, ◌<◌, ◌++◌, ◌∷◌, [], ℕ, List, length, map, if◌then◌else◌, drop, IfOk, IfSome, OnOk, OnErr, Some, None, option_map};
ghost use Rattle.lz_resp.specs.Limits.{most_frame};
ghost use Rattle.lz_resp.specs.Keys.{IsRoom};
ghost use Rattle.lz_resp.specs.declared.item.Item.{Item};
ghost use Rattle.lz_resp.specs.Pieces.{Adds, Feeds, IsInside, IsShort, Reads, goes, start, step, step_by, step_with, stops, waits};

use crate::fault::Stop;
use crate::item::Item;
use crate::naming::Naming;
use crate::reading::read_first;
use crate::reply::fault_text;
use crate::state::State;
use crate::three::read_three;
use crate::transactions::item_in;
use std::alloc::{AllocError, Global};
use std::collections::VecDeque;
use std::marker::Model;

/// Cuts a text that comes in pieces into frames. Contracts see it as the state and the text of the unfinished frame,
/// or none once nothing more is read.
#[derive(Drop)]
pub struct Frames {
    alloc: Global,
    state: State,
    kept: Vec<u8>,
    over: bool,
}

impl Model for Frames {
    ghost use Rattle.std.specs.Prelude.{◌≡◌, ◌≤◌, Option, Some, None, if◌then◌else◌, length};
    ghost use Rattle.lz_resp.specs.Limits.{most_frame};
    ghost use Rattle.lz_resp.specs.Keys.{IsRoom};
    ghost use Rattle.lz_resp.specs.Pieces.{Place, step, waits};

    ghost Value = { Option Place };

    ghost view = { λ f. if f.over then None else Some (record { state = f.state; text = f.kept.items }) };

    ghost invariant = { λ f. IsRoom f.state.selected × (step f.state f.kept.items ≡ waits) × (length f.kept.items ≤ most_frame) };
}

// How a text goes on after what came first.
enum Next {
    // no whole frame has come
    Waits,
    // the state then, and how many bytes the frame has
    Goes(State, usize),
    // nothing more is read
    Stops,
}

impl Frames {
    /// No text has come yet.
    pub fn new(alloc: Global, naming: Naming) -> Frames
        ensures { result ≡ Some (start naming) }
    {
        Frames {
            alloc,
            state: State::at_first(naming),
            kept: Vec::new(alloc),
            over: false,
        }
    }

    /// Takes the next piece of the text, and puts the items of the frames that end in it after those in the queue.
    pub fn feed_into(&mut self, piece: &[u8], items: &mut VecDeque<Item>) -> Result<(), AllocError>
        ensures ok { OnOk result ((more : List Item) × Feeds self.old piece.now more self.new × (items.new.items ≡ items.old.items ++ more)) }
        ensures short { IsShort self.new }
        ensures err { OnErr result ((self.new ≡ self.old) × (items.new.items ≡ items.old.items)) }
    {
        if self.over {
            return Ok(());
        }
        let before = items.len();
        match read_piece(self.alloc, self.state, &mut self.kept, piece, items) {
            Ok(Some(state)) => {
                self.state = state;
                Ok(())
            }
            Ok(None) => {
                self.kept.clear();
                self.over = true;
                Ok(())
            }
            Err(error) => {
                items.truncate(before);
                Err(error)
            }
        }
    }

    /// For how many bytes of what is read it has room.
    pub fn room(&self) -> usize
        ensures { IfSome self.now (λ place. length place.text ≤ result) }
    {
        self.kept.capacity()
    }

    /// Gives the room back of what was read.
    pub fn rest(&mut self)
        ensures { self.new ≡ self.old }
    {
        self.kept.shrink_to(0);
    }
}

// Adds the items of the frames that end in a piece after the text that was kept, and keeps what is left. It gives the
// state then, or none where nothing more is read.
fn read_piece(
    alloc: Global,
    state: State,
    kept: &mut Vec<u8>,
    piece: &[u8],
    items: &mut VecDeque<Item>,
) -> Result<Option<State>, AllocError>
    requires range { IsRoom state.selected }
    ensures ok { IfOk result (λ next. (more : List Item) × Reads (record { state = state; text = kept.old.items ++ piece.now }) more (option_map (λ left. record { state = left; text = kept.new.items }) next) × (items.new.items ≡ items.old.items ++ more)) }
    ensures range { IfOk result (λ next. IfSome next (λ left. IsRoom left.selected)) }
    ensures waits { IfOk result (λ next. IfSome next (λ left. (step left kept.new.items ≡ waits) × (length kept.new.items ≤ most_frame))) }
    ensures kept { OnErr result (kept.new.items ≡ kept.old.items) }
    ensures items { OnErr result ((more : List Item) × (items.new.items ≡ items.old.items ++ more)) }
{
    if kept.is_empty() {
        return read_whole(alloc, state, kept, piece, items);
    }
    let before = kept.len();
    kept.extend_from_slice(piece)?;
    match add_items(alloc, state, kept.as_slice(), items) {
        Ok(Some((state, used))) => {
            drop_front(kept, used);
            Ok(Some(state))
        }
        Ok(None) => Ok(None),
        Err(error) => {
            kept.truncate(before);
            Err(error)
        }
    }
}

// The same where nothing was kept: the frames are read where they stand.
fn read_whole(
    alloc: Global,
    state: State,
    kept: &mut Vec<u8>,
    piece: &[u8],
    items: &mut VecDeque<Item>,
) -> Result<Option<State>, AllocError>
    requires range { IsRoom state.selected }
    requires none { kept.old.items ≡ [] }
    ensures ok { IfOk result (λ next. (more : List Item) × Reads (record { state = state; text = piece.now }) more (option_map (λ left. record { state = left; text = kept.new.items }) next) × (items.new.items ≡ items.old.items ++ more)) }
    ensures range { IfOk result (λ next. IfSome next (λ left. IsRoom left.selected)) }
    ensures waits { IfOk result (λ next. IfSome next (λ left. (step left kept.new.items ≡ waits) × (length kept.new.items ≤ most_frame))) }
    ensures kept { OnErr result (kept.new.items ≡ kept.old.items) }
    ensures items { OnErr result ((more : List Item) × (items.new.items ≡ items.old.items ++ more)) }
{
    let Some((next, used)) = add_items(alloc, state, piece, items)? else {
        return Ok(None);
    };
    let (_, rest) = piece.split_at(used);
    kept.extend_from_slice(rest)?;
    Ok(Some(next))
}

// Takes so many bytes off the front.
fn drop_front(kept: &mut Vec<u8>, count: usize)
    requires { count ≤ length kept.old.items }
    ensures { kept.new.items ≡ drop count kept.old.items }
{
    let left = kept.len() - count;
    kept.copy_within(count.., 0);
    kept.truncate(left);
}

// Adds the items of the frames of a text. It gives the state then, and how many bytes the frames have, or none where
// nothing more is read.
fn add_items(
    alloc: Global,
    state: State,
    text: &[u8],
    items: &mut VecDeque<Item>,
) -> Result<Option<(State, usize)>, AllocError>
    requires { IsRoom state.selected }
    ensures ok { IfOk result (λ next. (more : List Item) × Reads (record { state = state; text = text.now }) more (option_map (λ p. record { state = p.0; text = drop p.1 text.now }) next) × (items.new.items ≡ items.old.items ++ more)) }
    ensures range { IfOk result (λ next. IfSome next (λ p. IsRoom p.0.selected × (p.1 ≤ length text.now))) }
    ensures err { OnErr result ((more : List Item) × (items.new.items ≡ items.old.items ++ more)) }
{
    let mut state = state;
    let mut used = 0;
    'frames: while used < text.len() {
        let (_, rest) = text.split_at(used);
        match add_first(alloc, state, rest, items)? {
            Next::Waits => return Ok(Some((state, used))),
            Next::Goes(next, count) => {
                state = next;
                used += count;
            }
            Next::Stops => return Ok(None),
        }
    }
    Ok(Some((state, used)))
}

// Adds what comes first of a text.
fn add_first(
    alloc: Global,
    state: State,
    text: &[u8],
    items: &mut VecDeque<Item>,
) -> Result<Next, AllocError>
    requires { IsRoom state.selected }
    ensures ok { IfOk result (λ next. (more : List Item) × Adds (step state text.now) next text.now more × (items.new.items ≡ items.old.items ++ more)) }
    ensures range { IfOk result (λ next. IsInside next (length text.now)) }
    ensures err { OnErr result (items.new.items ≡ items.old.items) }
{
    match read_three(text) {
        Some(three) => add_frame(alloc, state, &three.arguments, three.count, items),
        None => add_any(alloc, state, text, items),
    }
}

// The same, whatever comes first.
#[inline(never)]
fn add_any(
    alloc: Global,
    state: State,
    text: &[u8],
    items: &mut VecDeque<Item>,
) -> Result<Next, AllocError>
    requires { IsRoom state.selected }
    ensures ok { IfOk result (λ next. (more : List Item) × Adds (step state text.now) next text.now more × (items.new.items ≡ items.old.items ++ more)) }
    ensures range { IfOk result (λ next. IsInside next (length text.now)) }
    ensures err { OnErr result (items.new.items ≡ items.old.items) }
{
    match read_first(alloc, text) {
        Ok(Some((arguments, count))) => add_frame(alloc, state, arguments.as_slice(), count, items),
        Ok(None) => Ok(Next::Waits),
        Err(Stop::Faulty(fault)) => {
            items.push_back(Item::Ends(fault_text(alloc, fault)?))?;
            Ok(Next::Stops)
        }
        Err(Stop::Memory) => Err(AllocError),
    }
}

// Adds what a frame of this many bytes comes to.
#[inline(always)]
fn add_frame(
    alloc: Global,
    state: State,
    arguments: &[&[u8]],
    count: usize,
    items: &mut VecDeque<Item>,
) -> Result<Next, AllocError>
    requires range { IsRoom state.selected }
    requires some { 0 < count }
    ensures ok { IfOk result (λ next. (more : List Item) × ((text : List ℕ) → Adds (step_with state (map (λ argument. argument.now) arguments.now) (drop count text)) next text more) × (items.new.items ≡ items.old.items ++ more)) }
    ensures range { IfOk result (λ next. IsInside next count) }
    ensures err { OnErr result (items.new.items ≡ items.old.items) }
{
    if arguments.is_empty() {
        return Ok(Next::Goes(state, count));
    }
    let mut next = state;
    let item = item_in(alloc, &mut next, arguments)?;
    let goes = goes_on(&item);
    items.reserve(1)?;
    items.push_back_reserved(item);
    if goes {
        Ok(Next::Goes(next, count))
    } else {
        Ok(Next::Stops)
    }
}

// Whether a text is read on after an item.
fn goes_on(item: &Item) -> bool
    ensures { (state : State) (rest : List ℕ) → step_by item.now state rest ≡ (if result then goes (item.now ∷ []) state rest else stops (item.now ∷ [])) }
{
    !matches!(item, Item::Ends(_))
}
