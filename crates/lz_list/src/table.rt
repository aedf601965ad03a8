//! The table of words.
ghost use Rattle.std.specs.Prelude.{◌≡◌, ◌≤◌, ◌<◌, length, IfOk};
ghost use Rattle.lz_slot.specs.Limits.{most_slots};
ghost use Rattle.lz_list.specs.Words.{word_of};

use crate::flags::Flags;
use crate::layout::Sizes;
use crate::link::{LinkWord, link_of};
use crate::place::Place;
use crate::word::Word;
use lz_slot::Slot;
use std::alloc::{AllocError, Global};
use std::marker::Model;

/// The words that threads share, as a plain table. Nodes and heads lie in one row, each at its place. Each addition accesses
/// the pins and the halt word, so they are kept beside it, and no place is added up for them: theirs in the row stay 0.
#[derive(Drop)]
pub struct Words {
    row: Vec<u64>,
    sizes: Sizes,
    pins: Vec<u64>,
    halt: u64,
}

impl Model for Words {
    ghost use Rattle.lz_list.specs.Words.{Words as AllWords};

    ghost Value = { AllWords };

    ghost use Rattle.lz_list.specs.Addresses.{words_in, IsRow};

    ghost view = { λ w. words_in w.sizes w.row.items w.pins.items w.halt };

    ghost invariant = { λ w. IsRow w.sizes w.row.items w.pins.items };
}

/// The word that holds the next link of a place.
pub fn word_of(place: Place) -> Word
    ensures { result ≡ word_of place }
{
    match place {
        Place::Bucket(bucket) => Word::Head(bucket),
        Place::Node(slot) => Word::Link(slot),
    }
}

impl Words {
    ghost use Rattle.lz_list.specs.Words.{change_flags, get, is_marked_at, marked_flags, next_at, redirect, set};
    ghost use Rattle.lz_list.specs.Addresses.{row_of, sizes_in, IsAtRest};
    ghost use Rattle.lz_list.specs.Lists.{IsPlace, IsTable, IsWord, new_words};

    /// A table of empty buckets whose words are all 0.
    pub fn new(
        alloc: Global,
        slots: usize,
        buckets: usize,
        passes: usize,
    ) -> Result<Words, AllocError>
        requires slots { slots ≤ most_slots }
        requires buckets { 1 ≤ buckets }
        ensures { IfOk result (λ words. words ≡ new_words slots buckets passes) }
    {
        let sizes = Sizes {
            slots,
            buckets,
            passes,
        };
        let count = sizes.words().ok_or(AllocError)?;
        let row = vec![in alloc; 0; count]?;
        let pins = vec![in alloc; 0; passes]?;
        Ok(Words {
            row,
            sizes,
            pins,
            halt: 0,
        })
    }

    /// How many buckets there are.
    pub fn buckets(&self) -> usize
        ensures count { result ≡ length self.now.heads }
        ensures table { IsTable self.now }
    {
        self.sizes.buckets
    }

    /// How many slots there are.
    pub fn slots(&self) -> usize
        ensures count { result ≡ length self.now.links }
        ensures table { IsTable self.now }
    {
        self.sizes.slots
    }

    /// How many slots, buckets and passes there are.
    pub fn sizes(&self) -> Sizes
        ensures sizes { result ≡ sizes_in self.now }
        ensures table { IsTable self.now }
    {
        let Words { sizes, .. } = self;
        *sizes
    }

    /// All words, each at its place, while the pins and the halt word are 0.
    pub fn row(&self) -> &[u64]
        requires { IsAtRest self.now }
        ensures { result.now ≡ row_of (sizes_in self.now) self.now }
    {
        self.row.as_slice()
    }

    pub fn get(&self, word: Word) -> u64
        requires { IsWord self.now word }
        ensures { result ≡ get self.now word }
    {
        match word {
            Word::Pin(pass) => self.pins[pass - 1],
            Word::Halt => self.halt,
            other => self.row[self.sizes.place(other)],
        }
    }

    pub fn set(&mut self, word: Word, value: u64)
        requires { IsWord self.old word }
        ensures { self.new ≡ set self.old word value }
    {
        match word {
            Word::Pin(pass) => self.pins[pass - 1] = value,
            Word::Halt => self.halt = value,
            other => self.row[self.sizes.place(other)] = value,
        }
    }

    /// The next link of a place.
    pub fn next(&self, place: Place) -> u32
        requires { IsPlace self.now place }
        ensures { result ≡ next_at self.now place }
    {
        link_of(self.get(word_of(place))).next
    }

    /// Whether a place is marked; a head never is.
    pub fn is_marked(&self, place: Place) -> bool
        requires { IsPlace self.now place }
        ensures { result ≡ is_marked_at self.now place }
    {
        match place {
            Place::Bucket(_) => false,
            Place::Node(slot) => link_of(self.get(Word::Link(slot))).flags.mark,
        }
    }

    // Changes the next link of a place, and keeps its flags.
    pub(crate) fn redirect(&mut self, place: Place, next: u32)
        requires { IsPlace self.old place }
        ensures { self.new ≡ redirect self.old place next }
    {
        match place {
            Place::Bucket(bucket) => self.set(Word::Head(bucket), next as u64),
            Place::Node(slot) => {
                let flags = link_of(self.get(Word::Link(slot))).flags;
                self.set(Word::Link(slot), LinkWord { next, flags }.word());
            }
        }
    }

    // Marks a node.
    pub(crate) fn mark(&mut self, slot: Slot)
        requires { IsWord self.old (Word.Link slot) }
        ensures { self.new ≡ change_flags marked_flags self.old slot }
    {
        let LinkWord { next, flags } = link_of(self.get(Word::Link(slot)));
        let flags = Flags {
            mark: true,
            ..flags
        };
        self.set(Word::Link(slot), LinkWord { next, flags }.word());
    }
}
