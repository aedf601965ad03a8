//! A link word, taken apart.
ghost use Rattle.std.specs.Prelude.{◌≡◌, ◌*◌, ◌≤◌, ◌^◌};
ghost use Rattle.lz_slot.specs.Limits.{most_slots};
ghost use Rattle.lz_list.specs.Words.{bit_of, flags_of, link_to, link_with, next_of};

use crate::flags::Flags;
use lz_slot::Slot;

const MARK: u64 = 1 << 32;

const ADD_SETTLED: u64 = 1 << 33;

const REMOVE_SETTLED: u64 = 1 << 34;

/// What a link word says. A head word is a next link alone.
#[derive(Clone, Copy, Debug, PartialEq, Eq)]
pub struct LinkWord {
    /// 0 at the end, and otherwise one more than the slot to which it leads.
    pub next: u32,
    pub flags: Flags,
}

/// Reads a link word.
pub fn link_of(word: u64) -> LinkWord
    ensures next { result.next ≡ next_of word }
    ensures flags { result.flags ≡ flags_of word }
{
    LinkWord {
        next: (word % MARK) as u32,
        flags: Flags {
            mark: word / MARK % 2 == 1,
            add_settled: word / ADD_SETTLED % 2 == 1,
            remove_settled: word / REMOVE_SETTLED % 2 == 1,
        },
    }
}

impl LinkWord {
    /// The word that says this.
    pub fn word(self) -> u64
        ensures { result ≡ link_with self.next self.flags }
    {
        self.next as u64
            + bit(self.flags.mark, MARK)
            + bit(self.flags.add_settled, ADD_SETTLED)
            + bit(self.flags.remove_settled, REMOVE_SETTLED)
    }
}

fn bit(flag: bool, value: u64) -> u64
    requires { value ≤ 2 ^ 34 }
    ensures { result ≡ value * bit_of flag }
{
    if flag { value } else { 0 }
}

// The slot to which a next link leads, if it isn't the end.
pub(crate) fn slot_behind(next: u32) -> Option<Slot>
    requires { next ≤ most_slots }
    ensures { link_to result ≡ next }
{
    if next == 0 {
        None
    } else {
        Some(Slot::new(next - 1))
    }
}

/// The next link that leads to a slot, or to the end.
pub fn next_to(slot: Option<Slot>) -> u64
    ensures { result ≡ link_to slot }
{
    match slot {
        None => 0,
        Some(slot) => slot.index() as u64 + 1,
    }
}
