//! Where each word lies in the row of all words.
ghost use Rattle.std.specs.Prelude.{◌≡◌, ◌+◌, ◌<◌, ◌≤◌, ◌^◌, IfNone, IfSome};
ghost use Rattle.lz_slot.specs.Limits.{most_slots};
ghost use Rattle.lz_list.specs.Addresses.{index, words_count, HasPlace};

use crate::word::Word;

/// How many slots, buckets and passes there are.
#[derive(Clone, Copy)]
pub struct Sizes {
    pub slots: usize,
    pub buckets: usize,
    pub passes: usize,
}

impl Sizes {
    /// The place of a word in the row.
    pub fn place(&self, word: Word) -> usize
        requires word { HasPlace self.now word }
        requires room { words_count self.now < 2 ^ 64 }
        ensures { result ≡ index self.now word }
    {
        match word {
            Word::Link(slot) => 2 * slot.index() as usize,
            Word::Key(slot) => 2 * slot.index() as usize + 1,
            Word::Halt => self.slots + self.slots,
            Word::Head(bucket) => self.slots + self.slots + 1 + bucket,
            Word::Pin(pass) => self.slots + self.slots + self.buckets + pass,
        }
    }

    // How many words there are, if a number of the machine can tell.
    pub(crate) fn words(&self) -> Option<usize>
        requires { self.now.slots ≤ most_slots }
        ensures some { IfSome result (λ count. (count ≡ words_count self.now) × (count < 2 ^ 64)) }
        ensures none { IfNone result (2 ^ 64 ≤ words_count self.now) }
    {
        let nodes = self.slots + self.slots;
        self.buckets
            .checked_add(self.passes)?
            .checked_add(1 + nodes)
    }
}
