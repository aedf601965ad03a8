//! A walk along a bucket, without locks.
ghost use Rattle.std.specs.Prelude.{◌≡◌, ◌≢◌, ◌≤◌, ◌==◌, Some, nat_lt, if◌then◌else◌};
ghost use Rattle.lz_slot.specs.Limits.{most_slots};

use crate::flags::Flags;
use crate::link::{link_of, slot_behind};
use crate::place::Place;
use crate::word::Word;
use lz_slot::{Key, Slot};

/// What a walk loads next.
#[derive(Clone, Copy, Debug, PartialEq, Eq)]
pub enum Look {
    /// The head of its bucket.
    AtHead,
    /// The key of the node in this slot, to which the place leads.
    AtKey(Place, Slot),
    /// The link word of the node with the walk's own key, to which the place leads.
    AtMet(Place, Slot),
    /// The link word of a node below the walk's key.
    AtBelow(Slot),
}

/// What a walk met at its end.
#[derive(Clone, Copy, Debug, PartialEq, Eq)]
pub enum Met {
    Absent,
    Unmarked(Slot, Flags),
    Marked(Slot, Flags),
}

/// Whether a walk goes on after a load.
#[derive(Clone, Copy, Debug, PartialEq, Eq)]
pub enum Hop {
    More,
    End {
        /// The last place before the walk's key.
        pred: Place,
        /// The slot to which that place led, if it wasn't the end.
        curr: Option<Slot>,
        met: Met,
    },
}

/// A walk for a key, in a table of so many buckets. It holds no lock: whoever has a walk loads the word that it wants, and
/// hands it the value.
#[derive(Clone, Copy, Debug, PartialEq, Eq)]
pub struct Walk {
    pub key: Key,
    pub buckets: usize,
    pub look: Look,
}

impl Walk {
    ghost use Rattle.lz_list.specs.Words.{next_of};
    ghost use Rattle.lz_list.specs.Walks.{End as Ends, More as GoesOn, hopped, reaches, wants};
    ghost use Rattle.lz_list.specs.Hops.{LeadsOn, told};
    ghost use Rattle.lz_list.specs.Traces.{bucket_of};

    pub fn start(key: Key, buckets: usize) -> Walk
        ensures { result ≡ record { key = key; buckets = buckets; look = Look.AtHead } }
    {
        Walk {
            key,
            buckets,
            look: Look::AtHead,
        }
    }

    #[tactic(auto, unfolding(crate::specs::Traces::bucket_of))]
    fn bucket(&self) -> usize
        requires { 1 ≤ self.now.buckets }
        ensures { result ≡ bucket_of self.now.buckets self.now.key }
    {
        (self.key.rank() % self.buckets as u64) as usize
    }

    /// The word to load.
    #[inline(always)]
    pub fn wants(&self) -> Word
        requires { 1 ≤ self.now.buckets }
        ensures { result ≡ wants self.now.buckets self.now.key self.now.look }
    {
        match self.look {
            Look::AtHead => Word::Head(self.bucket()),
            Look::AtKey(_, slot) => Word::Key(slot),
            Look::AtMet(_, slot) => Word::Link(slot),
            Look::AtBelow(slot) => Word::Link(slot),
        }
    }

    /// Takes the value of the word that was wanted. After the end the walk looks where it did.
    #[inline(always)]
    pub fn hop(&mut self, value: u64) -> Hop
        requires buckets { 1 ≤ self.old.buckets }
        requires leads { LeadsOn self.old.look value }
        ensures told { told self.new.look result ≡ hopped self.old.buckets self.old.key self.old.look value }
        ensures ended { result ≢ Hop.More → self.new.look ≡ self.old.look }
        ensures key { self.new.key ≡ self.old.key }
        ensures buckets { self.new.buckets ≡ self.old.buckets }
    {
        let look = self.look;
        match look {
            Look::AtHead => {
                let bucket = self.bucket();
                self.reach(Place::Bucket(bucket), value)
            }
            Look::AtKey(pred, slot) => self.compare(pred, slot, value),
            Look::AtMet(pred, slot) => end_at(pred, slot, link_of(value).flags),
            Look::AtBelow(slot) => self.reach(Place::Node(slot), value),
        }
    }

    // From a place along its link word, or head word.
    fn reach(&mut self, pred: Place, word: u64) -> Hop
        requires { next_of word ≤ most_slots }
        ensures told { told self.new.look result ≡ reaches pred (next_of word) }
        ensures ended { result ≢ Hop.More → self.new.look ≡ self.old.look }
        ensures key { self.new.key ≡ self.old.key }
        ensures buckets { self.new.buckets ≡ self.old.buckets }
    {
        match slot_behind(link_of(word).next) {
            None => Hop::End {
                pred,
                curr: None,
                met: Met::Absent,
            },
            Some(slot) => {
                self.look = Look::AtKey(pred, slot);
                Hop::More
            }
        }
    }

    // From a place to a node with this key word.
    fn compare(&mut self, pred: Place, slot: Slot, word: u64) -> Hop
        ensures told { told self.new.look result ≡ (if word == self.old.key then GoesOn (Look.AtMet pred slot) else if nat_lt word self.old.key then GoesOn (Look.AtBelow slot) else Ends pred (Some slot) Met.Absent) }
        ensures ended { result ≢ Hop.More → self.new.look ≡ self.old.look }
        ensures key { self.new.key ≡ self.old.key }
        ensures buckets { self.new.buckets ≡ self.old.buckets }
    {
        if word > self.key.rank() {
            return Hop::End {
                pred,
                curr: Some(slot),
                met: Met::Absent,
            };
        }
        self.look = if word == self.key.rank() {
            Look::AtMet(pred, slot)
        } else {
            Look::AtBelow(slot)
        };
        Hop::More
    }
}

// The end of a walk at a node with its key.
fn end_at(pred: Place, slot: Slot, flags: Flags) -> Hop
    ensures { result ≡ Hop.End pred (Some slot) (if flags.mark then Met.Marked slot flags else Met.Unmarked slot flags) }
{
    let met = if flags.mark {
        Met::Marked(slot, flags)
    } else {
        Met::Unmarked(slot, flags)
    };
    Hop::End {
        pred,
        curr: Some(slot),
        met,
    }
}
