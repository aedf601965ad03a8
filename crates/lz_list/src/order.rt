//! Whether the buckets of a table are sorted.
ghost use Rattle.std.specs.Prelude.{◌≡◌, ◌↔◌, ◌<◌, ◌^◌, ℕ, IfNone, IfSome, IsTrue, length, suc};

use crate::link::slot_behind;
use crate::place::Place;
use crate::table::Words;
use crate::word::Word;
use lz_slot::Slot;

impl Words {
    ghost use Rattle.lz_list.specs.Words.{get, next_at, place_number};
    ghost use Rattle.lz_list.specs.Traces.{Chain, rank_at};
    ghost use Rattle.lz_list.specs.Lists.{Follows, IsPlace, IsSorted, IsTable, ShowsChain, home};

    /// Whether these are the words of a list: in each bucket the keys ascend strictly along the links, and belong there. It
    /// looks at each linked node once.
    pub fn is_sorted(&self) -> bool
        ensures { IsTrue result ↔ IsSorted self.now }
    {
        for bucket in 0..self.buckets() {
            if !self.shows_chain(bucket) {
                return false;
            }
        }
        true
    }

    fn shows_chain(&self, bucket: usize) -> bool
        requires { bucket < length self.now.heads }
        ensures { IsTrue result ↔ (chain : Chain) × ShowsChain self.now bucket chain }
    {
        let mut place = Place::Bucket(bucket);
        while let Some(slot) = self.follower(bucket, &place) {
            place = Place::Node(slot);
        }
        self.next(place) == 0
    }

    // The node after a place, where it may stand there on a bucket's chain.
    fn follower(&self, bucket: usize, place: &Place) -> Option<Slot>
        requires { IsPlace self.now place.now }
        ensures some { IfSome result (λ slot. Follows self.now bucket place.now slot) }
        ensures none { IfNone result ((slot : ℕ) → Follows self.now bucket place.now slot → ⊥) }
        ensures range { IfSome result (λ slot. get self.now (Word.Key slot) < 2 ^ 64) }
    {
        let slot = self.behind(place)?;
        let key = self.get(Word::Key(slot));
        if self.home(key) == bucket && self.is_above(key, place) {
            Some(slot)
        } else {
            None
        }
    }

    // The slot to which a place leads, where there is one.
    fn behind(&self, place: &Place) -> Option<Slot>
        requires { IsPlace self.now place.now }
        ensures some { IfSome result (λ slot. (next_at self.now place.now ≡ suc slot) × (slot < length self.now.links)) }
        ensures none { IfNone result ((slot : ℕ) → next_at self.now place.now ≡ suc slot → slot < length self.now.links → ⊥) }
        ensures table { IsTable self.now }
    {
        let next = self.next(*place);
        if next as usize > self.slots() {
            return None;
        }
        slot_behind(next)
    }

    // Whether a key is above that of a place; a head has none.
    fn is_above(&self, key: u64, place: &Place) -> bool
        requires table { IsTable self.now }
        requires place { IsPlace self.now place.now }
        ensures { IsTrue result ↔ (rank_at (λ s. get self.now (Word.Key s)) (place_number place.now) < suc key) }
    {
        match place {
            Place::Bucket(_) => true,
            Place::Node(slot) => self.get(Word::Key(*slot)) < key,
        }
    }

    /// The bucket in which a key belongs.
    #[tactic(auto, unfolding(crate::specs::Traces::bucket_of))]
    pub fn home(&self, key: u64) -> usize
        ensures { result ≡ home self.now key }
    {
        let buckets = self.buckets();
        (key % buckets as u64) as usize
    }
}
