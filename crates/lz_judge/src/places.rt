//! Where the keys of a list stand in it.
ghost use Rattle.std.specs.Prelude.{◌≡◌, ◌≢◌, ◌↔◌, ◌+◌, ◌<◌, [], ◌++◌, ◌∷◌, ℕ, IfOk, IfSome, IsTrue, List, MatchOption, None, OnOk, Option, Some, length, map, slice_index_or};
ghost use Rattle.lz_judge.specs.Places.{IsFree, IsTable, place_of};

use lz_slot::Key;
use std::alloc::{AllocError, Global};

// An odd number whose products scatter the keys.
const SCATTER: u64 = 11_400_714_819_323_198_485;

// The upper half of a product is taken.
const HALF: u64 = 4_294_967_296;

/// What may have a key.
pub trait Keyed {
    ghost use Rattle.std.specs.Prelude.{ℕ, Option};

    /// The rank of its key, where it has one.
    ghost key: { Self → Option ℕ };

    fn keyed(&self) -> Option<u64>
        ensures { result ≡ key self.now };
}

impl Keyed for Key {
    ghost use Rattle.std.specs.Prelude.{Some};

    ghost key = { Some };

    fn keyed(&self) -> Option<u64> {
        Some(self.rank())
    }
}

/// A table of the keys of a list's items, in 8 to 16 bytes an item: each key has a row that names an item with this key.
#[derive(Drop)]
pub struct Places {
    alloc: Global,
    // Each row is 0, or one more than an item's index.
    rows: Vec<u32>,
}

impl Places {
    /// The table of no items.
    pub fn new(alloc: Global) -> Places
        ensures { IsTable [] result }
    {
        Places {
            alloc,
            rows: Vec::new(alloc),
        }
    }

    /// The table of these items, in two rows an item.
    pub fn of<T: Keyed>(alloc: Global, items: &[T]) -> Result<Places, AllocError>
        ensures { IfOk result (IsTable (map T.key items.now)) }
    {
        if items.len() >= u32::MAX as usize {
            return Err(AllocError);
        }
        Places::with_rows(alloc, items, 2 * items.len() + 64)
    }

    // The table of these items, in so many rows.
    fn with_rows<T: Keyed>(alloc: Global, items: &[T], size: usize) -> Result<Places, AllocError>
        ensures { IfOk result (IsTable (map T.key items.now)) }
    {
        let mut places = Places {
            alloc,
            rows: vec![in alloc; 0; size]?,
        };
        for index in 0..items.len() {
            places.note(index, items[index].keyed())?;
        }
        Ok(places)
    }

    /// Notes the last of these items, after all others.
    pub fn add<T: Keyed>(&mut self, items: &[T]) -> Result<(), AllocError>
        ensures { (ks : List (Option ℕ)) (k : Option ℕ) → map T.key items.now ≡ ks ++ k ∷ [] → IsTable ks self.old → OnOk result (IsTable (map T.key items.now) self.new) }
    {
        let count = items.len();
        if count == 0 || count >= u32::MAX as usize {
            return Err(AllocError);
        }
        if self.rows.len() >= 2 * count {
            return self.note(count - 1, items[count - 1].keyed());
        }
        self.rows = Vec::new(self.alloc);
        *self = Places::with_rows(self.alloc, items, 4 * count + 64)?;
        Ok(())
    }

    // Notes the next item, which has this index and maybe this key.
    fn note(&mut self, index: usize, key: Option<u64>) -> Result<(), AllocError>
        ensures { (ks : List (Option ℕ)) → index ≡ length ks → IsTable ks self.old → OnOk result (IsTable (ks ++ key ∷ []) self.new) }
    {
        let Some(key) = key else {
            return Ok(());
        };
        if index >= u32::MAX as usize {
            return Err(AllocError);
        }
        let Some(place) = self.free_place(key) else {
            return Err(AllocError);
        };
        self.rows[place] = index as u32 + 1;
        Ok(())
    }

    // The first free row of those in which the key may stand.
    fn free_place(&self, key: u64) -> Option<usize>
        ensures { IfSome result (IsFree self.now key) }
    {
        for step in 0..self.rows.len() {
            let place = place_of(key, step, self.rows.len());
            if self.rows[place] == 0 {
                return Some(place);
            }
        }
        None
    }

    /// The index of an item that has this key, if one has.
    pub fn find<T: Keyed>(&self, items: &[T], key: u64) -> Option<usize>
        ensures found { IsTable (map T.key items.now) self.now → MatchOption result
            ((i : ℕ) → slice_index_or (map T.key items.now) i None ≢ Some key) (λ i. slice_index_or (map T.key items.now) i None ≡ Some key) }
        ensures low { IfSome result (λ i. i < length items.now) }
    {
        for step in 0..self.rows.len() {
            let place = place_of(key, step, self.rows.len());
            let row = self.rows[place] as usize;
            if row == 0 {
                return None;
            }
            if has_key(items, row - 1, key) {
                return Some(row - 1);
            }
        }
        None
    }
}

// The row that is looked at after so many others.
fn place_of(key: u64, step: usize, size: usize) -> usize
    requires { 0 < size }
    ensures value { result ≡ place_of key step size }
    ensures low { result < size }
{
    let scattered = key.wrapping_mul(SCATTER) / HALF;
    (scattered as usize).wrapping_add(step) % size
}

// Whether the item with this index has this key.
fn has_key<T: Keyed>(items: &[T], index: usize, key: u64) -> bool
    ensures is { IsTrue result ↔ (slice_index_or (map T.key items.now) index None ≡ Some key) }
    ensures low { IsTrue result → index < length items.now }
{
    if index >= items.len() {
        return false;
    }
    match items[index].keyed() {
        Some(other) => other == key,
        None => false,
    }
}
