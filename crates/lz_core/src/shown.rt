//! The members that a yard shows.
ghost use Rattle.std.specs.Prelude.{◌≡◌, ◌≤◌, ◌<◌, ◌↔◌, ◌==◌, ◌||◌, ℕ, true, IfOk, IsTrue, OnOk, Some, length, slice_get};
ghost use Rattle.lz_slot.specs.Sets.{members};
ghost use Rattle.lz_core.specs.Worlds.{Ascend, IsAmong, IsListed};

use lz_disk::MemoryDisk;
use lz_list::Word;
use lz_slot::{Key, Slot};
use lz_yard::Yard;
use std::alloc::{AllocError, Global};

// The members of a yard, ascending: those keys of its slots that are members.
pub(crate) fn members_of(alloc: Global, yard: &Yard<MemoryDisk>) -> Result<Vec<Key>, AllocError>
    ensures members { IfOk result (λ keys. (k : ℕ) → (members keys.items k ≡ true) ↔ IsAmong yard.now.yard.words (length yard.now.yard.words.links) k) }
    ensures ascending { IfOk result (λ keys. Ascend keys.items) }
{
    let mut keys: Vec<Key> = Vec::new(alloc);
    for index in 0..yard.words().slots() {
        if let Some(key) = member_at(yard, Slot::new(index as u32)) {
            insert_key(&mut keys, key)?;
        }
    }
    Ok(keys)
}

// The key of a slot, if it is a member.
fn member_at(yard: &Yard<MemoryDisk>, slot: Slot) -> Option<Key>
    requires { slot < length yard.now.yard.words.keys }
    ensures { (k : ℕ) → (result ≡ Some k) ↔ IsListed yard.now.yard.words slot k }
{
    let key = Key::of_rank(yard.words().get(Word::Key(slot)))?;
    if yard.is_member(key) { Some(key) } else { None }
}

// Puts a key at its place among ascending ones, where it isn't there.
#[tactic(auto, using(crate::proofs::Members::AscendingKeys::there))]
fn insert_key(keys: &mut Vec<Key>, key: Key) -> Result<(), AllocError>
    requires { Ascend keys.old.items }
    ensures ascending { OnOk result (Ascend keys.new.items) }
    ensures members { OnOk result ((k : ℕ) → members keys.new.items k ≡ ((key == k) || members keys.old.items k)) }
{
    let place = place_of(keys, key);
    if is_at(keys, place, key) {
        return Ok(());
    }
    keys.insert(place, key)?;
    Ok(())
}

// Whether this key stands there.
fn is_at(keys: &[Key], place: usize, key: Key) -> bool
    ensures { IsTrue result ↔ (slice_get keys.now place ≡ Some key) }
{
    match keys.get(place) {
        None => false,
        Some(held) => *held == key,
    }
}

// How many of the keys, which ascend, are below this one.
fn place_of(keys: &[Key], key: Key) -> usize
    ensures within { result ≤ length keys.now }
    ensures below { (i k : ℕ) → i < result → slice_get keys.now i ≡ Some k → k < key }
    ensures there { (k : ℕ) → slice_get keys.now result ≡ Some k → key ≤ k }
{
    for (index, held) in keys.iter().enumerate() {
        if *held >= key {
            return index;
        }
    }
    keys.len()
}
