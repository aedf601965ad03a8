//! What an open makes of the members that the vault found.
ghost use Rattle.std.specs.Prelude.{◌≡◌, ◌≤◌, ◌<◌, All, IfOk, is_some, length};
ghost use Rattle.lz_slot.specs.Limits.{most_passes};
ghost use Rattle.lz_list.specs.Traces.{bucket_of};
ghost use Rattle.lz_vault.specs.Members.{AreMembers, member_at};
ghost use Rattle.lz_yard.specs.Filling.{AreTables, taken_among, with_first, with_members};

use lz_allot::Allot;
use lz_disk::Disk;
use lz_list::{Flags, LinkWord, List, Place, Word, Words, next_to};
use lz_machine::{Actor, LockPhase};
use lz_slot::Slot;
use lz_vault::{Stage, Vault};
use std::alloc::{AllocError, Global};

// What an actor has in hand at first.
const IDLE: Actor = Actor {
    slot: None,
    hold: LockPhase::Nothing,
    pred: Place::Bucket(0),
    curr: None,
    refused: false,
};

// The tables that stand beside the vault.
#[derive(Drop)]
pub(crate) struct Tables {
    pub(crate) list: List,
    pub(crate) allot: Allot,
    pub(crate) actors: Vec<Actor>,
}

impl Tables {
    pub(crate) fn of<D: Disk>(
        alloc: Global,
        vault: &Vault<D>,
        members: Vec<(u64, Slot)>,
        buckets: usize,
        passes: usize,
    ) -> Result<Tables, AllocError>
        requires members { AreMembers vault.now.memory.cells (length vault.now.memory.cells) members.items }
        requires buckets { 1 ≤ buckets }
        requires passes { (1 ≤ passes) × (passes ≤ most_passes) }
        ensures { IfOk result (λ tables. AreTables vault.now.memory.cells buckets passes tables.list tables.allot tables.actors.items) }
    {
        let slots = vault.slots();
        let taken = taken_slots(alloc, vault, members.len())?;
        let mut words = Words::new(alloc, slots, buckets, passes)?;
        link_members(members, &mut words);
        let list = List::new(alloc, words)?;
        let allot = Allot::new(alloc, slots, passes, &taken)?;
        let actors = vec![in alloc; IDLE; passes]?;
        Ok(Tables {
            list,
            allot,
            actors,
        })
    }
}

// Whether a slot holds a member.
fn holds_member<D: Disk>(vault: &Vault<D>, slot: Slot) -> bool
    requires { slot < length vault.now.memory.cells }
    ensures { result ≡ is_some (member_at vault.now.memory.cells slot) }
{
    matches!(vault.stage(slot), Stage::Open)
}

// The slots that hold a member, in their order, of which there are so many. In the order of the keys each would be a place far from the last.
fn taken_slots<D: Disk>(
    alloc: Global,
    vault: &Vault<D>,
    members: usize,
) -> Result<Vec<Slot>, AllocError>
    ensures { IfOk result (λ taken. taken.items ≡ taken_among vault.now.memory.cells (length vault.now.memory.cells)) }
{
    let mut taken = Vec::with_capacity(alloc, members)?;
    for index in 0..vault.slots() {
        let slot = Slot::new(index as u32);
        if holds_member(vault, slot) {
            taken.push(slot)?;
        }
    }
    Ok(taken)
}

// Links the members, from the greatest key down, each before the others of its bucket.
fn link_members(found: Vec<(u64, Slot)>, words: &mut Words)
    requires { All (λ f. f.1 < length words.old.links) found.items }
    ensures { words.new ≡ with_members found.items words.old }
{
    let mut members = found;
    while let Some((key, slot)) = members.pop() {
        link_first(words, key, slot);
    }
}

// Links a node before the others of its bucket. It counts as settled: an open has made durable what it read.
#[tactic(auto, unfolding(lz_list::specs::Traces::bucket_of))]
fn link_first(words: &mut Words, key: u64, slot: Slot)
    requires { slot < length words.old.links }
    ensures { words.new ≡ with_first words.old key slot }
{
    let bucket = (key % words.buckets() as u64) as usize;
    let next = words.next(Place::Bucket(bucket));
    let flags = Flags {
        mark: false,
        add_settled: true,
        remove_settled: false,
    };
    words.set(Word::Key(slot), key);
    words.set(Word::Link(slot), LinkWord { next, flags }.word());
    words.set(Word::Head(bucket), next_to(Some(slot)));
}
