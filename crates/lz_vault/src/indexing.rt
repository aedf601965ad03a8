//! The members that a scan has met, by key.
ghost use Rattle.std.specs.Prelude.{◌≡◌, length, IfErr, IfOk, OnOk};
ghost use Rattle.lz_vault.specs.Members.{IsLowest, TellsTwins, keys_in, lower_twins};
ghost use Rattle.lz_vault.specs.Scans.{IsFresh, IsIndexed, IsKeyed};

use crate::opening::OpenFault;
use crate::scan::Scan;
use crate::sorter::Sorter;
use lz_slot::{Key, Slot};
use std::alloc::{AllocError, Global};

impl Scan {
    // The keys of the members, in the order of the slots.
    fn listed_keys(&self, alloc: Global) -> Result<Vec<Key>, AllocError>
        requires { IsFresh self.now.format self.now }
        ensures { IfOk result (λ keys. keys.items ≡ keys_in self.now.cells) }
    {
        let mut keys = Vec::new(alloc);
        for index in 0..self.members.len() {
            let (rank, _) = self.members[index];
            if let Some(key) = Key::of_rank(rank) {
                keys.push(key)?;
            }
        }
        Ok(keys)
    }

    // Lists the keys of the members, where they are wanted.
    fn list_keys(&mut self, alloc: Global, keys: bool) -> Result<(), OpenFault>
        requires { IsFresh self.old.format self.old }
        ensures rest { (self.new.format ≡ self.old.format) × (self.new.cells ≡ self.old.cells) × (self.new.members ≡ self.old.members) }
        ensures keyed { OnOk result (IsKeyed keys self.new) }
        ensures cause { IfErr result (λ fault. fault ≡ OpenFault.Memory) }
    {
        if !keys {
            return Ok(());
        }
        match self.listed_keys(alloc) {
            Ok(listed) => {
                self.keys = listed;
                Ok(())
            }
            Err(AllocError) => Err(OpenFault::Memory),
        }
    }

    // Brings the members into the order of their keys, once these are listed where they are wanted. Where two slots hold one key, it tells
    // the lowest that holds one again.
    pub(crate) fn index<S: Sorter>(
        &mut self,
        alloc: Global,
        sorter: &S,
        keys: bool,
    ) -> Result<(), OpenFault>
        requires fresh { IsFresh self.old.format self.old }
        requires ready { S.ready sorter.now }
        ensures rest { (self.new.format ≡ self.old.format) × (self.new.cells ≡ self.old.cells) }
        ensures indexed { OnOk result (IsIndexed self.new) }
        ensures keyed { OnOk result (IsKeyed keys self.new) }
        ensures twins { IfErr result (TellsTwins self.old.cells) }
    {
        self.list_keys(alloc, keys)?;
        sorter.sort(self.members.as_mut_slice());
        match lowest_twins(&self.members) {
            Some((first, second)) => Err(OpenFault::Twice(first, second)),
            None => Ok(()),
        }
    }
}

// These twins, or those of two neighbours, if they have one key and their second slot is lower.
fn lower_twins(
    lowest: Option<(Slot, Slot)>,
    before: (u64, Slot),
    next: (u64, Slot),
) -> Option<(Slot, Slot)>
    ensures { result ≡ lower_twins lowest before next }
{
    let (key, first) = before;
    let (other, second) = next;
    if key != other {
        return lowest;
    }
    match lowest {
        Some(twins) => {
            if twins.1 <= second {
                return Some(twins);
            }
            Some((first, second))
        }
        None => Some((first, second)),
    }
}

// The neighbours of one key, if there are any: of all such the two whose second slot is the lowest.
fn lowest_twins(members: &[(u64, Slot)]) -> Option<(Slot, Slot)>
    ensures { IsLowest members.now (length members.now) result }
{
    let mut lowest = None;
    for index in 1..members.len() {
        lowest = lower_twins(lowest, members[index - 1], members[index]);
    }
    lowest
}
