//! Node locks: who has the lock of each place.
ghost use Rattle.std.specs.Prelude.{◌≡◌, ◌<◌, replicate, IfOk, Option, Some, None};

use crate::place::Place;
use lz_slot::Slot;
use std::alloc::{AllocError, Global};
use std::marker::Model;

// The actor that has each lock, 0 where it is free. It has two bytes, since each slot has a lock.
#[derive(Drop)]
pub(crate) struct Locks {
    heads: Vec<u16>,
    nodes: Vec<u16>,
}

impl Model for Locks {
    ghost use Rattle.lz_list.specs.Locks.{NodeLocks};

    ghost Value = { NodeLocks };

    ghost view = { λ l. record { heads = l.heads.items; nodes = l.nodes.items } };
}

impl Locks {
    ghost use Rattle.lz_list.specs.Locks.{is_pair_free, owner, pair_owned, with_owner};
    ghost use Rattle.lz_list.specs.Lists.{IsCurrLock, IsLock};

    pub(crate) fn new(alloc: Global, buckets: usize, slots: usize) -> Result<Locks, AllocError>
        ensures { IfOk result (λ locks. locks ≡ record { heads = replicate buckets 0; nodes = replicate slots 0 }) }
    {
        Ok(Locks {
            heads: vec![in alloc; 0; buckets]?,
            nodes: vec![in alloc; 0; slots]?,
        })
    }

    fn owner(&self, place: Place) -> u16
        ensures { result ≡ owner self.now place }
    {
        let owner = match place {
            Place::Bucket(bucket) => self.heads.get(bucket),
            Place::Node(slot) => self.nodes.get(slot.index() as usize),
        };
        owner.copied().unwrap_or(0)
    }

    fn give(&mut self, place: Place, actor: u16)
        requires { IsLock self.old place }
        ensures { self.new ≡ with_owner self.old place actor }
    {
        match place {
            Place::Bucket(bucket) => self.heads[bucket] = actor,
            Place::Node(slot) => self.nodes[slot.index() as usize] = actor,
        }
    }

    // Whether both locks of a pair are free, or the first one where there is no node after it.
    pub(crate) fn is_free(&self, pred: Place, curr: Option<Slot>) -> bool
        ensures { result ≡ is_pair_free self.now pred curr }
    {
        match curr {
            None => self.owner(pred) == 0,
            Some(slot) => self.owner(pred) == 0 && self.owner(Place::Node(slot)) == 0,
        }
    }

    // Gives the locks of a pair to an actor, or to nobody.
    pub(crate) fn give_pair(&mut self, pred: Place, curr: Option<Slot>, actor: u16)
        requires pred { IsLock self.old pred }
        requires curr { IsCurrLock self.old curr }
        ensures { self.new ≡ pair_owned self.old pred curr actor }
    {
        self.give(pred, actor);
        if let Some(slot) = curr {
            self.give(Place::Node(slot), actor);
        }
    }
}
