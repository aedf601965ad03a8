// The stage of each slot, a byte each. The key that was put into it last is known to clauses alone.
ghost use Rattle.std.specs.Prelude.{◌≡◌, ◌<◌, List, [], ◌∷◌, ◌++◌, length, map, slice_get, slice_set, Some, OnErr, OnOk};
ghost use Rattle.lz_vault.specs.Stages.{Cell};

use crate::known::Known;
use crate::vault::Stage;
use lz_slot::Slot;
use std::alloc::{AllocError, Global};
use std::marker::Model;

#[derive(Drop)]
pub(crate) struct Cells {
    stages: Vec<Stage>,
    known: Known,
}

impl Model for Cells {
    ghost Value = { List Cell };

    ghost view = { λ c. c.known.cells };

    ghost invariant = { λ c. c.stages.items ≡ map (λ (cell : Cell). cell.stage) c.known.cells };
}

impl Cells {
    pub(crate) fn new(alloc: Global) -> Cells
        ensures { result ≡ [] }
    {
        Cells {
            stages: Vec::new(alloc),
            known: Known::none(),
        }
    }

    pub(crate) fn len(&self) -> usize
        ensures { result ≡ length self.now }
    {
        self.stages.len()
    }

    pub(crate) fn stage(&self, slot: Slot) -> Stage
        requires { slot < length self.now }
        ensures { (cell : Cell) → slice_get self.now slot ≡ Some cell → result ≡ cell.stage }
    {
        self.stages[slot.index() as usize]
    }

    // Adds a slot at this stage, with this key.
    pub(crate) fn push(&mut self, stage: Stage, key: u64) -> Result<(), AllocError>
        ensures ok { OnOk result (self.new ≡ self.old ++ record { stage = stage; key = key } ∷ []) }
        ensures err { OnErr result (self.new ≡ self.old) }
    {
        self.stages.push(stage)?;
        self.known = self.known.and(stage, key);
        Ok(())
    }

    // Puts a key into a slot, which has this stage then.
    pub(crate) fn put(&mut self, slot: Slot, stage: Stage, key: u64)
        requires { slot < length self.old }
        ensures { self.new ≡ slice_set self.old slot (record { stage = stage; key = key }) }
    {
        self.stages[slot.index() as usize] = stage;
        self.known = self.known.with(slot, stage, key);
    }

    // Gives a slot another stage. Its key stays.
    pub(crate) fn turn(&mut self, slot: Slot, stage: Stage)
        requires { slot < length self.old }
        ensures { (cell : Cell) → slice_get self.old slot ≡ Some cell → self.new ≡ slice_set self.old slot (record { stage = stage; key = cell.key }) }
    {
        self.stages[slot.index() as usize] = stage;
        self.known = self.known.turned(slot, stage);
    }
}
