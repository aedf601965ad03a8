// The slots of an open file: their cells, which of them the next sync covers, and how many are open.
ghost use Rattle.std.specs.Prelude.{◌≡◌, ◌+◌, ◌<◌, ◌≤◌, ℕ, cond, true, List, [], ◌∷◌, ◌++◌, length, map, slice_get, slice_set, Some, IfOk, IsTrue, if◌then◌else◌, vec_capacity, vec_len};
ghost use Rattle.lz_slot.specs.Limits.{most_slots};
ghost use Rattle.lz_vault.specs.Opens.{is_open, open_count};
ghost use Rattle.lz_vault.specs.Stages.{AreSteady, Cell, IsAt, IsFree, IsOpened, cell_synced, stage_put};
ghost use Rattle.lz_vault.specs.Tables.{AreMoved, IsTable, is_listed_then};

use crate::cells::Cells;
use crate::vault::Stage;
use lz_slot::{Format, Key, Slot};
use std::alloc::{AllocError, Global};
use std::marker::Model;

#[derive(Drop)]
pub(crate) struct Table {
    cells: Cells,
    // The slots whose last write isn't durable, each once. There is room for all, so that a slot that is written always finds its place.
    unsynced: Vec<Slot>,
    opened: usize,
}

impl Model for Table {
    ghost Value = { List Cell };

    ghost view = { λ t. t.cells };

    ghost invariant = { λ t. IsTable t.cells t.unsynced.items (vec_capacity t.unsynced) t.opened };
}

impl Table {
    // The table of cells at which nothing is under way.
    pub(crate) fn of(alloc: Global, cells: Cells) -> Result<Table, AllocError>
        requires few { length cells ≤ most_slots }
        requires steady { AreSteady cells }
        ensures { IfOk result (λ table. table ≡ cells) }
    {
        let unsynced = Vec::with_capacity(alloc, cells.len())?;
        let opened = count_open(&cells);
        Ok(Table {
            cells,
            unsynced,
            opened,
        })
    }

    pub(crate) fn len(&self) -> usize
        ensures { result ≡ length self.now }
    {
        self.cells.len()
    }

    // How many slots are surely open.
    pub(crate) fn opened(&self) -> usize
        ensures { result ≡ open_count self.now }
    {
        self.opened
    }

    pub(crate) fn stage(&self, slot: Slot) -> Stage
        requires { slot < length self.now }
        ensures { (cell : Cell) → slice_get self.now slot ≡ Some cell → result ≡ cell.stage }
    {
        self.cells.stage(slot)
    }

    // A key was put into a slot.
    pub(crate) fn put(&mut self, slot: Slot, format: Format, key: Key)
        requires { IsAt self.old slot (λ cell. IsFree cell.stage) }
        ensures { (cell : Cell) → slice_get self.old slot ≡ Some cell → self.new ≡ slice_set self.old slot (record { stage = stage_put format cell.stage; key = key }) }
    {
        let was = self.cells.stage(slot);
        let stage = was.put(format);
        self.cells.put(slot, stage, key.rank());
        list(&mut self.unsynced, slot, was, stage);
    }

    // A slot into which a key was put is being opened.
    pub(crate) fn open(&mut self, slot: Slot)
        requires { IsAt self.old slot (λ cell. cell.stage ≡ Stage.Keyed) }
        ensures { (cell : Cell) → slice_get self.old slot ≡ Some cell → self.new ≡ slice_set self.old slot (record { stage = Stage.Opening; key = cell.key }) }
    {
        self.cells.turn(slot, Stage::Opening);
        list(&mut self.unsynced, slot, Stage::Keyed, Stage::Opening);
    }

    // A slot that holds a member is being closed.
    pub(crate) fn close(&mut self, slot: Slot)
        requires { IsAt self.old slot (λ cell. IsOpened cell.stage) }
        ensures { (cell : Cell) → slice_get self.old slot ≡ Some cell → self.new ≡ slice_set self.old slot (record { stage = Stage.Closing; key = cell.key }) }
    {
        let was = self.cells.stage(slot);
        self.opened = without(self.opened, was);
        self.cells.turn(slot, Stage::Closing);
        list(&mut self.unsynced, slot, was, Stage::Closing);
    }

    // What was written is durable.
    pub(crate) fn sync(&mut self)
        ensures { self.new ≡ map cell_synced self.old }
    {
        self.opened += move_on(&mut self.cells, &self.unsynced);
        self.unsynced.clear();
    }
}

// How many slots are surely open.
fn count_open(cells: &Cells) -> usize
    requires { length cells.now ≤ most_slots }
    ensures { result ≡ open_count cells.now }
{
    let mut opened = 0;
    for index in 0..cells.len() {
        if cells.stage(Slot::new(index as u32)).is_open() {
            opened += 1;
        }
    }
    opened
}

// How many slots are surely open once one that was at this stage isn't any more.
fn without(opened: usize, was: Stage) -> usize
    requires { is_open was ≡ true → 1 ≤ opened }
    ensures { result + cond (is_open was) 1 0 ≡ opened }
{
    if was.is_open() {
        return opened - 1;
    }
    opened
}

// Lists a slot whose last write was durable, and isn't any more.
fn list(unsynced: &mut Vec<Slot>, slot: Slot, was: Stage, stage: Stage)
    requires { IsTrue (is_listed_then was stage) → vec_len unsynced.old < vec_capacity unsynced.old }
    ensures items { unsynced.new.items ≡ (if is_listed_then was stage then unsynced.old.items ++ slot ∷ [] else unsynced.old.items) }
    ensures room { vec_capacity unsynced.new ≡ vec_capacity unsynced.old }
{
    if was.is_covered() && !stage.is_covered() {
        unsynced.push_reserved(slot);
    }
}

// Moves the stages of these slots on, as a sync does, and says how many slots became open.
fn move_on(cells: &mut Cells, slots: &[Slot]) -> usize
    requires few { length cells.old ≤ most_slots }
    requires within { (i s : ℕ) → slice_get slots.now i ≡ Some s → s < length cells.old }
    ensures moved { AreMoved cells.old cells.new slots.now }
    ensures count { open_count cells.new ≡ open_count cells.old + result }
{
    let mut opened = 0;
    for index in 0..slots.len() {
        let slot = slots[index];
        let stage = cells.stage(slot);
        if stage.is_opening() {
            opened += 1;
        }
        cells.turn(slot, stage.synced());
    }
    opened
}
