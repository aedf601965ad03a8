//! The scan of slots, one after the other.
ghost use Rattle.std.specs.Prelude.{◌≡◌, ℕ, ◌+◌, ◌/◌, ◌%◌, ◌≤◌, List, [], ◌++◌, ◌∷◌, length, map, IfOk, OnOk};
ghost use Rattle.lz_slot.specs.Bytes.{format_of, slot_at};
ghost use Rattle.lz_slot.specs.Limits.{most_slots};
ghost use Rattle.lz_slot.specs.declared.slot.SlotRead.{SlotRead};
ghost use Rattle.lz_judge.specs.Places.{IsTable};
ghost use Rattle.lz_judge.specs.Scans.{AreMet, IsMet, IsPieceAt, Scanned};
ghost use Rattle.lz_judge.specs.Surveys.{AreFindings, IsFinding, finding_key, slot_of};

use crate::finding::Finding;
use crate::once::has_each_key_once;
use crate::places::Places;
use lz_slot::{Format, Slot, SlotRead, read_slot};
use std::alloc::{AllocError, Global};

/// What was met so far. Which keys stand again is found once all slots were taken.
#[derive(Drop)]
pub(crate) struct Scan {
    met: Vec<Finding>,
}

impl Scan {
    pub(crate) fn new(alloc: Global) -> Scan
        ensures { (says : ℕ → SlotRead) → Scanned says 0 result }
    {
        Scan {
            met: Vec::new(alloc),
        }
    }

    // Takes what the next slot says.
    fn note(&mut self, slot: Slot, read: SlotRead) -> Result<(), AllocError>
        ensures { (says : ℕ → SlotRead) → says slot ≡ read → Scanned says slot self.old → OnOk result (Scanned says (slot + 1) self.new) }
    {
        match read {
            SlotRead::Closed | SlotRead::Torn => Ok(()),
            SlotRead::BadKey => self.add(Finding::BadKey(slot)),
            SlotRead::Member(key) => self.add(Finding::Key(slot, key)),
        }
    }

    fn add(&mut self, met: Finding) -> Result<(), AllocError>
        ensures { OnOk result (self.new.met.items ≡ self.old.met.items ++ met ∷ []) }
    {
        self.met.push(met)?;
        Ok(())
    }

    /// Takes what the slots of a file say from the first of these on, whose bytes these are.
    pub(crate) fn note_piece(
        &mut self,
        format: Format,
        first: u64,
        piece: &[u8],
    ) -> Result<(), AllocError>
        requires whole { length piece.now % 16 ≡ 0 }
        requires room { first + length piece.now / 16 ≤ most_slots }
        ensures { (t : List ℕ) → format ≡ format_of t → IsPieceAt t first piece.now → Scanned (slot_at t) first self.old
            → OnOk result (Scanned (slot_at t) (first + length piece.now / 16) self.new) }
    {
        for index in 0..piece.len() / 16 {
            let mut bytes = [0; 16];
            bytes.copy_from_slice(&piece[16 * index..16 * index + 16]);
            let slot = Slot::new(first as u32 + index as u32);
            self.note(slot, read_slot(format, &bytes))?;
        }
        Ok(())
    }
    /// What is found at the slots that were taken.
    pub(crate) fn findings(self, alloc: Global) -> Result<Vec<Finding>, AllocError>
        ensures { (says : ℕ → SlotRead) (slots : ℕ) → Scanned says slots self → IfOk result (λ findings. AreFindings says slots findings.items) }
    {
        if has_each_key_once(alloc, self.met.as_slice())? {
            return Ok(self.met);
        }
        let mut findings = self.met;
        find_twins(alloc, findings.as_mut_slice())?;
        Ok(findings)
    }
}

// Turns what was met at slots into what is found there.
fn find_twins(alloc: Global, findings: &mut [Finding]) -> Result<(), AllocError>
    ensures { (says : ℕ → SlotRead) (slots : ℕ) → AreMet says slots findings.old → OnOk result (AreFindings says slots findings.new) }
{
    let mut places = Places::new(alloc);
    for index in 0..findings.len() {
        let here = found(findings[index], &findings[..index], &places);
        findings[index] = here;
        places.add(&findings[..index + 1])?;
    }
    Ok(())
}

// What is found where this was met. Of the slots below, these are the findings, and the table of their keys.
fn found(met: Finding, below: &[Finding], places: &Places) -> Finding
    ensures { (says : ℕ → SlotRead) → IsMet says met → AreFindings says (slot_of met) below.now → IsTable (map finding_key below.now) places.now
        → IsFinding says result × (slot_of result ≡ slot_of met) }
{
    let Finding::Key(slot, key) = met else {
        return met;
    };
    match places.find(below, key.rank()) {
        Some(index) => Finding::Twice(slot, below[index].slot()),
        None => met,
    }
}
