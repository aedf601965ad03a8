//! Whether a file holds the set of another, as it does after a renewal.
ghost use Rattle.std.specs.Prelude.{◌≡◌, ◌↔◌, ℕ, List, All, IfErr, IfOk, IsOk, MatchOption, false, map};
ghost use Rattle.lz_judge.specs.Places.{IsTable};
ghost use Rattle.lz_judge.specs.Renewals.{AreHeld, HoldOneSet, IsFirstOutside, IsRenewFlaw, IsWithin};
ghost use Rattle.lz_judge.specs.Surveys.{HoldsASet, IsSurveyed, finding_key, found_keys};

use crate::finding::{Finding, Survey};
use crate::places::Places;
use crate::surveying::survey;
use lz_slot::Slot;
use std::alloc::{AllocError, Global};

/// Why two files don't hold one set.
#[derive(Clone, Copy, Debug, PartialEq, Eq)]
pub enum RenewFlaw {
    /// One of the files holds no set.
    NotHeld,
    /// The old file's lowest slot whose key the new one doesn't hold.
    Missing(Slot),
    /// The new file's lowest slot whose key the old one doesn't hold.
    Extra(Slot),
}

impl RenewFlaw {
    ghost use Rattle.lz_judge.specs.Renewals.{renew_flaw_number};

    /// The number by which a program tells the flaw.
    pub fn number(self) -> u8
        ensures { result ≡ renew_flaw_number self }
    {
        match self {
            RenewFlaw::NotHeld => 8,
            RenewFlaw::Missing(_) => 9,
            RenewFlaw::Extra(_) => 10,
        }
    }
}

/// Whether these are the bytes of two files that hold one set: what `compare` says of their surveys.
pub fn renewed(alloc: Global, old: &[u8], new: &[u8]) -> Result<Result<(), RenewFlaw>, AllocError>
    ensures same { IfOk result (λ verdict. IsOk verdict ↔ HoldOneSet old.now new.now) }
    ensures flaw { IfOk result (λ verdict. IfErr verdict (IsRenewFlaw old.now new.now)) }
{
    let before = survey(alloc, old)?;
    let after = survey(alloc, new)?;
    compare(alloc, &before, &after)
}

/// Whether the files of which these are surveys hold one set. The flaws are looked for in the order NotHeld, Missing, Extra.
pub fn compare(
    alloc: Global,
    old: &Survey,
    new: &Survey,
) -> Result<Result<(), RenewFlaw>, AllocError>
    ensures same { (before after : List ℕ) → IsSurveyed before old.now → IsSurveyed after new.now → IfOk result (λ verdict. IsOk verdict ↔ HoldOneSet before after) }
    ensures flaw { (before after : List ℕ) → IsSurveyed before old.now → IsSurveyed after new.now → IfOk result (λ verdict. IfErr verdict (IsRenewFlaw before after)) }
{
    let Some(before) = held_findings(old) else {
        return Ok(Err(RenewFlaw::NotHeld));
    };
    let Some(after) = held_findings(new) else {
        return Ok(Err(RenewFlaw::NotHeld));
    };
    let kept = Places::of(alloc, after)?;
    if let Some(slot) = first_outside(before, after, &kept) {
        return Ok(Err(RenewFlaw::Missing(slot)));
    }
    drop(kept);
    let given = Places::of(alloc, before)?;
    if let Some(slot) = first_outside(after, before, &given) {
        return Ok(Err(RenewFlaw::Extra(slot)));
    }
    Ok(Ok(()))
}

// What was found in a file, where it holds a set.
fn held_findings(survey: &Survey) -> Option<&[Finding]>
    ensures { (t : List ℕ) → IsSurveyed t survey.now → MatchOption result (¬ HoldsASet t) (λ findings. AreHeld t findings.now) }
{
    match survey {
        Survey::Found(_, findings) if survey.is_good() => Some(findings.as_slice()),
        _ => None,
    }
}

// The slot of the first finding whose key isn't among those of the others, of which this is the table.
fn first_outside(findings: &[Finding], others: &[Finding], places: &Places) -> Option<Slot>
    ensures { IsTable (map finding_key others.now) places.now → MatchOption result (All (IsWithin (found_keys others.now)) findings.now) (IsFirstOutside (found_keys others.now) findings.now) }
{
    for finding in findings {
        let outside = slot_outside(*finding, others, places);
        if outside.is_some() {
            return outside;
        }
    }
    None
}

// The slot of a finding whose key isn't among those of the others.
fn slot_outside(finding: Finding, others: &[Finding], places: &Places) -> Option<Slot>
    ensures { IsTable (map finding_key others.now) places.now → MatchOption result (IsWithin (found_keys others.now) finding)
        (λ slot. (k : ℕ) × (finding ≡ Finding.Key slot k) × (found_keys others.now k ≡ false)) }
{
    match finding {
        Finding::Key(slot, key) => match places.find(others, key.rank()) {
            Some(_) => None,
            None => Some(slot),
        },
        Finding::BadKey(_) => None,
        Finding::Twice(_, _) => None,
    }
}
