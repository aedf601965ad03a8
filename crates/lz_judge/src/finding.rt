//! What a survey finds in a file.
ghost use Rattle.std.specs.Prelude.{◌≡◌};
ghost use Rattle.std.specs.List.{list_all};

use crate::places::Keyed;
use lz_slot::{Header, HeaderFault, Key, Slot};

/// What was found at a slot that isn't closed.
#[derive(Clone, Copy, Debug, PartialEq, Eq)]
pub enum Finding {
    /// The slot holds a key that no slot below it holds.
    Key(Slot, Key),
    BadKey(Slot),
    /// The slot holds a key again: the second one is the lowest slot that holds it.
    Twice(Slot, Slot),
}

impl Keyed for Finding {
    ghost use Rattle.lz_judge.specs.Surveys.{finding_key};

    ghost key = { finding_key };

    fn keyed(&self) -> Option<u64> {
        match self {
            Finding::Key(_, key) => Some(key.rank()),
            _ => None,
        }
    }
}

impl Finding {
    ghost use Rattle.lz_judge.specs.Surveys.{is_sound, slot_of};

    /// The slot at which it was found.
    pub(crate) fn slot(&self) -> Slot
        ensures { result ≡ slot_of self.now }
    {
        match self {
            Finding::Key(slot, _) | Finding::BadKey(slot) | Finding::Twice(slot, _) => *slot,
        }
    }

    /// Whether it is no damage.
    pub fn is_sound(&self) -> bool
        ensures { result ≡ is_sound self.now }
    {
        matches!(self, Finding::Key(_, _))
    }

    fn are_sound(findings: &[Finding]) -> bool
        ensures { result ≡ list_all is_sound findings.now }
    {
        findings.iter().all(|finding| finding.is_sound())
    }
}

/// What a survey found in a file.
#[derive(Drop)]
pub enum Survey {
    Refused(HeaderFault),
    /// What the head says, and one finding for each slot that isn't closed, upwards.
    Found(Header, Vec<Finding>),
}

impl Survey {
    ghost use Rattle.lz_judge.specs.Surveys.{is_good};

    /// Whether there was no fault of the head and no damage.
    pub fn is_good(&self) -> bool
        ensures { result ≡ is_good self.now }
    {
        match self {
            Survey::Refused(_) => false,
            Survey::Found(_, findings) => Finding::are_sound(findings.as_slice()),
        }
    }
}
