//! What a step tells of its change.
ghost use Rattle.std.specs.Prelude.{◌≡◌};
ghost use Rattle.lz_yard.specs.Steps.{nothing_told};

use lz_list::{Publishing, Word};
use lz_machine::Outcome;

/// The word that a step changed and what that word was before, 0 where none was changed; and what walkers can see of the
/// change, for contracts.
#[derive(Clone, Copy)]
pub struct Told {
    pub changed: Option<Word>,
    pub before: u64,
    pub published: Option<Publishing>,
}

/// The outcome of a step, and what it tells.
#[derive(Clone, Copy)]
pub struct Stepped {
    pub outcome: Outcome,
    pub told: Told,
}

// A step that changed no word.
pub(crate) fn untold(outcome: Outcome) -> Stepped
    ensures { result ≡ record { outcome = outcome; told = nothing_told } }
{
    Stepped {
        outcome,
        told: Told {
            changed: None,
            before: 0,
            published: None,
        },
    }
}
