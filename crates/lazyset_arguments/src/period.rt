//! How long a service keeps a text, where it forgets.
ghost use Rattle.std.specs.Prelude.{IfSome};
ghost use Rattle.clap.specs.Words.{found_of};
ghost use Rattle.lazyset_arguments.specs.Requests.{AreEpochs, IsPeriod, TellsEpochs, TellsPeriod};

use crate::ids::{EPOCHS_ID, FORGET_ID};
use crate::values::number;
use clap::ArgMatches;

/// The most seconds of a period: three years and some weeks.
pub(crate) const MOST_SECONDS: u64 = 100_000_000;

/// The fewest and the most epochs: the newest takes additions beside an older one at least, and of the rooms 0 to 13 one is
/// swept and one waits.
pub(crate) const FEWEST_EPOCHS: u8 = 2;

pub(crate) const MOST_EPOCHS: u8 = 12;

// How many there are where the command line names no number.
const USUAL_EPOCHS: u8 = 3;

/// How long a service keeps a text.
#[derive(Clone, Copy, Debug, PartialEq, Eq)]
pub struct Period {
    /// For so long it is kept from its addition on, 1 to 100,000,000.
    pub seconds: u64,
    /// How many epochs are live at once, 2 to 12, of `seconds / (epochs - 1)` seconds each. It is kept for what is left of its own one too.
    pub epochs: u8,
}

/// The period that the command line names, or that it names none.
pub(crate) fn named_period(words: &ArgMatches<'_>) -> Option<Option<Period>>
    ensures bounds { IfSome result (λ named. IfSome named IsPeriod) }
    ensures told { IfSome result (TellsPeriod (found_of words.now)) }
{
    if words.get_str(FORGET_ID).is_none() {
        return Some(None);
    }
    let seconds = number(words, FORGET_ID)?;
    if seconds < 1 || seconds > MOST_SECONDS {
        return None;
    }
    let epochs = epochs_of(words)?;
    Some(Some(Period { seconds, epochs }))
}

// How many epochs there are.
fn epochs_of(words: &ArgMatches<'_>) -> Option<u8>
    ensures bounds { IfSome result AreEpochs }
    ensures told { IfSome result (TellsEpochs (found_of words.now)) }
{
    if words.get_str(EPOCHS_ID).is_none() {
        return Some(USUAL_EPOCHS);
    }
    let epochs = u8::try_from(number(words, EPOCHS_ID)?).ok()?;
    if epochs < FEWEST_EPOCHS || epochs > MOST_EPOCHS {
        return None;
    }
    Some(epochs)
}
