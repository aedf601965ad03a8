//! For how long a service may answer after it has seen that the file is still its own.
ghost use Rattle.std.specs.Prelude.{IfSome};
ghost use Rattle.clap.specs.Words.{found_of};
ghost use Rattle.lazyset_arguments.specs.Requests.{IsLease, TellsLease};

use crate::ids::LEASE_ID;
use crate::values::number;
use clap::ArgMatches;

/// The fewest and the most milliseconds of a lease: in fewer many a sync takes as long, and in more another machine may have taken the file.
pub(crate) const LEAST_LEASE: u64 = 100;

pub(crate) const MOST_LEASE: u64 = 60_000;

/// The milliseconds of the lease that the command line names, or that it names none.
pub(crate) fn named_lease(words: &ArgMatches<'_>) -> Option<Option<u64>>
    ensures bounds { IfSome result (λ named. IfSome named IsLease) }
    ensures told { IfSome result (TellsLease (found_of words.now)) }
{
    if words.get_str(LEASE_ID).is_none() {
        return Some(None);
    }
    let millis = number(words, LEASE_ID)?;
    if millis < LEAST_LEASE || millis > MOST_LEASE {
        return None;
    }
    Some(Some(millis))
}
