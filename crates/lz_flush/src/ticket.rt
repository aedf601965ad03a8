//! When a write was made.
ghost use Rattle.std.specs.Prelude.{◌≡◌};
ghost use Rattle.lz_flush.specs.Settling.{covered};

use std::marker::Model;

/// How many syncs had succeeded when something was written. Contracts see it as that number.
#[derive(Clone, Copy, Debug, PartialEq, Eq)]
pub struct Ticket {
    syncs: u64,
}

impl Model for Ticket {
    ghost use Rattle.std.specs.Prelude.{ℕ};

    ghost Value = { ℕ };

    ghost view = { λ t. t.syncs };

    ghost inverse = { λ n. record { syncs = n } };
}

impl Ticket {
    /// The ticket of a write that is made now, where so many syncs have succeeded.
    pub fn at(syncs: u64) -> Ticket
        ensures { result ≡ syncs }
    {
        Ticket { syncs }
    }
}

/// Whether what was written at a ticket is durable, where so many syncs have succeeded now.
pub fn covered(ticket: Ticket, syncs: u64) -> bool
    ensures { result ≡ covered ticket syncs }
{
    ticket.syncs < syncs
}
