//! Small tests, by which the table says what may be done.
ghost use Rattle.std.specs.Prelude.{◌≡◌};
ghost use Rattle.lz_machine.specs.Table.{has_checked, has_closed, has_marked, has_opened, is_old, is_played_dead, may_check, may_claim, may_release, may_retire, released, stays_out};

use lz_list::LAST_PIN;
use lz_machine::{Actor, Event, LockPhase};
use lz_slot::{Command, Format};

pub(crate) fn may_claim(hold: LockPhase) -> bool
    ensures { result ≡ may_claim hold }
{
    matches!(hold, LockPhase::Nothing | LockPhase::Released)
}

pub(crate) fn may_check(hold: LockPhase) -> bool
    ensures { result ≡ may_check hold }
{
    matches!(hold, LockPhase::Locks | LockPhase::Checked)
}

pub(crate) fn has_checked(hold: LockPhase) -> bool
    ensures { result ≡ has_checked hold }
{
    matches!(hold, LockPhase::Checked)
}

pub(crate) fn has_opened(hold: LockPhase) -> bool
    ensures { result ≡ has_opened hold }
{
    matches!(hold, LockPhase::GateOpened)
}

pub(crate) fn has_closed(hold: LockPhase) -> bool
    ensures { result ≡ has_closed hold }
{
    matches!(hold, LockPhase::GateClosed)
}

pub(crate) fn has_marked(hold: LockPhase) -> bool
    ensures { result ≡ has_marked hold }
{
    matches!(hold, LockPhase::Marked)
}

pub(crate) fn may_release(hold: LockPhase) -> bool
    ensures { result ≡ may_release hold }
{
    matches!(
        hold,
        LockPhase::Locks | LockPhase::Checked | LockPhase::Linked | LockPhase::Unlinked
    )
}

pub(crate) fn may_retire(hold: LockPhase) -> bool
    ensures { result ≡ may_retire hold }
{
    matches!(hold, LockPhase::Released)
}

// What an actor may do once it has given its locks back.
pub(crate) fn released(hold: LockPhase) -> LockPhase
    ensures { result ≡ released hold }
{
    match hold {
        LockPhase::Unlinked => LockPhase::Released,
        _ => LockPhase::Nothing,
    }
}

// An event that is played on a dead vault too.
pub(crate) fn is_played_dead(event: Event) -> bool
    ensures { result ≡ is_played_dead event }
{
    matches!(
        event,
        Event::Invoke(_) | Event::Pin | Event::Hop(_) | Event::Answer | Event::Halt
    )
}

// A command that adds a key which a file of this format can't hold.
pub(crate) fn is_old(format: Format, command: Command) -> bool
    ensures { result ≡ is_old format command }
{
    match command {
        Command::Add(key) => !format.has_room_for(key),
        Command::Remove(_) | Command::Has(_) => false,
    }
}

// An actor that answers without a pin.
pub(crate) fn stays_out(actor: Actor, pin: u64) -> bool
    ensures { result ≡ stays_out actor pin }
{
    pin == LAST_PIN || (pin % 2 == 0 && actor.refused)
}
