//! What a call plays next: its sequences, and what follows a walk or a check.
ghost use Rattle.std.specs.Prelude.{◌≡◌, ◌<◌, ◌≤◌, ℕ, length};
ghost use Rattle.lz_slot.specs.declared.command.Command.{Command as Asked};
ghost use Rattle.lz_flush.specs.Settling.{may_answer};
ghost use Rattle.lz_machine.specs.Orders.{IsEverywhere, IsProgress};
ghost use Rattle.lz_machine.specs.Calls.{after_check, after_claim, after_reserve, changes, event_of, events_of, goes_on, halt_loaded, halts, rests, walked};

use lz_flush::{Need, may_answer};
use lz_list::{Flags, Look, Met, Place};
use lz_machine::{Event, Outcome, Progress, Reply, Sequence};
use lz_slot::{Command, Slot};

// How many events a sequence has.
pub(crate) fn count_of(command: Command, sequence: Sequence) -> usize
    ensures { result ≡ length (events_of command sequence) }
{
    match sequence {
        Sequence::Pinning | Sequence::Releasing(_) | Sequence::Halting(_) => 1,
        Sequence::Resting(_, _) | Sequence::Writing(_) => 2,
        Sequence::Adding(_) => 5,
        Sequence::Removing(_) => 7,
    }
}

// The event of a sequence with this index.
pub(crate) fn event_of(command: Command, sequence: Sequence, index: usize) -> Event
    requires { index < length (events_of command sequence) }
    ensures { result ≡ event_of command sequence index }
{
    match sequence {
        Sequence::Pinning => Event::Pin,
        Sequence::Resting(slot, _) => match index {
            0 => Event::Sync(slot),
            _ => Event::Settle(slot),
        },
        Sequence::Writing(slot) => match index {
            0 => Event::WriteKey(command.key()),
            _ => Event::Sync(slot),
        },
        Sequence::Adding(slot) => match index {
            0 => Event::WriteOpen,
            1 => Event::Link,
            2 => Event::Release,
            3 => Event::Sync(slot),
            _ => Event::Settle(slot),
        },
        Sequence::Removing(slot) => match index {
            0 => Event::WriteClose,
            1 => Event::Mark,
            2 => Event::Sync(slot),
            3 => Event::Settle(slot),
            4 => Event::Unlink,
            5 => Event::Release,
            _ => Event::Retire,
        },
        Sequence::Releasing(_) => Event::Release,
        Sequence::Halting(_) => Event::Halt,
    }
}

// What follows a sequence.
pub(crate) fn follower_of(sequence: Sequence) -> Progress
    ensures follows { result ≡ goes_on sequence }
    ensures inside { IsEverywhere result }
{
    match sequence {
        Sequence::Pinning => Progress::LoadsHalt,
        Sequence::Resting(_, reply) => Progress::Answering(reply),
        Sequence::Writing(slot) => Progress::Walking(Some(slot), Look::AtHead),
        Sequence::Adding(_) => Progress::Answering(Reply::Yes),
        Sequence::Removing(_) => Progress::Answering(Reply::Yes),
        Sequence::Releasing(aim) => Progress::Walking(aim, Look::AtHead),
        Sequence::Halting(reply) => Progress::Answering(reply),
    }
}

// A call over a device that fails halts the service, and gives this reply.
pub(crate) fn halts(reply: Reply) -> Progress
    ensures follows { result ≡ halts reply }
    ensures inside { IsEverywhere result }
{
    Progress::Playing(Sequence::Halting(reply), 0)
}

// A call whose first load finds the service over answers that.
pub(crate) fn halt_loaded(value: u64) -> Progress
    ensures follows { result ≡ halt_loaded value }
    ensures inside { IsEverywhere result }
{
    if value == 1 {
        Progress::Answering(Reply::Halted)
    } else {
        Progress::Walking(None, Look::AtHead)
    }
}

// A call that rests on a node syncs first, where the node's last change isn't settled.
fn rests(slot: Slot, flags: Flags, reply: Reply) -> Progress
    ensures follows { result ≡ rests slot (may_answer flags) reply }
    ensures inside { IsEverywhere result }
{
    match may_answer(flags) {
        Need::Now => Progress::Answering(reply),
        Need::Sync => Progress::Playing(Sequence::Resting(slot, reply), 0),
    }
}

// What a call does where its walk has ended.
pub(crate) fn walked(
    command: Command,
    aim: Option<Slot>,
    pred: Place,
    curr: Option<Slot>,
    met: Met,
) -> Progress
    ensures follows { result ≡ walked command aim pred curr met }
    ensures inside { IsEverywhere result }
{
    match command {
        Command::Has(_) => match met {
            Met::Absent => Progress::Answering(Reply::No),
            Met::Unmarked(slot, flags) => rests(slot, flags, Reply::Yes),
            Met::Marked(slot, flags) => rests(slot, flags, Reply::No),
        },
        Command::Add(_) => match met {
            Met::Unmarked(slot, flags) => rests(slot, flags, Reply::No),
            _ => match aim {
                None => Progress::Reserving(false),
                Some(slot) => Progress::Claiming(Some(slot), pred, curr),
            },
        },
        Command::Remove(_) => match met {
            Met::Absent => Progress::Answering(Reply::No),
            Met::Unmarked(_, _) => Progress::Claiming(aim, pred, curr),
            Met::Marked(slot, flags) => rests(slot, flags, Reply::No),
        },
    }
}

// What a call does under its locks, once they were checked.
fn changes(command: Command, aim: Option<Slot>, curr: Option<Slot>) -> Progress
    ensures follows { result ≡ changes command aim curr }
    ensures inside { IsEverywhere result }
{
    let kept = aim;
    match (command, aim, curr) {
        (Command::Add(_), Some(slot), _) => Progress::Playing(Sequence::Adding(slot), 0),
        (Command::Remove(_), _, Some(slot)) => Progress::Playing(Sequence::Removing(slot), 0),
        _ => Progress::Playing(Sequence::Releasing(kept), 0),
    }
}

// A call that finds no slot looks at each pin word, and asks once more.
pub(crate) fn after_reserve(again: bool, outcome: Outcome) -> Progress
    ensures follows { result ≡ after_reserve again outcome }
    ensures inside { (passes : ℕ) → (c : Asked) → 1 ≤ passes → IsProgress passes c result }
{
    match outcome {
        Outcome::Slot(slot) => Progress::Playing(Sequence::Writing(slot), 0),
        Outcome::NoSlot(counts) if again => Progress::Answering(Reply::Full(counts)),
        Outcome::NoSlot(_) => Progress::SeeingPins(1),
        _ => Progress::Reserving(again),
    }
}

pub(crate) fn after_claim(
    aim: Option<Slot>,
    pred: Place,
    curr: Option<Slot>,
    outcome: Outcome,
) -> Progress
    ensures follows { result ≡ after_claim aim pred curr outcome }
    ensures inside { IsEverywhere result }
{
    match outcome {
        Outcome::Taken => Progress::Checking(aim, curr),
        _ => Progress::Claiming(aim, pred, curr),
    }
}

// Where what it claimed isn't as it saw it, it gives the locks back and walks again.
pub(crate) fn after_check(
    command: Command,
    aim: Option<Slot>,
    curr: Option<Slot>,
    outcome: Outcome,
) -> Progress
    ensures follows { result ≡ after_check command aim curr outcome }
    ensures inside { IsEverywhere result }
{
    match outcome {
        Outcome::True => changes(command, aim, curr),
        Outcome::False => Progress::Playing(Sequence::Releasing(aim), 0),
        _ => Progress::Checking(aim, curr),
    }
}
