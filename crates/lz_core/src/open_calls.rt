//! Calls that are open.
ghost use Rattle.std.specs.Prelude.{◌≡◌, IfOk, IfSome, IsSome, None, replicate};
ghost use Rattle.lz_slot.specs.Counted.{of_pass};
ghost use Rattle.lz_machine.specs.Orders.{HasPass, MayTake};
ghost use Rattle.lz_machine.specs.Runs as runs;
ghost use Rattle.lz_machine.specs.Runs.{marks_of_turn};
ghost use Rattle.lz_core.specs.Worlds.{IsCallOn, call_after, call_shown, event_asked, mark_list};

use crate::world::ACTORS;
use lz_machine::{Event, Outcome, Reply};
use lz_slot::{Cut, HistoryEvent, Refusal};
use lz_yard::Caller;
use std::alloc::{AllocError, Global};

// A call that is open.
#[derive(Drop)]
pub(crate) struct OpenCall {
    pub(crate) number: u64,
    pub(crate) caller: Caller,
}

// No call, for each actor.
pub(crate) fn no_calls(alloc: Global) -> Result<Vec<Option<OpenCall>>, AllocError>
    ensures { IfOk result (λ calls. calls.items ≡ replicate 64 None) }
{
    let mut calls = Vec::new(alloc);
    for _ in 0..ACTORS {
        calls.push(None)?;
    }
    Ok(calls)
}

// The next event of an actor's call, if it has one. A pin word that it looks at isn't loaded yet.
pub(crate) fn next_of_call(callers: &[Option<OpenCall>], actor: usize) -> Option<Event>
    ensures event { result ≡ event_asked (of_pass callers.now actor None) }
    ensures pass { IfSome (of_pass callers.now actor None) (λ call. IfSome result (λ event. HasPass call.caller.passes event)) }
{
    let call = callers.get(actor.checked_sub(1)?)?.as_ref()?;
    Some(call.caller.next())
}

// The mark with which a call ends.
fn mark_of(number: u64, reply: Reply) -> HistoryEvent
    ensures { result ≡ runs.mark_of number reply }
{
    match reply {
        Reply::Yes => HistoryEvent::Answer(number, true),
        Reply::No => HistoryEvent::Answer(number, false),
        Reply::Full(_) => HistoryEvent::Refused(number, Refusal::Full),
        Reply::Worn => HistoryEvent::Refused(number, Refusal::Worn),
        Reply::OldFile => HistoryEvent::Refused(number, Refusal::OldFile),
        Reply::Halted => HistoryEvent::Cut(number, Cut::Halted),
        Reply::Device => HistoryEvent::Cut(number, Cut::Device),
    }
}

// A call's next event had this outcome: the call goes on, or it ends with its mark.
pub(crate) fn take_outcome(call: &mut Option<OpenCall>, outcome: Outcome) -> Option<HistoryEvent>
    requires { IfSome call.old (λ under_way. MayTake under_way.caller.progress outcome) }
    ensures call { call_shown call.new ≡ call_after call.old outcome }
    ensures on { (shape : _) → IsCallOn shape call.old → IsCallOn shape call.new }
    ensures mark { mark_list result ≡ marks_of_turn (call_shown call.old) }
    ensures goes_on { IsSome (call_shown call.old) → result ≡ None → IsSome (call_shown call.new) }
{
    let Some(under_way) = call else {
        return None;
    };
    match under_way.caller.reply() {
        None => {
            under_way.caller.take(outcome);
            None
        }
        Some(reply) => {
            let number = under_way.number;
            *call = None;
            Some(mark_of(number, reply))
        }
    }
}
