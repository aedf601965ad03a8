//! How a service that stops refuses what it hasn't begun.
ghost use Rattle.std.specs.Prelude.{◌≡◌, ◌++◌, IfOk, OnOk};
ghost use Rattle.lz_serve.specs.Exchanges.{frame_refusal, refusal};
ghost use Rattle.lz_serve.specs.Refusals.{asked_in, cut_turns, kept_waiting, refused_turn, taken_turn};

use crate::turn::{Turn, Wording};
use lz_resp::Text;
use std::alloc::{AllocError, Global};
use std::collections::VecDeque;

/// Moves the first turns behind those that were cut, where so many of their requests were begun: up to the last one of which some were. It says how
/// many of its requests weren't.
pub(crate) fn keep_begun(
    begun: usize,
    turns: &mut VecDeque<Turn>,
    cut: &mut VecDeque<Turn>,
) -> Result<usize, AllocError>
    ensures turns { OnOk result (cut.new.items ++ cut_turns 0 turns.new.items ≡ cut.old.items ++ cut_turns begun turns.old.items) }
    ensures waiting { IfOk result (λ waiting. waiting ≡ kept_waiting begun turns.old.items) }
{
    let mut left = begun;
    'turns: while left > 0 {
        let Some(turn) = turns.pop_front() else {
            return Ok(0);
        };
        let asked = asked_in(&turn);
        cut.push_back(turn)?;
        if left <= asked {
            return Ok(asked - left);
        }
        left -= asked;
    }
    Ok(0)
}

/// Moves the other turns behind them, each as it is refused.
pub(crate) fn refuse_all(
    alloc: Global,
    turns: &mut VecDeque<Turn>,
    cut: &mut VecDeque<Turn>,
) -> Result<(), AllocError>
    ensures { OnOk result (cut.new.items ≡ cut.old.items ++ cut_turns 0 turns.old.items) }
{
    while let Some(turn) = turns.pop_front() {
        cut.push_back(refused(alloc, turn)?)?;
    }
    Ok(())
}

// How many requests a turn asks.
fn asked_in(turn: &Turn) -> usize
    ensures { result ≡ asked_in turn.now }
{
    match turn {
        Turn::Asks(_, count) => *count,
        Turn::Says(_) | Turn::Lists(_) | Turn::Tells(_) | Turn::Ends(_) => 0,
    }
}

/// A turn as it is taken: once the service stops it is refused.
pub(crate) fn taken(alloc: Global, stops: bool, turn: Turn) -> Result<Turn, AllocError>
    ensures { IfOk result (λ taken. taken ≡ taken_turn stops turn) }
{
    if stops {
        refused(alloc, turn)
    } else {
        Ok(turn)
    }
}

// What is told in place of a turn that is refused.
fn refused(alloc: Global, turn: Turn) -> Result<Turn, AllocError>
    ensures { IfOk result (λ refused. refused ≡ refused_turn turn) }
{
    match turn {
        Turn::Asks(wording, _) => Ok(Turn::Says(Text::of(alloc, refusal(wording))?)),
        Turn::Lists(_) => Ok(Turn::Says(Text::of(alloc, frame_refusal())?)),
        Turn::Says(text) => Ok(Turn::Says(text)),
        Turn::Tells(query) => Ok(Turn::Tells(query)),
        Turn::Ends(text) => Ok(Turn::Ends(text)),
    }
}

// The text that says that nothing was done of requests whose replies would be worded so.
fn refusal(wording: Wording) -> &'static [u8]
    ensures { result.now ≡ refusal wording }
{
    match wording {
        Wording::Line => b"stopping\n",
        Wording::Frame(_) => frame_refusal(),
    }
}

// The one that says so of a frame.
fn frame_refusal() -> &'static [u8]
    ensures { result.now ≡ frame_refusal }
{
    b"-ERR stopping; nothing was done\r\n"
}
