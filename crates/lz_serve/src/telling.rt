//! What is told of an exchange, and how a conversation goes on after it.
ghost use Rattle.std.specs.Prelude.{◌≡◌, ◌≤◌, ◌++◌, length, slice_get, take, Some, None, true, false, IfOk, OnOk};
ghost use Rattle.lz_serve.specs.declared.line.Line.{Line as ALine};
ghost use Rattle.lz_serve.specs.Conversations.{query_end};
ghost use Rattle.lz_serve.specs.Exchanges.{end_by, worded};
ghost use Rattle.lz_serve.specs.Lines.{replies_of};

use crate::line::Line;
use crate::turn::Wording;
use lz_proto::{End, Reply, reply_text};
use lz_resp::{Figures, Query, has_halted, push_reply};
use std::alloc::AllocError;
use std::collections::VecDeque;

/// The replies to the first of these lines, if each has come.
pub(crate) fn gather(
    under: &VecDeque<Line>,
    count: usize,
    replies: &mut Vec<Reply>,
) -> Result<bool, AllocError>
    ensures some { IfOk result (λ are. are ≡ true → (count ≤ length under.now.items) × (replies_of (take count under.now.items) ≡ Some replies.new.items)) }
    ensures none { IfOk result (λ are. are ≡ false → count ≤ length under.now.items → replies_of (take count under.now.items) ≡ None) }
{
    replies.clear();
    if under.len() < count {
        return Ok(false);
    }
    for index in 0..count {
        let Some(reply) = reply_at(under, index) else {
            return Ok(false);
        };
        replies.push(reply)?;
    }
    Ok(true)
}

// The reply to the line at this place, if it has come.
fn reply_at(under: &VecDeque<Line>, index: usize) -> Option<Reply>
    ensures { (line : ALine) → slice_get under.now.items index ≡ Some line → result ≡ line.reply }
{
    under.get(index)?.reply
}

/// Puts replies after a text.
pub(crate) fn push_replies(
    text: &mut Vec<u8>,
    wording: Wording,
    replies: &[Reply],
) -> Result<(), AllocError>
    ensures { OnOk result (text.new.items ≡ text.old.items ++ worded wording replies.now) }
{
    match wording {
        Wording::Line => push_lines(text, replies),
        Wording::Frame(form) => push_reply(text, form, replies),
    }
}

// Puts a line for each reply after a text.
fn push_lines(text: &mut Vec<u8>, replies: &[Reply]) -> Result<(), AllocError>
    ensures { OnOk result (text.new.items ≡ text.old.items ++ worded Wording.Line replies.now) }
{
    for reply in replies {
        text.extend_from_slice(reply_text(*reply).as_bytes())?;
    }
    Ok(())
}

/// How a conversation goes on after replies.
pub(crate) fn end_by(replies: &[Reply]) -> End
    ensures { result ≡ end_by replies.now }
{
    if has_halted(replies) {
        End::Halted
    } else {
        End::Done
    }
}

/// How a conversation goes on after what was asked of a service of which this is known: it ends with the service.
pub(crate) fn query_end(query: Query, figures: &Figures) -> End
    ensures { result ≡ query_end query figures.now }
{
    if query.ends_service(figures) {
        End::Quit
    } else {
        End::Done
    }
}
