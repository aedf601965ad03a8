//! The texts of replies.
ghost use Rattle.std.specs.Prelude.{◌≡◌, ◌++◌, ◌∷◌, [], IfOk, IfSome, OnOk, count_by};
ghost use Rattle.std.specs.List.{list_any};
ghost use Rattle.lz_resp.specs.Replies.{answer, bit, fault_text, fault_words, integer, is_full, is_halted, is_old, is_worn, is_yes, refusal, text_of};

use crate::fault::Fault;
use crate::form::Form;
use crate::text::{Text, on_line, push_number};
use lz_proto::Reply;
use std::alloc::{AllocError, Global};

/// Whether the service halted at one of the requests.
pub fn has_halted(replies: &[Reply]) -> bool
    ensures { result ≡ list_any is_halted replies.now }
{
    replies.iter().any(|reply| matches!(reply, Reply::Halted))
}

fn has_worn(replies: &[Reply]) -> bool
    ensures { result ≡ list_any is_worn replies.now }
{
    replies.iter().any(|reply| matches!(reply, Reply::Worn))
}

fn has_old(replies: &[Reply]) -> bool
    ensures { result ≡ list_any is_old replies.now }
{
    replies.iter().any(|reply| matches!(reply, Reply::OldFile))
}

fn has_full(replies: &[Reply]) -> bool
    ensures { result ≡ list_any is_full replies.now }
{
    replies.iter().any(|reply| matches!(reply, Reply::Full))
}

/// Puts the reply of this form after a text, to requests that were replied to so.
pub fn push_reply(text: &mut Vec<u8>, form: Form, replies: &[Reply]) -> Result<(), AllocError>
    ensures { OnOk result (text.new.items ≡ text.old.items ++ text_of form replies.now) }
{
    if let [reply] = replies
        && let Some(plain) = plain_text(form, *reply)
    {
        return text.extend_from_slice(plain.as_bytes());
    }
    push_any(text, form, replies)
}

// The reply to one request, as far as it tells whether something was done.
fn plain_text(form: Form, reply: Reply) -> Option<&'static str>
    ensures { IfSome result (λ plain. plain.now ≡ text_of form (reply ∷ [])) }
{
    match reply {
        Reply::Yes if form.is_sum() => Some(":1\r\n"),
        Reply::No if form.is_sum() => Some(":0\r\n"),
        _ => None,
    }
}

// The reply to any requests.
#[inline(never)]
fn push_any(text: &mut Vec<u8>, form: Form, replies: &[Reply]) -> Result<(), AllocError>
    ensures { OnOk result (text.new.items ≡ text.old.items ++ text_of form replies.now) }
{
    if has_halted(replies) {
        return text.extend_from_slice(b"-HALTED the device failed\r\n");
    }
    if has_worn(replies) {
        return push_refusal(text, "WORN a counter has run out", form, replies);
    }
    if has_old(replies) {
        return push_refusal(text, "OLDFILE the file has room 0 alone", form, replies);
    }
    if has_full(replies) {
        return push_refusal(text, "FULL no slot is free", form, replies);
    }
    push_answer(text, form, replies)
}

// An error, and how many of the requests were done.
fn push_refusal(
    text: &mut Vec<u8>,
    cause: &str,
    form: Form,
    replies: &[Reply],
) -> Result<(), AllocError>
    ensures { OnOk result (text.new.items ≡ text.old.items ++ refusal cause.now form replies.now) }
{
    text.extend_from_slice(b"-")?;
    text.extend_from_slice(cause.as_bytes())?;
    text.extend_from_slice(b"; ")?;
    push_number(text, yes_count(replies))?;
    text.extend_from_slice(b" of ")?;
    push_number(text, replies.len())?;
    text.extend_from_slice(b" were ")?;
    text.extend_from_slice(form.done().as_bytes())?;
    text.extend_from_slice(b"\r\n")
}

// The reply where each request was answered.
fn push_answer(text: &mut Vec<u8>, form: Form, replies: &[Reply]) -> Result<(), AllocError>
    ensures { OnOk result (text.new.items ≡ text.old.items ++ answer form replies.now) }
{
    match form {
        Form::Added | Form::Removed | Form::Found => push_integer(text, yes_count(replies)),
        Form::Each => push_bits(text, replies),
        Form::Stored => {
            if yes_count(replies) == 0 {
                text.extend_from_slice(b"$-1\r\n")
            } else {
                text.extend_from_slice(b"+OK\r\n")
            }
        }
    }
}

/// Puts an integer after a text.
pub(crate) fn push_integer(text: &mut Vec<u8>, number: usize) -> Result<(), AllocError>
    ensures { OnOk result (text.new.items ≡ text.old.items ++ integer number) }
{
    text.extend_from_slice(b":")?;
    push_number(text, number)?;
    text.extend_from_slice(b"\r\n")
}

fn push_bits(text: &mut Vec<u8>, replies: &[Reply]) -> Result<(), AllocError>
    ensures { OnOk result (text.new.items ≡ text.old.items ++ answer Form.Each replies.now) }
{
    text.extend_from_slice(b"*")?;
    push_number(text, replies.len())?;
    text.extend_from_slice(b"\r\n")?;
    for reply in replies {
        text.extend_from_slice(bit(reply).as_bytes())?;
    }
    Ok(())
}

fn bit(reply: &Reply) -> &'static str
    ensures { result.now ≡ bit reply.now }
{
    if is_yes(reply) { ":1\r\n" } else { ":0\r\n" }
}

fn yes_count(replies: &[Reply]) -> usize
    ensures { result ≡ count_by is_yes replies.now }
{
    replies.iter().filter(|reply| is_yes(reply)).count()
}

fn is_yes(reply: &Reply) -> bool
    ensures { result ≡ is_yes reply.now }
{
    matches!(reply, Reply::Yes)
}

/// The last reply to a stream that goes on in no frame.
pub fn fault_text(alloc: Global, fault: Fault) -> Result<Text, AllocError>
    ensures { IfOk result (λ text. text ≡ fault_text fault) }
{
    let mut text = Vec::from_slice(alloc, b"-ERR Protocol error: ")?;
    push_fault(&mut text, fault)?;
    text.extend_from_slice(b"\r\n")?;
    Ok(Text::new(text))
}

fn push_fault(text: &mut Vec<u8>, fault: Fault) -> Result<(), AllocError>
    ensures { OnOk result (text.new.items ≡ text.old.items ++ fault_words fault) }
{
    match fault {
        Fault::Count => text.extend_from_slice(b"invalid multibulk length"),
        Fault::Length => text.extend_from_slice(b"invalid bulk length"),
        Fault::NoBulk(byte) => push_no_bulk(text, byte),
        Fault::NoEnd => text.extend_from_slice(b"no line end after a bulk"),
        Fault::Quotes => text.extend_from_slice(b"quotes in an inline request"),
        Fault::TooLong => text.extend_from_slice(b"too big request"),
    }
}

fn push_no_bulk(text: &mut Vec<u8>, byte: u8) -> Result<(), AllocError>
    ensures { OnOk result (text.new.items ≡ text.old.items ++ fault_words (Fault.NoBulk byte)) }
{
    text.extend_from_slice(b"expected '$', got '")?;
    text.push(on_line(byte))?;
    text.extend_from_slice(b"'")
}
