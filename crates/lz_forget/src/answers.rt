//! What requests of a session were answered.
ghost use Rattle.std.specs.Prelude.{◌≡◌, ◌++◌, IfOk, IfSome, None, OnOk, count_by, drop, false, take, true};
ghost use Rattle.std.specs.List.{list_any};
ghost use Rattle.lz_forget.specs.Answers.{answer_on, done_text, error_on, filled, found_in, groups, is_begun, is_none, is_yes, joined, replies_in, stopping, text_for, texts_for};

use lz_proto::Reply;
use lz_resp::{Form, push_number, push_reply};
use std::alloc::{AllocError, Global};

/// What a request was answered: a reply, or nothing where the service stops and hadn't begun it.
pub(crate) type Answer = Option<Reply>;

/// In which form a command's answers are told, and how many these are.
pub(crate) type Told = (Form, usize);

/// The answer on a line, if it is one.
pub(crate) fn answer_on(line: &[u8]) -> Option<Answer>
    ensures { result ≡ answer_on line.now }
{
    if line.starts_with(b":1") && line.len() == 2 {
        return Some(Some(Reply::Yes));
    }
    if line.starts_with(b":0") && line.len() == 2 {
        return Some(Some(Reply::No));
    }
    error_on(line)
}

// The same of one that is neither yes nor no.
fn error_on(line: &[u8]) -> Option<Answer>
    ensures { result ≡ error_on line.now }
{
    if line.starts_with(b"-FULL ") {
        return Some(Some(Reply::Full));
    }
    if line.starts_with(b"-HALTED ") {
        return Some(Some(Reply::Halted));
    }
    if line.starts_with(b"-WORN ") {
        return Some(Some(Reply::Worn));
    }
    if line.starts_with(b"-OLDFILE ") {
        return Some(Some(Reply::OldFile));
    }
    line.starts_with(b"-ERR stopping; ").then_some(None)
}

/// The first answer that isn't no, where there is one.
pub(crate) fn found_in(answers: &[Answer]) -> Answer
    ensures { result ≡ found_in answers.now }
{
    let mut rest = answers;
    'answers: while let [answer, others @ ..] = rest {
        if *answer != Some(Reply::No) {
            return *answer;
        }
        rest = others;
    }
    Some(Reply::No)
}

/// The same of each of so many keys, by so many answers of each.
#[tactic(auto, using(crate::proofs::Steps::more_keys))]
pub(crate) fn groups(
    alloc: Global,
    keys: usize,
    each: usize,
    answers: &[Answer],
) -> Result<Vec<Answer>, AllocError>
    ensures { IfOk result (λ found. found.items ≡ groups keys each answers.now) }
{
    let mut found = Vec::with_capacity(alloc, keys)?;
    let mut rest = answers;
    let mut left = keys;
    'keys: while left > 0 {
        let (its, others) = cut(rest, each);
        found.push(found_in(its))?;
        rest = others;
        left -= 1;
    }
    Ok(found)
}

// So many first answers, as far as there are, and those after them.
#[tactic(auto, using(std::proofs::lemmas::List::take_all, std::proofs::lemmas::List::drop_all))]
fn cut(answers: &[Answer], count: usize) -> (&[Answer], &[Answer])
    ensures { (result.0.now ≡ take count answers.now) × (result.1.now ≡ drop count answers.now) }
{
    if count <= answers.len() {
        return answers.split_at(count);
    }
    (answers, &[])
}

/// What claims come to: a key that was found is not new, and one that wasn't has the next answer of the newest room.
pub(crate) fn filled(
    alloc: Global,
    found: &[Answer],
    answers: &[Answer],
) -> Result<Vec<Answer>, AllocError>
    ensures { IfOk result (λ all. all.items ≡ filled found.now answers.now) }
{
    let mut all = Vec::with_capacity(alloc, found.len())?;
    let mut left = found;
    let mut rest = answers;
    'found: while let [answer, others @ ..] = left {
        left = others;
        match (*answer, rest) {
            (Some(Reply::No), [next, after @ ..]) => {
                all.push(*next)?;
                rest = after;
            }
            (Some(Reply::No | Reply::Yes), _) => all.push(Some(Reply::No))?,
            (other, _) => all.push(other)?,
        }
    }
    Ok(all)
}

/// What removals come to after a room more: yes once, and else what that was answered.
pub(crate) fn joined(
    alloc: Global,
    found: &[Answer],
    answers: &[Answer],
) -> Result<Vec<Answer>, AllocError>
    ensures { IfOk result (λ all. all.items ≡ joined found.now answers.now) }
{
    let mut all = Vec::with_capacity(alloc, found.len())?;
    let mut left = found;
    let mut rest = answers;
    'found: while let [was, others @ ..] = left {
        let [is, after @ ..] = rest else {
            return Ok(all);
        };
        all.push(if *was == Some(Reply::No) { *is } else { *was })?;
        left = others;
        rest = after;
    }
    Ok(all)
}

/// Puts what a client is told of commands, one after the other, after a text.
pub(crate) fn push_texts(
    alloc: Global,
    text: &mut Vec<u8>,
    told: &[Told],
    answers: &[Answer],
) -> Result<(), AllocError>
    ensures { OnOk result (text.new.items ≡ text.old.items ++ texts_for told.now answers.now) }
{
    let mut left = told;
    let mut rest = answers;
    'commands: while let [(form, count), others @ ..] = left {
        let (its, after) = cut(rest, *count);
        push_text(alloc, text, *form, its)?;
        left = others;
        rest = after;
    }
    Ok(())
}

/// Puts what a client is told by these answers after a text.
#[tactic(auto, using(crate::proofs::Steps::told_text))]
pub(crate) fn push_text(
    alloc: Global,
    text: &mut Vec<u8>,
    form: Form,
    answers: &[Answer],
) -> Result<(), AllocError>
    ensures { OnOk result (text.new.items ≡ text.old.items ++ text_for form answers.now) }
{
    if let [Some(reply)] = answers {
        return push_reply(text, form, &[*reply]);
    }
    match replies_in(alloc, answers)? {
        Some(replies) => push_reply(text, form, replies.as_slice()),
        None => push_stopping(text, form, answers),
    }
}

// The replies that these answers are, if each is one.
fn replies_in(alloc: Global, answers: &[Answer]) -> Result<Option<Vec<Reply>>, AllocError>
    ensures some { IfOk result (λ found. IfSome found (λ replies. (list_any is_none answers.now ≡ false) × (replies.items ≡ replies_in answers.now))) }
    ensures none { IfOk result (λ found. found ≡ None → list_any is_none answers.now ≡ true) }
{
    let mut replies = Vec::with_capacity(alloc, answers.len())?;
    let mut rest = answers;
    'answers: while let [answer, others @ ..] = rest {
        match answer {
            Some(reply) => replies.push(*reply)?,
            None => return Ok(None),
        }
        rest = others;
    }
    Ok(Some(replies))
}

// What is told where the service stopped before each request was begun.
fn push_stopping(text: &mut Vec<u8>, form: Form, answers: &[Answer]) -> Result<(), AllocError>
    ensures { OnOk result (text.new.items ≡ text.old.items ++ stopping form answers.now) }
{
    text.extend_from_slice(b"-ERR stopping; ")?;
    if begun_count(answers) == 0 {
        return text.extend_from_slice(b"nothing was done\r\n");
    }
    push_done(text, form, answers)
}

fn begun_count(answers: &[Answer]) -> usize
    ensures { result ≡ count_by is_begun answers.now }
{
    answers.iter().filter(|answer| is_begun(answer)).count()
}

fn is_begun(answer: &Answer) -> bool
    ensures { result ≡ is_begun answer.now }
{
    answer.is_some()
}

// How many of the requests were done.
fn push_done(text: &mut Vec<u8>, form: Form, answers: &[Answer]) -> Result<(), AllocError>
    ensures { OnOk result (text.new.items ≡ text.old.items ++ done_text form answers.now) }
{
    push_number(text, yes_count(answers))?;
    text.extend_from_slice(b" of ")?;
    push_number(text, answers.len())?;
    text.extend_from_slice(b" were ")?;
    text.extend_from_slice(form.done().as_bytes())?;
    text.extend_from_slice(b"\r\n")
}

fn yes_count(answers: &[Answer]) -> usize
    ensures { result ≡ count_by is_yes answers.now }
{
    answers.iter().filter(|answer| is_yes(answer)).count()
}

fn is_yes(answer: &Answer) -> bool
    ensures { result ≡ is_yes answer.now }
{
    matches!(answer, Some(Reply::Yes))
}
