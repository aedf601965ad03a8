//! A line that is under way.
ghost use Rattle.std.specs.Prelude.{◌≡◌, ◌≢◌, ◌≤◌, ◌↔◌, IfSome, IsSomeAnd, IsTrue, None, false, length, slice_get, take, true};
ghost use Rattle.lz_serve.specs.Grants.{key_asked};
ghost use Rattle.lz_serve.specs.Lines.{AreReady, AreReplied, IsFree, awaited};

use lz_proto::{Reply, Request};
use lz_slot::Key;
use std::collections::VecDeque;

/// A line that was handed out, and its reply, once that was granted.
#[derive(Clone, Copy, Debug)]
pub struct Line {
    pub request: Request,
    pub reply: Option<Reply>,
}

impl Line {
    /// One that awaits its reply.
    pub(crate) fn new(request: &Request) -> Line
        ensures { result ≡ awaited request.now }
    {
        Line {
            request: *request,
            reply: None,
        }
    }

    /// Whether it asked for this key and awaits its reply.
    pub(crate) fn awaits(&self, key: Option<Key>) -> bool
        ensures { IsTrue result ↔ ((self.now.reply ≡ None) × (key_asked self.now.request ≡ key)) }
    {
        self.reply.is_none() && key_asked(&self.request) == key
    }
}

/// Whether one of these lines asked for this key and awaits its reply. So many first ones have theirs, and aren't looked at: a frame may have
/// a thousand.
pub(crate) fn is_awaited(under: &VecDeque<Line>, ready: usize, key: Option<Key>) -> bool
    requires { AreReplied (take ready under.now.items) }
    ensures free { result ≡ false → IsFree under.now.items key }
    ensures some { result ≡ true → IsFree under.now.items key → ⊥ }
{
    for at in ready..under.len() {
        if awaits_at(under, at, &key) {
            return true;
        }
    }
    false
}

// Whether the line at this place does.
fn awaits_at(under: &VecDeque<Line>, at: usize, key: &Option<Key>) -> bool
    ensures { IsTrue result ↔ IsSomeAnd (slice_get under.now.items at) (λ line. (line.reply ≡ None) × (key_asked line.request ≡ key.now)) }
{
    match under.get(at) {
        Some(line) => line.awaits(*key),
        None => false,
    }
}

/// How many first lines have their replies, of which so many do.
pub(crate) fn count_ready(under: &VecDeque<Line>, ready: usize) -> usize
    requires within { ready ≤ length under.now.items }
    requires replied { AreReplied (take ready under.now.items) }
    ensures { AreReady result under.now.items }
{
    for at in ready..under.len() {
        if !is_replied(under, at) {
            return at;
        }
    }
    under.len()
}

// Whether the line at this place, if there is one, has its reply.
fn is_replied(under: &VecDeque<Line>, at: usize) -> bool
    ensures some { result ≡ true → IsSomeAnd (slice_get under.now.items at) (λ line. line.reply ≢ None) }
    ensures none { result ≡ false → IfSome (slice_get under.now.items at) (λ line. line.reply ≡ None) }
{
    match under.get(at) {
        Some(line) => line.reply.is_some(),
        None => false,
    }
}

/// The key for which a request asks.
pub(crate) fn key_asked(request: &Request) -> Option<Key>
    ensures { result ≡ key_asked request.now }
{
    match request {
        Request::Add(key) | Request::Remove(key) | Request::Has(key) => Some(*key),
        Request::Quit => None,
    }
}
