//! What the client of a place wants.
ghost use Rattle.std.specs.Prelude.{◌≡◌};
ghost use Rattle.lz_serve.specs.Clients.{KeepsLines};

use crate::client::Client;
use crate::place::MOST_READS;
use crate::stream::Stream;

/// What the client of a place wants.
#[derive(Clone, Copy, PartialEq, Eq)]
pub(crate) enum Wish {
    /// Nothing, until it can be read or written again.
    Nothing,
    /// Its turn: it has a request, or there may be more to read.
    Turn,
    /// A page.
    Page,
    /// To be tended to in each turn, which its place has noted: a room is being cleared for it, or its stream stalls.
    Again,
    /// Nothing more: its connection is to be closed.
    Close,
}

/// What a client wants that has nothing to send, where there may be something to read.
pub(super) fn wish_of<S: Stream>(client: &mut Client<S>, lists: &mut bool, readable: bool) -> Wish
    ensures { client.new ≡ client.old }
{
    if client.scan().is_some() {
        return note_page(lists);
    }
    if client.clears() {
        return Wish::Again;
    }
    if readable && !client.waits() || client.may_ask() {
        return Wish::Turn;
    }
    client.rest();
    rest_of(client)
}

/// What a client wants that has nothing to do by itself.
pub(super) fn rest_of<S: Stream>(client: &Client<S>) -> Wish {
    if client.stalls() {
        Wish::Again
    } else {
        Wish::Nothing
    }
}

// Notes that a client waits for a page, which is its wish unless that was noted.
fn note_page(lists: &mut bool) -> Wish {
    let was_noted = *lists;
    *lists = true;
    if was_noted { Wish::Nothing } else { Wish::Page }
}

/// Throws away what a client sends after its session's end: a connection that is closed over unread bytes is reset, and the client
/// may lose its last replies. One that sends much is seen to again in its turn.
pub(super) fn see_off<S: Stream>(client: &mut Client<S>, buffer: &mut [u8]) -> Wish
    ensures { KeepsLines client.old client.new }
{
    for _ in 0..MOST_READS {
        match client.pass_over(buffer) {
            Some(true) => {}
            Some(false) => return Wish::Nothing,
            None => return Wish::Close,
        }
    }
    Wish::Turn
}
