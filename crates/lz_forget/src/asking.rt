//! What a session seeks and asks of the service: which keys, each in each room.
ghost use Rattle.std.specs.Prelude.{◌≡◌, ◌≢◌, ◌++◌, ◌-◌, ◌≤◌, [], All, OnOk, map};
ghost use Rattle.lz_forget.specs.Askings.{all_rooms_of, ask_of, is_ask, request_of, rooms_of};
ghost use Rattle.lz_forget.specs.Lives.{IsLive};

use crate::live::Live;
use lz_proto::Request;
use lz_resp::Form;
use lz_slot::Key;
use std::alloc::AllocError;
use std::collections::VecDeque;

/// What is asked of a key in a room.
#[derive(Clone, Copy, Debug, PartialEq, Eq)]
pub(crate) enum Ask {
    Has,
    Add,
    Remove,
}

impl Ask {
    /// What a command asks of its keys whose replies are told in this form.
    pub(crate) fn of(form: Form) -> Ask
        ensures { result ≡ ask_of form }
    {
        match form {
            Form::Added | Form::Stored => Ask::Add,
            Form::Found | Form::Each => Ask::Has,
            Form::Removed => Ask::Remove,
        }
    }

    /// Whether both ask the same.
    pub(crate) fn is(self, other: Ask) -> bool
        ensures { result ≡ is_ask self other }
    {
        matches!(
            (self, other),
            (Ask::Has, Ask::Has) | (Ask::Add, Ask::Add) | (Ask::Remove, Ask::Remove)
        )
    }

    // What asks so of a key in its room.
    fn request(self, key: Key) -> Request
        ensures same { result ≡ request_of self key }
        ensures asks { result ≢ Request.Quit }
    {
        match self {
            Ask::Has => Request::Has(key),
            Ask::Add => Request::Add(key),
            Ask::Remove => Request::Remove(key),
        }
    }
}

/// Puts each key in each room whose epoch is of an age from this one on, up to that one, after others.
pub(crate) fn push_rooms(
    all: &mut VecDeque<Key>,
    live: Live,
    from: u8,
    to: u8,
    keys: &[Key],
) -> Result<(), AllocError>
    requires live { IsLive live }
    requires ages { (from ≤ to) × (to ≤ live.count) }
    ensures { OnOk result (all.new.items ≡ all.old.items ++ all_rooms_of live from (to - from) keys.now) }
{
    for key in keys {
        push_rooms_of(all, live, from, to, *key)?;
    }
    Ok(())
}

// The same of one key.
#[tactic(auto, using(crate::proofs::Steps::more_rooms))]
fn push_rooms_of(
    all: &mut VecDeque<Key>,
    live: Live,
    from: u8,
    to: u8,
    key: Key,
) -> Result<(), AllocError>
    requires live { IsLive live }
    requires ages { (from ≤ to) × (to ≤ live.count) }
    ensures { OnOk result (all.new.items ≡ all.old.items ++ rooms_of live from (to - from) key) }
{
    let mut age = from;
    let mut left = to - from;
    'ages: while left > 0 {
        let Some(its) = Key::in_room(live.room(age), key.get()) else {
            unreachable!()
        };
        match all.push_back(its) {
            Ok(()) => {}
            Err(_) => return Err(AllocError),
        }
        age += 1;
        left -= 1;
    }
    Ok(())
}

/// Takes each key off its queue, and asks so of it after other requests.
pub(crate) fn push_requests(
    requests: &mut VecDeque<Request>,
    ask: Ask,
    keys: &mut VecDeque<Key>,
) -> Result<(), AllocError>
    ensures requests { OnOk result (requests.new.items ≡ requests.old.items ++ map (request_of ask) keys.old.items) }
    ensures keys { OnOk result (keys.new.items ≡ []) }
    ensures asks { All (λ request. request ≢ Request.Quit) requests.old.items → All (λ request. request ≢ Request.Quit) requests.new.items }
{
    'keys: while let Some(key) = keys.pop_front() {
        requests.push_back(ask.request(key))?;
    }
    Ok(())
}
