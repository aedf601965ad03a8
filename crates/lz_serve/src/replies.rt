//! What is made of a call's answer: a reply, or one more call.
ghost use Rattle.std.specs.Prelude.{◌≡◌, ◌<◌, true};
ghost use Rattle.lz_serve.specs.Replies.{asks_again, client_reply, most_tries, says_halted};

use lz_disk::Disk;
use lz_proto::Reply;
use lz_set::{Fault, Named, Set, StepGate};

/// How many calls a request has at most after its first one, while slots wait for calls that end. A pass that waits makes the first of them
/// at once, and waits for a millisecond before each further one: for a second in all, beside what the calls take.
const MOST_TRIES: usize = 1_000;

/// Whether one more call is made for a request, after one that was answered so, and so many more before it: no slot was free, and
/// slots wait for calls that end, or an earlier line of its connection isn't answered, which may free one. One pass alone has no others' calls to wait for.
pub(crate) fn asks_again<D: Disk, G: StepGate, N: Named>(
    set: &Set<D, G, N>,
    tries: usize,
    earlier: bool,
    answer: Result<bool, Fault>,
) -> bool
    ensures again { result ≡ asks_again N.board tries earlier answer }
    ensures few { result ≡ true → tries < most_tries }
{
    match answer {
        Err(Fault::Full(counts)) => {
            tries < MOST_TRIES && (counts.limbo != 0 || earlier) && set.passes() != 1
        }
        _ => false,
    }
}

/// The reply that tells what a call answered.
pub(crate) fn client_reply(answer: Result<bool, Fault>) -> Reply
    ensures { result ≡ client_reply answer }
{
    match answer {
        Ok(true) => Reply::Yes,
        Ok(false) => Reply::No,
        Err(Fault::Full(_)) => Reply::Full,
        Err(Fault::Worn) => Reply::Worn,
        Err(Fault::OldFile) => Reply::OldFile,
        Err(Fault::Halted | Fault::Device) => Reply::Halted,
    }
}

/// Whether the reply tells a client that the service halted.
pub(crate) fn says_halted(reply: Reply) -> bool
    ensures { result ≡ says_halted reply }
{
    matches!(reply, Reply::Halted)
}
