//! The keys that connections seek, as a loop sees them.
ghost use Rattle.std.specs.Prelude.{◌≡◌};
ghost use Rattle.lz_board.specs.Seats.{part};
ghost use Rattle.lz_serve.specs.Clients.{HaveSeenIn, KeepsAwaited};
ghost use Rattle.lz_serve.specs.Desks.{BeginsWithin};

use crate::crowd::Crowd;
use crate::desk::Desk;
use crate::free_pass::FreePass;
use crate::given::Given;
use crate::observer::{Observer, Verb};
use crate::stream::Stream;
use lz_disk::Disk;
use lz_set::{Named, Set, StepGate};
use lz_slot::Key;

/// How many keys of one connection are looked for in a turn.
const MOST_LOOKS: usize = 256;

impl<S: Stream, N: Named, B: Given> Desk<S, N, B> {
    /// Looks for the keys that connections seek, and does what needs no pass for these: by the pass that meets the others. Where there is none, they ask.
    pub(super) fn look_up<D: Disk, G: StepGate, O: Observer>(
        &mut self,
        set: &Set<D, G, N>,
        observer: &O,
        buffer: &mut [u8],
    )
        ensures given { self.new.given ≡ self.old.given }
        ensures within { BeginsWithin self.old self.new }
    {
        if !self.crowd.seeks() {
            return;
        }
        for after in 0..self.crowd.backs() {
            self.look_for(set, after, observer);
        }
        self.crowd.tend_back(observer, buffer);
    }

    // Looks for the keys that the connection seeks which is tended to after so many others.
    fn look_for<D: Disk, G: StepGate, O: Observer>(
        &mut self,
        set: &Set<D, G, N>,
        after: usize,
        observer: &O,
    )
        ensures given { self.new.given ≡ self.old.given }
        ensures within { BeginsWithin self.old self.new }
    {
        for _ in 0..MOST_LOOKS {
            let Some(key) = self.crowd.sought(after) else {
                return;
            };
            self.look(set, after, key, observer);
        }
    }

    // Looks for one of them.
    fn look<D: Disk, G: StepGate, O: Observer>(
        &mut self,
        set: &Set<D, G, N>,
        after: usize,
        key: Key,
        observer: &O,
    )
        ensures given { self.new.given ≡ self.old.given }
        ensures within { BeginsWithin self.old self.new }
    {
        match &mut self.meeting {
            Some(meeting) => look_one(set, &mut self.crowd, meeting, after, key, observer),
            None => self.crowd.see(after, None, observer),
        }
    }
}

// Looks for a key by this pass, which has seen what the clients have, and hands on what it saw.
fn look_one<S, D, G, N, B, O>(
    set: &Set<D, G, N>,
    crowd: &mut Crowd<S>,
    meeting: &mut FreePass<N, B>,
    after: usize,
    key: Key,
    observer: &O,
)
where
    S: Stream,
    D: Disk,
    G: StepGate,
    N: Named,
    B: Given,
    O: Observer,
    requires { HaveSeenIn crowd.old (part meeting.old.pass).known }
    ensures kept { KeepsAwaited crowd.old crowd.new }
    ensures seen { HaveSeenIn crowd.new (part meeting.new.pass).known }
    ensures begun { crowd.new.begun ≡ crowd.old.begun }
{
    let sight = meeting.look(set, key);
    if let Some(sight) = &sight {
        observer.answered(Verb::Has, sight.reply(), None);
    }
    crowd.see(after, sight, observer);
}
