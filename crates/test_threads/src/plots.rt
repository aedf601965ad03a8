//! Calls that change a key, and what there is to be seen of them after each of their events.
use lz_machine::Kind;
use lz_set::{Glance, GlanceFault};
use lz_slot::{Command, Key, Slot};
use std::process::Abort;

/// The call that is held, a key that is added meanwhile, and one that never is.
#[derive(Clone, Copy)]
pub struct Asked {
    pub command: Command,
    pub added: Key,
    pub absent: Key,
}

/// How far a call has come that changes a key: nothing is to be seen of it, or the change is, but isn't durable, or it is durable.
#[derive(Clone, Copy, Debug, PartialEq)]
pub enum Phase {
    Before,
    Unsettled,
    Settled,
}

/// A call that changes a key whose node is in this slot, so many events and how far each of them brings it, and the keys that the
/// last file holds.
#[derive(Clone, Copy)]
pub struct Plot {
    pub asked: Asked,
    slot: u32,
    pub events: [(Kind, Phase); 21],
    pub length: usize,
    keys: [u64; 5],
    count: usize,
}

impl Plot {
    /// Whether the key is a member for one who sees the change, or who doesn't.
    pub fn is_member(&self, sees_change: bool) -> bool {
        matches!(self.asked.command, Command::Add(_)) == sees_change
    }

    /// What a glance answers that sees the call at this phase.
    pub fn sight(&self, phase: Phase) -> Glance {
        if phase == Phase::Unsettled {
            return Glance::Unsettled(Slot::new(self.slot));
        }
        if self.is_member(phase == Phase::Settled) {
            Glance::Yes
        } else {
            Glance::No
        }
    }

    /// Whether a glance may see this that sees the call as it is at this phase, or as it was before.
    pub fn may_be_seen(&self, phase: Phase, sight: Result<Glance, GlanceFault>) -> bool {
        let phases: &[Phase] = match phase {
            Phase::Before => &[Phase::Before],
            Phase::Unsettled => &[Phase::Before, Phase::Unsettled],
            Phase::Settled => &[Phase::Before, Phase::Unsettled, Phase::Settled],
        };
        phases.iter().any(|phase| sight == Ok(self.sight(*phase)))
    }

    /// Whether these are the keys that have to be left.
    pub fn leaves(&self, keys: &[u64]) -> bool {
        Some(keys) == self.keys.get(..self.count)
    }

    /// What a glance answers that sees the call at this phase, once a look has made certain of it.
    pub fn settled_sight(&self, phase: Phase) -> Glance {
        self.sight(match phase {
            Phase::Before => Phase::Before,
            Phase::Unsettled | Phase::Settled => Phase::Settled,
        })
    }
}

// The call that is held, with 40 as the key that is added meanwhile and 16 as the one that never is.
fn asked_beside(rt: &impl Abort, command: Option<Command>) -> Asked {
    match (command, Key::new(40), Key::new(16)) {
        (Some(command), Some(added), Some(absent)) => Asked {
            command,
            added,
            absent,
        },
        _ => panic!(rt; "no keys"),
    }
}

/// 15 is added to 10, 20 and 30, and takes the slot after theirs.
pub fn addition(rt: &impl Abort) -> Plot {
    Plot {
        asked: asked_beside(rt, Key::new(15).map(Command::Add)),
        slot: 3,
        events: [
            (Kind::Pin, Phase::Before),
            (Kind::Hop, Phase::Before),
            (Kind::Hop, Phase::Before),
            (Kind::Hop, Phase::Before),
            (Kind::Hop, Phase::Before),
            (Kind::Hop, Phase::Before),
            (Kind::Reserve, Phase::Before),
            (Kind::WriteKey, Phase::Before),
            (Kind::Sync, Phase::Before),
            (Kind::Hop, Phase::Before),
            (Kind::Hop, Phase::Before),
            (Kind::Hop, Phase::Before),
            (Kind::Hop, Phase::Before),
            (Kind::Claim, Phase::Before),
            (Kind::Check, Phase::Before),
            (Kind::WriteOpen, Phase::Before),
            (Kind::Link, Phase::Unsettled),
            (Kind::Release, Phase::Unsettled),
            (Kind::Sync, Phase::Unsettled),
            (Kind::Settle, Phase::Settled),
            (Kind::Answer, Phase::Settled),
        ],
        length: 21,
        keys: [10, 15, 20, 30, 40],
        count: 5,
    }
}

/// 20 is removed, which was the second of three keys. Rows after the last event stand for none.
pub fn removal(rt: &impl Abort) -> Plot {
    Plot {
        asked: asked_beside(rt, Key::new(20).map(Command::Remove)),
        slot: 1,
        events: [
            (Kind::Pin, Phase::Before),
            (Kind::Hop, Phase::Before),
            (Kind::Hop, Phase::Before),
            (Kind::Hop, Phase::Before),
            (Kind::Hop, Phase::Before),
            (Kind::Hop, Phase::Before),
            (Kind::Hop, Phase::Before),
            (Kind::Claim, Phase::Before),
            (Kind::Check, Phase::Before),
            (Kind::WriteClose, Phase::Before),
            (Kind::Mark, Phase::Unsettled),
            (Kind::Sync, Phase::Unsettled),
            (Kind::Settle, Phase::Settled),
            (Kind::Unlink, Phase::Settled),
            (Kind::Release, Phase::Settled),
            (Kind::Retire, Phase::Settled),
            (Kind::Answer, Phase::Settled),
            (Kind::Answer, Phase::Settled),
            (Kind::Answer, Phase::Settled),
            (Kind::Answer, Phase::Settled),
            (Kind::Answer, Phase::Settled),
        ],
        length: 17,
        keys: [10, 30, 40, 0, 0],
        count: 3,
    }
}
