//! What passes see of keys without a call.
ghost use Rattle.std.specs.Prelude.{◌≡◌, IfSome};
ghost use Rattle.lz_list.specs.Traces.{Begins};
ghost use Rattle.lz_board.specs.Seats.{part};
ghost use Rattle.lz_board.specs.Walkers.{KeepsCall};
ghost use Rattle.lz_set.specs.Names.{MayCall};

use lz_disk::Disk;
use lz_proto::Reply;
use lz_set::{Glance, Named, Pass, Set, StepGate};
use lz_slot::Key;
use std::marker::Model;
use std::snapshot::Snapshot;

/// Whether a pass saw a key as a member, at a moment while it looked. It is made where the pass looks, and nowhere else, and can't be copied.
#[derive(Drop)]
pub struct Sight {
    key: Key,
    is_member: bool,
    before: Snapshot<Pass>,
    after: Snapshot<Pass>,
}

impl Model for Sight {
    ghost use Rattle.lz_serve.specs.Sights.{IsSight, Sighting};

    ghost Value = { Sighting };

    ghost view = { λ s. record { key = s.key; member = s.is_member; before = s.before.value; after = s.after.value } };

    ghost invariant = { λ s. IsSight (record { key = s.key; member = s.is_member; before = s.before.value; after = s.after.value }) };
}

impl Sight {
    /// The key.
    pub fn key(&self) -> Key
        ensures { result ≡ self.now.key }
    {
        self.key
    }

    /// The reply of a call that sees the same.
    pub(crate) fn reply(&self) -> Reply {
        if self.is_member {
            Reply::Yes
        } else {
            Reply::No
        }
    }

    /// Whether it was a member.
    pub fn is_member(&self) -> bool
        ensures { result ≡ self.now.member }
    {
        self.is_member
    }
}

/// Looks for a key by this pass, which has no call open. There is no sight of a key whose change isn't durable yet, nor where the pass can't look.
pub(crate) fn look_at<D: Disk, G: StepGate, N: Named>(
    set: &Set<D, G, N>,
    pass: &mut Pass,
    key: Key,
) -> Option<Sight>
    requires { MayCall N.board pass.old }
    ensures may_call { MayCall N.board pass.new }
    ensures sight { IfSome result (λ sight. (sight.key ≡ key) × (sight.before ≡ pass.old) × (sight.after ≡ pass.new)) }
    ensures call { KeepsCall (part pass.old) (part pass.new) }
    ensures grows { Begins (part pass.old).known (part pass.new).known }
{
    let before = Snapshot::of(&*pass);
    let is_member = match set.glance(pass, key) {
        Ok(Glance::Yes) => true,
        Ok(Glance::No) => false,
        Ok(Glance::Unsettled(_)) | Err(_) => return None,
    };
    let after = Snapshot::of(&*pass);
    Some(Sight {
        key,
        is_member,
        before,
        after,
    })
}
