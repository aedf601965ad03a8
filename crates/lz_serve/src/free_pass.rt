//! A pass that answers nothing.
ghost use Rattle.std.specs.Prelude.{◌≡◌, ◌+◌, ◌≤◌, ◌<◌, ◌++◌, [], ◌∷◌, true, false, All, IfSome, None, Some, map, option_to_list, vec_capacity, vec_len};
ghost use Rattle.std.specs.List.{Any, list_any};
ghost use Rattle.lz_list.specs.Traces.{Begins};
ghost use Rattle.lz_board.specs.Seats.{part};
ghost use Rattle.lz_set.specs.Names.{MayCall};
ghost use Rattle.lz_serve.specs.Desks.{count_of};
ghost use Rattle.lz_serve.specs.Halts.{IsCalmAfter, SawHalt, SeesMore};

use crate::asking::{Granted, grant};
use crate::client::Question;
use crate::given::Given;
use crate::listed::{Listed, has_halted, list_page};
use crate::replies::says_halted;
use crate::server::Served;
use crate::sight::{Sight, look_at};
use lz_disk::Disk;
use lz_resp::Scan;
use lz_set::{Named, Pass, Set, StepGate};
use lz_slot::Key;
use std::alloc::Global;
use std::marker::PhantomData;
use std::sync::Wait;
use std::time::Clock;

/// A pass that answers nothing, and whether a reply of it told that the service halted. Where none did, no call of it was cut off, if
/// none was of the passes that B names.
#[derive(Drop)]
pub struct FreePass<N: Named, B: Given> {
    halted: bool,
    pass: Pass,
    of: PhantomData<N>,
    among: PhantomData<B>,
    ghost may_call: { MayCall N.board pass },
    ghost seen: { halted ≡ true → SawHalt pass },
    ghost calm: { halted ≡ false → IsCalmAfter B.parts pass },
}

impl<N: Named, B: Given> FreePass<N, B> {
    pub fn new(pass: Pass, halted: bool) -> FreePass<N, B>
        requires may_call { MayCall N.board pass }
        requires seen { halted ≡ true → SawHalt pass }
        requires calm { halted ≡ false → IsCalmAfter B.parts pass }
        ensures { (result.halted ≡ halted) × (result.pass ≡ pass) }
    {
        FreePass {
            halted,
            pass,
            of: PhantomData,
            among: PhantomData,
        }
    }

    /// Whether a reply of it told that the service halted.
    pub fn halted(&self) -> bool
        ensures { result ≡ self.now.halted }
    {
        self.halted
    }

    /// The pass.
    pub fn pass(&self) -> &Pass
        ensures { result.now ≡ self.now.pass }
    {
        &self.pass
    }

    /// Lets it and another pass, which is outside, see what either has seen.
    pub(crate) fn meet<D: Disk, G: StepGate>(&mut self, set: &Set<D, G, N>, other: &mut Pass)
        requires { MayCall N.board other.old }
        ensures other { MayCall N.board other.new }
        ensures halted { self.new.halted ≡ self.old.halted }
        ensures met { SeesMore other.old other.new }
        ensures grows { Begins (part self.old.pass).known (part other.new).known }
        ensures alike { (part self.new.pass).known ≡ (part other.new).known }
    {
        set.meet(&mut self.pass, other);
    }

    /// Answers a question to its end. It may wait for other passes.
    pub fn answer<D: Disk, G: StepGate, R: Wait + Clock>(
        &mut self,
        rt: &R,
        set: &Set<D, G, N>,
        question: Question,
    ) -> Granted<N>
        requires { question.before ≡ self.old.pass }
        ensures granted { (result.question ≡ question) × (result.after ≡ self.new.pass) }
        ensures grows { Begins (part self.old.pass).known (part self.new.pass).known }
    {
        let granted = grant(rt, set, &mut self.pass, question);
        let reply = granted.reply();
        if says_halted(reply) {
            self.halted = true;
        }
        granted
    }

    /// Lists a page. There is none where memory is missing.
    pub fn list<D: Disk, G: StepGate>(
        &mut self,
        alloc: Global,
        set: &Set<D, G, N>,
        scan: Scan,
    ) -> Option<Listed<N>>
        ensures listed { IfSome result (λ listed. (listed.scan ≡ scan) × (listed.before ≡ self.old.pass) × (listed.after ≡ self.new.pass)) }
        ensures grows { Begins (part self.old.pass).known (part self.new.pass).known }
    {
        let listed = list_page(alloc, set, &mut self.pass, scan);
        if has_halted(&listed) {
            self.halted = true;
        }
        listed
    }

    /// Looks whether a key is a member. It waits for nobody. There is no sight where that isn't settled, or the pass can't look.
    pub fn look<D: Disk, G: StepGate>(&mut self, set: &Set<D, G, N>, key: Key) -> Option<Sight>
        ensures sight { IfSome result (λ sight. (sight.key ≡ key) × (sight.before ≡ self.old.pass) × (sight.after ≡ self.new.pass)) }
        ensures grows { Begins (part self.old.pass).known (part self.new.pass).known }
        ensures halted { self.new.halted ≡ self.old.halted }
    {
        look_at(set, &mut self.pass, key)
    }

    /// The pass, and whether a reply of it told that the service halted.
    pub fn into_parts(self) -> (Pass, bool)
        ensures same { (result.0 ≡ self.pass) × (result.1 ≡ self.halted) }
        ensures may_call { MayCall N.board result.0 }
        ensures seen { result.1 ≡ true → SawHalt result.0 }
        ensures calm { result.1 ≡ false → IsCalmAfter B.parts result.0 }
    {
        let FreePass {
            halted,
            pass,
            of: _,
            among: _,
        } = self;
        (pass, halted)
    }
}

/// The end of a service by these passes, for which there is room.
pub fn hand_back<N: Named, B: Given>(free: Vec<FreePass<N, B>>, room: Vec<Pass>) -> Served
    requires empty { vec_len room ≡ 0 }
    requires room { vec_len free ≤ vec_capacity room }
    ensures may_call { All (MayCall N.board) result.passes.items }
    ensures count { vec_len result.passes ≡ vec_len free }
    ensures passes { result.passes.items ≡ map (λ f. f.pass) free.items }
    ensures told { result.halted ≡ list_any (λ f. f.halted) free.items }
    ensures unserved { result.unserved ≡ false }
    ensures halted { result.halted ≡ true → Any SawHalt result.passes.items }
    ensures calm { result.halted ≡ false → All (IsCalmAfter B.parts) result.passes.items }
{
    let mut passes = room;
    let mut halted = false;
    for pass in free {
        let (pass, found) = pass.into_parts();
        halted = halted || found;
        let Ok(()) = passes.push(pass) else {
            unreachable!()
        };
    }
    Served {
        passes,
        halted,
        unserved: false,
    }
}

/// The pass that meets the others, or else a free one, if there is one.
pub(crate) fn first_of<N: Named, B: Given>(
    meeting: Option<FreePass<N, B>>,
    free: &mut Vec<FreePass<N, B>>,
) -> Option<FreePass<N, B>>
    ensures same { IfSome meeting (λ pass. result ≡ Some pass) }
    ensures first { meeting ≡ None → free.old.items ≡ free.new.items ++ option_to_list result }
    ensures none { result ≡ None → (meeting ≡ None) × (vec_len free.old ≡ 0) }
    ensures count { vec_len free.new + count_of result ≡ vec_len free.old + count_of meeting }
    ensures spare { vec_capacity free.new ≡ vec_capacity free.old }
{
    match meeting {
        Some(pass) => Some(pass),
        None => free.pop(),
    }
}

/// These passes with one more, if there is one. There is room for it.
pub(crate) fn with_one<N: Named, B: Given>(
    free: Vec<FreePass<N, B>>,
    one: Option<FreePass<N, B>>,
) -> Vec<FreePass<N, B>>
    requires { vec_len free + count_of one ≤ vec_capacity free }
    ensures { vec_len result ≡ vec_len free + count_of one }
{
    let mut free = free;
    if let Some(pass) = one {
        put_free(&mut free, pass);
    }
    free
}

/// A pass is free. There is room for it.
pub(crate) fn put_free<N: Named, B: Given>(passes: &mut Vec<FreePass<N, B>>, free: FreePass<N, B>)
    requires { vec_len passes.old < vec_capacity passes.old }
    ensures items { passes.new.items ≡ passes.old.items ++ free ∷ [] }
    ensures count { vec_len passes.new ≡ vec_len passes.old + 1 }
    ensures spare { vec_capacity passes.old ≤ vec_capacity passes.new }
{
    let Ok(()) = passes.push(free) else {
        unreachable!()
    };
}
